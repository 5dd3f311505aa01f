//! Where the image of a name stands, kept in an ordered map.
ghost use Rattle.std.specs.Prelude.{◌≡◌, OnOk};
ghost use Rattle.run_script.specs.Names.{place_in, TellsOneMore};

use pcp_base::{NoMemory, Text};
use std::alloc::Global;
use std::collections::BTreeMap;

/// Where the image of a name stands, if there is one.
pub fn place_of(names: &BTreeMap<Vec<u8>, u32>, name: &Text) -> Option<u32>
    ensures { result ≡ place_in names.now name.now }
{
    match names.get(name.as_slice()) {
        None => None,
        Some(at) => Some(*at),
    }
}

/// Keeps where the image of one more name stands; of two images of one name the first stays.
pub fn keep(
    alloc: Global,
    names: &mut BTreeMap<Vec<u8>, u32>,
    name: &Text,
    at: u32,
) -> Result<(), NoMemory>
    ensures { OnOk result (TellsOneMore names.old names.new name.now at) }
{
    if place_of(names, name).is_some() {
        return Ok(());
    }
    let key = Vec::from_slice(alloc, name.as_slice())?;
    names.insert(key, at)?;
    Ok(())
}
