//! Names of files in lines.
ghost use Rattle.std.specs.Prelude.{IfSome};
ghost use Rattle.pcp_outside.specs.Devices.{IsNumbered};

use pcp_base::{FileId, NoMemory};
use std::alloc::Global;

/// The file `meta`, `index` or `volume K`, K below 1,000.
pub fn file_of(name: &str) -> Option<FileId>
    ensures { IfSome result IsNumbered }
{
    match name {
        "meta" => return Some(FileId::Meta),
        "index" => return Some(FileId::Index),
        _ => {}
    }
    match name.strip_prefix("volume ")?.parse::<u32>() {
        Ok(number) if number < 1000 => Some(FileId::Volume(number)),
        _ => None,
    }
}

/// The name of a file.
pub fn name_of(alloc: Global, file: FileId) -> Result<String, NoMemory> {
    match file {
        FileId::Meta => Ok(String::from_str(alloc, "meta")?),
        FileId::Index => Ok(String::from_str(alloc, "index")?),
        FileId::Volume(number) => Ok(format!(in alloc; "volume {number}")?),
    }
}

/// A file's name, as one or two words, and what stands behind the space after it.
pub fn split_file(rest: &str) -> (&str, &str) {
    let behind = match rest.strip_prefix("volume ") {
        Some(more) => more,
        None => rest,
    };
    match behind.split_once(' ') {
        Some((_, more)) => (name_before(rest, more), more),
        None => (rest, ""),
    }
}

// What stands before a space and the end of a text.
fn name_before<'a>(text: &'a str, end: &str) -> &'a str {
    let length = text.len().saturating_sub(end.len()).saturating_sub(1);
    text.get(..length).unwrap_or(text)
}
