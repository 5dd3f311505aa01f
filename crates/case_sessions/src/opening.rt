//! The regions of a script, a seat at them, and a pass that may change one of them.
ghost use Rattle.std.specs.Prelude.{◌≡◌, ◌≤◌, ℕ, length, slice_get, IfOk, IfSome, Some};
ghost use Rattle.fetch_engine.specs.Servers.{IsRegionAt, IsSeated, Seated};
ghost use Rattle.run_script.specs.Rules.{KeepsRules};
ghost use Rattle.case_sessions.specs.Openings.{ArePasses, CanChange, IsOpening};

use fetch_engine::{Seat, Server};
use mmv_layout::Image;
use pcp_base::{List, NoMemory, Text};
use pmcd_session::SessionSeat;
use region_words::Pass;
use run_passes::{Opened, open_script};
use run_script::{ReadScriptError, Script};
use std::alloc::Global;

/// A pass of the region at a place, in ascending cluster, and an image that it may lay.
#[derive(Drop)]
pub struct Changer {
    pub at: u32,
    pub pass: Pass,
    pub image: Image,
}

/// The regions of a script, with one seat, and the one that is to change a region.
#[derive(Drop)]
pub struct Opening {
    pub server: Server,
    pub seat: SessionSeat,
    pub changer: Option<Changer>,
}

fn read_whole(alloc: Global, text: &[u8]) -> Result<Script, ReadScriptError>
    requires { length text.now ≤ 16777216 }
    ensures { IfOk result KeepsRules }
{
    let script = Script::read(alloc, text)?;
    Ok(script)
}

fn last_seat(server: &Server, seats: Vec<Seat>) -> Option<Seat>
    requires { (s : ℕ) (seat : Seated) → slice_get seats.items s ≡ Some seat → IsSeated server.now seat.tokens }
    ensures { IfSome result (λ seat. IsSeated server.now seat.tokens) }
{
    let mut seats = seats;
    seats.pop()
}

// The last pass of the region at a place.
fn last_pass(server: &Server, passes: Vec<Vec<Pass>>, at: u32) -> Option<Pass>
    requires { ArePasses server.now passes.items }
    ensures { IfSome result (λ pass. IsRegionAt server.now at pass.region) }
{
    let mut passes = passes;
    passes.get_mut(at as usize)?.pop()
}

// The last pass of the region at a place, and the last image. None where there is none.
fn changer_at(
    server: &Server,
    passes: Vec<Vec<Pass>>,
    images: List<(Text, Image)>,
    at: u32,
) -> Option<Changer>
    requires { ArePasses server.now passes.items }
    ensures { IfSome result (CanChange server.now) }
{
    let pass = last_pass(server, passes, at)?;
    let mut images = images;
    let (_, image) = images.pop()?;
    Some(Changer { at, pass, image })
}

// Opens the regions of a script, with one seat, and with the pass that is to change the region at a place.
fn open_regions(
    alloc: Global,
    script: Script,
    changed: Option<u32>,
) -> Result<Option<Opening>, NoMemory>
    requires { KeepsRules script }
    ensures { IfOk result (λ o. IfSome o IsOpening) }
{
    let Opened {
        server,
        passes,
        seats,
    } = open_script(alloc, &script, 1)?;
    let Some(seat) = last_seat(&server, seats) else {
        return Ok(None);
    };
    let Ok(seat) = SessionSeat::new(alloc, seat) else {
        return Err(NoMemory);
    };
    let changer = match changed {
        Some(at) => changer_at(&server, passes, script.images, at),
        None => None,
    };
    Ok(Some(Opening {
        server,
        seat,
        changer,
    }))
}

/// Opens the regions of a script, with one seat, and with a pass that may change the region at a place to the script's last image,
/// where there is such a region. None where the text is no script.
pub fn open(alloc: Global, text: &[u8], changed: Option<u32>) -> Result<Option<Opening>, NoMemory>
    ensures { IfOk result (λ o. IfSome o IsOpening) }
{
    if text.len() > 16_777_216 {
        return Ok(None);
    }
    match read_whole(alloc, text) {
        Ok(script) => open_regions(alloc, script, changed),
        Err(ReadScriptError::NoMemory) => Err(NoMemory),
        Err(ReadScriptError::Fault(_)) => Ok(None),
    }
}
