//! Sessions, and what came of them.
ghost use Rattle.std.specs.Prelude.{IfSome};
ghost use Rattle.fetch_engine.specs.Servers.{IsSeated};
ghost use Rattle.case_sessions.specs.Openings.{CanChange};

use crate::given::Given;
use crate::opening::{Changer, Opening, open};
use case_book::Words;
use case_outside::PieceSource;
use fetch_engine::Server;
use pcp_base::{List, NoMemory};
use pcp_memory::{ListClock, MemSink, MemSource};
use pcp_outside::{Clock, SessionEnd};
use pmcd_session::{SessionSeat, session};
use std::alloc::Global;

fn write_end(out: &mut String, end: SessionEnd) -> Result<(), NoMemory> {
    match end {
        SessionEnd::Closed => out.push_str("Closed")?,
        SessionEnd::Torn { bytes } => write!(out, "Torn {bytes}")?,
        SessionEnd::BadLength { found } => write!(out, "BadLength {found}")?,
        SessionEnd::ReadFault => out.push_str("ReadFault")?,
        SessionEnd::WriteFault => out.push_str("WriteFault")?,
        SessionEnd::ClockFault => out.push_str("ClockFault")?,
        SessionEnd::ClockEnd => out.push_str("ClockEnd")?,
        SessionEnd::Spent => out.push_str("Spent")?,
        SessionEnd::NoMemory => return Err(NoMemory),
    }
    Ok(())
}

// How many moments a clock has left, of so many.
fn moments_left(clock: &mut ListClock, most: usize) -> u32 {
    let mut count = 0u32;
    for _ in 0..most {
        if let Ok(Some(_)) = clock.now() {
            count = count.saturating_add(1);
        }
    }
    count
}

// Serves one session: how it ends, how many moments are left, and the bytes written.
fn serve(
    alloc: Global,
    server: &Server,
    seat: &mut SessionSeat,
    given: &Given,
    input: &[u8],
    most: usize,
) -> Result<Vec<u8>, NoMemory>
    requires seated { IsSeated server.now seat.old.tokens }
    ensures seated { IsSeated server.now seat.new.tokens }
{
    let fails = List::from_vec(given.source_fails.to_vec(alloc)?);
    let inner = MemSource::new(List::from_vec(input.to_vec(alloc)?), fails);
    let mut source = PieceSource { inner, most };
    let mut sink = MemSink::new(alloc, List::from_vec(given.sink_fails.to_vec(alloc)?));
    let moments = List::from_vec(given.moments.to_vec(alloc)?);
    let mut clock = ListClock::new(moments, List::from_vec(given.clock_fails.to_vec(alloc)?));
    let end = session(alloc, server, seat, &mut source, &mut sink, &mut clock);
    let mut told = String::new(alloc);
    write_end(&mut told, end)?;
    let left = moments_left(&mut clock, given.moments.len());
    write!(&mut told, " {left}\n")?;
    let mut told = told.into_bytes();
    told.extend_from_slice(sink.bytes())?;
    Ok(told)
}

// Serves a session while a region is in change. None where no change begins.
fn serve_beside(
    alloc: Global,
    server: &Server,
    seat: &mut SessionSeat,
    changer: Changer,
    given: &Given,
    input: &[u8],
    most: usize,
) -> Result<Option<Vec<u8>>, NoMemory>
    requires seated { IsSeated server.now seat.old.tokens }
    requires changer { CanChange server.now changer }
    ensures seated { IsSeated server.now seat.new.tokens }
{
    let Some(region) = server.region(changer.at) else {
        return Ok(None);
    };
    match region.begin_change(changer.pass, changer.image, 0) {
        Ok(change) => {
            let told = serve(alloc, server, seat, given, input, most);
            let _pass = change.finish(region);
            Ok(Some(told?))
        }
        Err(_) => Ok(None),
    }
}

// Changes a region whole. False where no change begins.
fn change_whole(server: &Server, changer: Changer) -> bool
    requires changer { CanChange server.now changer }
{
    let Some(region) = server.region(changer.at) else {
        return false;
    };
    match region.begin_change(changer.pass, changer.image, 0) {
        Ok(change) => {
            let _pass = change.finish(region);
            true
        }
        Err(_) => false,
    }
}

// Two sessions on one seat over the same input, before a change and behind it. None where no change begins.
fn served_across(
    alloc: Global,
    given: &Given,
    input: &[u8],
    most: usize,
) -> Result<Option<Vec<u8>>, NoMemory> {
    let Some(opening) = open(alloc, &given.script, given.changed)? else {
        return Ok(None);
    };
    let Opening {
        server,
        mut seat,
        changer: Some(changer),
    } = opening
    else {
        return Ok(None);
    };
    let mut told = serve(alloc, &server, &mut seat, given, input, most)?;
    if !change_whole(&server, changer) {
        return Ok(None);
    }
    told.extend_from_slice(&serve(alloc, &server, &mut seat, given, input, most)?)?;
    Ok(Some(told))
}

// Serves a first session, beside a change where one is asked for. None where no change begins.
fn serve_first(
    alloc: Global,
    server: &Server,
    seat: &mut SessionSeat,
    changer: Option<Changer>,
    given: &Given,
    input: &[u8],
    most: usize,
) -> Result<Option<Vec<u8>>, NoMemory>
    requires seated { IsSeated server.now seat.old.tokens }
    requires changer { IfSome changer (CanChange server.now) }
    ensures seated { IsSeated server.now seat.new.tokens }
{
    match changer {
        Some(changer) => serve_beside(alloc, server, seat, changer, given, input, most),
        None if given.changed.is_some() => Ok(None),
        None => Ok(Some(serve(alloc, server, seat, given, input, most)?)),
    }
}

// A session over regions that are opened for it, or two on one seat over the same input, the second behind the change.
// None where the script is none, or no change begins that is asked for.
fn served(
    alloc: Global,
    given: &Given,
    input: &[u8],
    most: usize,
    is_again: bool,
) -> Result<Option<Vec<u8>>, NoMemory> {
    let Some(opening) = open(alloc, &given.script, given.changed)? else {
        return Ok(None);
    };
    let Opening {
        server,
        mut seat,
        changer,
    } = opening;
    let first = serve_first(alloc, &server, &mut seat, changer, given, input, most)?;
    let Some(mut told) = first else {
        return Ok(None);
    };
    if is_again {
        told.extend_from_slice(&serve(alloc, &server, &mut seat, given, input, most)?)?;
    }
    Ok(Some(told))
}

// `session each`: the same is told however many bytes come at once; else at which number it differs.
fn served_each(alloc: Global, given: &Given, input: &[u8]) -> Result<Option<Vec<u8>>, NoMemory> {
    let Some(first) = served(alloc, given, input, 1, false)? else {
        return Ok(None);
    };
    for most in 2..input.len().saturating_add(1) {
        let told = served(alloc, given, input, most, false)?;
        if told.as_deref() != Some(first.as_slice()) {
            return Ok(Some(format!(in alloc; "differs in pieces of {most}\n")?.into_bytes()));
        }
    }
    Ok(Some(first))
}

// `session torn`: how a session ends over each front of the input, and how many bytes it writes.
fn served_torn(alloc: Global, given: &Given, input: &[u8]) -> Result<Option<Vec<u8>>, NoMemory> {
    let mut out = Vec::new(alloc);
    for count in 0..input.len() {
        let Some(told) = served(alloc, given, input.get(..count).unwrap_or(input), 5, false)? else {
            return Ok(None);
        };
        let length = told.iter().position(|byte| *byte == 10).unwrap_or(0);
        out.extend_from_slice(told.get(..length).unwrap_or(&[]))?;
        let written = told.len().saturating_sub(length.saturating_add(1));
        out.extend_from_slice(format!(in alloc; " {written}\n")?.as_bytes())?;
    }
    Ok(Some(out))
}

/// `session N`: a session whose input comes in pieces of at most so many bytes; `session N again`: two on one seat, the first beside
/// the change where one is given; `session N across`: two on one seat, the change between them. Its end and the moments left come
/// in a line, and behind it the bytes written. `session each`: the same in pieces of every length.
/// `session torn`: the end, the moments left and the number of bytes written, over each front of the input.
pub fn tell_session(
    alloc: Global,
    given: &Given,
    input: &[u8],
    rest: &str,
) -> Result<Option<Vec<u8>>, NoMemory> {
    let mut words = Words::of(rest);
    match rest {
        "each" => return served_each(alloc, given, input),
        "torn" => return served_torn(alloc, given, input),
        _ => {}
    }
    let Some(most) = words.size() else {
        return Ok(None);
    };
    match words.next() {
        "" => served(alloc, given, input, most, false),
        "again" => served(alloc, given, input, most, true),
        "across" => served_across(alloc, given, input, most),
        _ => Ok(None),
    }
}
