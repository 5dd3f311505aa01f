//! The PDUs that stand whole at the front of bytes, one behind another.
ghost use Rattle.std.specs.Prelude.{◌≡◌, ◌≤◌, ◌++◌, length, drop, IfOk};
ghost use Rattle.pdu_stream.specs.Front.{IsSplit};
ghost use Rattle.pdu_stream.specs.Reading.{IsTaken};

use crate::front::{Front, front_of};
use pcp_base::{Bytes, List, NoMemory};
use std::alloc::Global;

/// The whole PDUs of bytes, where the bytes behind them begin, and the length word there if no PDU has it.
#[derive(Drop)]
pub struct Parts {
    pub pdus: List<Bytes>,
    pub at: usize,
    pub bad: Option<u32>,
}

fn copy_of(alloc: Global, bytes: &[u8]) -> Result<Bytes, NoMemory>
    ensures { IfOk result (λ made. made ≡ bytes.now) }
{
    Ok(Bytes::from_vec(Vec::from_slice(alloc, bytes)?))
}

/// The whole PDUs that bytes begin with, up to the first offset where none stands whole.
pub fn split(alloc: Global, bytes: &[u8]) -> Result<Parts, NoMemory>
    ensures { IfOk result (IsSplit bytes.now) }
{
    let mut pdus = List::empty(alloc);
    let mut at = 0;
    while at < bytes.len() {
        let rest = &bytes[at..];
        let size = match front_of(rest) {
            Front::Whole(size) => size,
            Front::Begun => {
                return Ok(Parts {
                    pdus,
                    at,
                    bad: None,
                });
            }
            Front::Bad(found) => {
                return Ok(Parts {
                    pdus,
                    at,
                    bad: Some(found),
                });
            }
        };
        pdus.push(copy_of(alloc, &rest[..size])?)?;
        at += size;
    }
    Ok(Parts {
        pdus,
        at,
        bad: None,
    })
}

/// Takes bytes away from the front; the others are moved once.
fn compact(buffer: &mut Vec<u8>, at: usize)
    requires { at ≤ length buffer.old.items }
    ensures { buffer.new.items ≡ drop at buffer.old.items }
{
    if at == 0 {
        return;
    }
    let left = buffer.len() - at;
    buffer.copy_within(at.., 0);
    buffer.truncate(left);
}

/// Puts a piece behind what a buffer holds, and takes the whole PDUs away from its front.
pub fn take_whole(alloc: Global, buffer: &mut Vec<u8>, piece: &[u8]) -> Result<Parts, NoMemory>
    ensures { IfOk result (IsTaken (buffer.old.items ++ piece.now) buffer.new.items) }
{
    buffer.extend_from_slice(piece)?;
    let parts = split(alloc, buffer)?;
    compact(buffer, parts.at);
    Ok(parts)
}
