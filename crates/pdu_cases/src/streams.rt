//! A stream of PDUs that comes in pieces.
use case_book::Words;
use pcp_base::NoMemory;
use pdu_stream::{Reassembler, StreamFault};
use std::alloc::Global;

// The lengths of the PDUs that a piece makes whole, and how many bytes of the next have come.
fn feed(
    alloc: Global,
    out: &mut String,
    stream: &mut Reassembler,
    piece: &[u8],
) -> Result<(), NoMemory> {
    match stream.feed(alloc, piece) {
        Ok(pdus) => {
            for pdu in pdus.as_slice() {
                let size = pdu.len();
                write!(out, "whole {size}\n")?;
            }
        }
        Err(StreamFault::BadLength { found }) => write!(out, "BadLength {found}\n")?,
        Err(StreamFault::Lost) => out.push_str("Lost\n")?,
        Err(StreamFault::NoMemory) => return Err(NoMemory),
    }
    Ok(())
}

/// `pieces N`: the stream comes in pieces of so many bytes, and then an empty one; last comes what is pending.
pub fn tell_pieces(
    alloc: Global,
    mut words: Words<'_>,
    bytes: &[u8],
) -> Result<Option<Vec<u8>>, NoMemory> {
    let Some(size) = words.size() else {
        return Ok(None);
    };
    let mut out = String::new(alloc);
    let mut stream = Reassembler::new(alloc);
    for piece in bytes.chunks(size.max(1)) {
        feed(alloc, &mut out, &mut stream, piece)?;
    }
    feed(alloc, &mut out, &mut stream, &[])?;
    let pending = stream.pending();
    write!(&mut out, "pending {pending}\n")?;
    Ok(Some(out.into_bytes()))
}
