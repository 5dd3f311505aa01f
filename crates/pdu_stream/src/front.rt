//! What stands at the front of bytes of a stream.
ghost use Rattle.pdu_stream.specs.Front.{IsFront};

use pcp_base::be32;

/// What stands at the front of bytes of a stream.
#[derive(Clone, Copy)]
pub enum Front {
    /// A PDU of so many bytes.
    Whole(usize),
    /// The beginning of a PDU, or nothing.
    Begun,
    /// A length word that no PDU has.
    Bad(u32),
}

/// What the bytes begin with.
pub fn front_of(bytes: &[u8]) -> Front
    ensures { IsFront bytes.now result }
{
    let Some(word) = be32(bytes, 0) else {
        return Front::Begun;
    };
    if word < 12 || word > 65_536 {
        return Front::Bad(word);
    }
    if bytes.len() < word as usize {
        return Front::Begun;
    }
    Front::Whole(word as usize)
}
