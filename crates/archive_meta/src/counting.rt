//! How many records bytes hold, told by their lengths and kinds alone, so that memory is taken once.
ghost use Rattle.std.specs.Prelude.{◌≡◌, ◌+◌, ◌*◌, ◌<◌, ◌≤◌, length, IfSome};

use pcp_base::be32;

/// How many records there are, how many of them are kept, since they are descriptions or domains, and how many of these
/// describe a metric.
#[derive(Clone, Copy)]
pub struct Room {
    pub records: usize,
    pub kept: usize,
    pub described: usize,
}

/// One more, of the kind that its payload's first word says.
fn with_kind(room: Room, kind: Option<u32>) -> Room
    requires few { room.records < 18446744073709551615 }
    requires kept { room.kept ≤ room.records }
    requires described { room.described ≤ room.kept }
    ensures records { result.records ≡ room.records + 1 }
    ensures kept { result.kept ≤ result.records }
    ensures described { result.described ≤ result.kept }
{
    let mut more = room;
    more.records += 1;
    if let Some(1) | Some(2) = kind {
        more.kept += 1;
    }
    if let Some(1) = kind {
        more.described += 1;
    }
    more
}

/// How many bytes the length word at a byte says, where they are there.
fn size_at(bytes: &[u8], at: usize) -> Option<usize>
    requires { at ≤ length bytes.now }
    ensures { IfSome result (λ size. (12 ≤ size) × (at + size ≤ length bytes.now)) }
{
    let size = be32(bytes, at)? as usize;
    if size < 12 || bytes.len() - at < size {
        return None;
    }
    Some(size)
}

/// How many framed records bytes begin with, or more where the length words alone are right.
pub fn room_for(bytes: &[u8]) -> Room
    ensures records { 12 * result.records ≤ length bytes.now }
    ensures kept { result.kept ≤ result.records }
    ensures described { result.described ≤ result.kept }
{
    let most = bytes.len() / 12;
    let mut room = Room {
        records: 0,
        kept: 0,
        described: 0,
    };
    let mut at = 0;
    for _ in 0..most {
        match size_at(bytes, at) {
            Some(size) => {
                room = with_kind(room, be32(bytes, at + 4));
                at += size;
            }
            None => return room,
        }
    }
    room
}
