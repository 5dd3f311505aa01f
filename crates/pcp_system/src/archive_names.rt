//! Which file of an archive a name in its folder is.
ghost use Rattle.std.specs.Prelude.{◌<◌, IfSome};
ghost use Rattle.pcp_outside.specs.Devices.{IsNumbered};

use pcp_outside::{FileId, is_before};

// As many volumes as an archive has at most, so a name with this number or a greater one is no volume's. Readers ask for the length
// of each number below the greatest one, which a stray name would make long.
const VOLUME_LIMIT: u32 = 10_000;

/// The archive file that has this name, its folder left out.
pub(crate) fn named(stem: &[u8], name: &[u8]) -> Option<FileId>
    ensures { IfSome result IsNumbered }
{
    let rest = name.strip_prefix(stem)?.strip_prefix(b".")?;
    if rest == b"meta".as_slice() {
        return Some(FileId::Meta);
    }
    if rest == b"index".as_slice() {
        return Some(FileId::Index);
    }
    Some(FileId::Volume(volume_number(rest)?))
}

/// The archive file that has this name without the `.xz` or `.gz` at its end.
pub(crate) fn wrapped_name(stem: &[u8], name: &[u8]) -> Option<FileId>
    ensures { IfSome result IsNumbered }
{
    match name.strip_suffix(b".xz") {
        Some(rest) => named(stem, rest),
        None => named(stem, name.strip_suffix(b".gz")?),
    }
}

// A volume's number as its file is named: without zeros before it, below the limit.
fn volume_number(digits: &[u8]) -> Option<u32>
    ensures { IfSome result (λ number. number < 10000) }
{
    let first = *digits.first()?;
    if !first.is_ascii_digit() || (first == b'0' && digits.len() > 1) {
        return None;
    }
    let number = std::str::from_utf8(digits).ok()?.parse::<u32>().ok()?;
    if number < VOLUME_LIMIT {
        Some(number)
    } else {
        None
    }
}

/// The one of two files that comes first.
pub(crate) fn earlier(first: Option<FileId>, file: FileId) -> Option<FileId> {
    match first {
        Some(found) if !is_before(file, found) => Some(found),
        _ => Some(file),
    }
}
