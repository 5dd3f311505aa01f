//! How many bytes each part of an image takes. Between versions 1 and 2 the name fields differ alone.
ghost use Rattle.std.specs.Prelude.{◌≡◌, ◌<◌, ◌≤◌};
ghost use Rattle.mmv_layout.specs.Sizes.{is_version, has_inline_names, name_width, name_room, instance_size, metric_size};

pub const HEADER_SIZE: u64 = 40;

/// An entry of the contents.
pub const ENTRY_SIZE: u64 = 16;

pub const INDOM_SIZE: u64 = 32;

pub const VALUE_SIZE: u64 = 32;

pub const STRING_SIZE: u64 = 256;

/// Whether images of a version are read and written.
pub fn is_version(version: u32) -> bool
    ensures { result ≡ is_version version }
{
    version == 1 || version == 2
}

/// Whether a name stands in its field, as in version 1; in version 2 the field has the offset of a string.
pub fn has_inline_names(version: u32) -> bool
    ensures { result ≡ has_inline_names version }
{
    version == 1
}

/// A name field: of a name, or of an offset.
#[tactic(auto, unfolding(crate::specs::Sizes::name_width))]
pub fn name_width(version: u32) -> u64
    ensures width { result ≡ name_width version }
    ensures bound { result ≤ 64 }
{
    if has_inline_names(version) { 64 } else { 8 }
}

/// The bytes where a name stands, with the zero byte behind it: its field, or a string.
#[tactic(auto, unfolding(crate::specs::Sizes::name_room))]
pub fn name_room(version: u32) -> u32
    ensures room { result ≡ name_room version }
    ensures bound { result ≤ 256 }
{
    if has_inline_names(version) {
        64
    } else {
        STRING_SIZE as u32
    }
}

pub fn instance_size(version: u32) -> u64
    ensures size { result ≡ instance_size version }
    ensures some { 0 < result }
    ensures bound { result ≤ 80 }
{
    16 + name_width(version)
}

pub fn metric_size(version: u32) -> u64
    ensures size { result ≡ metric_size version }
    ensures some { 0 < result }
    ensures bound { result ≤ 104 }
{
    name_width(version) + 40
}
