//! Why words are no image.
ghost use Rattle.std.specs.Prelude.{◌≡◌};
ghost use Rattle.mmv_layout.specs.declared.fault.ImageFault.TheVariants.{NoMemory as Refused};

use std::alloc::AllocError;
use thiserror::Error;

/// Why words or bytes are no image (mmv(5)): the first fault in this order, and of one kind the one at
/// the lowest offset. `at` is an offset in bytes: of the field, and for `Duplicate` of the entry.
#[derive(Clone, Copy, Debug, Error)]
pub enum ImageFault {
    /// Fewer than 40 bytes, or no whole number of words; `have` is the number of bytes.
    #[error("{have} bytes are no whole image")]
    Short { have: u64 },
    /// More than 65,536 words.
    #[error("{words} words are too many")]
    TooLarge { words: u64 },
    /// The first four bytes aren't `MMV` and a zero byte.
    #[error("the magic number is missing")]
    Magic,
    /// A version other than 1 and 2.
    #[error("version {found} isn't read")]
    Version { found: u32 },
    /// The two generation numbers differ: the image is being changed.
    #[error("the generations {g1} and {g2} differ")]
    Generations { g1: u64, g2: u64 },
    /// A contents entry or its section doesn't lie in the words, its type is unknown or stood before, or its section
    /// overlaps the header, the contents or an earlier section; `kind` is the type, or 0 where the entry itself
    /// doesn't lie in the words.
    #[error("the section of type {kind} doesn't lie well")]
    Section { kind: u32 },
    /// A section begins at no multiple of 8; `at` is that of the offset in its contents entry.
    #[error("the section place at {at} is no multiple of 8")]
    Offset { at: u64 },
    /// A name or a string has no zero byte, a name is empty, or a metric's name breaks the rule for names; `at` is that
    /// of the name field or of the string.
    #[error("the name at {at} is none")]
    Name { at: u64 },
    /// A metric's type or semantics has no meaning.
    #[error("the code at {at} has no meaning")]
    Kind { at: u64 },
    /// A help, a name, an instance, a run of instances, a serial, a metric or a string that isn't there.
    #[error("the reference at {at} leads nowhere")]
    Reference { at: u64 },
    /// The later of two domains with one serial, of two instances of one domain with one number or one name, of two
    /// metrics with one item or one name, or of two values with one metric and one instance.
    #[error("the entry at {at} stood before")]
    Duplicate { at: u64 },
    /// A domain's serial of 0 or above 1023, an item above 1023, a cluster above 4095, or a negative instance number.
    #[error("the number at {at} is out of range")]
    Serial { at: u64 },
    /// Memory was refused.
    #[error("out of memory")]
    NoMemory,
}

impl From<AllocError> for ImageFault {
    ghost from_gives = { λ _ e. e ≡ Refused };

    fn from(_error: AllocError) -> ImageFault {
        ImageFault::NoMemory
    }
}
