//! The parts of a line that layout text alone has, each behind its space.
ghost use Rattle.std.specs.Prelude.{◌≡◌, ◌++◌, OnOk};
ghost use Rattle.text_lines.specs.LayoutSpelling.{kind_part, semantics_part, content_part};

use crate::layout_line::Written;
use crate::writing::{put_hex_part, put_text, put_whole};
use pcp_base::{Kind, NoMemory, Semantics};

/// A kind's word.
pub fn put_kind(out: &mut Vec<u8>, kind: Kind) -> Result<(), NoMemory>
    ensures { OnOk result (out.new.items ≡ out.old.items ++ kind_part kind) }
{
    out.extend_from_slice(kind_word(kind))?;
    Ok(())
}

fn kind_word(kind: Kind) -> &'static [u8]
    ensures { result.now ≡ kind_part kind }
{
    match kind {
        Kind::I32 => b" i32",
        Kind::U32 => b" u32",
        Kind::I64 => b" i64",
        Kind::U64 => b" u64",
        Kind::Float => b" float",
        Kind::Double => b" double",
        Kind::Text => b" string",
        Kind::Elapsed => b" elapsed",
    }
}

/// The word of semantics.
pub fn put_semantics(out: &mut Vec<u8>, semantics: Semantics) -> Result<(), NoMemory>
    ensures { OnOk result (out.new.items ≡ out.old.items ++ semantics_part semantics) }
{
    out.extend_from_slice(semantics_word(semantics))?;
    Ok(())
}

fn semantics_word(semantics: Semantics) -> &'static [u8]
    ensures { result.now ≡ semantics_part semantics }
{
    match semantics {
        Semantics::Counter => b" counter",
        Semantics::Instant => b" instant",
        Semantics::Discrete => b" discrete",
    }
}

/// The content of a value.
pub fn put_content(out: &mut Vec<u8>, content: &Written) -> Result<(), NoMemory>
    ensures { OnOk result (out.new.items ≡ out.old.items ++ content_part content.now) }
{
    match content {
        Written::Number(number) => put_whole(out, *number)?,
        Written::Quoted(text) => put_text(out, text)?,
        Written::Raw(value, extra) => {
            put_hex_part(out, 16, *value)?;
            put_hex_part(out, 16, *extra)?;
        }
    }
    Ok(())
}
