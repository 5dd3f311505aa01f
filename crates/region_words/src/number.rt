//! Kinds of values that may be added to.
ghost use Rattle.std.specs.Prelude.{IsTrue};
ghost use Rattle.region_words.specs.Calls.{IsNumber};

use pcp_base::Kind;

/// Whether the value word of this kind holds a number, to which `Stint::add` may add.
pub fn is_number(kind: Kind) -> bool
    ensures number { IsTrue result → IsNumber kind }
    ensures other { IsNumber kind → IsTrue result }
{
    match kind {
        Kind::I32 | Kind::U32 | Kind::I64 | Kind::U64 => true,
        Kind::Float | Kind::Double | Kind::Text | Kind::Elapsed => false,
    }
}
