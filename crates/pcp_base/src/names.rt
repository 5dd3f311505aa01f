//! The rule for names of metrics (PCPIntro(1)).

ghost use Rattle.std.specs.Prelude.{◌≡◌, ◌↔◌, IsTrue, true};
ghost use Rattle.pcp_base.specs.Names.{is_letter, is_name_byte, IsComponent, IsName, spells, spells_component};

/// Whether a component may start with this byte.
fn starts(byte: u8) -> bool
    ensures { result ≡ is_letter byte }
{
    matches!(byte, b'A'..=b'Z' | b'a'..=b'z')
}

/// Whether a component may continue with this byte.
fn continues(byte: u8) -> bool
    ensures { result ≡ is_name_byte byte }
{
    starts(byte) || matches!(byte, b'0'..=b'9') || byte == b'_'
}

/// Whether the bytes are a component of a name: a letter, then letters, digits or `_` (PCPIntro(1)).
pub fn is_component(bytes: &[u8]) -> bool
    ensures { IsTrue result ↔ IsComponent bytes.now }
{
    let mut is_first = true;
    for byte in bytes {
        if is_first {
            if !starts(*byte) {
                return false;
            }
            is_first = false;
        } else if !continues(*byte) {
            return false;
        }
    }
    !is_first
}

/// The same, by a contract that says which truth value it is.
#[tactic(auto, using(crate::proofs::Components::is_spelled))]
pub fn spells_component(bytes: &[u8]) -> bool
    ensures { result ≡ spells_component bytes.now }
{
    is_component(bytes)
}

/// Whether the bytes are a name of a metric: one or more components joined by `.` (PCPIntro(1)).
pub fn is_name(bytes: &[u8]) -> bool
    ensures name { IsTrue result ↔ IsName bytes.now }
    ensures test { result ≡ spells true bytes.now }
{
    let mut is_first = true;
    for byte in bytes {
        if is_first {
            if !starts(*byte) {
                return false;
            }
            is_first = false;
        } else if *byte == b'.' {
            is_first = true;
        } else if !continues(*byte) {
            return false;
        }
    }
    !is_first
}
