//! The lines that a run writes. Room for a line is made before what it tells is done, so that where memory is refused nothing was
//! done, and nothing is written.
ghost use Rattle.std.specs.Prelude.{◌≡◌, ◌+◌, ◌≤◌, ◌++◌, OnOk, length, vec_capacity, vec_len};
ghost use Rattle.text_lines.specs.Spelling.{number_part, one_number, two_numbers};

use itoa::Buffer;
use pcp_base::NoMemory;

/// Makes room for a line of at most 64 bytes.
pub fn make_room(out: &mut Vec<u8>) -> Result<(), NoMemory>
    ensures same { out.new.items ≡ out.old.items }
    ensures room { OnOk result (vec_len out.new + 64 ≤ vec_capacity out.new) }
{
    let Ok(()) = out.reserve(64) else {
        return Err(NoMemory);
    };
    Ok(())
}

/// A line, or a part of one, for which there is room.
pub fn put_line(out: &mut Vec<u8>, line: &[u8])
    requires room { vec_len out.old + length line.now ≤ vec_capacity out.old }
    ensures items { out.new.items ≡ out.old.items ++ line.now }
    ensures len { vec_len out.new ≡ vec_len out.old + length line.now }
    ensures capacity { vec_capacity out.old ≤ vec_capacity out.new }
{
    let Ok(()) = out.extend_from_slice(line) else {
        unreachable!()
    };
}

/// A number in decimal, behind its space.
#[tactic(auto, unfolding(text_lines::specs::Spelling::number_part))]
fn put_number(out: &mut Vec<u8>, number: u64)
    requires room { vec_len out.old + 21 ≤ vec_capacity out.old }
    ensures items { out.new.items ≡ out.old.items ++ number_part number }
    ensures len { vec_len out.new ≤ vec_len out.old + 21 }
    ensures capacity { vec_capacity out.old ≤ vec_capacity out.new }
{
    let mut buffer = Buffer::new();
    out.push_reserved(b' ');
    put_line(out, buffer.format(number).as_bytes());
}

/// A line of a short name and a number, for which there is room.
pub fn put_one(out: &mut Vec<u8>, name: &[u8], number: u64)
    requires short { length name.now ≤ 20 }
    requires room { vec_len out.old + 64 ≤ vec_capacity out.old }
    ensures { out.new.items ≡ out.old.items ++ one_number name.now number }
{
    put_line(out, name);
    put_number(out, number);
    out.push_reserved(b'\n');
}

/// A line of a short name and two numbers, for which there is room.
pub fn put_two(out: &mut Vec<u8>, name: &[u8], first: u64, second: u64)
    requires short { length name.now ≤ 20 }
    requires room { vec_len out.old + 64 ≤ vec_capacity out.old }
    ensures { out.new.items ≡ out.old.items ++ two_numbers name.now first second }
{
    put_line(out, name);
    put_number(out, first);
    put_number(out, second);
    out.push_reserved(b'\n');
}
