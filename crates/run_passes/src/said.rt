//! What a step says, and the line that tells it.
ghost use Rattle.std.specs.Prelude.{◌≡◌, ◌+◌, ◌≤◌, ◌++◌, vec_capacity, vec_len};
ghost use Rattle.run_passes.specs.Works.{line_of};

use script_runs::{put_line, put_one, put_two};

/// What a step says.
#[derive(Clone, Copy)]
pub enum Said {
    Nothing,
    Attached,
    /// The gate that bounced an attach.
    Bounced { gate: u64 },
    TooLarge { need: u64, capacity: u64 },
    Busy { gate: u64 },
    Spent { generation: u64 },
    Begun { generation: u64 },
    Word { value: u64 },
    Stable { generation: u64 },
    Again { first: u64, last: u64 },
}

impl Said {
    /// Writes the line that tells it, for which there is room.
    pub fn write(&self, out: &mut Vec<u8>)
        requires room { vec_len out.old + 64 ≤ vec_capacity out.old }
        ensures { out.new.items ≡ out.old.items ++ line_of self.now }
    {
        match *self {
            Said::Nothing => (),
            Said::Attached => put_line(out, b"attached\n"),
            Said::Bounced { gate } => put_one(out, b"Changing", gate),
            Said::TooLarge { need, capacity } => put_two(out, b"TooLarge", need, capacity),
            Said::Busy { gate } => put_one(out, b"Busy", gate),
            Said::Spent { generation } => put_one(out, b"Spent", generation),
            Said::Begun { generation } => put_one(out, b"begun", generation),
            Said::Word { value } => put_one(out, b"word", value),
            Said::Stable { generation } => put_one(out, b"stable", generation),
            Said::Again { first, last } => put_two(out, b"Again", first, last),
        }
    }
}
