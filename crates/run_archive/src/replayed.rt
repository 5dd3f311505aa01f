//! What the run of a script tells.
ghost use Rattle.std.specs.Prelude.{◌≡◌, []};

use pcp_base::{Bytes, List};
use script_runs::Ending;
use std::alloc::Global;

/// What a run wrote, how it ended, and how many results it logged.
#[derive(Drop)]
pub struct Replayed {
    pub output: Bytes,
    pub ending: Ending,
    pub logged: u64,
}

impl Replayed {
    /// What is told of a run that ended before its first line or sample: no output, and no result.
    pub fn nothing(alloc: Global, ending: Ending) -> Replayed
        ensures output { result.output ≡ [] }
        ensures ending { result.ending ≡ ending }
        ensures logged { result.logged ≡ 0 }
    {
        Replayed {
            output: List::empty(alloc),
            ending,
            logged: 0,
        }
    }
}
