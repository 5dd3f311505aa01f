//! What numbers come to.
ghost use Rattle.std.specs.Prelude.{◌≡◌};
ghost use Rattle.log_summary.specs.Tallies.{single, joined};

use pcp_base::Stamp;

/// What the numbers of one metric's instance come to.
#[derive(Drop)]
pub struct Tally {
    /// How many; it stands still at 2^64 - 1.
    pub count: u64,
    pub least: i128,
    pub greatest: i128,
    /// Their sum modulo 2^128, as a signed number.
    pub sum: i128,
    /// The stamp of the last sample counted.
    pub last: Stamp,
}

impl Tally {
    /// One number.
    pub fn single(number: i128, stamp: Stamp) -> Tally
        ensures { result ≡ single number stamp }
    {
        Tally {
            count: 1,
            least: number,
            greatest: number,
            sum: number,
            last: stamp,
        }
    }

    /// These numbers, and those of samples behind them.
    pub fn joined(&self, behind: &Tally) -> Tally
        ensures { result ≡ joined self.now behind.now }
    {
        Tally {
            count: self.count.saturating_add(behind.count),
            least: self.least.min(behind.least),
            greatest: self.greatest.max(behind.greatest),
            sum: self.sum.wrapping_add(behind.sum),
            last: behind.last,
        }
    }
}
