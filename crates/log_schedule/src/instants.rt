//! Moments as microseconds, and the first of a row of equally distant ones.

ghost use Rattle.std.specs.Prelude.{◌≡◌, ℕ, ◌+◌, ◌*◌, ◌<◌, ◌≤◌, MatchOption};
ghost use Rattle.pcp_base.specs.Time.{Moment, IsMoment, microseconds};
ghost use Rattle.log_schedule.specs.Steps.{IsFirstStep};

use pcp_base::Stamp;

/// The first microsecond that no stamp can tell: 2^31 seconds.
pub const END: u64 = 2_147_483_648_000_000;

/// The stamp so many microseconds after 1970 began.
pub fn stamp_of(count: u64) -> Stamp
    requires { count < 2147483648000000 }
    ensures { microseconds result ≡ count }
{
    Stamp::build((count / 1_000_000) as u32, (count % 1_000_000) as u32).unwrap()
}

/// The least of `start`, `start + period`, `start + 2 * period`, .. that is not before `from`, in
/// microseconds, where the period is `interval` milliseconds; `None` where it is past the last stamp or
/// there is none.
pub fn first_from(start: u64, interval: u64, from: u64) -> Option<u64>
    requires since { start < 2147483648000000 }
    requires asked { from ≤ 2147483648000000 }
    ensures { MatchOption result
        ((k : ℕ) → from ≤ start + k * (interval * 1000) → 2147483648000000 ≤ start + k * (interval * 1000))
        (λ found. (found < 2147483648000000) × IsFirstStep start (interval * 1000) from found) }
{
    if from <= start {
        return Some(start);
    }
    if interval == 0 || interval >= END {
        return None;
    }
    let period = interval * 1000;
    let found = start + (from - start).div_ceil(period) * period;
    if found >= END {
        return None;
    }
    Some(found)
}
