//! What was seen of records' stamps so far.
ghost use Rattle.std.specs.Prelude.{◌≡◌, ◌∷◌, [], ◌++◌, List as Sequence, option_to_list, max};
ghost use Rattle.pcp_base.specs.Time.{Moment, microseconds};
ghost use Rattle.archive_check.specs.Tallies.{IsTally, FallsBehind, FallsBy, time_with};

use pcp_base::Stamp;

/// Of records how many there are, the latest time in microseconds or 0, the last stamp, and the first two of which the second is before
/// the first.
#[derive(Clone, Copy)]
pub struct Tally {
    pub count: u64,
    pub time: u64,
    pub last: Option<Stamp>,
    pub fall: Option<(Stamp, Stamp)>,
}

/// Of no records.
pub fn no_records() -> Tally
    ensures { IsTally [] result }
{
    Tally {
        count: 0,
        time: 0,
        last: None,
        fall: None,
    }
}

/// Whether a stamp is before the last one.
fn falls(last: Option<Stamp>, stamp: Stamp) -> Option<(Stamp, Stamp)>
    ensures { FallsBehind last stamp result }
{
    match last {
        Some(before) => {
            if stamp.microseconds() < before.microseconds() {
                Some((before, stamp))
            } else {
                None
            }
        }
        None => None,
    }
}

fn fall_with(
    fall: Option<(Stamp, Stamp)>,
    last: Option<Stamp>,
    stamp: Stamp,
) -> Option<(Stamp, Stamp)>
    ensures { FallsBy fall last stamp result }
{
    match fall {
        Some(first) => Some(first),
        None => falls(last, stamp),
    }
}

fn later_time(time: u64, stamp: Stamp) -> u64
    ensures { result ≡ time_with time stamp }
{
    if time < stamp.microseconds() {
        stamp.microseconds()
    } else {
        time
    }
}

/// One record more, which may have a stamp.
pub fn with_record(tally: Tally, stamp: Option<Stamp>) -> Tally
    ensures { (records : Sequence (Sequence Moment)) → IsTally records tally → IsTally (records ++ option_to_list stamp ∷ []) result }
{
    let count = tally.count.saturating_add(1);
    match stamp {
        Some(stamp) => Tally {
            count,
            time: later_time(tally.time, stamp),
            last: Some(stamp),
            fall: fall_with(tally.fall, tally.last, stamp),
        },
        None => Tally {
            count,
            time: tally.time,
            last: tally.last,
            fall: tally.fall,
        },
    }
}
