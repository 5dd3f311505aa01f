//! The latest stamp of the domains' records that were read.
ghost use Rattle.std.specs.Prelude.{◌≡◌, ◌∷◌, [], ◌++◌, List as Sequence, Some, option_to_list};
ghost use Rattle.pcp_base.specs.Time.{Moment};
ghost use Rattle.pcp_model.specs.declared.records.MetaRecord.{MetaRecord as Record};
ghost use Rattle.archive_meta.specs.Records.{AreRecords};
ghost use Rattle.archive_loading.specs.Standing.{IsSized};
ghost use Rattle.archive_loading.specs.Stamps.{domain_stamps, IsLatest, IsLatestOn};

use archive_meta::domain_stamp;
use pcp_base::Stamp;

/// The latest stamp where one more comes.
pub fn later(last: Option<Stamp>, stamp: Stamp) -> Stamp
    ensures { (moments : Sequence Moment) → IsLatest moments last → IsLatest (moments ++ stamp ∷ []) (Some result) }
{
    match last {
        Some(t) => {
            if t.microseconds() < stamp.microseconds() {
                stamp
            } else {
                t
            }
        }
        None => stamp,
    }
}

/// The latest stamp where one more record of Meta comes, which has a stamp where it is a domain's.
pub fn later_by(last: Option<Stamp>, stamp: Option<Stamp>) -> Option<Stamp>
    ensures { IsLatestOn last (option_to_list stamp) result }
{
    match stamp {
        Some(stamp) => Some(later(last, stamp)),
        None => last,
    }
}

/// The stamp of a framed record of Meta, where it is a domain's.
pub fn stamp_in(frame: &[u8]) -> Option<Stamp>
    requires { IsSized frame.now }
    ensures { (records : Sequence Record) → AreRecords frame.now records → domain_stamps records ≡ option_to_list result }
{
    domain_stamp(&frame[4..frame.len() - 4])
}
