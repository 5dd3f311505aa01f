//! Where the records of domains stand, in the order of their moments.
ghost use Rattle.std.specs.Prelude.{◌≡◌, ◌<◌, true, false, if◌then◌else◌, OnOk, OnErr, MatchOption};
ghost use Rattle.std.specs.Cmp.{partial_order_from_own_ties};
ghost use Rattle.std.specs.Cmp.Rules.{comparing};
ghost use Rattle.std.specs.Ordering.{is_eq, nat_cmp, on, then_cmp, as_partial_cmp};
ghost use Rattle.std.proofs.Common.{rules};
ghost use Rattle.std.specs.BTreeSet.{contains, IsUnchanged};
ghost use Rattle.pcp_base.specs.Time.{microseconds};
ghost use Rattle.archive_meta.specs.declared.moments.Listing.{Listing as Entry};
ghost use Rattle.archive_meta.specs.Order.{moment_order};
ghost use Rattle.archive_meta.specs.Kept.{listing, HasNoEntry, IsLastEntry};

use pcp_base::{InDom, NoMemory, Stamp};
use std::cmp::Ordering;
use std::collections::BTreeSet;

/// Where one of a domain's records stands: the domain's word, and the record's moment in microseconds. Its fields are in
/// an order without gaps: there may be a listing for every 28 bytes of Meta.
#[derive(Clone, Copy, PartialEq, Eq)]
pub struct Listing {
    pub indom: u32,
    pub at: u32,
    pub from: u64,
}

/// By domain, by moment, by position.
impl Ord for Listing {
    ghost cmp = { then_cmp (then_cmp (on (λ e. e.indom) nat_cmp) (on (λ e. e.from) nat_cmp)) (on (λ e. e.at) nat_cmp) };

    ghost total = { Prim.search (comparing, rules) };

    ghost matches_partial_cmp = { Prim.search (comparing, rules) };

    ghost matches_eq = { Prim.search (comparing, rules) };

    fn cmp(&self, other: &Listing) -> Ordering {
        match self.indom.cmp(&other.indom) {
            Ordering::Equal => match self.from.cmp(&other.from) {
                Ordering::Equal => self.at.cmp(&other.at),
                order => order,
            },
            order => order,
        }
    }
}

impl PartialOrd for Listing {
    ghost partial_cmp = { as_partial_cmp (then_cmp (then_cmp (on (λ e. e.indom) nat_cmp) (on (λ e. e.from) nat_cmp)) (on (λ e. e.at) nat_cmp)) };

    ghost laws = { partial_order_from_own_ties (Prim.search (comparing, rules)) (Prim.search (comparing, rules)) };

    fn partial_cmp(&self, other: &Listing) -> Option<Ordering> {
        Some(self.cmp(other))
    }
}

/// Where the records of domains stand.
pub type Moments = BTreeSet<Listing>;

/// The listing of a record from a moment on, which stands here.
fn listed(indom: InDom, t: Stamp, at: usize) -> Listing
    requires { at < 4294967296 }
    ensures { result ≡ listing indom (microseconds t) at }
{
    Listing {
        indom: indom.word(),
        at: at as u32,
        from: t.microseconds(),
    }
}

/// Notes that a domain's record from a moment on stands here.
pub fn note_moment(moments: &mut Moments, indom: InDom, t: Stamp, at: usize) -> Result<(), NoMemory>
    requires { at < 4294967296 }
    ensures ok { OnOk result ((q : Entry) → contains moment_order moments.new q ≡ if is_eq (moment_order (listing indom (microseconds t) at) q) then true else contains moment_order moments.old q) }
    ensures err { OnErr result (IsUnchanged moments.old moments.new) }
{
    moments.insert(listed(indom, t, at))?;
    Ok(())
}

/// Takes the record at a position of Meta out of those of its domain, where it was added and the whole is refused.
pub fn forget_moment(moments: &mut Moments, indom: InDom, t: Stamp, at: usize)
    requires { at < 4294967296 }
    ensures { (q : Entry) → contains moment_order moments.new q ≡ if is_eq (moment_order (listing indom (microseconds t) at) q) then false else contains moment_order moments.old q }
{
    moments.remove(&listed(indom, t, at));
}

/// Where the last of a domain's records stands that isn't after a moment: the one with the greatest stamp, and among
/// equal stamps the last.
pub fn last_moment(moments: &Moments, indom: InDom, t: Stamp) -> Option<usize>
    ensures { MatchOption result (HasNoEntry moments.now indom (microseconds t)) (IsLastEntry moments.now indom (microseconds t)) }
{
    let bound = listed(indom, t, u32::MAX as usize);
    match moments.range(..=bound).next_back() {
        Some(found) => {
            if found.indom == bound.indom {
                Some(found.at as usize)
            } else {
                None
            }
        }
        None => None,
    }
}
