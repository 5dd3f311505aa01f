//! Calls of a disk in memory that are planned to fail, and what they have done then.
ghost use Rattle.std.specs.Prelude.{◌≡◌, ◌+◌, find};
ghost use Rattle.pcp_outside.specs.Causes.{shown_count};
ghost use Rattle.std.specs.Option.{option_copied};
ghost use Rattle.pcp_memory.specs.Plans.{same_call, is_fault, planned, count_of, counted, none_counted};

use pcp_base::List;

/// A kind of call of a disk.
#[derive(Clone, Copy, Debug)]
pub enum Call {
    Len,
    Volumes,
    Wrapped,
    Read,
    Append,
    Sync,
    Cut,
}

/// A call that is planned to fail: the `nth` of its kind, counted from 1. An append that fails so has put the first
/// `kept` of its bytes there, at most all. A sync or a cut that fails so has happened where `kept` isn't 0. A call of
/// another kind has done nothing.
#[derive(Clone, Copy)]
pub struct Fault {
    pub call: Call,
    pub nth: u64,
    pub kept: u32,
}

/// How many calls of each kind were asked for; 2^64 - 1 where it is more.
#[derive(Clone, Copy)]
pub struct Counts {
    pub lens: u64,
    pub volumes: u64,
    pub wrapped: u64,
    pub reads: u64,
    pub appends: u64,
    pub syncs: u64,
    pub cuts: u64,
}

fn add_one(count: &mut u64)
    ensures { count.new ≡ shown_count (count.old + 1) }
{
    *count = count.saturating_add(1);
}

impl Counts {
    /// No call was asked for.
    pub fn none() -> Counts
        ensures { result ≡ none_counted }
    {
        Counts {
            lens: 0,
            volumes: 0,
            wrapped: 0,
            reads: 0,
            appends: 0,
            syncs: 0,
            cuts: 0,
        }
    }

    /// How many calls of a kind were asked for.
    pub fn of(&self, call: Call) -> u64
        ensures { result ≡ count_of self.now call }
    {
        match call {
            Call::Len => self.lens,
            Call::Volumes => self.volumes,
            Call::Wrapped => self.wrapped,
            Call::Read => self.reads,
            Call::Append => self.appends,
            Call::Sync => self.syncs,
            Call::Cut => self.cuts,
        }
    }

    /// Counts a call.
    pub fn count(&mut self, call: Call)
        ensures { self.new ≡ counted call self.old }
    {
        match call {
            Call::Len => add_one(&mut self.lens),
            Call::Volumes => add_one(&mut self.volumes),
            Call::Wrapped => add_one(&mut self.wrapped),
            Call::Read => add_one(&mut self.reads),
            Call::Append => add_one(&mut self.appends),
            Call::Sync => add_one(&mut self.syncs),
            Call::Cut => add_one(&mut self.cuts),
        }
    }
}

fn same(a: Call, b: Call) -> bool
    ensures { result ≡ same_call a b }
{
    match (a, b) {
        (Call::Len, Call::Len) | (Call::Volumes, Call::Volumes) => true,
        (Call::Wrapped, Call::Wrapped) | (Call::Read, Call::Read) => true,
        (Call::Append, Call::Append) | (Call::Sync, Call::Sync) => true,
        (Call::Cut, Call::Cut) => true,
        _ => false,
    }
}

fn is_planned(fault: Fault, call: Call, nth: u64) -> bool
    ensures { result ≡ is_fault call nth fault }
{
    same(fault.call, call) && fault.nth == nth
}

// The first fault of this call.
fn find_fault(plan: &[Fault], call: Call, nth: u64) -> Option<&Fault>
    ensures { option_copied result ≡ find (is_fault call nth) plan.now }
{
    plan.iter().find(|fault| is_planned(**fault, call, nth))
}

/// Counts a call, and tells what a fault that is planned for it keeps.
pub fn ask(plan: &List<Fault>, counts: &mut Counts, call: Call) -> Option<u32>
    ensures counted { counts.new ≡ counted call counts.old }
    ensures planned { result ≡ planned plan.now call (count_of counts.new call) }
{
    counts.count(call);
    match find_fault(plan.as_slice(), call, counts.of(call)) {
        Some(fault) => Some(fault.kept),
        None => None,
    }
}
