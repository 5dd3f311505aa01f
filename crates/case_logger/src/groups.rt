//! The results of the next group that a logger is handed.
ghost use Rattle.std.specs.Prelude.{◌≡◌, true};
ghost use Rattle.std.specs.List.{AllByRecursion};
ghost use Rattle.logger_core.specs.Grouping.{MayBeAsked};

use archive_meta::Facts;
use pcp_base::PmResult;
use result_form::fits;

fn may_be_logged(one: &(PmResult, Facts)) -> bool
    ensures { result ≡ true → MayBeAsked one.now }
{
    if one.0.sets.is_empty() {
        return false;
    }
    fits(&one.0)
}

/// Whether a logger may be handed these.
pub fn may_be_asked(all: &[(PmResult, Facts)]) -> bool
    ensures { result ≡ true → AllByRecursion MayBeAsked all.now }
{
    let Some((first, rest)) = all.split_first() else {
        return true;
    };
    if !may_be_logged(first) {
        return false;
    }
    may_be_asked(rest)
}
