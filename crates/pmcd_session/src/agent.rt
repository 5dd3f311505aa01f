//! Who reads the regions for a session.
ghost use Rattle.std.specs.Prelude.{◌≡◌, ◌≤◌, length, ℕ, List as Sequence, Option, Some, None, IfOk, OnOk};
ghost use Rattle.std.specs.Option.{option_copied};
ghost use Rattle.fetch_answers.specs.Answers.{answer_of};
ghost use Rattle.fetch_answers.specs.Asks.{AnswerHas, desc_asked, instances_asked};
ghost use Rattle.fetch_answers.specs.Readings.{RegionReading};
ghost use Rattle.fetch_answers.specs.declared.names.Named.{Named as NameSpace};
ghost use Rattle.pmcd_session.specs.Agents.{named_by};

use fetch_engine::{AskFault, Named};
use pcp_base::{Desc, InDom, List, NoMemory, PmResult, Pmid, Stamp, Text};
use profile_filter::Profile;
use std::alloc::Global;

/// Who reads regions and tells what they show, as an agent of pmcd does (PMDA(3)). Each call but `named` reads anew.
pub trait Agent {
    /// What it reads: the regions that all agents of a server share.
    type Regions;

    /// Whether the agent can read these regions.
    ghost sits: { Self.Regions → Self → Type 0 };

    /// These readings were made: of the regions that a number of a metric or of a domain needs, or of all, each read once
    /// or missed.
    ghost reads: { Self.Regions → Option ℕ → Self → Sequence RegionReading → Self → Type 0 };

    /// The names that it holds, if it has read the regions for them.
    ghost named: { Self → Option NameSpace };

    /// What a call may leave behind, also where memory was refused.
    ghost loads: { Self.Regions → Self → Self → Type 0 };

    /// The values of metrics (pmFetch(3)).
    fn fetch(
        &mut self,
        alloc: Global,
        regions: &Self::Regions,
        profile: &Profile,
        pmids: &[Pmid],
        stamp: Stamp,
    ) -> Result<PmResult, NoMemory>
        requires here { sits regions.now self.old }
        requires few { length pmids.now ≤ 1024 }
        ensures answer { IfOk result (λ answer. (readings : Sequence RegionReading) × reads regions.now None self.old readings self.new × (answer ≡ answer_of readings profile.now pmids.now stamp)) }
        ensures loads { loads regions.now self.old self.new }
        ensures here { sits regions.now self.new };

    /// Reads the name space (pmns(5)), and the clusters of the regions that were missed; `named` tells them.
    fn read_names(&mut self, alloc: Global, regions: &Self::Regions) -> Result<(), NoMemory>
        requires here { sits regions.now self.old }
        ensures names { OnOk result ((readings : Sequence RegionReading) × reads regions.now None self.old readings self.new × (named self.new ≡ Some (named_by readings))) }
        ensures loads { loads regions.now self.old self.new }
        ensures here { sits regions.now self.new };

    /// What it holds of the name space; nothing is read for it.
    fn named(&self) -> Option<&Named>
        ensures { option_copied result ≡ named self.now };

    /// The description of a metric (pmLookupDesc(3)).
    fn description(
        &mut self,
        alloc: Global,
        regions: &Self::Regions,
        pmid: Pmid,
    ) -> Result<Desc, AskFault>
        requires here { sits regions.now self.old }
        ensures told { AnswerHas result (λ told. (readings : Sequence RegionReading) × reads regions.now (Some pmid) self.old readings self.new × (told ≡ desc_asked readings pmid)) }
        ensures loads { loads regions.now self.old self.new }
        ensures here { sits regions.now self.new };

    /// The instances of a domain, in ascending number (pmGetInDom(3)).
    fn instances(
        &mut self,
        alloc: Global,
        regions: &Self::Regions,
        indom: InDom,
    ) -> Result<List<(i32, Text)>, AskFault>
        requires here { sits regions.now self.old }
        ensures told { AnswerHas result (λ told. (readings : Sequence RegionReading) × reads regions.now (Some indom) self.old readings self.new × (told ≡ instances_asked readings indom)) }
        ensures loads { loads regions.now self.old self.new }
        ensures here { sits regions.now self.new };
}
