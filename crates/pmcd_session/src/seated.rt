//! A seat at a server is an agent.
ghost use Rattle.std.specs.Prelude.{◌≡◌, ◌≤◌, length, List as Sequence, Option, Some, None, IfOk, OnOk};
ghost use Rattle.std.specs.Option.{option_copied};
ghost use Rattle.fetch_answers.specs.Answers.{answer_of};
ghost use Rattle.fetch_answers.specs.Asks.{AnswerHas, desc_asked, instances_asked};
ghost use Rattle.fetch_answers.specs.Readings.{RegionReading};
ghost use Rattle.fetch_engine.specs.Servers.{IsSeated};
ghost use Rattle.pmcd_session.specs.Agents.{LoadsRegions, ReadsRegions, named_by};

use crate::agent::Agent;
use fetch_engine::{AskFault, FetchFault, Named, Seat, Server};
use pcp_base::{Desc, InDom, List, NoMemory, PmResult, Pmid, Stamp, Text};
use profile_filter::Profile;
use std::alloc::Global;

impl Agent for Seat {
    type Regions = Server;

    ghost sits = { λ rows seat. IsSeated rows seat.tokens };

    ghost reads = { λ rows needed old readings new. ReadsRegions rows needed old readings new };

    ghost named = { λ seat. seat.named };

    ghost loads = { λ rows old new. LoadsRegions old new };

    fn fetch(
        &mut self,
        alloc: Global,
        regions: &Server,
        profile: &Profile,
        pmids: &[Pmid],
        stamp: Stamp,
    ) -> Result<PmResult, NoMemory> {
        match regions.result(alloc, self, profile, pmids, stamp) {
            Ok(result) => Ok(result),
            Err(FetchFault::NoMemory) => Err(NoMemory),
            Err(FetchFault::TooMany { count: _count }) => unreachable!(),
        }
    }

    fn read_names(&mut self, alloc: Global, regions: &Server) -> Result<(), NoMemory> {
        regions.read_names(alloc, self)
    }

    fn named(&self) -> Option<&Named> {
        self.named()
    }

    fn description(
        &mut self,
        alloc: Global,
        regions: &Server,
        pmid: Pmid,
    ) -> Result<Desc, AskFault> {
        regions.description(alloc, self, pmid)
    }

    fn instances(
        &mut self,
        alloc: Global,
        regions: &Server,
        indom: InDom,
    ) -> Result<List<(i32, Text)>, AskFault> {
        regions.instances(alloc, self, indom)
    }
}
