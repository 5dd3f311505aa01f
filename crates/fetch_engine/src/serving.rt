//! Fetches and name spaces of a server's regions.
ghost use Rattle.std.specs.Prelude.{◌≡◌, ◌<◌, length, IfOk, IfErr, OnOk, List as Sequence};
ghost use Rattle.fetch_answers.specs.Asks.{desc_asked, instances_asked, AnswerHas};
ghost use Rattle.fetch_answers.specs.Fetches.{IsFetchFault};
ghost use Rattle.fetch_answers.specs.Readings.{RegionReading};
ghost use Rattle.fetch_engine.specs.Servers.{IsSeated};
ghost use Rattle.fetch_engine.specs.Visits.{AreLoaded, AreNamed, AreNamedBy, IsAnswered, IsFetched, IsReadFor, ReadKeeping, ReadKeepingFor};

use crate::seat::Seat;
use crate::server::Server;
use crate::visits::{keep_names, known_at, read_all, read_for};
use fetch_answers::{
    AskFault, FETCH_LIMIT, FetchFault, Fetched, Named, answer_of, description, instances,
    names_known, sets_of,
};
use pcp_base::{Desc, InDom, List, NoMemory, PmResult, Pmid, Stamp, Text};
use profile_filter::Profile;
use std::alloc::Global;

impl Server {
    /// The answer of a fetch over one reading of each region (pmFetch(3)). Each is read by the seat's pass in at most three
    /// tries; one that was missed in all three shows the status -12389 for each of its metrics. `TooMany` comes exactly above
    /// 1,024 metrics, and then nothing is loaded. After any refusal the passes have made nothing but loads.
    #[tactic(auto, using(crate::proofs::Visited::is_fetched, crate::proofs::Visited::still_seated, crate::proofs::Visited::none_loaded))]
    pub fn fetch(
        &self,
        alloc: Global,
        seat: &mut Seat,
        profile: &Profile,
        pmids: &[Pmid],
        stamp: Stamp,
    ) -> Result<Fetched, FetchFault>
        requires { IsSeated self.now seat.old.tokens }
        ensures answer { IfOk result (λ fetched. IsFetched self.now seat.old.tokens profile.now pmids.now stamp fetched.result fetched.facts seat.new.tokens) }
        ensures keeping { OnOk result (ReadKeeping self.now seat.old seat.new) }
        ensures refused { IfErr result (IsFetchFault (length pmids.now)) }
        ensures untouched { 1024 < length pmids.now → seat.new ≡ seat.old }
        ensures loads { AreLoaded seat.old.tokens seat.new.tokens }
        ensures seated { IsSeated self.now seat.new.tokens }
    {
        if pmids.len() > FETCH_LIMIT {
            let count = pmids.len() as u64;
            return Err(FetchFault::TooMany { count });
        }
        read_all(
            alloc,
            &self.mounted,
            &mut seat.passes,
            &mut seat.known,
            &mut seat.spares,
            &mut seat.named,
        )?;
        Ok(answer_of(alloc, &seat.known, profile, pmids, stamp)?)
    }

    /// The answer of a fetch without what describes it, over one reading of each region, as `fetch` has it.
    #[tactic(auto, using(crate::proofs::Visited::is_answered, crate::proofs::Visited::still_seated, crate::proofs::Visited::none_loaded))]
    pub fn result(
        &self,
        alloc: Global,
        seat: &mut Seat,
        profile: &Profile,
        pmids: &[Pmid],
        stamp: Stamp,
    ) -> Result<PmResult, FetchFault>
        requires { IsSeated self.now seat.old.tokens }
        ensures answer { IfOk result (λ told. IsAnswered self.now seat.old.tokens profile.now pmids.now stamp told seat.new.tokens) }
        ensures keeping { OnOk result (ReadKeeping self.now seat.old seat.new) }
        ensures refused { IfErr result (IsFetchFault (length pmids.now)) }
        ensures untouched { 1024 < length pmids.now → seat.new ≡ seat.old }
        ensures loads { AreLoaded seat.old.tokens seat.new.tokens }
        ensures seated { IsSeated self.now seat.new.tokens }
    {
        if pmids.len() > FETCH_LIMIT {
            let count = pmids.len() as u64;
            return Err(FetchFault::TooMany { count });
        }
        read_all(
            alloc,
            &self.mounted,
            &mut seat.passes,
            &mut seat.known,
            &mut seat.spares,
            &mut seat.named,
        )?;
        let sets = sets_of(alloc, &seat.known, profile, pmids)?;
        Ok(PmResult { stamp, sets })
    }

    /// The name space of one reading of each region (pmns(5)), and the clusters of the regions that were missed in three
    /// tries. After a refusal the passes have made nothing but loads.
    #[tactic(auto, using(crate::proofs::Visited::are_named, crate::proofs::Visited::still_seated))]
    pub fn names(&self, alloc: Global, seat: &mut Seat) -> Result<Named, NoMemory>
        requires { IsSeated self.now seat.old.tokens }
        ensures names { IfOk result (λ named. AreNamed self.now seat.old.tokens named.names named.missing seat.new.tokens) }
        ensures keeping { OnOk result (ReadKeeping self.now seat.old seat.new) }
        ensures loads { AreLoaded seat.old.tokens seat.new.tokens }
        ensures seated { IsSeated self.now seat.new.tokens }
    {
        read_all(
            alloc,
            &self.mounted,
            &mut seat.passes,
            &mut seat.known,
            &mut seat.spares,
            &mut seat.named,
        )?;
        let named = names_known(alloc, &seat.known)?;
        Ok(named)
    }

    /// Reads the name space as `names` does, and keeps it in the seat, where `named` finds it; it serves as long as no region
    /// is read anew. After a refusal the passes have made nothing but loads.
    #[tactic(auto, using(crate::proofs::Visited::are_named_by, crate::proofs::Visited::still_seated))]
    pub fn read_names(&self, alloc: Global, seat: &mut Seat) -> Result<(), NoMemory>
        requires { IsSeated self.now seat.old.tokens }
        ensures names { OnOk result (AreNamedBy self.now seat.old.tokens seat.new.named seat.new.tokens) }
        ensures keeping { OnOk result (ReadKeeping self.now seat.old seat.new) }
        ensures loads { AreLoaded seat.old.tokens seat.new.tokens }
        ensures seated { IsSeated self.now seat.new.tokens }
    {
        read_all(
            alloc,
            &self.mounted,
            &mut seat.passes,
            &mut seat.known,
            &mut seat.spares,
            &mut seat.named,
        )?;
        keep_names(alloc, &seat.known, &mut seat.named)?;
        Ok(())
    }

    /// The description of a metric over a reading of the region in whose cluster it lies (pmLookupDesc(3)), or a status: no
    /// other region is read. After a refusal the passes have made nothing but loads.
    #[tactic(auto, using(crate::proofs::Visited::read_for_alone, crate::proofs::Visited::still_seated))]
    pub fn description(&self, alloc: Global, seat: &mut Seat, pmid: Pmid) -> Result<Desc, AskFault>
        requires { IsSeated self.now seat.old.tokens }
        ensures told { AnswerHas result (λ told. (readings : Sequence RegionReading) × IsReadFor pmid self.now seat.old.tokens readings seat.new.tokens × (told ≡ desc_asked readings pmid)) }
        ensures keeping { AnswerHas result (λ _. ReadKeepingFor pmid self.now seat.old seat.new) }
        ensures loads { AreLoaded seat.old.tokens seat.new.tokens }
        ensures seated { IsSeated self.now seat.new.tokens }
    {
        let at = read_for(
            alloc,
            &self.mounted,
            &mut seat.passes,
            &mut seat.known,
            &mut seat.spares,
            &mut seat.named,
            pmid.word(),
        )?;
        description(known_at(&seat.known, at), pmid)
    }

    /// The instances of a domain in ascending number over a reading of the region in whose cluster it lies (pmGetInDom(3)),
    /// or a status: no other region is read. After a refusal the passes have made nothing but loads.
    #[tactic(auto, using(crate::proofs::Visited::read_for_alone, crate::proofs::Visited::still_seated))]
    pub fn instances(
        &self,
        alloc: Global,
        seat: &mut Seat,
        indom: InDom,
    ) -> Result<List<(i32, Text)>, AskFault>
        requires { IsSeated self.now seat.old.tokens }
        ensures told { AnswerHas result (λ told. (readings : Sequence RegionReading) × IsReadFor indom self.now seat.old.tokens readings seat.new.tokens × (told ≡ instances_asked readings indom)) }
        ensures keeping { AnswerHas result (λ _. ReadKeepingFor indom self.now seat.old seat.new) }
        ensures loads { AreLoaded seat.old.tokens seat.new.tokens }
        ensures seated { IsSeated self.now seat.new.tokens }
    {
        let at = read_for(
            alloc,
            &self.mounted,
            &mut seat.passes,
            &mut seat.known,
            &mut seat.spares,
            &mut seat.named,
            indom.word(),
        )?;
        instances(alloc, known_at(&seat.known, at), indom)
    }
}
