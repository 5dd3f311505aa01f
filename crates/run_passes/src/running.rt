//! The regions of a script while its lines are run.
ghost use Rattle.std.specs.Prelude.{◌≡◌, ◌==◌, ◌<◌, ◌∷◌, [], IfOk, OnErr, MatchResult, length, List as Sequence};
ghost use Rattle.std.specs.List.{list_all, position};
ghost use Rattle.fetch_engine.specs.Servers.{IsSeated};
ghost use Rattle.fetch_engine.specs.declared.server.Mounted.{Mounted};
ghost use Rattle.region_rule.specs.Seats.{Token};
ghost use Rattle.run_script.specs.Rules.{KeepsRules, IsPlaced, HasPass};
ghost use Rattle.run_script.specs.declared.script.Script.{Script as Lines};
ghost use Rattle.script_runs.specs.Closing.{closed_regions};
ghost use Rattle.script_runs.specs.Regions.{ScriptRegion, made_regions};
ghost use Rattle.script_runs.specs.Runs.{are_idle};
ghost use Rattle.script_runs.specs.Steps.{pass_step, in_region};
ghost use Rattle.run_passes.specs.Works.{step_of};
ghost use Rattle.run_passes.specs.Crews.{Alone, Follows, IsAtWork, IsManned, IsPlace, ServesScript, rests};
ghost use Rattle.run_passes.specs.Openings.{AreMade};
ghost use Rattle.run_passes.specs.Runs.{HasDone, HasRun, WasCut};
ghost use Rattle.run_passes.specs.Seen.{HaveSeen};

use crate::beginning::{clusters_of, fill_all, give_back, rooms_for};
use crate::crew::{act, close_crew};
use crate::deed::Deed;
use crate::lines::deed_of;
use crate::said::Said;
use crate::worker::Worker;
use fetch_engine::{Seat, Server};
use pcp_base::NoMemory;
use region_words::Pass;
use run_script::{Line, Script};
use script_runs::make_room;
use std::alloc::Global;

/// The passes of a script's regions at work, in ascending cluster. Whatever ends a run, it has to be closed.
pub struct Running {
    pub(crate) clusters: Vec<u32>,
    pub(crate) crews: Vec<Vec<Worker>>,
}

/// The first position of a cluster.
fn place_of(clusters: &[u32], cluster: u32) -> Option<usize>
    ensures { result ≡ position (λ other. other == cluster) clusters.now }
{
    clusters.iter().position(|other| *other == cluster)
}

/// Whether no pass of a crew is at work.
fn is_idle(crew: &[Worker]) -> bool
    ensures { result ≡ list_all rests crew.now }
{
    crew.iter()
        .all(|worker| matches!(worker, Worker::Idle(_) | Worker::Away))
}

impl Running {
    /// Takes the passes that were opened for a script. Where memory is refused nothing was done, and the seat gathers them.
    pub fn begin(
        alloc: Global,
        script: &Script,
        server: &Server,
        seat: &mut Seat,
        passes: Vec<Vec<Pass>>,
    ) -> Result<Running, NoMemory>
        requires rules { KeepsRules script.now }
        requires made { AreMade script.now server.now passes.items (seat.old ∷ []) }
        ensures manned { IfOk result (λ running. IsManned server.now running seat.new.tokens) }
        ensures follows { IfOk result (λ running. Follows script.now server.now running seat.new.tokens (made_regions script.now)) }
        ensures refused { OnErr result (HaveSeen script.now (closed_regions (made_regions script.now)) server.now seat.new.tokens) }
        ensures seated { IsSeated server.now seat.new.tokens }
    {
        let Ok(clusters) = clusters_of(alloc, script) else {
            give_back(server, seat, passes);
            return Err(NoMemory);
        };
        let Ok(mut crews) = rooms_for(alloc, &passes) else {
            give_back(server, seat, passes);
            return Err(NoMemory);
        };
        fill_all(&mut crews, passes);
        Ok(Running { clusters, crews })
    }

    /// The position at which a region of the script is served.
    fn place(&self, server: &Server, script: &Script, region: u32) -> u32
        requires rules { KeepsRules script.now }
        requires serves { ServesScript script.now 1 server.now }
        requires manned { IsAtWork server.now self.now }
        requires there { region < length script.now.regions }
        ensures { IsPlace script.now server.now region result }
    {
        let row = &script.regions.as_slice()[region as usize];
        let (_, image) = &script.images.as_slice()[row.image as usize];
        let cluster = image.cluster();
        let Some(at) = place_of(&self.clusters, cluster) else {
            unreachable!()
        };
        at as u32
    }

    /// Lets a pass of a region of the script do what a line lets it do.
    fn run_deed(
        &mut self,
        alloc: Global,
        server: &Server,
        seat: &mut Seat,
        script: &Script,
        region: u32,
        pass: u32,
        deed: &Deed<'_>,
    ) -> Result<Option<Said>, NoMemory>
        requires rules { KeepsRules script.now }
        requires there { HasPass script.now.regions region pass }
        requires serves { ServesScript script.now 1 server.now }
        requires manned { IsManned server.now self.old seat.old.tokens }
        ensures manned { IsManned server.now self.new seat.new.tokens }
        ensures alone { Alone self.new seat.new.tokens → Alone self.old seat.old.tokens }
        ensures done { Alone self.new seat.new.tokens → (regions : Sequence ScriptRegion) → Follows script.now server.now self.old seat.old.tokens regions
            → HasDone (Follows script.now server.now self.new seat.new.tokens) regions (in_region regions region pass (step_of deed.now)) result }
    {
        let at = self.place(server, script, region);
        let crew = &mut self.crews[at as usize];
        act(alloc, crew, server, seat, at, pass as usize, deed)
    }

    /// Runs a line by the call of its region, and writes what it says. False: its condition failed, and nothing was done; nor was anything
    /// where memory is refused.
    pub fn run_line(
        &mut self,
        alloc: Global,
        server: &Server,
        seat: &mut Seat,
        script: &Script,
        line: &Line,
        out: &mut Vec<u8>,
    ) -> Result<bool, NoMemory>
        requires rules { KeepsRules script.now }
        requires placed { IsPlaced script.now.images script.now.regions line.now }
        requires serves { ServesScript script.now 1 server.now }
        requires manned { IsManned server.now self.old seat.old.tokens }
        ensures manned { IsManned server.now self.new seat.new.tokens }
        ensures alone { Alone self.new seat.new.tokens → Alone self.old seat.old.tokens }
        ensures runs { Alone self.new seat.new.tokens → (regions : Sequence ScriptRegion) → Follows script.now server.now self.old seat.old.tokens regions
            → MatchResult
            result
            (HasRun (Follows script.now server.now self.new seat.new.tokens) regions out.old.items out.new.items (pass_step script.now regions line.now))
            (λ _. WasCut (Follows script.now server.now self.new seat.new.tokens) regions out.old.items out.new.items) }
        ensures unwritten { OnErr result (out.new.items ≡ out.old.items) }
    {
        let Some((region, pass, deed)) = deed_of(script, line) else {
            return Ok(true);
        };
        let Ok(()) = make_room(out) else {
            return Err(NoMemory);
        };
        let Ok(answer) = self.run_deed(alloc, server, seat, script, region, pass, &deed) else {
            return Err(NoMemory);
        };
        let Some(said) = answer else {
            return Ok(false);
        };
        said.write(out);
        Ok(true)
    }

    /// Whether no pass of the script is at work.
    pub fn is_idle(&self, server: &Server, script: &Script) -> bool
        requires rules { KeepsRules script.now }
        requires serves { ServesScript script.now 1 server.now }
        requires manned { IsAtWork server.now self.now }
        ensures { (seat : Sequence Token) (regions : Sequence ScriptRegion) → IsManned server.now self.now seat → Follows script.now server.now self.now seat regions → result ≡ are_idle regions }
    {
        for region in 0..script.regions.len() as u32 {
            let at = self.place(server, script, region);
            if !is_idle(&self.crews[at as usize]) {
                return false;
            }
        }
        true
    }

    /// Ends what passes are doing: the change first, then stints, then readings, each by rising pass. Then the seat gathers all
    /// passes, and so knows that nobody else acted.
    pub fn close(self, alloc: Global, server: &Server, seat: &mut Seat)
        requires manned { IsManned server.now self seat.old.tokens }
        ensures seated { IsSeated server.now seat.new.tokens }
        ensures alone { Alone self seat.old.tokens }
        ensures seen { (script : Lines) (regions : Sequence ScriptRegion) → Follows script server.now self seat.old.tokens regions
            → HaveSeen script (closed_regions regions) server.now seat.new.tokens }
    {
        let Running { clusters: _, crews } = self;
        let mut crews = crews;
        while let Some(crew) = crews.pop() {
            close_crew(alloc, crew, server, seat, crews.len() as u32);
        }
        crews.destroy_empty();
    }
}
