//! What a run begins with: the clusters of a script's regions, and their passes, none of which does anything.
ghost use Rattle.std.specs.Prelude.{◌≡◌, ◌≤◌, ◌∷◌, [], IfOk, length, vec_capacity, List as Sequence};
ghost use Rattle.fetch_engine.specs.Servers.{IsSeated};
ghost use Rattle.fetch_engine.specs.declared.server.Mounted.{Mounted};
ghost use Rattle.run_script.specs.Rules.{KeepsRules};
ghost use Rattle.run_passes.specs.Crews.{ServesScript, clusters_in};
ghost use Rattle.run_passes.specs.Lasts.{AreLast};
ghost use Rattle.run_passes.specs.Openings.{AreBare, AreCrews, AreMade, HaveRoomsFor, SeesTheSame, idle_crew};
ghost use Rattle.run_script.specs.declared.script.Script.{Script as Lines};

use crate::crew::gather_passes;
use crate::worker::Worker;
use fetch_engine::{Seat, Server};
use pcp_base::NoMemory;
use region_words::Pass;
use run_script::Script;
use std::alloc::Global;

/// The clusters of a script's regions, ascending.
pub fn clusters_of(alloc: Global, script: &Script) -> Result<Vec<u32>, NoMemory>
    requires rules { KeepsRules script.now }
    ensures { IfOk result (λ clusters. (server : Sequence Mounted) → ServesScript script.now 1 server → clusters.items ≡ clusters_in server) }
{
    let mut clusters = Vec::new(alloc);
    for row in script.regions.as_slice() {
        let (_, image) = &script.images.as_slice()[row.image as usize];
        clusters.push(image.cluster())?;
    }
    clusters.sort_unstable();
    Ok(clusters)
}

/// Lets go of crews without a pass.
fn let_go(rooms: Vec<Vec<Worker>>)
    requires bare { AreBare rooms.items }
{
    let mut rooms = rooms;
    while let Some(room) = rooms.pop() {
        room.destroy_empty();
    }
    rooms.destroy_empty();
}

/// A crew for each list of passes, which has room for them and none of them yet.
pub fn rooms_for(alloc: Global, passes: &[Vec<Pass>]) -> Result<Vec<Vec<Worker>>, NoMemory>
    ensures { IfOk result (λ rooms. HaveRoomsFor passes.now rooms.items) }
{
    let Ok(mut rooms) = Vec::with_capacity(alloc, passes.len()) else {
        return Err(NoMemory);
    };
    for list in passes {
        let Ok(room) = Vec::with_capacity(alloc, list.len()) else {
            let_go(rooms);
            return Err(NoMemory);
        };
        rooms.push_reserved(room);
    }
    Ok(rooms)
}

/// Puts passes into a crew that has room for them.
fn fill(crew: &mut Vec<Worker>, passes: Vec<Pass>)
    requires bare { crew.old.items ≡ [] }
    requires room { length passes.items ≤ vec_capacity crew.old }
    ensures { crew.new.items ≡ idle_crew passes.items }
{
    for pass in passes {
        crew.push_reserved(Worker::Idle(pass));
    }
}

/// Puts the passes of each list into the crew that has room for them.
pub fn fill_all(crews: &mut Vec<Vec<Worker>>, passes: Vec<Vec<Pass>>)
    requires rooms { HaveRoomsFor passes.items crews.old.items }
    ensures { AreCrews passes.items crews.new.items }
{
    let mut passes = passes;
    while let Some(list) = passes.pop() {
        let at = passes.len();
        fill(&mut crews[at], list);
    }
}

/// The seat gathers the passes of a script's regions, none of which was put to work.
pub fn give_back(server: &Server, seat: &mut Seat, passes: Vec<Vec<Pass>>)
    requires made { (script : Lines) × AreMade script server.now passes.items (seat.old ∷ []) }
    ensures same { SeesTheSame seat.old.tokens seat.new.tokens }
    ensures last { AreLast seat.new.tokens }
    ensures seated { IsSeated server.now seat.new.tokens }
{
    let mut passes = passes;
    while let Some(list) = passes.pop() {
        gather_passes(list, server, seat, passes.len() as u32);
    }
}
