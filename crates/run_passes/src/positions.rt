//! Where the regions of a script are served.
ghost use Rattle.std.specs.Prelude.{◌≡◌, ◌==◌, ◌<◌, ℕ, IfOk, length, List as Sequence};
ghost use Rattle.std.specs.List.{position};
ghost use Rattle.fetch_engine.specs.declared.server.Mounted.{Mounted};
ghost use Rattle.run_script.specs.Rules.{KeepsRules};
ghost use Rattle.run_passes.specs.Crews.{ServesScript, clusters_in};
ghost use Rattle.run_passes.specs.Hands.{AreServedAt, IsServedAt};

use fetch_engine::Server;
use pcp_base::NoMemory;
use run_script::Script;
use std::alloc::Global;

/// The clusters of a script's regions, ascending.
fn clusters_of(alloc: Global, script: &Script) -> Result<Vec<u32>, NoMemory>
    requires rules { KeepsRules script.now }
    ensures { IfOk result (λ clusters. (seats : ℕ) (server : Sequence Mounted) → ServesScript script.now seats server → clusters.items ≡ clusters_in server) }
{
    let mut clusters = Vec::new(alloc);
    for row in script.regions.as_slice() {
        let (_, image) = &script.images.as_slice()[row.image as usize];
        clusters.push(image.cluster())?;
    }
    clusters.sort_unstable();
    Ok(clusters)
}

/// The first position of a cluster.
fn position_of(clusters: &[u32], cluster: u32) -> Option<usize>
    ensures { result ≡ position (λ other. other == cluster) clusters.now }
{
    clusters.iter().position(|other| *other == cluster)
}

/// The position at which a region of the script is served.
fn place_at(clusters: &[u32], script: &Script, server: &Server, region: usize) -> usize
    requires rules { KeepsRules script.now }
    requires serves { (seats : ℕ) × ServesScript script.now seats server.now }
    requires clusters { clusters.now ≡ clusters_in server.now }
    requires there { region < length script.now.regions }
    ensures { IsServedAt script.now server.now region result }
{
    let row = &script.regions.as_slice()[region];
    let (_, image) = &script.images.as_slice()[row.image as usize];
    let cluster = image.cluster();
    let Some(at) = position_of(clusters, cluster) else {
        unreachable!()
    };
    at
}

/// The positions at which the regions of a script are served, in the script's order.
pub(crate) fn places_of(
    alloc: Global,
    script: &Script,
    server: &Server,
) -> Result<Vec<usize>, NoMemory>
    requires rules { KeepsRules script.now }
    requires serves { (seats : ℕ) × ServesScript script.now seats server.now }
    ensures { IfOk result (λ places. AreServedAt script.now server.now places.items) }
{
    let clusters = clusters_of(alloc, script)?;
    let mut places = Vec::new(alloc);
    for region in 0..script.regions.len() {
        let at = place_at(&clusters, script, server, region);
        places.push(at)?;
    }
    Ok(places)
}
