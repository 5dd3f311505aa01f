//! Regions that are served under their clusters and FILEs.
ghost use Rattle.std.specs.Prelude.{◌≡◌, [], length, slice_get, option_map, bytes_eq, List as Sequence, take, Some, None, All, IfOk, MatchResult, MatchOption, ◌<◌};
ghost use Rattle.std.specs.Option.{option_copied};
ghost use Rattle.std.specs.List.{list_any};
ghost use Rattle.fetch_engine.specs.Kept.{AreUnknown};
ghost use Rattle.pcp_base.specs.Names.{spells_component};
ghost use Rattle.fetch_engine.specs.Servers.{IsSeated, IsServerOf, has_cluster, has_file, has_wrong_cluster, has_wrong_file, none_kept, server_fault, wrong_cluster, wrong_file};
ghost use Rattle.fetch_engine.specs.declared.server.Mounted.{Mounted as Row};

use crate::seat::Seat;
use fetch_answers::{Known, Told};
use pcp_base::{Duplicate, NoMemory, Text, spells_component};
use region_words::{Pass, Region};
use std::alloc::Global;
use std::marker::Model;
use thiserror::Error;

/// How many regions are served at most.
const LIMIT: usize = 64;

/// A region, and the FILE and cluster under which it is served.
#[derive(Drop)]
pub struct Mounted {
    pub file: Text,
    pub cluster: u32,
    pub region: Region,
}

/// Why regions can't be served. Where there are several causes, the first of these comes, for the first such region.
#[derive(Clone, Copy, Debug, Error)]
pub enum ServerFault {
    /// More than 64 regions.
    #[error("{count} regions are to be served")]
    TooMany { count: u64 },
    /// A cluster is above 4095, or a region's before it.
    #[error("cluster {cluster} is too large, or stands twice")]
    Cluster { cluster: u64 },
    /// The FILE at this position is no component of a name, or a region's before it.
    #[error("the FILE of region {index} is no component of a name, or stands twice")]
    File { index: u64 },
}

/// At most 64 regions, in ascending cluster, which threads share.
#[derive(Drop)]
pub struct Server {
    pub(crate) mounted: Vec<Mounted>,
}

impl Model for Server {
    ghost use Rattle.std.specs.Prelude.{List as Sequence};
    ghost use Rattle.fetch_engine.specs.Servers.{IsServer};
    ghost use Rattle.fetch_engine.specs.declared.server.Mounted.{Mounted as Row};

    ghost Value = { Sequence Row };

    ghost view = { λ a. a.mounted.items };

    ghost invariant = { λ a. IsServer a.mounted.items };
}

fn has_cluster(rows: &[Mounted], cluster: u32) -> bool
    ensures { result ≡ has_cluster rows.now cluster }
{
    rows.iter().any(|row| row.cluster == cluster)
}

fn has_file(rows: &[Mounted], file: &Text) -> bool
    ensures { result ≡ has_file rows.now file.now }
{
    rows.iter()
        .any(|row| row.file.as_slice() == file.as_slice())
}

fn has_wrong_cluster(before: &[Mounted], row: &Mounted) -> bool
    ensures { result ≡ has_wrong_cluster before.now row.now }
{
    row.cluster > 4095 || has_cluster(before, row.cluster)
}

fn has_wrong_file(before: &[Mounted], row: &Mounted) -> bool
    ensures { result ≡ has_wrong_file before.now row.now }
{
    !spells_component(row.file.as_slice()) || has_file(before, &row.file)
}

/// The first wrong cluster.
#[tactic(auto, using(crate::proofs::Served::cluster_right, crate::proofs::Served::cluster_wrong, crate::proofs::Served::clusters_right))]
fn wrong_cluster(rows: &[Mounted]) -> Option<u32>
    ensures { result ≡ wrong_cluster [] rows.now }
{
    for at in 0..rows.len() {
        if has_wrong_cluster(&rows[..at], &rows[at]) {
            return Some(rows[at].cluster);
        }
    }
    None
}

/// The position of the first wrong FILE.
#[tactic(auto, using(crate::proofs::Served::file_right, crate::proofs::Served::file_wrong, crate::proofs::Served::files_right))]
fn wrong_file(rows: &[Mounted]) -> Option<usize>
    ensures { result ≡ wrong_file [] rows.now }
{
    for at in 0..rows.len() {
        if has_wrong_file(&rows[..at], &rows[at]) {
            return Some(at);
        }
    }
    None
}

/// Why the regions can't be served.
fn server_fault(rows: &[Mounted]) -> Option<ServerFault>
    ensures { result ≡ server_fault rows.now }
{
    if rows.len() > LIMIT {
        let count = rows.len() as u64;
        return Some(ServerFault::TooMany { count });
    }
    if let Some(cluster) = wrong_cluster(rows) {
        let cluster = u64::from(cluster);
        return Some(ServerFault::Cluster { cluster });
    }
    let index = wrong_file(rows)? as u64;
    Some(ServerFault::File { index })
}

/// Regions of which nothing is known yet.
fn none_known(alloc: Global, rows: &[Mounted]) -> Result<Vec<Known>, NoMemory>
    requires { All (λ row. row.cluster < 4096) rows.now }
    ensures { IfOk result (λ known. AreUnknown (length rows.now) known.items) }
{
    let mut known = Vec::new(alloc);
    for row in rows {
        known.push(Known {
            file: row.file.copy(alloc)?,
            cluster: row.cluster,
            told: None,
        })?;
    }
    Ok(known)
}

/// Places for what is kept of regions that are missed.
fn no_spares(alloc: Global, rows: &[Mounted]) -> Result<Vec<Option<Told>>, NoMemory>
    ensures { IfOk result (λ spares. spares.items ≡ none_kept rows.now) }
{
    let mut spares = Vec::new(alloc);
    for _row in rows {
        spares.push(None)?;
    }
    Ok(spares)
}

impl Server {
    /// The server of these regions, which may stand in any order.
    pub fn new(mounted: Vec<Mounted>) -> Result<Server, ServerFault>
        ensures { MatchResult result (IsServerOf mounted.items) (λ fault. server_fault mounted.items ≡ Some fault) }
    {
        match server_fault(&mounted) {
            Some(fault) => return Err(fault),
            None => {}
        }
        let mut mounted = mounted;
        mounted.sort_unstable_by_key(|row| row.cluster);
        Ok(Server { mounted })
    }

    /// The region at a position in ascending cluster; `None` exactly past the last.
    pub fn region(&self, index: u32) -> Option<&Region>
        ensures { option_copied result ≡ option_map (λ (row : Row). row.region) (slice_get self.now index) }
    {
        Some(&self.mounted.get(index as usize)?.region)
    }

    /// A seat with these passes, one of each region in ascending cluster; nothing is kept of the regions yet, and no names.
    #[tactic(auto, using(crate::proofs::Holding::unknown_kept, crate::proofs::Holding::unknown_none, crate::proofs::SeatPasses::is_there))]
    pub fn seat(&self, alloc: Global, passes: Vec<Pass>) -> Result<Seat, (Vec<Pass>, NoMemory)>
        requires { IsSeated self.now passes.items }
        ensures { MatchResult result (λ seat. (seat.tokens ≡ passes.items) × (seat.kept ≡ none_kept self.now) × (seat.named ≡ None)) (λ refused. refused.0.items ≡ passes.items) }
    {
        let Ok(known) = none_known(alloc, &self.mounted) else {
            return Err((passes, NoMemory));
        };
        match no_spares(alloc, &self.mounted) {
            Ok(spares) => Ok(Seat {
                passes,
                known,
                spares,
                named: None,
            }),
            Err(NoMemory) => Err((passes, NoMemory)),
        }
    }
}
