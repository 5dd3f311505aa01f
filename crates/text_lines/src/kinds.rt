//! The kind of each item, looked up in an ordered map.
ghost use Rattle.std.specs.Prelude.{◌≡◌, ◌==◌, ℕ, OnOk, IfOk};
ghost use Rattle.std.specs.Ordering.{nat_cmp};
ghost use Rattle.std.specs.BTreeMap.{get};
ghost use Rattle.text_lines.specs.Whole.{kept_or, kind_of_item, AreKinds};

use mmv_layout::MetricRow;
use pcp_base::{Kind, NoMemory};
use std::alloc::Global;
use std::collections::BTreeMap;
use std::marker::Model;

/// Metrics, of which the kinds are looked up by item; of several with one item the first's.
#[derive(Drop)]
pub struct KindTable<'a> {
    metrics: &'a [MetricRow],
    kinds: BTreeMap<u32, Kind>,
}

impl<'a> Model for KindTable<'a> {
    ghost use Rattle.std.specs.Prelude.{List};
    ghost use Rattle.mmv_layout.specs.declared.rows.MetricRow.{MetricRow};
    ghost use Rattle.text_lines.specs.Whole.{AreKinds};

    ghost Value = { List MetricRow };

    ghost view = { λ a. a.metrics.now };

    ghost invariant = { λ a. AreKinds a.kinds a.metrics.now };
}

// Keeps the kind of an item, unless one of it is kept.
#[tactic(auto, using(crate::proofs::KindRows::kind_there, crate::proofs::KindRows::kind_new))]
fn keep_kind(kinds: &mut BTreeMap<u32, Kind>, item: u32, kind: Kind) -> Result<(), NoMemory>
    ensures { OnOk result ((q : ℕ) → get nat_cmp kinds.new q ≡ kept_or (get nat_cmp kinds.old q) (item == q) kind) }
{
    if kinds.contains_key(&item) {
        return Ok(());
    }
    kinds.insert(item, kind)?;
    Ok(())
}

// The kind of each item's first metric.
fn kinds_of(alloc: Global, metrics: &[MetricRow]) -> Result<BTreeMap<u32, Kind>, NoMemory>
    ensures { IfOk result (λ kinds. AreKinds kinds metrics.now) }
{
    let mut kinds = BTreeMap::new(alloc);
    for row in metrics {
        keep_kind(&mut kinds, row.item, row.kind)?;
    }
    Ok(kinds)
}

impl<'a> KindTable<'a> {
    /// The table of these metrics.
    pub fn of(alloc: Global, metrics: &'a [MetricRow]) -> Result<KindTable<'a>, NoMemory>
        ensures { IfOk result (λ table. table ≡ metrics.now) }
    {
        let kinds = kinds_of(alloc, metrics)?;
        Ok(KindTable { metrics, kinds })
    }

    /// The kind of an item; `U64` without a metric, as which a number is written as it stands.
    pub fn kind_of_item(&self, item: u32) -> Kind
        ensures { result ≡ kind_of_item item self.now }
    {
        match self.kinds.get(&item) {
            None => Kind::U64,
            Some(kind) => *kind,
        }
    }
}
