//! What a region showed when it was read last: its words, with its metrics, and the rows of its values by item. As long as the
//! region's generation stands, its value words alone change, for which there is room.
ghost use Rattle.std.specs.Prelude.{◌≡◌, All, IfOk, IfSome, slice_get, slice_index};
ghost use Rattle.std.specs.Option.{option_copied};
ghost use Rattle.mmv_layout.specs.Rows.{layout_of};
ghost use Rattle.fetch_answers.specs.Answers.{metric_with};
ghost use Rattle.fetch_answers.specs.Bounds.{FitsMetric};
ghost use Rattle.fetch_answers.specs.Numbers.{contents_at, numbers_at, value_words};
ghost use Rattle.fetch_answers.specs.Values.{values_with};

use crate::index::{RowNumbers, places_by_item, rows_by_item};
use crate::shot::layout_in;
use mmv_layout::{Image, IndomRow, MetricRow, value_count};
use pcp_base::{List, NoMemory};
use std::alloc::Global;
use std::collections::BTreeMap;
use std::marker::Model;

/// The words of a region's image, with its metrics and their places by item, and the rows of its values by item. Whoever
/// reads the region again finds the value words at `indexes`, and room for them in `found`.
#[derive(Drop)]
pub struct Told {
    pub words: Vec<u64>,
    pub generation: u64,
    pub indexes: Vec<u32>,
    pub found: Vec<u64>,
    pub flags: u32,
    pub indoms: List<IndomRow>,
    pub metrics: List<MetricRow>,
    pub places: BTreeMap<u32, usize>,
    pub numbers: BTreeMap<u32, RowNumbers>,
}

impl Model for Told {
    ghost use Rattle.std.specs.Prelude.{List as Sequence, ℕ};
    ghost use Rattle.fetch_answers.specs.Numbers.{IsTold};

    ghost Value = { Sequence ℕ };

    ghost view = { λ a. a.words.items };

    ghost invariant = { λ a. IsTold a.words.items a.generation a.indexes.items a.found.items a.flags a.indoms a.metrics a.places a.numbers };
}

/// The value words of an image, in the order of its values.
fn indexes_of(alloc: Global, image: &Image) -> Result<Vec<u32>, NoMemory>
    ensures { IfOk result (λ indexes. indexes.items ≡ value_words image.now) }
{
    let slots = image.slots(alloc)?;
    let mut indexes = Vec::new(alloc);
    for slot in slots.as_slice() {
        indexes.push(slot.word)?;
    }
    Ok(indexes)
}

/// The metric at a place, if there is one.
fn metric_at(rows: &[MetricRow], place: usize) -> Option<&MetricRow>
    ensures { option_copied result ≡ slice_get rows.now place }
{
    rows.get(place)
}

impl Told {
    /// What an image says, by item.
    pub fn of_image(alloc: Global, image: Image) -> Result<Told, NoMemory>
        ensures { IfOk result (λ told. told ≡ image) }
    {
        let layout = layout_in(alloc, &image)?;
        let indexes = indexes_of(alloc, &image)?;
        let found = Vec::from_elem(alloc, 0u64, indexes.len())?;
        let places = places_by_item(alloc, layout.metrics.as_slice())?;
        let count = value_count(image.words());
        let numbers = rows_by_item(alloc, layout.values.as_slice(), count)?;
        Ok(Told {
            generation: image.words()[1],
            words: image.into_words(),
            indexes,
            found,
            flags: layout.flags,
            indoms: layout.indoms,
            metrics: layout.metrics,
            places,
            numbers,
        })
    }

    /// The generation of the image.
    pub fn generation(&self) -> u64
        ensures { result ≡ slice_index self.now 1 }
    {
        self.generation
    }

    /// The words of the image.
    pub fn words(&self) -> &[u64]
        ensures { result.now ≡ self.now }
    {
        self.words.as_slice()
    }

    /// The flags of the image.
    pub fn flags(&self) -> u32
        ensures { result ≡ (layout_of self.now).flags }
    {
        self.flags
    }

    /// The instance domains of the image.
    pub fn indoms(&self) -> &[IndomRow]
        ensures { result.now ≡ (layout_of self.now).indoms }
    {
        self.indoms.as_slice()
    }

    /// The metrics of the image, in the order of their section.
    #[tactic(auto, using(crate::proofs::Numbers::metrics_fit))]
    pub fn metrics(&self) -> &[MetricRow]
        ensures value { result.now ≡ (layout_of self.now).metrics }
        ensures fit { All FitsMetric result.now }
    {
        self.metrics.as_slice()
    }

    /// The metric of an item.
    #[tactic(auto, using(crate::proofs::Numbers::metric_told, crate::proofs::Numbers::no_metric, crate::proofs::Numbers::metric_fits))]
    pub fn metric(&self, item: u32) -> Option<&MetricRow>
        ensures value { option_copied result ≡ metric_with item (layout_of self.now).metrics }
        ensures fits { IfSome (option_copied result) (λ metric. FitsMetric metric) }
    {
        match self.places.get(&item) {
            Some(place) => metric_at(self.metrics.as_slice(), *place),
            None => None,
        }
    }

    /// The rows of an item's values by instance, if it has any.
    #[tactic(auto, using(crate::proofs::Numbers::values_told))]
    pub fn numbers(&self, item: u32) -> Option<&RowNumbers>
        ensures { contents_at self.now (numbers_at (option_copied result)) ≡ values_with item (layout_of self.now).values }
    {
        self.numbers.get(&item)
    }
}
