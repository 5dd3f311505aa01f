//! What an image says, row by row.
use pcp_base::{Kind, List, Semantics, Text, Units};

/// A word that holds a value: the item of its metric, its instance (-1 for a metric without a domain), the
/// metric's kind, and the index of the word in the image.
#[derive(Clone, Copy)]
pub struct Slot {
    pub item: u32,
    pub instance: i32,
    pub kind: Kind,
    pub word: u32,
}

/// What an image says of a metric (mmv(5)). `serial` is that of its instance domain, and without one `None`;
/// so are absent help texts.
#[derive(Drop)]
pub struct MetricRow {
    pub name: Text,
    pub item: u32,
    pub kind: Kind,
    pub semantics: Semantics,
    pub units: Units,
    pub serial: Option<u32>,
    pub short: Option<Text>,
    pub long: Option<Text>,
}

/// What an image says of an instance domain: its serial, its instances by number and name in the order of its run,
/// and its help texts, if it has them.
#[derive(Drop)]
pub struct IndomRow {
    pub serial: u32,
    pub instances: List<(i32, Text)>,
    pub short: Option<Text>,
    pub long: Option<Text>,
}

/// The content of a value, by the kind of its metric: the whole value field, the text of its string, or the value
/// field and the extra field.
#[derive(Drop)]
pub enum Content {
    Number(u64),
    Choice(Text),
    Raw(u64, u64),
}

/// What an image says of a value: the item of its metric, and the number of its instance, `None` exactly where the
/// metric has no domain.
#[derive(Drop)]
pub struct ValueRow {
    pub item: u32,
    pub instance: Option<i32>,
    pub content: Content,
}

/// What an image says (mmv(5)): its header, and each section's rows in order. `generation` stands twice in an image.
#[derive(Drop)]
pub struct Layout {
    pub version: u32,
    pub generation: u64,
    pub flags: u32,
    pub pid: u32,
    pub cluster: u32,
    pub indoms: List<IndomRow>,
    pub metrics: List<MetricRow>,
    pub values: List<ValueRow>,
    pub strings: List<Text>,
}
