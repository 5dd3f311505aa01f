//! A line of layout text, and the content of a value as it stands there.
use mmv_layout::MetricRow;
use pcp_base::Text;

/// A line of layout text: what an image says, a row at a time (mmv(5)).
#[derive(Drop)]
pub enum Line {
    /// The image's version, generation, flags, process and cluster; it comes first.
    Mmv {
        version: u32,
        generation: u64,
        flags: u32,
        pid: u32,
        cluster: u32,
    },
    /// A string of the image.
    String(Text),
    /// An instance domain and its help texts; its instances have lines of their own.
    Indom {
        serial: u32,
        short: Option<Text>,
        long: Option<Text>,
    },
    /// An instance of the domain with this serial.
    Instance {
        serial: u32,
        id: i32,
        name: Text,
    },
    /// A metric.
    Metric(MetricRow),
    /// A value of the metric with this item; `instance` is `None` for a metric without a domain.
    Value {
        item: u32,
        instance: Option<i32>,
        content: Written,
    },
}

/// The content of a value as a line has it; only the metric's kind says what it means.
#[derive(Drop)]
pub enum Written {
    /// A whole number of at most 20 digits; whether a kind has it shows later.
    Number(i128),
    /// A quoted text.
    Quoted(Text),
    /// The value field and the extra field as they stand.
    Raw(u64, u64),
}
