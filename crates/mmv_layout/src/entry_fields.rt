//! The fields of an image's entries, each by the offset of its entry. A field's own offset in the entry has a name where
//! a fault tells it.
ghost use Rattle.std.specs.Prelude.{◌≡◌, ◌+◌, ◌<◌, ◌≤◌, ◌^◌, IfOk};
ghost use Rattle.mmv_layout.specs.EntryFields.{serial_in_indom, count_in_indom, first_in_indom, short_offset_in_indom, long_offset_in_indom, domain_in_instance, number_in_instance, name_in_instance, name_in_metric, item_offset_in_metric, item_in_metric, type_offset_in_metric, type_in_metric, semantics_offset_in_metric, semantics_in_metric, units_offset_in_metric, units_in_metric, serial_offset_in_metric, serial_in_metric, short_offset_in_metric, long_offset_in_metric, value_in_value, extra_in_value, metric_in_value, instance_in_value};

use crate::fields::{number32, number64};
use crate::header::version_in;
use crate::names::name_text;
use crate::sizes::name_width;
use pcp_base::Text;
use std::alloc::{AllocError, Global};

/// The first instance of a domain.
pub const FIRST_OFFSET: u64 = 8;

pub const NUMBER_OFFSET: u64 = 12;

/// An instance's name field.
pub const NAME_OFFSET: u64 = 16;

pub const EXTRA_OFFSET: u64 = 8;

pub const METRIC_OFFSET: u64 = 16;

/// A value's instance.
pub const INSTANCE_OFFSET: u64 = 24;

pub fn serial_in_indom(words: &[u64], indom: u128) -> u32
    ensures { result ≡ serial_in_indom words.now indom }
{
    number32(words, indom)
}

/// How many instances a domain has.
pub fn count_in_indom(words: &[u64], indom: u128) -> u32
    requires { indom < 2 ^ 80 }
    ensures { result ≡ count_in_indom words.now indom }
{
    number32(words, indom + 4)
}

/// The offset of a domain's first instance.
pub fn first_in_indom(words: &[u64], indom: u128) -> u64
    requires { indom < 2 ^ 80 }
    ensures { result ≡ first_in_indom words.now indom }
{
    number64(words, indom + FIRST_OFFSET as u128)
}

/// The offset of a domain's short help field.
pub fn short_offset_in_indom(indom: u128) -> u128
    requires { indom < 2 ^ 80 }
    ensures { result ≡ short_offset_in_indom indom }
{
    indom + 16
}

pub fn long_offset_in_indom(indom: u128) -> u128
    requires { indom < 2 ^ 80 }
    ensures { result ≡ long_offset_in_indom indom }
{
    indom + 24
}

/// The offset of an instance's domain.
pub fn domain_in_instance(words: &[u64], instance: u128) -> u64
    ensures { result ≡ domain_in_instance words.now instance }
{
    number64(words, instance)
}

/// An instance's number, as it stands: of two's complement.
pub fn number_in_instance(words: &[u64], instance: u128) -> u32
    requires { instance < 2 ^ 80 }
    ensures { result ≡ number_in_instance words.now instance }
{
    number32(words, instance + NUMBER_OFFSET as u128)
}

pub fn name_in_instance(alloc: Global, words: &[u64], instance: u128) -> Result<Text, AllocError>
    requires { instance < 2 ^ 80 }
    ensures { IfOk result (λ name. name ≡ name_in_instance words.now instance) }
{
    name_text(alloc, words, instance + NAME_OFFSET as u128)
}

pub fn name_in_metric(alloc: Global, words: &[u64], metric: u128) -> Result<Text, AllocError>
    requires { metric < 2 ^ 80 }
    ensures { IfOk result (λ name. name ≡ name_in_metric words.now metric) }
{
    name_text(alloc, words, metric)
}

/// The offset of a metric's item, behind its name field; so of its other fields.
pub fn item_offset_in_metric(words: &[u64], metric: u128) -> u128
    requires { metric < 2 ^ 80 }
    ensures offset { result ≡ item_offset_in_metric words.now metric }
    ensures near { result ≤ metric + 64 }
{
    metric + name_width(version_in(words)) as u128
}

pub fn item_in_metric(words: &[u64], metric: u128) -> u32
    requires { metric < 2 ^ 80 }
    ensures { result ≡ item_in_metric words.now metric }
{
    number32(words, item_offset_in_metric(words, metric))
}

pub fn type_offset_in_metric(words: &[u64], metric: u128) -> u128
    requires { metric < 2 ^ 80 }
    ensures offset { result ≡ type_offset_in_metric words.now metric }
    ensures near { result < metric + 104 }
{
    item_offset_in_metric(words, metric) + 4
}

pub fn type_in_metric(words: &[u64], metric: u128) -> u32
    requires { metric < 2 ^ 80 }
    ensures { result ≡ type_in_metric words.now metric }
{
    number32(words, type_offset_in_metric(words, metric))
}

pub fn semantics_offset_in_metric(words: &[u64], metric: u128) -> u128
    requires { metric < 2 ^ 80 }
    ensures offset { result ≡ semantics_offset_in_metric words.now metric }
    ensures near { result < metric + 104 }
{
    item_offset_in_metric(words, metric) + 8
}

pub fn semantics_in_metric(words: &[u64], metric: u128) -> u32
    requires { metric < 2 ^ 80 }
    ensures { result ≡ semantics_in_metric words.now metric }
{
    number32(words, semantics_offset_in_metric(words, metric))
}

pub fn units_offset_in_metric(words: &[u64], metric: u128) -> u128
    requires { metric < 2 ^ 80 }
    ensures offset { result ≡ units_offset_in_metric words.now metric }
    ensures near { result < metric + 104 }
{
    item_offset_in_metric(words, metric) + 12
}

pub fn units_in_metric(words: &[u64], metric: u128) -> u32
    requires { metric < 2 ^ 80 }
    ensures { result ≡ units_in_metric words.now metric }
{
    number32(words, units_offset_in_metric(words, metric))
}

pub fn serial_offset_in_metric(words: &[u64], metric: u128) -> u128
    requires { metric < 2 ^ 80 }
    ensures offset { result ≡ serial_offset_in_metric words.now metric }
    ensures near { result < metric + 104 }
{
    item_offset_in_metric(words, metric) + 16
}

/// The serial of a metric's domain, as it stands.
pub fn serial_in_metric(words: &[u64], metric: u128) -> u32
    requires { metric < 2 ^ 80 }
    ensures { result ≡ serial_in_metric words.now metric }
{
    number32(words, serial_offset_in_metric(words, metric))
}

/// The offset of a metric's short help field.
pub fn short_offset_in_metric(words: &[u64], metric: u128) -> u128
    requires { metric < 2 ^ 80 }
    ensures offset { result ≡ short_offset_in_metric words.now metric }
    ensures near { result < metric + 104 }
{
    item_offset_in_metric(words, metric) + 24
}

pub fn long_offset_in_metric(words: &[u64], metric: u128) -> u128
    requires { metric < 2 ^ 80 }
    ensures offset { result ≡ long_offset_in_metric words.now metric }
    ensures near { result < metric + 104 }
{
    item_offset_in_metric(words, metric) + 32
}

/// The whole value field.
pub fn value_in_value(words: &[u64], value: u128) -> u64
    ensures { result ≡ value_in_value words.now value }
{
    number64(words, value)
}

/// The extra field, of a string value the offset of its string.
pub fn extra_in_value(words: &[u64], value: u128) -> u64
    requires { value < 2 ^ 80 }
    ensures { result ≡ extra_in_value words.now value }
{
    number64(words, value + EXTRA_OFFSET as u128)
}

/// The offset of a value's metric.
pub fn metric_in_value(words: &[u64], value: u128) -> u64
    requires { value < 2 ^ 80 }
    ensures { result ≡ metric_in_value words.now value }
{
    number64(words, value + METRIC_OFFSET as u128)
}

/// The offset of a value's instance, or 0.
pub fn instance_in_value(words: &[u64], value: u128) -> u64
    requires { value < 2 ^ 80 }
    ensures { result ≡ instance_in_value words.now value }
{
    number64(words, value + INSTANCE_OFFSET as u128)
}
