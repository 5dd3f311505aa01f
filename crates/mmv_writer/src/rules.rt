//! The rules of single rows.
ghost use Rattle.std.specs.Prelude.{◌≡◌, ◌<◌, ◌&&◌, ◌==◌, ℕ, false, None, bytes_eq, slice_index};
ghost use Rattle.std.specs.List.{list_any};
ghost use Rattle.mmv_layout.specs.Entries.{is_serial};
ghost use Rattle.mmv_writer.specs.Rules.{is_long, is_long_help, header_fault, is_short_name, is_instance_name, is_metric_name, fits_kind, is_long_content, text_fault};
ghost use Rattle.mmv_writer.specs.Keys.{fits_domain};
ghost use Rattle.mmv_writer.specs.Draft.{IsStored, IsHelp, IsContent, IsString};

use crate::fault::BuildFault;
use crate::keys::{DomainKeys, fits_domain};
use mmv_layout::{Content, MetricRow, ValueRow, is_version, name_room};
use pcp_base::{Kind, Text, is_name};
use std::collections::BTreeMap;

/// The longest text of a string, in bytes.
const MOST_TEXT: usize = 255;

/// Whether so many bytes are too long for a string.
fn are_long(bytes: &[u8]) -> bool
    ensures value { result ≡ is_long bytes.now }
    ensures range { (j : ℕ) → slice_index bytes.now j < 256 }
{
    bytes.len() > MOST_TEXT
}

/// Whether a text is too long for a string.
fn is_long(text: &Text) -> bool
    ensures value { result ≡ is_long text.now }
    ensures stored { IsStored text.now }
{
    are_long(text.as_slice())
}

/// Whether there is a help that is too long for a string.
pub fn is_long_help(help: &Option<Text>) -> bool
    ensures value { result ≡ is_long_help help.now }
    ensures help { result ≡ false → IsHelp help.now }
{
    match help {
        None => false,
        Some(text) => is_long(text),
    }
}

/// Whether a serial is one of a domain.
pub fn is_serial(serial: u32) -> bool
    ensures { result ≡ is_serial serial }
{
    serial >= 1 && serial <= 1023
}

/// Why there is no image of this version and cluster.
pub fn header_fault(version: u32, cluster: u32) -> Option<BuildFault>
    ensures { result ≡ header_fault version cluster }
{
    if is_version(version) && cluster <= 4095 {
        None
    } else {
        Some(BuildFault::Serial)
    }
}

/// Whether so many bytes aren't too long for a name of a version.
fn is_short_name(version: u32, bytes: &[u8]) -> bool
    ensures { result ≡ is_short_name version bytes.now }
{
    (bytes.len() as u64) < name_room(version) as u64
}

/// Whether a text can name an instance.
#[tactic(auto, using(crate::proofs::Rows::too_long))]
pub fn is_instance_name(version: u32, name: &Text) -> bool
    ensures value { result ≡ is_instance_name version name.now }
    ensures stored { IsStored name.now }
{
    if is_long(name) {
        return false;
    }
    let bytes = name.as_slice();
    bytes.len() >= 1 && is_short_name(version, bytes)
}

/// Whether a text can name a metric.
#[tactic(auto, using(crate::proofs::Rows::too_long))]
pub fn is_metric_name(version: u32, name: &Text) -> bool
    ensures value { result ≡ is_metric_name version name.now }
    ensures stored { IsStored name.now }
{
    if is_long(name) {
        return false;
    }
    let bytes = name.as_slice();
    is_name(bytes) && is_short_name(version, bytes)
}

/// Whether a value of a metric of this kind has this content.
fn fits_kind(kind: Kind, content: &Content) -> bool
    ensures { result ≡ fits_kind kind content.now }
{
    let code = kind.code();
    match content {
        Content::Number(_) => code <= 3,
        Content::Choice(_) => code == 6,
        Content::Raw(_, _) => code > 3 && code != 6,
    }
}

/// Whether a value is one of a metric.
pub fn fits_metric(domains: &BTreeMap<u32, DomainKeys>, row: &ValueRow, metric: &MetricRow) -> bool
    ensures { result ≡ (metric.now.item == row.now.item && (fits_domain domains.now metric.now.serial row.now.instance && fits_kind metric.now.kind row.now.content)) }
{
    metric.item == row.item
        && fits_domain(domains, metric.serial, &row.instance)
        && fits_kind(metric.kind, &row.content)
}

/// Whether a content is a text that is too long for a string.
pub fn is_long_content(content: &Content) -> bool
    ensures value { result ≡ is_long_content content.now }
    ensures content { result ≡ false → IsContent content.now }
{
    match content {
        Content::Choice(text) => is_long(text),
        _ => false,
    }
}

/// Why a string isn't taken.
#[tactic(auto, unfolding(crate::specs::Rules::text_fault))]
pub fn text_fault(text: &Text) -> Option<BuildFault>
    ensures value { result ≡ text_fault text.now }
    ensures string { result ≡ None → IsString text.now }
{
    if is_long(text) {
        Some(BuildFault::Name)
    } else {
        None
    }
}
