//! The first fault of words: the kinds in their order, and of one kind the lowest offset.
ghost use Rattle.std.specs.Prelude.{◌≡◌, ◌≤◌, length, IfOk};
ghost use Rattle.mmv_layout.specs.Faults.{HasSections, lower, name_fault, reference_fault, duplicate_fault, cluster_fault, serial_fault, header_fault, entries_fault, image_fault};

use crate::contents::bytes_in;
use crate::fault::ImageFault;
use crate::header::{
    CLUSTER_OFFSET, cluster_in, first_generation, has_magic, second_generation, version_in,
};
use crate::indoms::{indoms_duplicate_fault, indoms_reference_fault, indoms_serial_fault};
use crate::instances::{
    instance_name_fault, instances_duplicate_fault, instances_reference_fault,
    instances_serial_fault, string_fault,
};
use crate::metrics::{
    kind_fault, metric_name_fault, metrics_duplicate_fault, metrics_reference_fault,
    metrics_serial_fault,
};
use crate::sections::{offset_fault, section_fault};
use crate::sizes::is_version;
use crate::values::{values_duplicate_fault, values_reference_fault};
use std::alloc::{AllocError, Global};

/// The lower of two offsets.
#[tactic(auto, unfolding(crate::specs::Faults::lower))]
fn lower(a: Option<u64>, b: Option<u64>) -> Option<u64>
    ensures { result ≡ lower a b }
{
    match (a, b) {
        (Some(a), Some(b)) => Some(if a <= b { a } else { b }),
        (None, b) => b,
        (a, None) => a,
    }
}

/// The lowest offset of a name field that has no name, or of a string without a zero byte.
#[tactic(auto, unfolding(crate::specs::Faults::name_fault))]
fn name_fault(alloc: Global, words: &[u64]) -> Result<Option<u64>, AllocError>
    requires { HasSections words.now }
    ensures { IfOk result (λ at. at ≡ name_fault words.now) }
{
    let metric = metric_name_fault(alloc, words)?;
    Ok(lower(
        instance_name_fault(words),
        lower(metric, string_fault(words)),
    ))
}

/// The lowest offset of a reference that leads nowhere.
#[tactic(auto, unfolding(crate::specs::Faults::reference_fault))]
fn reference_fault(alloc: Global, words: &[u64]) -> Result<Option<u64>, AllocError>
    requires { HasSections words.now }
    ensures { IfOk result (λ at. at ≡ reference_fault words.now) }
{
    let metric = metrics_reference_fault(alloc, words)?;
    Ok(lower(
        lower(
            indoms_reference_fault(words),
            instances_reference_fault(words),
        ),
        lower(metric, values_reference_fault(words)),
    ))
}

/// The lowest offset of an entry that stood before.
#[tactic(auto, unfolding(crate::specs::Faults::duplicate_fault))]
fn duplicate_fault(alloc: Global, words: &[u64]) -> Result<Option<u64>, AllocError>
    requires { HasSections words.now }
    ensures { IfOk result (λ at. at ≡ duplicate_fault words.now) }
{
    let domain = indoms_duplicate_fault(alloc, words)?;
    let instance = instances_duplicate_fault(alloc, words)?;
    let metric = metrics_duplicate_fault(alloc, words)?;
    let value = values_duplicate_fault(alloc, words)?;
    Ok(lower(lower(domain, instance), lower(metric, value)))
}

/// The offset of a cluster above 4095.
#[tactic(auto, unfolding(crate::specs::Faults::cluster_fault, crate::specs::Faults::unless))]
fn cluster_fault(words: &[u64]) -> Option<u64>
    ensures { result ≡ cluster_fault words.now }
{
    if cluster_in(words) <= 4095 {
        None
    } else {
        Some(CLUSTER_OFFSET)
    }
}

/// The lowest offset of a number that is out of range.
#[tactic(auto, unfolding(crate::specs::Faults::serial_fault))]
fn serial_fault(words: &[u64]) -> Option<u64>
    requires { HasSections words.now }
    ensures { result ≡ serial_fault words.now }
{
    lower(
        cluster_fault(words),
        lower(
            indoms_serial_fault(words),
            lower(instances_serial_fault(words), metrics_serial_fault(words)),
        ),
    )
}

/// The first fault of the header of whole words, not too many.
#[tactic(auto, unfolding(crate::specs::Faults::header_fault))]
fn header_fault(words: &[u64]) -> Option<ImageFault>
    ensures { result ≡ header_fault words.now }
{
    if !has_magic(words) {
        return Some(ImageFault::Magic);
    }
    let found = version_in(words);
    if !is_version(found) {
        return Some(ImageFault::Version { found });
    }
    let (g1, g2) = (first_generation(words), second_generation(words));
    if g1 != g2 {
        return Some(ImageFault::Generations { g1, g2 });
    }
    None
}

/// The first fault of the sections and their entries, kind by kind.
#[tactic(auto, using(crate::proofs::Images::sections_stand), unfolding(crate::specs::Faults::entries_fault, crate::specs::Faults::or_else))]
fn entries_fault(alloc: Global, words: &[u64]) -> Result<Option<ImageFault>, AllocError>
    requires { length words.now ≤ 65536 }
    ensures { IfOk result (λ fault. fault ≡ entries_fault words.now) }
{
    if let Some(kind) = section_fault(words) {
        return Ok(Some(ImageFault::Section { kind }));
    }
    if let Some(at) = offset_fault(words) {
        return Ok(Some(ImageFault::Offset { at }));
    }
    if let Some(at) = name_fault(alloc, words)? {
        return Ok(Some(ImageFault::Name { at }));
    }
    if let Some(at) = kind_fault(words) {
        return Ok(Some(ImageFault::Kind { at }));
    }
    if let Some(at) = reference_fault(alloc, words)? {
        return Ok(Some(ImageFault::Reference { at }));
    }
    if let Some(at) = duplicate_fault(alloc, words)? {
        return Ok(Some(ImageFault::Duplicate { at }));
    }
    if let Some(at) = serial_fault(words) {
        return Ok(Some(ImageFault::Serial { at }));
    }
    Ok(None)
}

/// The first fault of words, and `None` exactly where they are an image.
#[tactic(auto, using(crate::proofs::Images::short_words), unfolding(crate::specs::Faults::image_fault, crate::specs::Faults::or_else))]
pub fn image_fault(alloc: Global, words: &[u64]) -> Result<Option<ImageFault>, AllocError>
    ensures { IfOk result (λ fault. fault ≡ image_fault words.now) }
{
    if words.len() < 5 {
        let have = 8 * words.len() as u64;
        return Ok(Some(ImageFault::Short { have }));
    }
    if words.len() > 65536 {
        let words = words.len() as u64;
        return Ok(Some(ImageFault::TooLarge { words }));
    }
    if let Some(fault) = header_fault(words) {
        return Ok(Some(fault));
    }
    entries_fault(alloc, words)
}
