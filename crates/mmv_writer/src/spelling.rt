//! The words of whole rows: header, contents and each section in order.
ghost use Rattle.std.specs.Prelude.{◌≡◌, ◌≤◌, ◌++◌, length, min, OnOk, IfOk};
ghost use Rattle.mmv_writer.specs.Offsets.{instances_in, counts_of, words_in, section_offsets, AreSmall};
ghost use Rattle.mmv_writer.specs.Spelling.{sections_words, image_with_strings};

use crate::lookups::{DomainTable, MetricTable};
use crate::offsets::{Counts, SectionOffsets, counts_of, section_offsets, sections_in, words_in};
use crate::tables::StringTable;
use crate::words::{
    push_contents, push_domains, push_header, push_instances, push_metrics, push_strings,
    push_values,
};
use mmv_layout::Layout;
use pcp_base::NoMemory;
use std::alloc::Global;

/// Writes the sections of a draft with these strings.
#[tactic(auto, unfolding(crate::specs::Spelling::sections_words))]
fn push_sections(
    alloc: Global,
    out: &mut Vec<u64>,
    draft: &Layout,
    strings: &StringTable,
    offsets: &SectionOffsets,
) -> Result<(), NoMemory>
    requires small { AreSmall offsets.now }
    requires indoms { length draft.now.indoms ≤ 65536 }
    requires instances { instances_in draft.now.indoms ≤ 65536 }
    requires metrics { length draft.now.metrics ≤ 65536 }
    requires strings { length strings.now ≤ 65536 }
    ensures { OnOk result (out.new.items ≡ out.old.items ++ sections_words draft.now strings.now offsets.now) }
{
    let indoms = draft.indoms.as_slice();
    let metrics = draft.metrics.as_slice();
    let domains = DomainTable::of(alloc, indoms)?;
    let items = MetricTable::of(alloc, metrics)?;
    push_domains(out, offsets, strings, &domains, indoms)?;
    push_instances(out, offsets, strings, &domains, indoms)?;
    push_metrics(out, offsets, strings, metrics)?;
    push_values(
        out,
        offsets,
        strings,
        &domains,
        &items,
        draft.values.as_slice(),
    )?;
    push_strings(out, strings)?;
    Ok(())
}

/// How many words the image of a draft with these strings has, 2^64 - 1 at most.
#[tactic(auto, using(crate::proofs::Lengths::counted_words))]
pub fn words_needed(draft: &Layout, strings: &StringTable) -> u64
    ensures { result ≡ min (words_in (counts_of draft.now strings.now)) 18446744073709551615 }
{
    words_in(&counts_of(draft, strings))
}

/// How many entries the sections have where the image isn't too large.
#[tactic(auto, using(crate::proofs::Lengths::counted_exactly))]
fn counted(draft: &Layout, strings: &StringTable) -> Counts
    requires { words_in (counts_of draft.now strings.now) ≤ 65536 }
    ensures { result ≡ counts_of draft.now strings.now }
{
    counts_of(draft, strings)
}

/// The words of a draft with these strings.
#[tactic(auto, using(crate::proofs::Lengths::small_offsets), unfolding(crate::specs::Spelling::image_with_strings))]
pub fn image_with_strings(
    alloc: Global,
    draft: &Layout,
    strings: &StringTable,
) -> Result<Vec<u64>, NoMemory>
    requires { words_in (counts_of draft.now strings.now) ≤ 65536 }
    ensures { IfOk result (λ words. words.items ≡ image_with_strings draft.now strings.now) }
{
    let counts = counted(draft, strings);
    let offsets = section_offsets(&counts);
    let mut out = Vec::new(alloc);
    push_header(&mut out, draft, sections_in(&counts) as u32)?;
    push_contents(&mut out, &counts, &offsets)?;
    push_sections(alloc, &mut out, draft, strings, &offsets)?;
    Ok(out)
}
