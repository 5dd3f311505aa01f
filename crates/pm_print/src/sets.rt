//! The lines of a set: one for each value, or one for its status.
ghost use Rattle.std.specs.Prelude.{◌≡◌, ◌++◌, IfOk, OnOk};
ghost use Rattle.archive_meta.specs.Said.{description_of, desc_of, names_of};
ghost use Rattle.pm_print.specs.Holding.{instances_at};
ghost use Rattle.pm_print.specs.Values.{word_text, block_text};
ghost use Rattle.pm_print.specs.Sets.{pmid_text, first_name, head_text, value_line, word_lines, block_lines, status_part, body_lines, code_in, set_lines};

use crate::instances::Instances;
use crate::values::{put_block, put_decimal, put_signed, put_word};
use archive_meta::MetaState;
use pcp_base::{Block, Body, Desc, NoMemory, Pmid, Stamp, ValueSet};
use std::alloc::Global;

/// `D.C.I`
#[tactic(auto, unfolding(crate::specs::Sets::pmid_text))]
pub fn put_pmid(out: &mut Vec<u8>, pmid: Pmid) -> Result<(), NoMemory>
    ensures { OnOk result (out.new.items ≡ out.old.items ++ pmid_text pmid) }
{
    put_decimal(out, pmid.domain() as u64)?;
    out.push(b'.')?;
    put_decimal(out, pmid.cluster() as u64)?;
    out.push(b'.')?;
    put_decimal(out, pmid.item() as u64)?;
    Ok(())
}

// A metric's first name, or `?`.
fn first_name(meta: &MetaState, pmid: Pmid) -> &[u8]
    ensures { result.now ≡ first_name (names_of (description_of pmid meta.now)) }
{
    match meta.names(pmid) {
        Some(names) => match names.get(0) {
            Some(name) => name.as_slice(),
            None => b"?",
        },
        None => b"?",
    }
}

/// `D.C.I NAME`
#[tactic(auto, unfolding(crate::specs::Sets::head_text))]
pub fn put_head(out: &mut Vec<u8>, meta: &MetaState, pmid: Pmid) -> Result<(), NoMemory>
    ensures { OnOk result (out.new.items ≡ out.old.items ++ head_text meta.now pmid) }
{
    put_pmid(out, pmid)?;
    out.push(b' ')?;
    out.extend_from_slice(first_name(meta, pmid))?;
    Ok(())
}

/// The description of a metric.
pub fn desc_of(meta: &MetaState, pmid: Pmid) -> Option<Desc>
    ensures { result ≡ desc_of (description_of pmid meta.now) }
{
    meta.desc(pmid).copied()
}

/// The type code in a description.
pub fn code_in(desc: &Option<Desc>) -> Option<u32>
    ensures { result ≡ code_in desc.now }
{
    match desc {
        Some(desc) => Some(desc.code),
        None => None,
    }
}

/// The instances that hold of the domain in a description at a moment.
pub fn instances_of<'a>(
    alloc: Global,
    meta: &'a MetaState,
    desc: &Option<Desc>,
    stamp: Stamp,
) -> Result<Instances<'a>, NoMemory>
    ensures { IfOk result (λ instances. instances ≡ instances_at meta.now desc.now stamp) }
{
    let Some(desc) = desc else {
        return Ok(Instances::none());
    };
    match meta.domain_at(desc.indom, stamp) {
        Some(listed) => Instances::of(alloc, listed),
        None => Ok(Instances::none()),
    }
}

/// The line of a value of 32 bits. Where its instance is looked for first is given, and where the next one's is to be is
/// answered, as by `Instances::put_part`.
#[tactic(auto, unfolding(crate::specs::Sets::value_line))]
pub fn put_word_line(
    out: &mut Vec<u8>,
    head: &[u8],
    code: Option<u32>,
    instances: &Instances,
    value: (i32, u32),
    tried: usize,
) -> Result<usize, NoMemory>
    ensures { OnOk result (out.new.items ≡ out.old.items ++ value_line head.now instances.now value.0 (word_text code value.1)) }
{
    out.extend_from_slice(head)?;
    let next = instances.put_part(out, value.0, tried)?;
    out.push(b' ')?;
    put_word(out, code, value.1)?;
    out.push(b'\n')?;
    Ok(next)
}

/// The line of a value in a block.
#[tactic(auto, unfolding(crate::specs::Sets::value_line))]
pub fn put_block_line(
    out: &mut Vec<u8>,
    head: &[u8],
    code: Option<u32>,
    instances: &Instances,
    instance: i32,
    bytes: &[u8],
    tried: usize,
) -> Result<usize, NoMemory>
    ensures { OnOk result (out.new.items ≡ out.old.items ++ value_line head.now instances.now instance (block_text code bytes.now)) }
{
    out.extend_from_slice(head)?;
    let next = instances.put_part(out, instance, tried)?;
    out.push(b' ')?;
    put_block(out, code, bytes)?;
    out.push(b'\n')?;
    Ok(next)
}

fn put_words(
    out: &mut Vec<u8>,
    head: &[u8],
    code: Option<u32>,
    instances: &Instances,
    values: &[(i32, u32)],
) -> Result<(), NoMemory>
    ensures { OnOk result (out.new.items ≡ out.old.items ++ word_lines head.now code instances.now values.now) }
{
    let mut next = 0;
    for value in values {
        next = put_word_line(out, head, code, instances, *value, next)?;
    }
    Ok(())
}

fn put_blocks(
    out: &mut Vec<u8>,
    head: &[u8],
    code: Option<u32>,
    instances: &Instances,
    values: &[(i32, Block)],
) -> Result<(), NoMemory>
    ensures { OnOk result (out.new.items ≡ out.old.items ++ block_lines head.now code instances.now values.now) }
{
    let mut next = 0;
    for value in values {
        next = put_block_line(out, head, code, instances, value.0, value.1.bytes(), next)?;
    }
    Ok(())
}

#[tactic(auto, unfolding(crate::specs::Sets::status_part))]
fn put_status(out: &mut Vec<u8>, status: i32) -> Result<(), NoMemory>
    ensures { OnOk result (out.new.items ≡ out.old.items ++ status_part status) }
{
    if status == 0 {
        out.extend_from_slice(b" none\n")?;
        return Ok(());
    }
    out.extend_from_slice(b" error ")?;
    put_signed(out, status as i64)?;
    out.push(b'\n')?;
    Ok(())
}

/// The line of a status.
pub fn put_status_line(out: &mut Vec<u8>, head: &[u8], status: i32) -> Result<(), NoMemory>
    ensures { OnOk result (out.new.items ≡ out.old.items ++ (head.now ++ status_part status)) }
{
    out.extend_from_slice(head)?;
    put_status(out, status)
}

/// The lines of a set at a moment.
#[tactic(auto, unfolding(crate::specs::Sets::set_lines))]
pub fn put_set(
    alloc: Global,
    out: &mut Vec<u8>,
    meta: &MetaState,
    stamp: Stamp,
    set: &ValueSet,
) -> Result<(), NoMemory>
    ensures { OnOk result (out.new.items ≡ out.old.items ++ set_lines meta.now stamp set.now) }
{
    let mut head = Vec::new(alloc);
    put_head(&mut head, meta, set.pmid)?;
    let desc = desc_of(meta, set.pmid);
    let code = code_in(&desc);
    let instances = instances_of(alloc, meta, &desc, stamp)?;
    match &set.body {
        Body::InPlace(values) => put_words(out, &head, code, &instances, values.as_slice()),
        Body::Blocks(values) => put_blocks(out, &head, code, &instances, values.as_slice()),
        Body::Status(status) => put_status_line(out, &head, *status),
    }
}
