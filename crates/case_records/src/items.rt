//! Items of an archive as text, for lines of a book: `100 0 70.1.2[-1]=7`.
use pcp_base::{Block, Body, Item, NoMemory, PmResult, Pmid, Stamp, ValueSet};

fn write_stamp(out: &mut String, stamp: Stamp) -> Result<(), NoMemory> {
    let (sec, usec) = (stamp.sec(), stamp.usec());
    write!(out, "{sec} {usec}")?;
    Ok(())
}

fn write_block(out: &mut String, block: &Block) -> Result<(), NoMemory> {
    let code = block.code();
    write!(out, "{code}:")?;
    for byte in block.bytes() {
        let byte = *byte;
        write!(out, "{byte:02x}")?;
    }
    Ok(())
}

fn write_values(out: &mut String, pairs: &[(i32, u32)]) -> Result<(), NoMemory> {
    for (instance, value) in pairs {
        let (instance, value) = (*instance, *value);
        write!(out, "[{instance}]={value}")?;
    }
    Ok(())
}

fn write_blocks(out: &mut String, pairs: &[(i32, Block)]) -> Result<(), NoMemory> {
    for (instance, block) in pairs {
        let instance = *instance;
        write!(out, "[{instance}]=")?;
        write_block(out, block)?;
    }
    Ok(())
}

fn write_status(out: &mut String, status: i32) -> Result<(), NoMemory> {
    write!(out, " status {status}")?;
    Ok(())
}

fn write_pmid(out: &mut String, pmid: Pmid) -> Result<(), NoMemory> {
    let (domain, cluster, item) = (pmid.domain(), pmid.cluster(), pmid.item());
    write!(out, " {domain}.{cluster}.{item}")?;
    Ok(())
}

fn write_set(out: &mut String, set: &ValueSet) -> Result<(), NoMemory> {
    write_pmid(out, set.pmid)?;
    match &set.body {
        Body::InPlace(pairs) => write_values(out, pairs.as_slice()),
        Body::Blocks(pairs) => write_blocks(out, pairs.as_slice()),
        Body::Status(status) => write_status(out, *status),
    }
}

/// A result as text.
pub fn write_result(out: &mut String, sample: &PmResult) -> Result<(), NoMemory> {
    write_stamp(out, sample.stamp)?;
    for set in sample.sets.as_slice() {
        write_set(out, set)?;
    }
    Ok(())
}

/// An item as text.
pub fn write_item(out: &mut String, item: &Item) -> Result<(), NoMemory> {
    match item {
        Item::Sample(sample) => write_result(out, sample),
        Item::Mark(stamp) => {
            out.push_str("mark ")?;
            write_stamp(out, *stamp)
        }
    }
}
