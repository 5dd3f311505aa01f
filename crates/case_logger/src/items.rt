//! The items of volumes, read record after record, and whether Meta describes them.
use archive_frame::{Step, step_forward};
use archive_meta::MetaState;
use archive_volume::decode_item;
use case_outside::{Drive, Held, snapshot};
use case_records::{is_described, write_item};
use pcp_base::{FileId, Item, NoMemory};
use std::alloc::Global;

// The record at a byte, and where the next one begins. `None` where there is none.
fn record_at(alloc: Global, bytes: &[u8], at: usize) -> Option<(Item, usize)> {
    if at > bytes.len() {
        return None;
    }
    let Ok(Step::Payload { from, to, next }) = step_forward(bytes, at) else {
        return None;
    };
    let item = decode_item(alloc, bytes.get(from..to)?).ok()?;
    Some((item, next))
}

fn add_items(alloc: Global, items: &mut Vec<Item>, bytes: &[u8]) -> Result<(), NoMemory> {
    let mut at = 132;
    for _ in 0..bytes.len() {
        let Some((item, next)) = record_at(alloc, bytes, at) else {
            break;
        };
        items.push(item)?;
        at = next;
    }
    Ok(())
}

/// The items of all volumes.
pub fn items_in(alloc: Global, files: &[Held]) -> Result<Vec<Item>, NoMemory> {
    let mut items = Vec::new(alloc);
    for held in files {
        if let FileId::Volume(_) = held.file {
            add_items(alloc, &mut items, &held.bytes)?;
        }
    }
    Ok(items)
}

/// An item as text.
pub fn tell_item(alloc: Global, item: &Item) -> Result<String, NoMemory> {
    let mut out = String::new(alloc);
    write_item(&mut out, item)?;
    Ok(out)
}

/// Whether Meta describes each metric with values, and lists the instances that it shows.
pub fn are_described(meta: &MetaState, items: &[Item]) -> bool {
    for item in items {
        if !is_described(meta, item) {
            return false;
        }
    }
    true
}

/// The items of the disk as it stands behind so many, one a line.
pub fn tell_items(alloc: Global, drive: &mut Drive, skipped: usize) -> Result<String, NoMemory> {
    let files = snapshot(alloc, &drive.disk)?;
    let items = items_in(alloc, &files)?;
    let mut out = String::new(alloc);
    for item in items.get(skipped..).unwrap_or(&[]) {
        write_item(&mut out, item)?;
        out.push('\n')?;
    }
    Ok(out)
}
