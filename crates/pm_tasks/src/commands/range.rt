//! The command `range SEC USEC SEC USEC`: the items between two moments.
ghost use Rattle.std.specs.Prelude.{◌≡◌, ◌++◌, ℕ, List as Sequence, [], None, IfOk, IfErr, OnOk};
ghost use Rattle.pcp_model.specs.Disk.{contents_of};
ghost use Rattle.archive_loading.specs.Looks.{Looks};
ghost use Rattle.pm_print.specs.Items.{items_text};
ghost use Rattle.pm_tasks.specs.Archives.{TurnedAway};
ghost use Rattle.pm_words.specs.Serving.{Meets};
ghost use Rattle.pm_words.specs.Sides.{disk_side, files_found};
ghost use Rattle.pm_tasks.specs.Takes.{TookRange};
ghost use Rattle.pm_tasks.specs.commands.range.{IsTurnedAway, IsOutput, range as meaning_of_range};

use archive_meta::MetaState;
use archive_reader::ArchiveReader;
use pcp_base::{Bytes, Item, List, NoMemory, Stamp};
use pcp_outside::Disk;
use pm_print::put_item;
use pm_words::Refusal;
use std::alloc::Global;

fn put_items(
    alloc: Global,
    out: &mut Vec<u8>,
    items: &[Item],
    meta: &MetaState,
) -> Result<(), NoMemory>
    ensures { OnOk result (out.new.items ≡ out.old.items ++ items_text meta.now items.now) }
{
    for item in items {
        put_item(alloc, out, item, meta)?;
    }
    Ok(())
}

fn text_of(alloc: Global, items: &[Item], meta: &MetaState) -> Result<Bytes, NoMemory>
    ensures { IfOk result (λ text. text ≡ items_text meta.now items.now) }
{
    let mut out = Vec::new(alloc);
    put_items(alloc, &mut out, items, meta)?;
    Ok(List::from_vec(out))
}

// The items, as text.
fn find_items<D: Disk>(
    alloc: Global,
    from: Stamp,
    to: Stamp,
    disk: &mut D,
) -> Result<Bytes, Refusal>
    ensures said { D.tells → IfOk result (IsOutput from to (files_found (disk_side D.Disk disk.old disk.new))) }
    ensures turned { IfErr result (TurnedAway (IsTurnedAway from to) (disk_side D.Disk disk.old disk.new)) }
    ensures taken { D.tells → TookRange from to (contents_of (D.held disk.old)) (D.taken disk.old) (D.taken disk.new) }
    ensures looks { Looks D.Disk disk.old disk.new }
    ensures quiet { OnOk result (D.faults disk.new ≡ D.faults disk.old) }
{
    let mut reader = ArchiveReader::load(alloc, disk)?;
    let items = reader.range(alloc, disk, from, to)?;
    let text = text_of(alloc, items.as_slice(), reader.meta())?;
    Ok(text)
}

/// The items, as text.
pub fn range<D: Disk>(alloc: Global, from: Stamp, to: Stamp, disk: &mut D) -> Result<Bytes, Refusal>
    ensures meets { (input : Sequence ℕ) → Meets (meaning_of_range from to) input D.Disk disk.old disk.new None [] result }
{
    find_items(alloc, from, to, disk)
}
