//! The command `recover`: an archive that was stopped anywhere is mended.
ghost use Rattle.std.specs.Prelude.{◌≡◌, ℕ, List, [], IfOk, None};
ghost use Rattle.pm_words.specs.Serving.{Meets};
ghost use Rattle.pm_runs.specs.commands.recover.{recover as meaning_of_recover, items_line};

use archive_recovery::recover as mend_archive;
use pcp_base::{Bytes, NoMemory};
use pcp_outside::Disk;
use pm_words::Refusal;
use std::alloc::Global;
use text_lines::one_number_line;

// The line that tells how many items there are.
fn items_line(alloc: Global, items: u64) -> Result<Bytes, NoMemory>
    ensures { IfOk result (λ line. line ≡ items_line items) }
{
    one_number_line(alloc, b"items", items)
}

/// Mends the archive, whatever the input, and tells how many items it has.
pub fn recover<D: Disk>(alloc: Global, disk: &mut D) -> Result<Bytes, Refusal>
    ensures meets { (input : List ℕ) → Meets meaning_of_recover input D.Disk disk.old disk.new None [] result }
{
    let archive = mend_archive(alloc, disk)?;
    let line = items_line(alloc, archive.items)?;
    Ok(line)
}
