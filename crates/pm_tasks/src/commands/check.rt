//! The command `check`: whether an archive is sound.
ghost use Rattle.std.specs.Prelude.{◌≡◌, ℕ, List, [], None, IfOk, IfErr, OnOk};
ghost use Rattle.archive_loading.specs.Looks.{Looks};
ghost use Rattle.pm_tasks.specs.Archives.{TurnedAway};
ghost use Rattle.pm_words.specs.Serving.{Meets};
ghost use Rattle.pm_words.specs.Sides.{disk_side, files_found};
ghost use Rattle.pm_tasks.specs.commands.check.{IsTurnedAway, IsOutput, sound_line, check as meaning_of_check};

use archive_check::check as check_archive;
use pcp_base::{Bytes, NoMemory};
use pcp_outside::Disk;
use pm_words::Refusal;
use std::alloc::Global;
use text_lines::one_number_line;

// The line that tells how many items there are.
fn sound_line(alloc: Global, items: u64) -> Result<Bytes, NoMemory>
    ensures { IfOk result (λ line. line ≡ sound_line items) }
{
    one_number_line(alloc, b"sound", items)
}

// How many items an archive has that is sound, as a line.
fn judge<D: Disk>(alloc: Global, disk: &mut D) -> Result<Bytes, Refusal>
    ensures said { D.tells → IfOk result (IsOutput (files_found (disk_side D.Disk disk.old disk.new))) }
    ensures turned { IfErr result (TurnedAway IsTurnedAway (disk_side D.Disk disk.old disk.new)) }
    ensures looks { Looks D.Disk disk.old disk.new }
    ensures quiet { OnOk result (D.faults disk.new ≡ D.faults disk.old) }
{
    let items = check_archive(alloc, disk)?;
    let line = sound_line(alloc, items)?;
    Ok(line)
}

/// How many items an archive has that is sound, as a line; else where it first isn't.
pub fn check<D: Disk>(alloc: Global, disk: &mut D) -> Result<Bytes, Refusal>
    ensures meets { (input : List ℕ) → Meets meaning_of_check input D.Disk disk.old disk.new None [] result }
{
    judge(alloc, disk)
}
