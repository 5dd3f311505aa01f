//! The command `info`: the descriptions of an archive.
ghost use Rattle.std.specs.Prelude.{◌≡◌, ℕ, List, [], None, IfOk, IfErr, OnOk};
ghost use Rattle.archive_loading.specs.Looks.{Looks};
ghost use Rattle.pm_tasks.specs.Archives.{TurnedAway};
ghost use Rattle.pm_words.specs.Serving.{Meets};
ghost use Rattle.pm_words.specs.Sides.{disk_side, files_found};
ghost use Rattle.pm_tasks.specs.commands.info.{IsTurnedAway, IsOutput, info as meaning_of_info};

use archive_reader::ArchiveReader;
use pcp_base::Bytes;
use pcp_outside::Disk;
use pm_print::info_text;
use pm_words::Refusal;
use std::alloc::Global;

// The descriptions of an archive, as text.
fn find_descriptions<D: Disk>(alloc: Global, disk: &mut D) -> Result<Bytes, Refusal>
    ensures said { D.tells → IfOk result (IsOutput (files_found (disk_side D.Disk disk.old disk.new))) }
    ensures turned { IfErr result (TurnedAway IsTurnedAway (disk_side D.Disk disk.old disk.new)) }
    ensures looks { Looks D.Disk disk.old disk.new }
    ensures quiet { OnOk result (D.faults disk.new ≡ D.faults disk.old) }
{
    let reader = ArchiveReader::load(alloc, disk)?;
    let text = info_text(alloc, reader.meta())?;
    Ok(text)
}

/// The descriptions of an archive, as text.
pub fn info<D: Disk>(alloc: Global, disk: &mut D) -> Result<Bytes, Refusal>
    ensures meets { (input : List ℕ) → Meets meaning_of_info input D.Disk disk.old disk.new None [] result }
{
    find_descriptions(alloc, disk)
}
