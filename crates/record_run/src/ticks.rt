//! A tick: a sample of regions on which nobody else acts.
ghost use Rattle.std.specs.Prelude.{◌≡◌, ◌≢◌, ◌<◌, ◌≤◌, ◌+◌, ◌++◌, ◌∷◌, [], ℕ, IfErr, OnErr, OnOk};
ghost use Rattle.arrayvec.specs.ArrayVec.{array_vec_len};
ghost use Rattle.run_script.specs.declared.script.Line.TheVariants.{Tick};
ghost use Rattle.logging_session.specs.Keeping.{IsFailed, IsWorking, held_in, lost_in};
ghost use Rattle.run_passes.specs.Crews.{Alone, IsManned};
ghost use Rattle.script_runs.specs.declared.ending.Ending.TheVariants.{DiskFault as Failing};
ghost use Rattle.script_runs.specs.Steps.{RunState};
ghost use Rattle.run_archive.specs.Endings.{MayEnd};
ghost use Rattle.record_run.specs.States.{GoesTo, HaltsAt, Stands};

use crate::run::Run;
use arrayvec::ArrayVec;
use fetch_engine::{Seat, Server};
use pcp_base::Stamp;
use pcp_outside::Disk;
use run_archive::sample_at;
use run_script::Script;
use script_runs::{Ending, make_room, put_one};
use std::alloc::Global;

/// Puts the mark of a tick's line, where it asked for some metrics, so many: behind the others. Where its own result alone is held, those before
/// it were written, and their marks fall away.
fn put_mark(marks: &mut ArrayVec<usize, 64>, count: u64, held: u32, mark: usize)
    requires room { array_vec_len marks.old < 64 }
    ensures none { count ≡ 0 → marks.new.items ≡ marks.old.items }
    ensures alone { 0 < count → held ≤ 1 → marks.new.items ≡ mark ∷ [] }
    ensures behind { 0 < count → 1 < held → marks.new.items ≡ marks.old.items ++ mark ∷ [] }
{
    if count == 0 {
        return;
    }
    if held <= 1 {
        marks.clear();
    }
    marks.push(mark);
}

/// Runs a tick: groups that are due ask for what their names lead to now, one result of all that they ask for is logged, and the
/// moment has passed for each group. Where memory for its line is refused nothing is done. A result is held to be written, and where its line
/// begins is marked.
pub(crate) fn tick<'a, D: Disk>(
    alloc: Global,
    disk: &mut D,
    run: &mut Run<'a>,
    script: &'a Script,
    server: &Server,
    seat: &mut Seat,
    now: Stamp,
) -> Result<(), Ending>
    requires manned { IsManned server.now run.old.running seat.old.tokens }
    requires working { IsWorking run.old.sampler.session }
    requires few { run.old.sampler.session.logged < 18446744073709551615 }
    requires room { array_vec_len run.old.marks < 64 }
    requires marked { held_in run.old.sampler.session.place ≤ array_vec_len run.old.marks }
    ensures manned { IsManned server.now run.new.running seat.new.tokens }
    ensures alone { Alone run.new.running seat.new.tokens → Alone run.old.running seat.old.tokens }
    ensures same { (run.new.sampler.session.label ≡ run.old.sampler.session.label) × (run.new.sampler.session.limit ≡ run.old.sampler.session.limit) }
    ensures count { run.new.sampler.session.logged ≤ run.old.sampler.session.logged + 1 }
    ensures working { OnOk result (IsWorking run.new.sampler.session) }
    // Each result that is held has its mark, and so has each that was held when the disk failed.
    ensures marked { OnOk result ((held_in run.new.sampler.session.place ≤ array_vec_len run.new.marks) × (array_vec_len run.new.marks ≤ 64)) }
    ensures unmarked { OnErr result (run.new.marks ≡ run.old.marks) }
    ensures unheld { OnErr result (held_in run.new.sampler.session.place ≤ array_vec_len run.new.marks) }
    ensures lost { OnErr result (lost_in run.new.sampler.session.place ≤ array_vec_len run.new.marks) }
    ensures unfailed { IfErr result (λ e. e ≢ Failing → IsFailed run.new.sampler.session → ⊥) }
    ensures goes { Alone run.new.running seat.new.tokens → (s : RunState) → Stands script.now server.now run.old seat.old.tokens s
        → OnOk result (GoesTo D.Disk script.now server.now s run.old run.new seat.new.tokens disk.old disk.new (Tick now)) }
    ensures halts { Alone run.new.running seat.new.tokens → (s : RunState) → Stands script.now server.now run.old seat.old.tokens s → (number : ℕ)
        → IfErr result (HaltsAt D.Disk script.now server.now s run.old run.new seat.new.tokens disk.old disk.new number (Tick now)) }
    ensures cause { IfErr result (MayEnd (D.faults disk.old) (D.faults disk.new)) }
    ensures later { D.faults disk.old ≤ D.faults disk.new }
    ensures quiet { OnOk result (D.faults disk.new ≡ D.faults disk.old) }
    ensures still { IfErr result (λ e. e ≢ Failing → D.faults disk.new ≡ D.faults disk.old) }
{
    let Ok(()) = make_room(&mut run.out) else {
        return Err(Ending::NoMemory);
    };
    let count = sample_at(alloc, disk, &mut run.sampler, script, server, seat, now)?;
    let held = run.sampler.session.held();
    let start = run.out.len();
    put_mark(&mut run.marks, count, held, start);
    put_one(&mut run.out, b"tick", count);
    Ok(())
}
