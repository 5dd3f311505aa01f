//! The lines of a run, one after another.
ghost use Rattle.std.specs.Prelude.{◌≡◌, ◌≢◌, ◌⊎◌, ◌<◌, ◌≤◌, ◌+◌, ℕ, true, false, [], List as Sequence, IfErr, IfSome, OnErr, OnOk, MatchResult};
ghost use Rattle.arrayvec.specs.ArrayVec.{array_vec_len};
ghost use Rattle.region_rule.specs.Seats.{Token};
ghost use Rattle.logging_session.specs.Keeping.{IsFailed, IsWorking, held_in, lost_in};
ghost use Rattle.run_script.specs.Rules.{KeepsRules, IsPlaced};
ghost use Rattle.run_script.specs.declared.script.Line.TheVariants.{Flush as FlushLine};
ghost use Rattle.run_script.specs.declared.script.Script.{Script as Lines};
ghost use Rattle.run_passes.specs.Crews.{Alone, Follows, IsManned, ServesScript};
ghost use Rattle.run_passes.specs.Runs.{HasRun, WasCut};
ghost use Rattle.script_runs.specs.declared.ending.Ending.TheVariants.{Condition as Failed, DiskFault as Failing, NoMemory as Refused};
ghost use Rattle.script_runs.specs.Regions.{ScriptRegion};
ghost use Rattle.script_runs.specs.Runs.{run_start, line_behind as number_behind};
ghost use Rattle.script_runs.specs.Steps.{RunState, pass_step};
ghost use Rattle.fetch_engine.specs.declared.server.Mounted.{Mounted as Row};
ghost use Rattle.logging_session.specs.Course.{WentBy};
ghost use Rattle.script_runs.specs.Archives.{run_label};
ghost use Rattle.run_archive.specs.Endings.{MayEnd};
ghost use Rattle.run_archive.specs.Kept.{KeepsRun, OverAny};
ghost use Rattle.record_run.specs.States.{CameTo, GoesTo, HaltsAt, Stands};
ghost use Rattle.record_run.specs.Replays.{EndsIdle};

use crate::run::Run;
use crate::ticks::tick;
use fetch_engine::{Seat, Server};
use pcp_outside::Disk;
use run_archive::flush_line;
use run_script::{Line, Script};
use script_runs::Ending;
use std::alloc::Global;

/// Runs a line `flush`. An error is how the run ends.
fn flush<D: Disk>(disk: &mut D, run: &mut Run<'_>) -> Result<(), Ending>
    requires working { IsWorking run.old.sampler.session }
    requires marked { held_in run.old.sampler.session.place ≤ array_vec_len run.old.marks }
    ensures running { run.new.running ≡ run.old.running }
    ensures same { (run.new.sampler.session.label ≡ run.old.sampler.session.label) × (run.new.sampler.session.limit ≡ run.old.sampler.session.limit) }
    ensures count { run.new.sampler.session.logged ≡ run.old.sampler.session.logged }
    ensures working { OnOk result (IsWorking run.new.sampler.session) }
    // Nothing is held any more. Where the disk failed each result that was held has its mark.
    ensures marked { OnOk result ((held_in run.new.sampler.session.place ≡ 0) × (run.new.marks.items ≡ [])) }
    ensures unmarked { OnErr result (run.new.marks ≡ run.old.marks) }
    ensures unheld { OnErr result (held_in run.new.sampler.session.place ≤ array_vec_len run.new.marks) }
    ensures lost { OnErr result (lost_in run.new.sampler.session.place ≤ array_vec_len run.new.marks) }
    ensures unfailed { IfErr result (λ e. e ≢ Failing → IsFailed run.new.sampler.session → ⊥) }
    ensures goes { (script : Lines) (server : Sequence Row) (seat : Sequence Token) (s : RunState) → Stands script server run.old seat s
        → OnOk result (GoesTo D.Disk script server s run.old run.new seat disk.old disk.new FlushLine) }
    ensures halts { (script : Lines) (server : Sequence Row) (seat : Sequence Token) (s : RunState) → Stands script server run.old seat s → (number : ℕ)
        → IfErr result (HaltsAt D.Disk script server s run.old run.new seat disk.old disk.new number FlushLine) }
    ensures cause { IfErr result (MayEnd (D.faults disk.old) (D.faults disk.new)) }
    ensures later { D.faults disk.old ≤ D.faults disk.new }
    ensures quiet { OnOk result (D.faults disk.new ≡ D.faults disk.old) }
    ensures still { IfErr result (λ e. e ≢ Failing → D.faults disk.new ≡ D.faults disk.old) }
{
    flush_line(disk, &mut run.sampler.session, &mut run.out)?;
    run.marks.clear();
    Ok(())
}

/// Writes what is held, where 64 lines are marked: as many results may be held. An error is how the run ends.
fn write_full<D: Disk>(disk: &mut D, run: &mut Run<'_>) -> Result<(), Ending>
    requires working { IsWorking run.old.sampler.session }
    requires marked { (held_in run.old.sampler.session.place ≤ array_vec_len run.old.marks) × (array_vec_len run.old.marks ≤ 64) }
    ensures running { run.new.running ≡ run.old.running }
    ensures out { run.new.out ≡ run.old.out }
    ensures plans { run.new.sampler.plans ≡ run.old.sampler.plans }
    ensures same { (run.new.sampler.session.label ≡ run.old.sampler.session.label) × (run.new.sampler.session.limit ≡ run.old.sampler.session.limit) }
    ensures count { run.new.sampler.session.logged ≡ run.old.sampler.session.logged }
    ensures working { OnOk result (IsWorking run.new.sampler.session) }
    // Where it wrote no mark is left.
    ensures written { OnOk result ((run.new.marks ≡ run.old.marks) ⊎ (run.new.marks.items ≡ [])) }
    ensures marked { OnOk result (held_in run.new.sampler.session.place ≤ array_vec_len run.new.marks) }
    ensures room { OnOk result (array_vec_len run.new.marks < 64) }
    ensures unmarked { OnErr result (run.new.marks ≡ run.old.marks) }
    ensures unheld { OnErr result (held_in run.new.sampler.session.place ≤ array_vec_len run.new.marks) }
    ensures lost { OnErr result (lost_in run.new.sampler.session.place ≤ array_vec_len run.new.marks) }
    ensures kinds { IfErr result (λ e. e ≡ Failing) }
    ensures keeps { OnOk result (OverAny D.Disk run.old.sampler.session disk.old (λ left events start. KeepsRun D.Disk left events start run.new.sampler.session disk.new)) }
    // Where the disk failed what was acknowledged before stays so.
    ensures failed { OnErr result (OverAny D.Disk run.old.sampler.session disk.old (λ left events start. WentBy D.Disk run_label run.old.sampler.session.limit left events [] start disk.new)) }
    ensures cause { IfErr result (MayEnd (D.faults disk.old) (D.faults disk.new)) }
    ensures later { D.faults disk.old ≤ D.faults disk.new }
    ensures quiet { OnOk result (D.faults disk.new ≡ D.faults disk.old) }
{
    if run.marks.len() < 64 {
        return Ok(());
    }
    match run.sampler.session.write(disk) {
        Ok(()) => {
            run.marks.clear();
            Ok(())
        }
        Err(_) => Err(Ending::DiskFault),
    }
}

/// Runs a line of a pass. An error is how the run ends: the line's condition failed, or memory was refused, and nothing was done.
fn pass(
    alloc: Global,
    run: &mut Run<'_>,
    script: &Script,
    server: &Server,
    seat: &mut Seat,
    number: u32,
    line: &Line,
) -> Result<(), Ending>
    requires rules { KeepsRules script.now }
    requires placed { IsPlaced script.now.images script.now.regions line.now }
    requires serves { ServesScript script.now 1 server.now }
    requires manned { IsManned server.now run.old.running seat.old.tokens }
    ensures manned { IsManned server.now run.new.running seat.new.tokens }
    ensures alone { Alone run.new.running seat.new.tokens → Alone run.old.running seat.old.tokens }
    ensures sampler { run.new.sampler ≡ run.old.sampler }
    ensures marks { run.new.marks ≡ run.old.marks }
    ensures kinds { IfErr result (λ e. (e ≡ Failed number) ⊎ (e ≡ Refused)) }
    ensures runs { Alone run.new.running seat.new.tokens → (regions : Sequence ScriptRegion) → Follows script.now server.now run.old.running seat.old.tokens regions
        → MatchResult
        result
        (λ _. HasRun (Follows script.now server.now run.new.running seat.new.tokens) regions run.old.out.items run.new.out.items (pass_step script.now regions line.now) true)
        (λ e. ((e ≡ Failed number) × HasRun (Follows script.now server.now run.new.running seat.new.tokens) regions run.old.out.items run.new.out.items (pass_step script.now regions line.now) false)
        ⊎ ((e ≡ Refused) × WasCut (Follows script.now server.now run.new.running seat.new.tokens) regions run.old.out.items run.new.out.items)) }
{
    match run
        .running
        .run_line(alloc, server, seat, script, line, &mut run.out)
    {
        Ok(true) => Ok(()),
        Ok(false) => Err(Ending::Condition { line: number }),
        Err(_) => Err(Ending::NoMemory),
    }
}

/// Runs a line: of a pass, a tick or a flush. An error is how the run ends.
fn step<'a, D: Disk>(
    alloc: Global,
    disk: &mut D,
    run: &mut Run<'a>,
    script: &'a Script,
    server: &Server,
    seat: &mut Seat,
    number: u32,
    line: &Line,
) -> Result<(), Ending>
    requires rules { KeepsRules script.now }
    requires placed { IsPlaced script.now.images script.now.regions line.now }
    requires serves { ServesScript script.now 1 server.now }
    requires manned { IsManned server.now run.old.running seat.old.tokens }
    requires working { IsWorking run.old.sampler.session }
    requires few { run.old.sampler.session.logged < 18446744073709551615 }
    requires room { array_vec_len run.old.marks < 64 }
    requires marked { held_in run.old.sampler.session.place ≤ array_vec_len run.old.marks }
    ensures manned { IsManned server.now run.new.running seat.new.tokens }
    ensures alone { Alone run.new.running seat.new.tokens → Alone run.old.running seat.old.tokens }
    ensures same { (run.new.sampler.session.label ≡ run.old.sampler.session.label) × (run.new.sampler.session.limit ≡ run.old.sampler.session.limit) }
    ensures count { run.new.sampler.session.logged ≤ run.old.sampler.session.logged + 1 }
    ensures working { OnOk result (IsWorking run.new.sampler.session) }
    // Each result that is held has its mark, and so has each that was held when the disk failed.
    ensures marked { OnOk result ((held_in run.new.sampler.session.place ≤ array_vec_len run.new.marks) × (array_vec_len run.new.marks ≤ 64)) }
    ensures unmarked { OnErr result (run.new.marks ≡ run.old.marks) }
    ensures unheld { OnErr result (held_in run.new.sampler.session.place ≤ array_vec_len run.new.marks) }
    ensures lost { OnErr result (lost_in run.new.sampler.session.place ≤ array_vec_len run.new.marks) }
    ensures unfailed { IfErr result (λ e. e ≢ Failing → IsFailed run.new.sampler.session → ⊥) }
    ensures goes { Alone run.new.running seat.new.tokens → (s : RunState) → Stands script.now server.now run.old seat.old.tokens s
        → OnOk result (GoesTo D.Disk script.now server.now s run.old run.new seat.new.tokens disk.old disk.new line.now) }
    ensures halts { Alone run.new.running seat.new.tokens → (s : RunState) → Stands script.now server.now run.old seat.old.tokens s
        → IfErr result (HaltsAt D.Disk script.now server.now s run.old run.new seat.new.tokens disk.old disk.new number line.now) }
    ensures cause { IfErr result (MayEnd (D.faults disk.old) (D.faults disk.new)) }
    ensures later { D.faults disk.old ≤ D.faults disk.new }
    ensures quiet { OnOk result (D.faults disk.new ≡ D.faults disk.old) }
    ensures still { IfErr result (λ e. e ≢ Failing → D.faults disk.new ≡ D.faults disk.old) }
{
    match line {
        Line::Tick { stamp } => tick(alloc, disk, run, script, server, seat, *stamp),
        Line::Flush => flush(disk, run),
        _ => pass(alloc, run, script, server, seat, number, line),
    }
}

/// The number of the line behind the last, where 32 bits hold it.
fn line_behind(steps: &[(u32, Line)]) -> Option<u32>
    ensures { IfSome result (λ number. number ≡ number_behind steps.now) }
{
    match steps.last() {
        None => Some(0),
        Some((number, _)) => number.checked_add(1),
    }
}

/// How a run ends whose lines were all run. Where a line's number would be above 32 bits, memory is said to be refused.
fn ending_of(run: &Run<'_>, server: &Server, script: &Script) -> Ending
    requires rules { KeepsRules script.now }
    requires serves { ServesScript script.now 1 server.now }
    requires manned { (seat : Sequence Token) × IsManned server.now run.now.running seat }
    ensures ends { (seat : Sequence Token) (regions : Sequence ScriptRegion) → IsManned server.now run.now.running seat → Follows script.now server.now run.now.running seat regions → EndsIdle script.now regions result }
    ensures cause { (before after : ℕ) → MayEnd before after result }
{
    if run.running.is_idle(server, script) {
        return Ending::Done;
    }
    match line_behind(script.steps.as_slice()) {
        Some(line) => Ending::Condition { line },
        None => Ending::NoMemory,
    }
}

/// Runs the lines of a script up to the first that ends the run. Results are held, and written where 64 are.
pub(crate) fn run_lines<'a, D: Disk>(
    alloc: Global,
    disk: &mut D,
    run: &mut Run<'a>,
    script: &'a Script,
    server: &Server,
    seat: &mut Seat,
) -> Ending
    requires rules { KeepsRules script.now }
    requires serves { ServesScript script.now 1 server.now }
    requires manned { IsManned server.now run.old.running seat.old.tokens }
    requires working { IsWorking run.old.sampler.session }
    requires fresh { run.old.sampler.session.logged ≡ 0 }
    requires unheld { held_in run.old.sampler.session.place ≡ 0 }
    requires unmarked { run.old.marks.items ≡ [] }
    ensures manned { IsManned server.now run.new.running seat.new.tokens }
    ensures alone { Alone run.new.running seat.new.tokens → Alone run.old.running seat.old.tokens }
    ensures same { (run.new.sampler.session.label ≡ run.old.sampler.session.label) × (run.new.sampler.session.limit ≡ run.old.sampler.session.limit) }
    ensures unheld { held_in run.new.sampler.session.place ≤ array_vec_len run.new.marks }
    ensures lost { lost_in run.new.sampler.session.place ≤ array_vec_len run.new.marks }
    ensures unfailed { result ≢ Failing → IsFailed run.new.sampler.session → ⊥ }
    ensures came { Alone run.new.running seat.new.tokens → Stands script.now server.now run.old seat.old.tokens (run_start script.now)
        → CameTo D.Disk script.now server.now run.old run.new seat.new.tokens disk.old disk.new result }
    ensures cause { MayEnd (D.faults disk.old) (D.faults disk.new) result }
    ensures later { D.faults disk.old ≤ D.faults disk.new }
    ensures quiet { result ≢ Failing → D.faults disk.new ≡ D.faults disk.old }
{
    for (number, line) in script.steps.as_slice() {
        match step(alloc, disk, run, script, server, seat, *number, line) {
            Ok(()) => {}
            Err(ending) => return ending,
        }
        match write_full(disk, run) {
            Ok(()) => {}
            Err(ending) => return ending,
        }
    }
    ending_of(run, server, script)
}
