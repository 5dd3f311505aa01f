//! The command `record SAMPLES VOLUME` of the program `pcp`: samples are taken by the system's clock, a second apart, and where
//! somebody looks on, a line is told before each. Only pcp and tests use it.
ghost use Rattle.std.specs.Prelude.{◌≡◌, map, string_bytes};
ghost use Rattle.pcp_outside.specs.Causes.{Rose};
ghost use Rattle.pcp_outside.specs.Sides.{source_side};
ghost use Rattle.pm_recording.specs.Facts.{ScriptFaultIsExact};
ghost use Rattle.pm_words.specs.Asking.{UsageIsExact};
ghost use Rattle.pm_words.specs.declared.words.Call.TheVariants as calls;

use crate::progress::{CountedDisk, Progress, ToldTurn, samples_told};
use pcp_outside::{Disk, Sink, Source};
use pcp_system::{Pace, SystemClock};
use pm_recording::run_record;
use pm_words::{Call, Command, read_words};
use std::alloc::{Alloc, Global};
use std::io::{IsTerminal, Print};
use std::sync::Wait;
use std::thread::Threads;
use std::time::Clock;

// How many samples are told on a screen.
fn samples_to_tell<P: IsTerminal>(alloc: Global, words: &[String], screen: &P) -> Option<u32> {
    let Ok(Command::Record(asked)) = read_words(alloc, Call::Record, words) else {
        return None;
    };
    samples_told(asked.samples, screen)
}

/// Records as the words ask, by the system's clock, with a second between the samples, and answers the exit status of `run_record` and the disk.
/// Where there are several samples, and `screen` is a terminal, a line there tells before each what was logged and made sure so far; nothing
/// else changes by that, also where the screen fails.
pub fn record_samples<R, I, O, D, P>(
    rt: &R,
    words: &[String],
    input: &mut I,
    out: &mut O,
    disk: D,
    screen: &P,
) -> (u8, D)
where
    R: Threads + Wait + Clock + Alloc<A = Global> + Sync,
    I: Source,
    O: Sink,
    D: Disk + Drop,
    P: Print + IsTerminal + Sync,
    ensures usage { UsageIsExact calls.Record (map string_bytes words.now) result.0 }
    ensures script_fault { ScriptFaultIsExact (map string_bytes words.now) (source_side I.Source input.old input.new) result.0 }
    ensures read_fault { result.0 ≡ 3 → Rose (I.faults input.old) (I.faults input.new) }
    ensures write_fault { result.0 ≡ 4 → Rose (O.faults out.old) (O.faults out.new) }
{
    let told = samples_to_tell(rt.alloc(), words, screen);
    let progress = Progress::new();
    let mut disk = CountedDisk::new(disk, &progress);
    let mut opened = None;
    let status = run_record(
        rt,
        rt.alloc(),
        words,
        input,
        out,
        &mut disk,
        &mut SystemClock::new(rt),
        &ToldTurn::new(Pace::new(rt), screen, told, &progress),
        &mut opened,
    );
    (status, disk.into_disk())
}
