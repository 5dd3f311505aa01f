//! Summaries of an archive of many volumes: its workers run beside each other, and each volume has one.
use crate::shared::{Held, Hold, words_of};
use pcp_base::List;
use pcp_memory::{MemDisk, MemSink, SureSource};
use pcp_outside::Turn;
use pm_commands::offline;
use pm_summing::summary;
use std::alloc::{AllocError, Global};
use std::sync::atomic::{AtomicBool, AtomicU64, Ordering};
use std::test::Fail;
use std::thread::Threads;
use std::time::Clock;

// 600 samples in 17 volumes, of which the first three are emptied then.
const MADE: &str = "make 1 600 65536";

const RETIRED: &str = "retire 3";

// Notes each volume that is called for, by four workers of which each has every fourth volume from the fourth one on, and tells whether
// one came out of its order.
#[derive(Drop)]
struct Noted {
    volumes: AtomicU64,
    fails: AtomicBool,
}

impl Noted {
    fn new() -> Self {
        Noted {
            volumes: AtomicU64::new(0),
            fails: AtomicBool::new(false),
        }
    }
}

// The place of a volume in what is noted, from 3 to 16.
fn place_of(volume: u64) -> Option<u64> {
    if volume < 3 {
        return None;
    }
    if volume >= 17 {
        return None;
    }
    Some(1u64.wrapping_shl(3 * (volume as u32)))
}

impl Turn for Noted {
    fn turn(&self, who: u32, step: u64) {
        if u64::from(who) != step.wrapping_sub(3) % 4 {
            self.fails.store(true, Ordering::SeqCst);
        }
        match place_of(step) {
            Some(place) => {
                let _before = self.volumes.fetch_add(place, Ordering::SeqCst);
            }
            None => self.fails.store(true, Ordering::SeqCst),
        }
    }
}

// Each of two workers, which have every other volume, waits with its first one until the other one was called for its first.
const CROSSED: [Hold; 2] = [(0, 0, 1, 0), (1, 0, 0, 0)];

// Counts the volumes of each of two workers, and not those of both.
#[derive(Drop)]
struct Halved<'a, R: Clock> {
    held: Held<'a, R>,
}

impl<'a, R: Clock> Turn for Halved<'a, R> {
    fn turn(&self, who: u32, step: u64) {
        self.held.turn(who, step / 2);
    }
}

// The calls alone: whoever calls these has nothing to do with their contracts.
fn call_offline(
    alloc: Global,
    words: &[String],
    source: &mut SureSource,
    out: &mut MemSink,
    disk: &mut MemDisk,
) -> u8 {
    let mut opened = None;
    offline(alloc, words, source, out, disk, &mut opened)
}

fn call_summary<R: Threads + Sync, T: Turn + Sync>(
    rt: &R,
    alloc: Global,
    words: &[String],
    out: &mut MemSink,
    disk: &mut MemDisk,
    turn: &T,
) -> u8 {
    summary(rt, alloc, words, out, disk, turn)
}

fn empty_disk(alloc: Global) -> MemDisk {
    MemDisk::new(alloc, List::empty(alloc))
}

// Runs a command over the archive, and tells whether it was done.
fn prepare(alloc: Global, line: &str, disk: &mut MemDisk) -> Result<bool, AllocError> {
    let words = words_of(alloc, line)?;
    let mut source = SureSource::new(List::empty(alloc));
    let mut out = MemSink::new(alloc, List::empty(alloc));
    Ok(call_offline(alloc, &words, &mut source, &mut out, disk) == 0)
}

// The status of a summary.
fn sum_up<R: Threads + Sync, T: Turn + Sync>(
    rt: &R,
    alloc: Global,
    line: &str,
    disk: &mut MemDisk,
    turn: &T,
) -> Result<u8, AllocError> {
    let words = words_of(alloc, line)?;
    let mut out = MemSink::new(alloc, List::empty(alloc));
    Ok(call_summary(rt, alloc, &words, &mut out, disk, turn))
}

// Of the volumes 3 to 16 each is called for once, by its number.
#[test]
fn each_volume_has_one_worker(rt: HostRuntime) -> Result<(), Fail> {
    let alloc = rt.alloc();
    let mut disk = empty_disk(alloc);
    assert!(rt; prepare(alloc, MADE, &mut disk)?);
    assert!(rt; prepare(alloc, RETIRED, &mut disk)?);
    let noted = Noted::new();
    let status = sum_up(&rt, alloc, "summary 4 0 0 1000 0", &mut disk, &noted)?;
    assert!(rt; status == 0 && !noted.fails.load(Ordering::SeqCst));
    assert_eq!(rt;
        noted.volumes.load(Ordering::SeqCst),
        0o11_111_111_111_111_000
    );
    Ok(())
}

// Two volumes are summed beside each other: each of two workers waits for the other one.
#[test]
fn beside_volumes(rt: HostRuntime) -> Result<(), Fail> {
    let alloc = rt.alloc();
    let mut disk = empty_disk(alloc);
    assert!(rt; prepare(alloc, MADE, &mut disk)?);
    let halved = Halved {
        held: Held::new(&rt, &CROSSED),
    };
    let status = sum_up(&rt, alloc, "summary 2 0 0 1000 0", &mut disk, &halved)?;
    assert!(rt; status == 0 && halved.held.is_well());
    Ok(())
}
