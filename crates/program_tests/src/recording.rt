//! Recordings of a script whose two writers add to the counters of two regions.
ghost use Rattle.fetch_engine.specs.Servers.{IsSeated};

use crate::shared::{Held, Hold, words_of};
use fetch_engine::{Seat, Server};
use pcp_base::{Body, FileId, List, Pmid, Stamp, ValueSet};
use pcp_memory::{ListClock, MemDisk, MemSink, MemSource};
use pcp_outside::{Disk, LOGGER};
use pm_recording::run_record;
use profile_filter::Profile;
use std::alloc::{AllocError, Global};
use std::sync::Wait;
use std::test::Fail;
use std::thread::Threads;
use std::time::Clock;

// Two regions, each with a counter that opens on 7.
const HEAD: &[u8] =
    b"image A\nmmv 1 5 0 0 1\nmetric hits 2 i32 counter 00100000 - - -\nvalue 2 - 7\nend\n\
image B\nmmv 1 5 0 0 2\nmetric hits 2 i32 counter 00100000 - - -\nvalue 2 - 7\nend\n\
region app A 32 2\nregion web B 32 2\nlog mandatory on every 1 sec { mmv }\nstart\n";

// The steps 2 to 4 of the first writer add to one region and the other in turn, and step 1 of the second one to the second region.
const STEPS: &[u8] =
    b"attach app 0\nattach web 0\nadd app 0 2 - 5\nadd web 0 2 - 5\nadd app 0 2 - 5\ndetach app 0\ndetach web 0\n\
attach web 1\nadd web 1 2 - 5\ndetach web 1\n";

// The first two writers are 0 and 1. Both stand before their adds until the first sample was taken. Then each sample waits for an add,
// and the next add for the sample; the last two adds stand before the last sample that waits.
const BESIDE: [Hold; 10] = [
    (LOGGER, 0, 0, 2),
    (LOGGER, 0, 1, 1),
    (0, 2, LOGGER, 1),
    (LOGGER, 1, 0, 3),
    (0, 3, LOGGER, 2),
    (LOGGER, 2, 0, 4),
    (0, 4, LOGGER, 3),
    (1, 1, LOGGER, 3),
    (LOGGER, 3, 0, 5),
    (LOGGER, 3, 1, 2),
];

// What the items of that recording show of both counters.
const SHOWN: [[u8; 2]; 5] = [[7, 7], [12, 7], [12, 12], [17, 17], [17, 17]];

// A recording: its words, the steps of its script, the seconds of its clock, which calls of each object fail, whether the archive is a
// label that was begun, which recovery cuts off, and how many calls change a file.
#[derive(Clone, Copy)]
struct Case {
    line: &'static str,
    steps: &'static [u8],
    seconds: &'static [u32],
    source_fails: &'static [u64],
    sink_fails: &'static [u64],
    clock_fails: &'static [u64],
    disk_fails: &'static [u64],
    is_begun: bool,
    changes: usize,
    holds: &'static [Hold],
}

// One sample at 100 s of the steps above, over an empty disk.
const ONE: Case = Case {
    line: "record 1 1048576",
    steps: STEPS,
    seconds: &[100],
    source_fails: &[],
    sink_fails: &[],
    clock_fails: &[],
    disk_fails: &[],
    is_begun: false,
    changes: 0,
    holds: &[],
};

// What a recording came to: its status, whether its output is as it must be, whether each step came in its order and in time, how many
// calls changed a file, and what both counters show in the regions that are left and in the items of the first volume.
#[derive(Clone, Copy)]
struct Ran {
    status: u8,
    is_told: bool,
    is_held: bool,
    moments: usize,
    left: Option<[u32; 2]>,
    items: [[u8; 2]; 5],
}

// An input of the head and the steps.
fn input_of(alloc: Global, case: &Case) -> Result<MemSource, AllocError> {
    let mut script = HEAD.to_vec(alloc)?;
    script.extend_from_slice(case.steps)?;
    let fails = List::from_vec(case.source_fails.to_vec(alloc)?);
    Ok(MemSource::new(List::from_vec(script), fails))
}

// A clock of whole seconds.
fn clock_of(alloc: Global, case: &Case) -> Result<ListClock, AllocError> {
    let mut moments = Vec::new(alloc);
    for second in case.seconds {
        if let Some(moment) = Stamp::build(*second, 0) {
            moments.push(moment)?;
        }
    }
    let fails = List::from_vec(case.clock_fails.to_vec(alloc)?);
    Ok(ListClock::new(List::from_vec(moments), fails))
}

// An empty disk, or one on which a label was begun by the first call.
fn disk_of(alloc: Global, case: &Case) -> Result<MemDisk, AllocError> {
    let fails = List::from_vec(case.disk_fails.to_vec(alloc)?);
    let mut disk = MemDisk::new(alloc, fails);
    if case.is_begun {
        let _ = disk.append(FileId::Meta, b"\x00\x00\x00\x84");
    }
    Ok(disk)
}

// The value of a set with one value.
fn value_of(set: &ValueSet) -> Option<u32> {
    match &set.body {
        Body::InPlace(pairs) => Some(pairs.get(0)?.1),
        _ => None,
    }
}

// What a seat reads of both counters.
fn counters_of(alloc: Global, server: &Server, seat: &mut Seat) -> Option<[u32; 2]>
    requires { IsSeated server.now seat.old.tokens }
{
    let pmids = [Pmid::of_word(0x1180_0402), Pmid::of_word(0x1180_0802)];
    let stamp = Stamp::build(0, 0)?;
    let told = server
        .result(alloc, seat, &Profile::all(alloc), &pmids, stamp)
        .ok()?;
    let [app, web] = told.sets.as_slice() else {
        return None;
    };
    Some([value_of(app)?, value_of(web)?])
}

// The call, and what the regions show that it leaves: whoever calls this has nothing to do with its contract.
#[tactic(auto, using(crate::proofs::Left::is_seated))]
fn run<R: Threads + Wait + Clock + Sync>(
    rt: &R,
    alloc: Global,
    words: &[String],
    input: &mut MemSource,
    out: &mut MemSink,
    disk: &mut MemDisk,
    clock: &mut ListClock,
    turn: &Held<'_, R>,
) -> (u8, Option<[u32; 2]>) {
    let mut opened = None;
    let status = run_record(rt, alloc, words, input, out, disk, clock, turn, &mut opened);
    let Some(mut left) = opened else {
        return (status, None);
    };
    let Some(seat) = left.seats.get_mut(0) else {
        return (status, None);
    };
    (status, counters_of(alloc, &left.server, seat))
}

fn byte_at(bytes: &[u8], at: usize) -> u8 {
    *bytes.get(at).unwrap_or(&0)
}

// The low bytes of both counters in the first items of a volume, and 0 where none is.
fn items_in(volume: &[u8]) -> [[u8; 2]; 5] {
    let mut shown = [[0u8; 2]; 5];
    let items = volume.get(132..).unwrap_or(&[]).chunks(60);
    for (item, both) in items.zip(shown.iter_mut()) {
        *both = [byte_at(item, 35), byte_at(item, 55)];
    }
    shown
}

// Records as the case says, which is to write this.
fn record<R: Threads + Wait + Clock + Sync>(
    rt: &R,
    alloc: Global,
    case: &Case,
    told: &[u8],
) -> Result<Ran, AllocError> {
    let words = words_of(alloc, case.line)?;
    let mut input = input_of(alloc, case)?;
    let mut clock = clock_of(alloc, case)?;
    let mut disk = disk_of(alloc, case)?;
    let mut out = MemSink::new(alloc, List::from_vec(case.sink_fails.to_vec(alloc)?));
    let held = Held::new(rt, case.holds);
    let (status, left) = run(
        rt, alloc, &words, &mut input, &mut out, &mut disk, &mut clock, &held,
    );
    Ok(Ran {
        status,
        is_told: out.bytes() == told,
        is_held: held.is_well(),
        moments: disk.moments(),
        left,
        items: items_in(disk.bytes(FileId::Volume(0))),
    })
}

// Two writers act beside each other and beside the samples, and each item shows exactly the adds before it: of one writer's steps in
// two regions the earlier ones.
#[test]
fn beside(rt: HostRuntime) -> Result<(), Fail> {
    let case = Case {
        line: "record 5 1048576",
        seconds: &[100, 101, 102, 103, 104],
        holds: &BESIDE,
        ..ONE
    };
    let ran = record(&rt, rt.alloc(), &case, b"logged 5\n")?;
    assert!(rt; ran.status == 0 && ran.is_told && ran.is_held);
    assert_eq!(rt; ran.items, SHOWN);
    assert_eq!(rt; ran.left, Some([17, 17]));
    Ok(())
}

// How recordings end. Where the clock ends or fails, and where the disk fails at its first call, in the recovery or for the first sample,
// the writers run all the same; so they do where it fails as the first of two samples is to be made sure, behind an append and a sync for each
// of three labels and for Meta's records, and the append of the sample. A reading is no step of a writer. The script comes by the first call
// of the source, and its end by the second one.
const ENDINGS: [(Case, u8, &[u8], Option<[u32; 2]>); 8] = [
    (
        Case {
            source_fails: &[1],
            ..ONE
        },
        3,
        b"read fault\n",
        None,
    ),
    (
        Case {
            source_fails: &[2],
            ..ONE
        },
        3,
        b"read fault\n",
        None,
    ),
    (
        Case {
            seconds: &[],
            ..ONE
        },
        8,
        b"clock end 1\n",
        Some([17, 17]),
    ),
    (
        Case {
            clock_fails: &[1],
            ..ONE
        },
        20,
        b"clock fault 1\n",
        Some([17, 17]),
    ),
    (
        Case {
            disk_fails: &[2],
            is_begun: true,
            changes: 1,
            ..ONE
        },
        5,
        b"disk fault\n",
        Some([17, 17]),
    ),
    (
        Case {
            line: "record 2 1048576",
            disk_fails: &[1],
            ..ONE
        },
        5,
        b"disk fault\n",
        Some([17, 17]),
    ),
    (
        Case {
            line: "record 2 1048576",
            disk_fails: &[10],
            changes: 9,
            ..ONE
        },
        5,
        b"disk fault\n",
        Some([17, 17]),
    ),
    (
        Case {
            steps: b"load app 0\ndone app 0\n",
            ..ONE
        },
        2,
        b"input line 15 Condition\n",
        None,
    ),
];

// Nothing more is done to any file, and nothing at all before the first sample but for the label that was begun.
#[test]
fn endings(rt: HostRuntime) -> Result<(), Fail> {
    for (case, status, told, left) in &ENDINGS {
        let ran = record(&rt, rt.alloc(), case, told)?;
        assert!(rt; ran.is_told && ran.moments == case.changes, "{status}");
        assert_eq!(rt; (ran.status, ran.left), (*status, *left));
    }
    Ok(())
}

// Where the sink fails all is done but told: the one sample stands in the archive.
#[test]
fn untold(rt: HostRuntime) -> Result<(), Fail> {
    let case = Case {
        sink_fails: &[1],
        ..ONE
    };
    let ran = record(&rt, rt.alloc(), &case, b"")?;
    assert_eq!(rt;
        (ran.status, ran.is_told, ran.left),
        (4, true, Some([17, 17]))
    );
    assert_eq!(rt; ran.items[0], [17, 17]);
    Ok(())
}
