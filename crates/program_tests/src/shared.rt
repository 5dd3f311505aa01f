//! What several subjects share: scripts, words, turns that hold who takes them, and a server of clients over loopback.
use pcp_base::List;
use pcp_memory::{MemSink, SureSource};
use pcp_outside::{LOGGER, Turn};
use pcp_system::TcpDoor;
use pm_serving::run_serve;
use std::alloc::{Alloc, AllocError, Global};
use std::net::TcpListener;
use std::sync::Wait;
use std::sync::atomic::{AtomicBool, AtomicU64, Ordering};
use std::thread::{self, Threads};
use std::time::{Clock, Duration};

/// A region whose counter opens on 7.
pub const HITS: &[u8] =
    b"image A\nmmv 1 5 0 0 1\nmetric hits 2 i32 counter 00100000 - - -\nvalue 2 - 7\nend\n\
region app A 32 3\nstart\n";

// A region whose one instance opens on 3.
const PER: &[u8] = b"image D\nmmv 1 5 0 0 1\nindom 1 - -\ninstance 1 0 \"a\"\n\
metric per 4 u32 counter 00100000 1 - -\nvalue 4 0 3\nend\nregion app D 64 3\nstart\n";

/// The steps of a writer of that region, which adds 5. Its number is 1, as that of its pass.
pub const ADDS: &[u8] = b"attach app 1\nadd app 1 4 0 5\ndetach app 1\n";

/// Who goes on with which step only once who was called for which.
pub type Hold = (u32, u64, u32, u64);

/// A reader, 0, whose first two steps stand before the writer adds and behind that, and whose third one is its end.
pub const BY_TURNS: [Hold; 4] = [(0, 0, 1, 1), (1, 1, 0, 1), (0, 1, 1, 2), (1, 2, 0, 2)];

/// Holds steps, each for so many milliseconds, counts the calls of 0, of 1 and of the logger, and tells whether one came out of its
/// order or waited too long.
#[derive(Drop)]
pub struct Held<'a, R: Clock> {
    rt: &'a R,
    holds: &'static [Hold],
    first: AtomicU64,
    second: AtomicU64,
    logger: AtomicU64,
    fails: AtomicBool,
}

impl<'a, R: Clock> Held<'a, R> {
    pub fn new(rt: &'a R, holds: &'static [Hold]) -> Self {
        Held {
            rt,
            holds,
            first: AtomicU64::new(0),
            second: AtomicU64::new(0),
            logger: AtomicU64::new(0),
            fails: AtomicBool::new(false),
        }
    }

    /// Whether each step came in its order and in time.
    pub fn is_well(&self) -> bool {
        !self.fails.load(Ordering::SeqCst)
    }

    // How often this one was called.
    fn calls(&self, who: u32) -> &AtomicU64 {
        match who {
            LOGGER => &self.logger,
            0 => &self.first,
            _ => &self.second,
        }
    }

    fn wait(&self, who: u32, step: u64) {
        for _ in 0..10_000u32 {
            if self.calls(who).load(Ordering::SeqCst) > step || self.fails.load(Ordering::SeqCst) {
                return;
            }
            thread::sleep(self.rt, Duration::from_millis(1));
        }
        self.fails.store(true, Ordering::SeqCst);
    }
}

impl<'a, R: Clock> Turn for Held<'a, R> {
    fn turn(&self, who: u32, step: u64) {
        if self.calls(who).fetch_add(1, Ordering::SeqCst) != step {
            self.fails.store(true, Ordering::SeqCst);
        }
        for (held, at, other, call) in self.holds {
            if *held == who && *at == step {
                self.wait(*other, *call);
            }
        }
    }
}

/// The words of a line.
pub fn words_of(alloc: Global, line: &str) -> Result<Vec<String>, AllocError> {
    let mut words = Vec::new(alloc);
    for word in line.split(' ') {
        words.push(word.to_string(alloc)?)?;
    }
    Ok(words)
}

// The call alone, over four doors of a listener: whoever calls this has nothing to do with its contract.
fn call_serve<'a, R: Threads + Wait + Clock + Alloc<A = Global> + Send + Sync>(
    rt: &'a R,
    listener: &'a TcpListener,
    words: &[String],
    input: &mut SureSource,
    out: &mut MemSink,
    turn: &Held<'_, R>,
) -> u8 {
    let mut doors = [
        TcpDoor::new(listener, rt),
        TcpDoor::new(listener, rt),
        TcpDoor::new(listener, rt),
        TcpDoor::new(listener, rt),
    ];
    let mut served = None;
    let alloc = rt.alloc();
    run_serve(rt, alloc, words, input, out, &mut doors, turn, &mut served)
}

/// Serves clients of a listener beside these steps, as the words of a line say, and tells whether that was done and told.
pub fn is_served<R: Threads + Wait + Clock + Alloc<A = Global> + Send + Sync>(
    rt: &R,
    listener: &TcpListener,
    line: &str,
    steps: &[u8],
    told: &[u8],
    turn: &Held<'_, R>,
) -> Result<bool, AllocError> {
    let alloc = rt.alloc();
    let words = words_of(alloc, line)?;
    let mut script = PER.to_vec(alloc)?;
    script.extend_from_slice(steps)?;
    let mut input = SureSource::new(List::from_vec(script));
    let mut out = MemSink::new(alloc, List::empty(alloc));
    let status = call_serve(rt, listener, &words, &mut input, &mut out, turn);
    Ok(status == 0 && out.bytes() == told)
}
