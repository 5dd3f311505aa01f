//! The command `pull PORT SAMPLES VOLUME NAME..` of the program `pcp`: a server at PORT of 127.0.0.1 is asked for samples, a second apart, and
//! where somebody looks on, a line is told before each. Only pcp and tests use it.
ghost use Rattle.std.specs.Prelude.{◌≡◌, ◌⊎◌, None, map, string_bytes};
ghost use Rattle.pcp_shell.specs.Ports.{port_of};

use crate::ports::{no_port, port_of, without_port};
use crate::progress::{CountedDisk, Progress, ToldTurn, samples_told};
use pcp_outside::{Disk, LOGGER, Sink, Source, Turn, write_all};
use pcp_system::{Pace, connect};
use pm_pulling::pull;
use pm_words::{Call, Command, Refusal, read_words, tell_end};
use std::alloc::{Alloc, Global};
use std::io::{ErrorKind, IsTerminal, Print};
use std::net::{Net, TcpListener, TcpStream};
use std::time::Clock;

// Turns of a call in which nobody acts but the logger.
#[derive(Drop)]
struct LoggerTurn<T: Turn + Drop> {
    turn: T,
}

impl<T: Turn + Drop> Turn for LoggerTurn<T> {
    fn turn(&self, _who: u32, step: u64) {
        self.turn.turn(LOGGER, step);
    }
}

// How many samples the words ask for, or why they ask for none.
fn samples_asked(alloc: Global, words: &[String]) -> Result<u32, Refusal> {
    match read_words(alloc, Call::Pull, words)? {
        Command::Pull(asked) => Ok(asked.samples),
        _ => Err(Refusal::Usage { at: 0 }),
    }
}

// Logs samples of what a server answers, and tells of them.
fn pull_from<R, I, L, O, D, P>(
    rt: &R,
    words: &[String],
    samples: Option<u32>,
    replies: &mut I,
    requests: &mut L,
    out: &mut O,
    disk: D,
    screen: &P,
) -> (u8, D)
where
    R: Clock + Alloc<A = Global>,
    I: Source,
    L: Sink,
    O: Sink,
    D: Disk + Drop,
    P: Print,
{
    let progress = Progress::new();
    let mut disk = CountedDisk::new(disk, &progress);
    let turn = LoggerTurn {
        turn: ToldTurn::new(Pace::new(rt), screen, samples, &progress),
    };
    let status = pull(rt.alloc(), words, replies, requests, out, &mut disk, &turn);
    (status, disk.into_disk())
}

/// Logs samples of what a server at PORT of 127.0.0.1 answers, with a second between them, and answers the exit status and the disk: 1 where
/// PORT is no port or the words behind it are bad, which is looked at before anything is connected, 17 where connecting fails, and else that
/// of `pull`. On a terminal it is told as a recording is.
pub fn pull_samples<R, O, D, P>(
    rt: &R,
    words: &[String],
    out: &mut O,
    disk: D,
    screen: &P,
) -> (u8, D)
where
    R: Net<Listener = TcpListener, Stream = TcpStream> + Clock + Alloc<A = Global>,
    O: Sink,
    D: Disk + Drop,
    P: Print + IsTerminal,
    ensures no_port { port_of (map string_bytes words.now) ≡ None → (result.0 ≡ 1) ⊎ (result.0 ≡ 9) }
{
    let alloc = rt.alloc();
    let Some(port) = port_of(words) else {
        return (no_port(alloc, out), disk);
    };
    let Ok(rest) = without_port(alloc, words) else {
        return (9, disk);
    };
    let samples = match samples_asked(alloc, &rest) {
        Ok(samples) => samples,
        Err(refusal) => return (tell_end(alloc, out, false, Err(refusal)), disk),
    };
    let (mut replies, mut requests) = match connect(rt, port) {
        Ok(ends) => ends,
        Err(error) if error.kind() == ErrorKind::OutOfMemory => return (9, disk),
        Err(_) => {
            let _ = write_all(out, b"connect fault\n");
            return (17, disk);
        }
    };
    let told = samples_told(samples, screen);
    pull_from(
        rt,
        &rest,
        told,
        &mut replies,
        &mut requests,
        out,
        disk,
        screen,
    )
}
