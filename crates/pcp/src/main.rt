//! The program `pcp BASE COMMAND WORDS`: the archive whose files' names begin with BASE, the words of the
//! command, standard input and standard output are handed to the command, whose status is the program's. A lone `--help` prints the help.
#![tactic(auto)]

use pcp_outside::{Free, Sink, Source};
use pcp_shell::{
    asks_help, first_bad_behind_port, first_bad_behind_sources, first_bad_behind_target,
    first_bad_of, pull_samples, record_samples, serve_clients, source_of_itself, sources_of,
    target_of, without_sources, without_target, write_help,
};
use pcp_system::{FileDisk, ReaderSource, Screen, WriterSink, open_standard};
use pm_commands::{Call, Refusal, offline, read_words, writes_archive};
use pm_exporting::export;
use pm_extracting::extract;
use pm_summing::summary;
use std::alloc::{Alloc, AllocError, Global};
use std::env::Env;
use std::fs::{File, Files};
use std::io::ErrorKind;
use std::net::{Net, TcpListener, TcpStream};
use std::process::ExitCode;
use std::sync::Wait;
use std::thread::Threads;
use std::time::Clock;
use std::{env, io};

// The words of the command that stand before the first word that isn't UTF-8. Linux passes none of more than 128 KiB.
fn words_before_bad(rt: &(impl Env + Alloc<A = Global>)) -> Result<Vec<String>, AllocError> {
    let alloc = rt.alloc();
    let mut buffer = vec![in alloc; 0u8; 131_072]?;
    let mut words = Vec::new(alloc);
    for at in 0..usize::MAX {
        let Ok(length) = rt.arg(at, &mut buffer) else {
            return Ok(words);
        };
        let Ok(word) = str::from_utf8(&buffer[..length]) else {
            return Ok(words);
        };
        if at > 1 {
            words.push(word.to_string(alloc)?)?;
        }
    }
    Ok(words)
}

// Which word is the first bad one, where some word isn't UTF-8.
fn first_bad_word(rt: &(impl Env + Alloc<A = Global>)) -> Result<usize, AllocError> {
    let words = words_before_bad(rt)?;
    match Call::named(&words) {
        Call::Serve => first_bad_behind_port(rt.alloc(), Call::Serve, &words),
        Call::Pull => first_bad_behind_port(rt.alloc(), Call::Pull, &words),
        Call::Extract => first_bad_behind_sources(rt.alloc(), &words),
        Call::Export => first_bad_behind_target(rt.alloc(), &words),
        call => first_bad_of(rt.alloc(), call, &words),
    }
}

// The end of a faulty command line, and its status.
fn usage(alloc: Global, out: &mut impl Sink, at: usize) -> u8 {
    let refusal = Refusal::Usage { at };
    match refusal.tell(alloc, out) {
        Ok(()) => refusal.status(),
        Err(_) => 9,
    }
}

// The end where some word isn't UTF-8, and its status.
fn no_text(rt: &(impl Env + Alloc<A = Global>), out: &mut impl Sink) -> u8 {
    match first_bad_word(rt) {
        Ok(at) => usage(rt.alloc(), out, at),
        Err(_) => 9,
    }
}

// Whether a command writes the archive, whatever else its words are.
fn writes(alloc: Global, call: Call, command: &[String]) -> Result<bool, AllocError> {
    if let Call::Pull = call {
        return Ok(true);
    }
    match read_words(alloc, call, command) {
        Ok(asked) => Ok(writes_archive(&asked)),
        Err(Refusal::NoMemory) => Err(AllocError),
        Err(_) => Ok(false),
    }
}

// Runs a command on the archive's files, and answers its status and the files.
fn on_files<'a, R>(
    rt: &R,
    call: Call,
    command: &[String],
    input: &mut impl Source,
    out: &mut impl Sink,
    disk: FileDisk<'a, R>,
    screen: &Screen,
) -> (u8, FileDisk<'a, R>)
where
    R: Files<File = File>
        + Net<Listener = TcpListener, Stream = TcpStream>
        + Threads
        + Wait
        + Clock
        + Alloc<A = Global>
        + Sync,
{
    let mut disk = disk;
    match call {
        Call::Record => record_samples(rt, command, input, out, disk, screen),
        Call::Pull => pull_samples(rt, command, out, disk, screen),
        Call::Summary => {
            let status = summary(rt, rt.alloc(), command, out, &mut disk, &Free);
            (status, disk)
        }
        Call::Offline | Call::Serve | Call::Extract | Call::Export => {
            let mut opened = None;
            let status = offline(rt.alloc(), command, input, out, &mut disk, &mut opened);
            (status, disk)
        }
    }
}

// Runs a command on the archive, and answers its status. The files are closed before it is told why one of them failed.
fn archive<R>(
    rt: &R,
    base: String,
    command: &[String],
    input: &mut impl Source,
    out: &mut impl Sink,
    screen: &Screen,
) -> u8
where
    R: Files<File = File>
        + Net<Listener = TcpListener, Stream = TcpStream>
        + Threads
        + Wait
        + Clock
        + Alloc<A = Global>
        + Sync,
{
    let alloc = rt.alloc();
    let call = Call::named(command);
    let Ok(writes) = writes(alloc, call, command) else {
        return 9;
    };
    let disk = if writes {
        FileDisk::new(alloc, rt, base)
    } else {
        FileDisk::for_reading(alloc, rt, base)
    };
    let (status, disk) = on_files(rt, call, command, input, out, disk, screen);
    tell_of(disk, screen);
    status
}

// Merges the archives of two bases into that of the base, and answers the status.
fn merge<R: Files<File = File> + Alloc<A = Global>>(
    rt: &R,
    bases: [String; 3],
    words: &[String],
    out: &mut impl Sink,
    screen: &Screen,
) -> u8 {
    let alloc = rt.alloc();
    let [base, first, second] = bases;
    let mut first = FileDisk::for_reading(alloc, rt, first);
    let mut second = FileDisk::for_reading(alloc, rt, second);
    let mut disk = FileDisk::new(alloc, rt, base);
    match source_of_itself(&disk, &first, &second) {
        Ok(None) => {}
        Ok(Some(at)) => return usage(alloc, out, at),
        Err(_) => return 9,
    }
    let status = extract(alloc, words, &mut first, &mut second, out, &mut disk);
    tell_of(first, screen);
    tell_of(second, screen);
    tell_of(disk, screen);
    status
}

// Which of the words of `extract` is the base itself: also where no file of it is there yet.
fn named_itself(base: &str, first: &str, second: &str) -> Option<usize> {
    if first.as_bytes() == base.as_bytes() {
        return Some(1);
    }
    if second.as_bytes() == base.as_bytes() {
        return Some(2);
    }
    None
}

// Merges the archives of the bases that the words name into the archive, and answers the status. Where one of the two is missing, or is the
// archive itself, the command line is faulty, and nothing is touched.
fn merge_sources<R: Files<File = File> + Alloc<A = Global>>(
    rt: &R,
    base: String,
    command: &[String],
    out: &mut impl Sink,
    screen: &Screen,
) -> u8 {
    let alloc = rt.alloc();
    let Some((first, second)) = sources_of(command) else {
        return usage(alloc, out, command.len());
    };
    if let Some(at) = named_itself(base.as_str(), first.as_str(), second.as_str()) {
        return usage(alloc, out, at);
    }
    let (Ok(first), Ok(second)) = (first.to_string(alloc), second.to_string(alloc)) else {
        return 9;
    };
    let Ok(words) = without_sources(alloc, command) else {
        return 9;
    };
    merge(rt, [base, first, second], &words, out, screen)
}

// Writes the archive again at another base, and answers the status.
fn export_to<R: Files<File = File> + Alloc<A = Global>>(
    rt: &R,
    base: String,
    target: String,
    words: &[String],
    out: &mut impl Sink,
    screen: &Screen,
) -> u8 {
    let alloc = rt.alloc();
    let mut source = FileDisk::for_reading(alloc, rt, base);
    let mut disk = FileDisk::new(alloc, rt, target);
    match disk.shares_file(&source) {
        Ok(false) => {}
        Ok(true) => return usage(alloc, out, 1),
        Err(_) => return 9,
    }
    let status = export(alloc, words, &mut source, out, &mut disk);
    tell_of(source, screen);
    tell_of(disk, screen);
    status
}

// Writes the archive again at the base that the words name, and answers the status. Where that is missing, or is the archive itself, the command line is
// faulty, and nothing is touched.
fn export_archive<R: Files<File = File> + Alloc<A = Global>>(
    rt: &R,
    base: String,
    command: &[String],
    out: &mut impl Sink,
    screen: &Screen,
) -> u8 {
    let alloc = rt.alloc();
    let Some(target) = target_of(command) else {
        return usage(alloc, out, command.len());
    };
    if target.as_bytes() == base.as_bytes() {
        return usage(alloc, out, 1);
    }
    let Ok(target) = target.to_string(alloc) else {
        return 9;
    };
    let Ok(words) = without_target(alloc, command) else {
        return 9;
    };
    export_to(rt, base, target, &words, out, screen)
}

// Closes the files, and then tells why one of them failed.
fn tell_of<R: Files<File = File>>(disk: FileDisk<'_, R>, screen: &Screen) {
    let why = disk.why();
    drop(disk);
    tell(screen, why);
}

// Tells on the terminal why a call of the system failed.
fn tell(screen: &Screen, why: Result<Option<String>, AllocError>) {
    if let Ok(Some(line)) = why {
        let _ = println!(screen; "{line}");
    }
}

fn main(rt: HostRuntime) -> ExitCode {
    let _ = open_standard(&rt);
    let alloc = rt.alloc();
    let mut out = WriterSink::new(io::writer(&rt));
    let words = match env::args(&rt) {
        Ok(words) => words,
        Err(error) if error.kind() == ErrorKind::OutOfMemory => return ExitCode::from(9),
        Err(_) => return ExitCode::from(no_text(&rt, &mut out)),
    };
    let all: Vec<String> = match words.collect(alloc) {
        Ok(all) => all,
        Err(_) => return ExitCode::from(9),
    };
    if asks_help(&all) {
        return ExitCode::from(write_help(alloc, &mut out));
    }
    let [_, base, command @ ..] = all.as_slice() else {
        return ExitCode::from(usage(alloc, &mut out, 0));
    };
    let base = match base.to_string(alloc) {
        Ok(base) => base,
        Err(_) => return ExitCode::from(9),
    };
    let mut input = ReaderSource::new(rt.reader());
    let screen = Screen::new(alloc, &rt, &rt.stderr());
    let status = match Call::named(command) {
        Call::Serve => serve_clients(&rt, command, &mut input, &mut out),
        Call::Extract => merge_sources(&rt, base, command, &mut out, &screen),
        Call::Export => export_archive(&rt, base, command, &mut out, &screen),
        Call::Offline | Call::Record | Call::Pull | Call::Summary => {
            archive(&rt, base, command, &mut input, &mut out, &screen)
        }
    };
    tell(&screen, input.why(alloc, "standard input"));
    tell(&screen, out.why(alloc, "standard output"));
    ExitCode::from(status)
}
