//! The words of a command line, read as the command that they ask for.
ghost use Rattle.std.specs.Prelude.{◌≡◌, ◌<◌, ◌≤◌, if◌then◌else◌, bytes_eq, codes, length, map, string_bytes, Ok, Err, IfOk};
ghost use Rattle.pcp_base.specs.Names.{IsComponent};
ghost use Rattle.pcp_base.specs.Texts.{IsText};
ghost use Rattle.pcp_base.specs.Time.{IsMoment};
ghost use Rattle.pm_words.specs.CommandLine.{Reads, Gives, FitsCommand, asked_by, call_named, call_of, run_command_of, end_then, number_in, volume_of, once_of, replay_of, make_of, retire_of, image_command_of, archive_command_of, timed_command_of, stamp_then, at_of, range_of, value_of, second_of, microsecond_of, file_of, begins_with_dash, name_of, names_then, pull_of, record_of, serve_of, extract_of, summary_of, takes_input, watch_of, word_then};
ghost use Rattle.pm_words.specs.declared.words.Call.TheVariants as calls;
ghost use Rattle.pm_words.specs.declared.words.Command.TheVariants.{Export};

use crate::names::{names_at, texts_of};
use crate::refusal::Refusal;
use pcp_base::{Bytes, List, NoMemory, Stamp, Text, TextError, is_component};
use std::alloc::Global;
use text_lines::read_number;

const MOST_WORKERS: u64 = 64;

/// What the words of a command line ask for.
#[derive(Drop)]
pub enum Command {
    /// `once SEC USEC FILE`: log one result of an image.
    Once(OnceWords),
    /// `replay VOLUME`: run a script, with this volume limit in bytes.
    Replay(u64),
    /// `make NUMBER TICKS VOLUME`: run the script that a number makes.
    Make(MakeWords),
    /// `retire N`: empty the volumes below a number, 10,000 at most.
    Retire(u32),
    /// `mmv-make`: make the image of a layout text.
    MmvMake,
    /// `mmv-dump`: write the layout text of an image.
    MmvDump,
    /// `mmv-lift`: make the version 2 image of an image's layout.
    MmvLift,
    /// `dump`: write an archive's label and all its items.
    Dump,
    /// `info`: write an archive's descriptions.
    Info,
    /// `check`: write how many items an archive has, if it is sound.
    Check,
    /// `recover`: mend an archive that was stopped anywhere, and write how many items it has.
    Recover,
    /// `at SEC USEC`: write the last item that isn't after a moment.
    At(Stamp),
    /// `range SEC USEC SEC USEC`: write the items between two moments.
    Range(Stamp, Stamp),
    /// `value SEC USEC NAME`: write the values that a metric last had at a moment.
    Value(ValueWords),
    /// `watch SEC USEC SEC USEC`: write which rules hold at the samples between two moments.
    Watch(Stamp, Stamp),
    /// `record SAMPLES VOLUME`: run a script's writers, and log a sample at each moment of a clock.
    Record(RecordWords),
    /// `serve COUNT`: serve a script's regions to so many clients.
    Serve(u32),
    /// `pull SAMPLES VOLUME NAME..`: log samples of metrics that a peer is asked for.
    Pull(PullWords),
    /// `extract VOLUME`: log the merge of two archives, with this volume limit in bytes.
    Extract(u64),
    /// `summary WORKERS SEC USEC SEC USEC`: write what the values of an archive come to between two moments.
    Summary(SummaryWords),
    /// `export`: write an archive as one that stock tools show whole, where nothing stands yet.
    Export,
}

/// The call of the library that does a command.
#[derive(Clone, Copy, Debug)]
pub enum Call {
    /// `offline`: each command that no other call does.
    Offline,
    /// `run_record`.
    Record,
    /// `run_serve`.
    Serve,
    /// `pull`.
    Pull,
    /// `extract`.
    Extract,
    /// `summary`.
    Summary,
    /// `export`.
    Export,
}

/// When the result is logged, and the region's name: one component of a name, of at most 63 bytes.
#[derive(Drop)]
pub struct OnceWords {
    pub stamp: Stamp,
    pub file: Text,
}

/// The number that a script is made of, how many ticks it has, and the volume limit in bytes.
#[derive(Drop)]
pub struct MakeWords {
    pub number: u64,
    pub ticks: u32,
    pub volume: u64,
}

/// When values are asked for, and the metric's name, whatever its bytes.
#[derive(Drop)]
pub struct ValueWords {
    pub stamp: Stamp,
    pub name: Bytes,
}

/// How many samples are to be taken, and the volume limit in bytes.
#[derive(Clone, Copy)]
pub struct RecordWords {
    pub samples: u32,
    pub volume: u64,
}

/// How many samples are to be taken, the volume limit in bytes, and the names of the metrics that are asked for: from one to 64, each of at
/// most 400 bytes.
#[derive(Drop)]
pub struct PullWords {
    pub samples: u32,
    pub volume: u64,
    pub names: List<Text>,
}

/// How many workers are to read volumes beside each other, from one to 64, and the moments between which values count.
#[derive(Clone, Copy)]
pub struct SummaryWords {
    pub workers: u32,
    pub from: Stamp,
    pub to: Stamp,
}

impl Call {
    /// The call that the first word names.
    pub fn named(words: &[String]) -> Call
        ensures { result ≡ call_named (map string_bytes words.now) }
    {
        let [name, ..] = words else {
            return Call::Offline;
        };
        let name = name.as_bytes();
        if name == b"record".as_slice() {
            return Call::Record;
        }
        if name == b"serve".as_slice() {
            return Call::Serve;
        }
        if name == b"pull".as_slice() {
            return Call::Pull;
        }
        if name == b"extract".as_slice() {
            return Call::Extract;
        }
        if name == b"summary".as_slice() {
            return Call::Summary;
        }
        if name == b"export".as_slice() {
            return Call::Export;
        }
        Call::Offline
    }
}

impl Command {
    /// Whether it takes an input.
    pub fn takes_input(&self) -> bool
        ensures { result ≡ takes_input self.now }
    {
        match self {
            Command::Once(_)
            | Command::Replay(_)
            | Command::MmvMake
            | Command::MmvDump
            | Command::MmvLift
            | Command::Watch(_, _)
            | Command::Record(_)
            | Command::Serve(_) => true,
            _ => false,
        }
    }
}

/// The word at this index is bad, or is missing.
#[derive(Clone, Copy)]
pub(crate) struct BadWord {
    pub(crate) at: usize,
}

impl From<BadWord> for Refusal {
    ghost use Rattle.pm_words.specs.declared.refusal.Refusal.TheVariants.{Usage as AtWord};

    ghost from_gives = { λ bad e. e ≡ AtWord bad.at };

    fn from(bad: BadWord) -> Refusal {
        Refusal::Usage { at: bad.at }
    }
}

// The first word's seconds, below 2^31, and the words behind it.
fn seconds_at(words: &[String], at: usize) -> Result<(u32, &[String]), BadWord>
    ensures word { Gives (λ x. (x.0, map string_bytes x.1.now)) result (word_then second_of at (map string_bytes words.now)) }
    ensures range { IfOk result (λ x. x.0 < 2147483648) }
{
    let [word, rest @ ..] = words else {
        return Err(BadWord { at });
    };
    match read_number(word.as_bytes()) {
        Some(sec) if sec < 2_147_483_648 => Ok((sec as u32, rest)),
        _ => Err(BadWord { at }),
    }
}

// The first word's microseconds, below 1,000,000, and the words behind it.
fn microseconds_at(words: &[String], at: usize) -> Result<(u32, &[String]), BadWord>
    ensures word { Gives (λ x. (x.0, map string_bytes x.1.now)) result (word_then microsecond_of at (map string_bytes words.now)) }
    ensures range { IfOk result (λ x. x.0 < 1000000) }
{
    let [word, rest @ ..] = words else {
        return Err(BadWord { at });
    };
    match read_number(word.as_bytes()) {
        Some(usec) if usec < 1_000_000 => Ok((usec as u32, rest)),
        _ => Err(BadWord { at }),
    }
}

// The first word as a region's name, and the words behind it.
#[tactic(auto, using(crate::proofs::Components::component_clean))]
fn file_at(words: &[String], at: usize) -> Result<(&[u8], &[String]), BadWord>
    ensures word { Gives (λ x. (x.0.now, map string_bytes x.1.now)) result (word_then file_of at (map string_bytes words.now)) }
    ensures text { IfOk result (λ x. IsText x.0.now) }
    ensures short { IfOk result (λ x. length x.0.now ≤ 63) }
    ensures component { IfOk result (λ x. IsComponent x.0.now) }
{
    let [word, rest @ ..] = words else {
        return Err(BadWord { at });
    };
    let bytes = word.as_bytes();
    if bytes.len() > 63 || !is_component(bytes) {
        return Err(BadWord { at });
    }
    Ok((bytes, rest))
}

// That there is no further word.
fn end_at(words: &[String], at: usize) -> Result<(), BadWord>
    ensures { Gives (λ x. x) result (end_then tt at (map string_bytes words.now)) }
{
    if words.is_empty() {
        Ok(())
    } else {
        Err(BadWord { at })
    }
}

// The first word as a number in a range, and the words behind it.
fn number_at(words: &[String], at: usize, low: u64, high: u64) -> Result<(u64, &[String]), BadWord>
    ensures word { Gives (λ x. (x.0, map string_bytes x.1.now)) result (word_then (number_in low high) at (map string_bytes words.now)) }
    ensures low { IfOk result (λ x. low ≤ x.0) }
    ensures high { IfOk result (λ x. x.0 ≤ high) }
{
    let [word, rest @ ..] = words else {
        return Err(BadWord { at });
    };
    match read_number(word.as_bytes()) {
        Some(number) if low as u128 <= number && number <= high as u128 => {
            Ok((number as u64, rest))
        }
        _ => Err(BadWord { at }),
    }
}

// The first word as a volume limit, and the words behind it.
fn volume_at(words: &[String], at: usize) -> Result<(u64, &[String]), BadWord>
    ensures word { Gives (λ x. (x.0, map string_bytes x.1.now)) result (word_then volume_of at (map string_bytes words.now)) }
    ensures low { IfOk result (λ x. 1024 ≤ x.0) }
    ensures high { IfOk result (λ x. x.0 ≤ 1073741824) }
{
    number_at(words, at, 1024, 1_073_741_824)
}

#[tactic(auto, unfolding(crate::specs::CommandLine::replay_of))]
fn replay_words(words: &[String]) -> Result<Command, BadWord>
    ensures command { Gives (λ command. command) result (replay_of (map string_bytes words.now)) }
    ensures fits { IfOk result FitsCommand }
    ensures call { IfOk result (λ command. call_of command ≡ calls.Offline) }
{
    let (volume, rest) = volume_at(words, 1)?;
    end_at(rest, 2)?;
    Ok(Command::Replay(volume))
}

#[tactic(auto, unfolding(crate::specs::CommandLine::make_of))]
fn make_words(words: &[String]) -> Result<Command, BadWord>
    ensures command { Gives (λ command. command) result (make_of (map string_bytes words.now)) }
    ensures fits { IfOk result FitsCommand }
    ensures call { IfOk result (λ command. call_of command ≡ calls.Offline) }
{
    let (number, rest) = number_at(words, 1, 0, 18_446_744_073_709_551_615)?;
    let (ticks, rest) = number_at(rest, 2, 1, 100_000)?;
    let (volume, rest) = volume_at(rest, 3)?;
    end_at(rest, 4)?;
    Ok(Command::Make(MakeWords {
        number,
        ticks: ticks as u32,
        volume,
    }))
}

#[tactic(auto, unfolding(crate::specs::CommandLine::retire_of))]
fn retire_words(words: &[String]) -> Result<Command, BadWord>
    ensures command { Gives (λ command. command) result (retire_of (map string_bytes words.now)) }
    ensures fits { IfOk result FitsCommand }
    ensures call { IfOk result (λ command. call_of command ≡ calls.Offline) }
{
    let (below, rest) = number_at(words, 1, 0, 10_000)?;
    end_at(rest, 2)?;
    Ok(Command::Retire(below as u32))
}

#[tactic(auto, unfolding(crate::specs::CommandLine::once_of))]
fn once_words(alloc: Global, words: &[String]) -> Result<Command, Refusal>
    ensures command { Reads result (once_of (map string_bytes words.now)) }
    ensures fits { IfOk result FitsCommand }
    ensures call { IfOk result (λ command. call_of command ≡ calls.Offline) }
{
    let (sec, rest) = seconds_at(words, 1)?;
    let (usec, rest) = microseconds_at(rest, 2)?;
    let (name, rest) = file_at(rest, 3)?;
    end_at(rest, 4)?;
    let Some(stamp) = Stamp::build(sec, usec) else {
        return Err(Refusal::Usage { at: 2 });
    };
    match Text::build(alloc, name) {
        Ok(file) => Ok(Command::Once(OnceWords { stamp, file })),
        Err(TextError::NoMemory) => Err(Refusal::NoMemory),
        Err(TextError::Zero(_)) => Err(Refusal::Usage { at: 3 }),
    }
}

// The first two words as a stamp's seconds and microseconds, and the words behind them.
#[tactic(auto, unfolding(crate::specs::CommandLine::stamp_then))]
fn moment_at(words: &[String], at: usize) -> Result<(u32, u32, &[String]), BadWord>
    requires { at ≤ 4 }
    ensures word { Gives (λ x. (record { sec = x.0; usec = x.1 }, map string_bytes x.2.now)) result (stamp_then at (map string_bytes words.now)) }
    ensures range { IfOk result (λ x. IsMoment record { sec = x.0; usec = x.1 }) }
{
    let (sec, rest) = seconds_at(words, at)?;
    let (usec, rest) = microseconds_at(rest, at + 1)?;
    Ok((sec, usec, rest))
}

// The stamp of seconds and microseconds in their ranges.
fn stamp_of(sec: u32, usec: u32) -> Result<Stamp, BadWord>
    requires { IsMoment record { sec = sec; usec = usec } }
    ensures { result ≡ Ok record { sec = sec; usec = usec } }
{
    match Stamp::build(sec, usec) {
        Some(stamp) => Ok(stamp),
        None => Err(BadWord { at: 0 }),
    }
}

fn begins_with_dash(bytes: &[u8]) -> bool
    ensures { result ≡ begins_with_dash bytes.now }
{
    match bytes {
        [first, ..] => *first == b'-',
        [] => false,
    }
}

// The first word as a metric's name, and the words behind it. One that begins with `-` is bad.
fn name_at(words: &[String], at: usize) -> Result<(&[u8], &[String]), BadWord>
    ensures { Gives (λ x. (x.0.now, map string_bytes x.1.now)) result (word_then name_of at (map string_bytes words.now)) }
{
    let [word, rest @ ..] = words else {
        return Err(BadWord { at });
    };
    let bytes = word.as_bytes();
    if begins_with_dash(bytes) {
        return Err(BadWord { at });
    }
    Ok((bytes, rest))
}

#[tactic(auto, unfolding(crate::specs::CommandLine::at_of))]
fn at_words(words: &[String]) -> Result<Command, BadWord>
    ensures command { Gives (λ command. command) result (at_of (map string_bytes words.now)) }
    ensures fits { IfOk result FitsCommand }
    ensures call { IfOk result (λ command. call_of command ≡ calls.Offline) }
{
    let (sec, usec, rest) = moment_at(words, 1)?;
    end_at(rest, 3)?;
    let stamp = stamp_of(sec, usec)?;
    Ok(Command::At(stamp))
}

#[tactic(auto, unfolding(crate::specs::CommandLine::range_of))]
fn range_words(words: &[String]) -> Result<Command, BadWord>
    ensures command { Gives (λ command. command) result (range_of (map string_bytes words.now)) }
    ensures fits { IfOk result FitsCommand }
    ensures call { IfOk result (λ command. call_of command ≡ calls.Offline) }
{
    let (from_sec, from_usec, rest) = moment_at(words, 1)?;
    let (to_sec, to_usec, rest) = moment_at(rest, 3)?;
    end_at(rest, 5)?;
    let from = stamp_of(from_sec, from_usec)?;
    let to = stamp_of(to_sec, to_usec)?;
    Ok(Command::Range(from, to))
}

#[tactic(auto, unfolding(crate::specs::CommandLine::watch_of))]
fn watch_words(words: &[String]) -> Result<Command, BadWord>
    ensures command { Gives (λ command. command) result (watch_of (map string_bytes words.now)) }
    ensures fits { IfOk result FitsCommand }
    ensures call { IfOk result (λ command. call_of command ≡ calls.Offline) }
{
    let (from_sec, from_usec, rest) = moment_at(words, 1)?;
    let (to_sec, to_usec, rest) = moment_at(rest, 3)?;
    end_at(rest, 5)?;
    let from = stamp_of(from_sec, from_usec)?;
    let to = stamp_of(to_sec, to_usec)?;
    Ok(Command::Watch(from, to))
}

fn bytes_of(alloc: Global, bytes: &[u8]) -> Result<Bytes, NoMemory>
    ensures { IfOk result (λ copy. copy ≡ bytes.now) }
{
    let copy = Vec::from_slice(alloc, bytes)?;
    Ok(List::from_vec(copy))
}

#[tactic(auto, unfolding(crate::specs::CommandLine::value_of))]
fn value_words(alloc: Global, words: &[String]) -> Result<Command, Refusal>
    ensures command { Reads result (value_of (map string_bytes words.now)) }
    ensures fits { IfOk result FitsCommand }
    ensures call { IfOk result (λ command. call_of command ≡ calls.Offline) }
{
    let (sec, usec, rest) = moment_at(words, 1)?;
    let (name, rest) = name_at(rest, 3)?;
    end_at(rest, 4)?;
    let stamp = stamp_of(sec, usec)?;
    let name = bytes_of(alloc, name)?;
    Ok(Command::Value(ValueWords { stamp, name }))
}

// A command over images and their texts, which has no further word.
fn image_words(name: &[u8], words: &[String]) -> Result<Command, BadWord>
    ensures command { Gives (λ command. command) result (image_command_of name.now (map string_bytes words.now)) }
    ensures fits { IfOk result FitsCommand }
    ensures call { IfOk result (λ command. call_of command ≡ calls.Offline) }
{
    if name == b"mmv-make".as_slice() {
        end_at(words, 1)?;
        return Ok(Command::MmvMake);
    }
    if name == b"mmv-dump".as_slice() {
        end_at(words, 1)?;
        return Ok(Command::MmvDump);
    }
    if name == b"mmv-lift".as_slice() {
        end_at(words, 1)?;
        return Ok(Command::MmvLift);
    }
    Err(BadWord { at: 0 })
}

// A command over an archive.
fn archive_words(name: &[u8], words: &[String]) -> Result<Command, BadWord>
    ensures command { Gives (λ command. command) result (archive_command_of name.now (map string_bytes words.now)) }
    ensures fits { IfOk result FitsCommand }
    ensures call { IfOk result (λ command. call_of command ≡ calls.Offline) }
{
    if name == b"dump".as_slice() {
        end_at(words, 1)?;
        return Ok(Command::Dump);
    }
    if name == b"info".as_slice() {
        end_at(words, 1)?;
        return Ok(Command::Info);
    }
    if name == b"check".as_slice() {
        end_at(words, 1)?;
        return Ok(Command::Check);
    }
    if name == b"recover".as_slice() {
        end_at(words, 1)?;
        return Ok(Command::Recover);
    }
    image_words(name, words)
}

// A command that asks an archive by time, or another.
fn timed_words(alloc: Global, name: &[u8], words: &[String]) -> Result<Command, Refusal>
    ensures command { Reads result (timed_command_of name.now (map string_bytes words.now)) }
    ensures fits { IfOk result FitsCommand }
    ensures call { IfOk result (λ command. call_of command ≡ calls.Offline) }
{
    if name == b"at".as_slice() {
        let command = at_words(words)?;
        return Ok(command);
    }
    if name == b"range".as_slice() {
        let command = range_words(words)?;
        return Ok(command);
    }
    if name == b"value".as_slice() {
        return value_words(alloc, words);
    }
    if name == b"watch".as_slice() {
        let command = watch_words(words)?;
        return Ok(command);
    }
    let command = archive_words(name, words)?;
    Ok(command)
}

// A command that runs something over an archive or lets old volumes of it go, or another.
fn run_words(alloc: Global, name: &[u8], words: &[String]) -> Result<Command, Refusal>
    ensures command { Reads result (run_command_of name.now (map string_bytes words.now)) }
    ensures fits { IfOk result FitsCommand }
    ensures call { IfOk result (λ command. call_of command ≡ calls.Offline) }
{
    if name == b"once".as_slice() {
        return once_words(alloc, words);
    }
    if name == b"replay".as_slice() {
        let command = replay_words(words)?;
        return Ok(command);
    }
    if name == b"make".as_slice() {
        let command = make_words(words)?;
        return Ok(command);
    }
    if name == b"retire".as_slice() {
        let command = retire_words(words)?;
        return Ok(command);
    }
    timed_words(alloc, name, words)
}

// SAMPLES VOLUME
#[tactic(auto, unfolding(crate::specs::CommandLine::record_of))]
fn record_words(words: &[String]) -> Result<Command, BadWord>
    ensures command { Gives (λ command. command) result (record_of (map string_bytes words.now)) }
    ensures fits { IfOk result FitsCommand }
    ensures call { IfOk result (λ command. call_of command ≡ calls.Record) }
{
    let (samples, rest) = number_at(words, 1, 1, 100_000)?;
    let (volume, rest) = volume_at(rest, 2)?;
    end_at(rest, 3)?;
    Ok(Command::Record(RecordWords {
        samples: samples as u32,
        volume,
    }))
}

// COUNT
#[tactic(auto, unfolding(crate::specs::CommandLine::serve_of))]
fn serve_words(words: &[String]) -> Result<Command, BadWord>
    ensures command { Gives (λ command. command) result (serve_of (map string_bytes words.now)) }
    ensures fits { IfOk result FitsCommand }
    ensures call { IfOk result (λ command. call_of command ≡ calls.Serve) }
{
    let (count, rest) = number_at(words, 1, 1, 100_000)?;
    end_at(rest, 2)?;
    Ok(Command::Serve(count as u32))
}

// SAMPLES VOLUME NAME..
#[tactic(auto, unfolding(crate::specs::CommandLine::pull_of))]
fn pull_words(alloc: Global, words: &[String]) -> Result<Command, Refusal>
    ensures command { Reads result (pull_of (map string_bytes words.now)) }
    ensures fits { IfOk result FitsCommand }
    ensures call { IfOk result (λ command. call_of command ≡ calls.Pull) }
{
    let (samples, rest) = number_at(words, 1, 1, 100_000)?;
    let (volume, rest) = volume_at(rest, 2)?;
    let names = names_at(rest, 3)?;
    let names = texts_of(alloc, names)?;
    Ok(Command::Pull(PullWords {
        samples: samples as u32,
        volume,
        names,
    }))
}

// VOLUME
#[tactic(auto, unfolding(crate::specs::CommandLine::extract_of))]
fn extract_words(words: &[String]) -> Result<Command, BadWord>
    ensures command { Gives (λ command. command) result (extract_of (map string_bytes words.now)) }
    ensures fits { IfOk result FitsCommand }
    ensures call { IfOk result (λ command. call_of command ≡ calls.Extract) }
{
    let (volume, rest) = volume_at(words, 1)?;
    end_at(rest, 2)?;
    Ok(Command::Extract(volume))
}

// WORKERS SEC USEC SEC USEC
#[tactic(auto, unfolding(crate::specs::CommandLine::summary_of))]
fn summary_words(words: &[String]) -> Result<Command, BadWord>
    ensures command { Gives (λ command. command) result (summary_of (map string_bytes words.now)) }
    ensures fits { IfOk result FitsCommand }
    ensures call { IfOk result (λ command. call_of command ≡ calls.Summary) }
{
    let (workers, rest) = number_at(words, 1, 1, MOST_WORKERS)?;
    let (from_sec, from_usec, rest) = moment_at(rest, 2)?;
    let (to_sec, to_usec, rest) = moment_at(rest, 4)?;
    end_at(rest, 6)?;
    let from = stamp_of(from_sec, from_usec)?;
    let to = stamp_of(to_sec, to_usec)?;
    Ok(Command::Summary(SummaryWords {
        workers: workers as u32,
        from,
        to,
    }))
}

fn record_asked(name: &[u8], words: &[String]) -> Result<Command, BadWord>
    ensures command { Gives (λ command. command) result (if bytes_eq name.now (codes "record") then record_of (map string_bytes words.now) else Err 0) }
    ensures fits { IfOk result FitsCommand }
    ensures call { IfOk result (λ command. call_of command ≡ calls.Record) }
{
    if name == b"record".as_slice() {
        return record_words(words);
    }
    Err(BadWord { at: 0 })
}

fn serve_asked(name: &[u8], words: &[String]) -> Result<Command, BadWord>
    ensures command { Gives (λ command. command) result (if bytes_eq name.now (codes "serve") then serve_of (map string_bytes words.now) else Err 0) }
    ensures fits { IfOk result FitsCommand }
    ensures call { IfOk result (λ command. call_of command ≡ calls.Serve) }
{
    if name == b"serve".as_slice() {
        return serve_words(words);
    }
    Err(BadWord { at: 0 })
}

fn pull_asked(alloc: Global, name: &[u8], words: &[String]) -> Result<Command, Refusal>
    ensures command { Reads result (if bytes_eq name.now (codes "pull") then pull_of (map string_bytes words.now) else Err 0) }
    ensures fits { IfOk result FitsCommand }
    ensures call { IfOk result (λ command. call_of command ≡ calls.Pull) }
{
    if name == b"pull".as_slice() {
        return pull_words(alloc, words);
    }
    Err(Refusal::Usage { at: 0 })
}

fn extract_asked(name: &[u8], words: &[String]) -> Result<Command, BadWord>
    ensures command { Gives (λ command. command) result (if bytes_eq name.now (codes "extract") then extract_of (map string_bytes words.now) else Err 0) }
    ensures fits { IfOk result FitsCommand }
    ensures call { IfOk result (λ command. call_of command ≡ calls.Extract) }
{
    if name == b"extract".as_slice() {
        return extract_words(words);
    }
    Err(BadWord { at: 0 })
}

fn summary_asked(name: &[u8], words: &[String]) -> Result<Command, BadWord>
    ensures command { Gives (λ command. command) result (if bytes_eq name.now (codes "summary") then summary_of (map string_bytes words.now) else Err 0) }
    ensures fits { IfOk result FitsCommand }
    ensures call { IfOk result (λ command. call_of command ≡ calls.Summary) }
{
    if name == b"summary".as_slice() {
        return summary_words(words);
    }
    Err(BadWord { at: 0 })
}

fn export_asked(name: &[u8], words: &[String]) -> Result<Command, BadWord>
    ensures command { Gives (λ command. command) result (if bytes_eq name.now (codes "export") then end_then Export 1 (map string_bytes words.now) else Err 0) }
    ensures fits { IfOk result FitsCommand }
    ensures call { IfOk result (λ command. call_of command ≡ calls.Export) }
{
    if name == b"export".as_slice() {
        end_at(words, 1)?;
        return Ok(Command::Export);
    }
    Err(BadWord { at: 0 })
}

/// The command that the words ask a call for, or the index of the first word that is bad or missing. A command that isn't known, or is
/// another call's, is bad at 0.
pub fn read_words(alloc: Global, call: Call, words: &[String]) -> Result<Command, Refusal>
    ensures command { Reads result (asked_by call (map string_bytes words.now)) }
    ensures fits { IfOk result FitsCommand }
    ensures call { IfOk result (λ command. call_of command ≡ call) }
{
    let [name, rest @ ..] = words else {
        return Err(Refusal::Usage { at: 0 });
    };
    match call {
        Call::Offline => run_words(alloc, name.as_bytes(), rest),
        Call::Record => {
            let command = record_asked(name.as_bytes(), rest)?;
            Ok(command)
        }
        Call::Serve => {
            let command = serve_asked(name.as_bytes(), rest)?;
            Ok(command)
        }
        Call::Pull => pull_asked(alloc, name.as_bytes(), rest),
        Call::Extract => {
            let command = extract_asked(name.as_bytes(), rest)?;
            Ok(command)
        }
        Call::Summary => {
            let command = summary_asked(name.as_bytes(), rest)?;
            Ok(command)
        }
        Call::Export => {
            let command = export_asked(name.as_bytes(), rest)?;
            Ok(command)
        }
    }
}
