//! Parts of an archive's files (LOGARCHIVE(5)): labels, framed records and the entries of the index.
use archive_frame::{
    FrameFault, Label, Step, label_bytes, put_label, read_label, step_back, step_forward,
};
use case_book::{Words, text_of};
use pcp_base::{Duplicate, NoMemory, Stamp};
use std::alloc::Global;
use temporal_index::{Entry, Index, IndexFault, entry_bytes, put_entry};

fn write_fault(out: &mut String, fault: FrameFault) -> Result<(), NoMemory> {
    match fault {
        FrameFault::Torn { at } => write!(out, "Torn {at}\n")?,
        FrameFault::Size { at, found } => write!(out, "Size {at} {found}\n")?,
        FrameFault::Lengths { at, head, tail } => write!(out, "Lengths {at} {head} {tail}\n")?,
        FrameFault::Label { at } => write!(out, "Label {at}\n")?,
        FrameFault::NoMemory => return Err(NoMemory),
    }
    Ok(())
}

fn write_start(out: &mut String, label: &Label) -> Result<(), NoMemory> {
    let start = label.start();
    let (sec, usec) = (start.sec(), start.usec());
    write!(out, "{sec} {usec} ")?;
    Ok(())
}

fn write_label(out: &mut String, label: &Label, number: i32) -> Result<(), NoMemory> {
    let pid = label.pid();
    write!(out, "{number} {pid} ")?;
    write_start(out, label)?;
    case_book::write_text(out, label.host().as_slice())?;
    out.push(' ')?;
    case_book::write_text(out, label.zone().as_slice())?;
    out.push('\n')?;
    Ok(())
}

// What bytes are as a label: `NUMBER PID SEC USEC HOST ZONE`.
fn tell_label(alloc: Global, bytes: &[u8]) -> Result<String, NoMemory> {
    let mut out = String::new(alloc);
    match read_label(alloc, bytes) {
        Ok((label, number)) => write_label(&mut out, &label, number)?,
        Err(fault) => write_fault(&mut out, fault)?,
    }
    Ok(out)
}

fn label_of(
    alloc: Global,
    pid: u32,
    start: Stamp,
    mut words: Words<'_>,
) -> Result<Option<Label>, NoMemory> {
    let host = text_of(alloc, words.next())?;
    let zone = text_of(alloc, words.rest())?;
    Ok(Label::build(pid, start, host, zone))
}

fn spell_twice(alloc: Global, label: &Label, number: i32) -> Result<Option<Vec<u8>>, NoMemory> {
    if number < -2 {
        return Ok(None);
    }
    let mut out = label_bytes(label, number).to_vec(alloc)?;
    put_label(&mut out, label, number)?;
    Ok(Some(out))
}

// The label of `NUMBER PID SEC USEC HOST ZONE`, twice.
fn make_label(alloc: Global, mut words: Words<'_>) -> Result<Option<Vec<u8>>, NoMemory> {
    let (Some(number), Some(pid), Some(start)) = (words.signed(), words.number(), words.stamp())
    else {
        return Ok(None);
    };
    match label_of(alloc, pid, start, words)? {
        Some(label) => spell_twice(alloc, &label, number),
        None => Ok(Some(b"none\n".to_vec(alloc)?)),
    }
}

fn tell_step(alloc: Global, step: Result<Step, FrameFault>) -> Result<String, NoMemory> {
    let mut out = String::new(alloc);
    match step {
        Ok(Step::Payload { from, to, next }) => write!(
            &mut out,
            "payload {from} {to} next {next}\n"
        )?,
        Ok(Step::End) => out.push_str("end\n")?,
        Err(fault) => write_fault(&mut out, fault)?,
    }
    Ok(out)
}

// `forward OFFSET` or `back OFFSET` over the bytes.
fn tell_frame(
    alloc: Global,
    form: &str,
    offset: &str,
    bytes: &[u8],
) -> Result<Option<String>, NoMemory> {
    let Ok(at) = offset.parse::<usize>() else {
        return Ok(None);
    };
    if at > bytes.len() {
        return Ok(None);
    }
    match form {
        "forward" => Ok(Some(tell_step(alloc, step_forward(bytes, at))?)),
        "back" => Ok(Some(tell_step(alloc, step_back(bytes, at))?)),
        _ => Ok(None),
    }
}

fn write_entry(out: &mut String, entry: Entry) -> Result<(), NoMemory> {
    let Entry {
        stamp,
        volume,
        meta,
        offset,
    } = entry;
    let (sec, usec) = (stamp.sec(), stamp.usec());
    write!(out, "{sec} {usec} {volume} {meta} {offset}\n")?;
    Ok(())
}

fn write_found(out: &mut String, found: Option<(u64, Entry)>) -> Result<(), NoMemory> {
    match found {
        Some((at, entry)) => {
            write!(out, "entry {at}: ")?;
            write_entry(out, entry)
        }
        None => Ok(out.push_str("none\n")?),
    }
}

// The entries of an index, one a line.
fn write_entries(out: &mut String, index: &Index) -> Result<(), NoMemory> {
    if index.is_empty() {
        out.push_str("no entries\n")?;
    }
    for at in 0..index.len() {
        if let Some(entry) = index.entry(at) {
            write_entry(out, entry)?;
        }
    }
    Ok(())
}

fn write_place(out: &mut String, index: &Index, at: u64) -> Result<(), NoMemory> {
    match index.entry(at) {
        Some(entry) => write_entry(out, entry),
        None => Ok(out.push_str("none\n")?),
    }
}

// The entry that a word and a moment find, and false where there is no such word.
fn write_moment(
    out: &mut String,
    index: &Index,
    form: &str,
    moment: Stamp,
) -> Result<bool, NoMemory> {
    match form {
        "at" => write_found(out, index.seek_at(moment))?,
        "before" => write_found(out, index.seek_before(moment))?,
        _ => return Ok(false),
    }
    Ok(true)
}

// What an index tells: `all`, `copy`, `entry N`, `at SEC USEC` and `before SEC USEC`.
fn write_index(
    alloc: Global,
    out: &mut String,
    index: &Index,
    mut words: Words<'_>,
) -> Result<bool, NoMemory> {
    let form = words.next();
    match form {
        "all" => write_entries(out, index)?,
        "copy" => write_entries(out, &index.copy(alloc)?)?,
        "entry" => match words.wide() {
            Some(at) => write_place(out, index, at)?,
            None => return Ok(false),
        },
        _ => match words.stamp() {
            Some(moment) => return write_moment(out, index, form, moment),
            None => return Ok(false),
        },
    }
    Ok(true)
}

fn tell_index(alloc: Global, words: Words<'_>, bytes: &[u8]) -> Result<Option<String>, NoMemory> {
    let mut out = String::new(alloc);
    match Index::read(alloc, bytes) {
        Ok(index) => {
            if !write_index(alloc, &mut out, &index, words)? {
                return Ok(None);
            }
        }
        Err(IndexFault::Entry { at }) => write!(&mut out, "Entry {at}\n")?,
        Err(IndexFault::NoMemory) => return Err(NoMemory),
    }
    Ok(Some(out))
}

// The bytes of the entry `SEC USEC VOLUME META OFFSET`, twice.
fn make_entry(alloc: Global, mut words: Words<'_>) -> Result<Option<Vec<u8>>, NoMemory> {
    let (Some(stamp), Some(volume)) = (words.stamp(), words.number()) else {
        return Ok(None);
    };
    let (Some(meta), Some(offset)) = (words.number(), words.number()) else {
        return Ok(None);
    };
    let entry = Entry {
        stamp,
        volume,
        meta,
        offset,
    };
    if volume >= 1 << 31 {
        return Ok(None);
    }
    if meta >= 1 << 31 {
        return Ok(None);
    }
    if offset >= 1 << 31 {
        return Ok(None);
    }
    let mut out = entry_bytes(&entry).to_vec(alloc)?;
    put_entry(&mut out, &entry)?;
    Ok(Some(out))
}

fn bytes_of(told: Option<String>) -> Option<Vec<u8>> {
    match told {
        Some(text) => Some(text.into_bytes()),
        None => None,
    }
}

/// Of the input's bytes `label read`, `frame forward OFFSET`, `frame back OFFSET` and `index ..` (above);
/// of words `label write NUMBER PID SEC USEC HOST ZONE` and `index write SEC USEC VOLUME META OFFSET`.
pub fn tell_record(
    alloc: Global,
    part: &str,
    mut words: Words<'_>,
    input: &[u8],
) -> Result<Option<Vec<u8>>, NoMemory> {
    let all = words;
    let form = words.next();
    match (part, form) {
        ("label", "read") => Ok(Some(tell_label(alloc, input)?.into_bytes())),
        ("label", "write") => make_label(alloc, words),
        ("frame", _) => Ok(bytes_of(tell_frame(alloc, form, words.rest(), input)?)),
        ("index", "write") => make_entry(alloc, words),
        ("index", _) => Ok(bytes_of(tell_index(alloc, all, input)?)),
        _ => Ok(None),
    }
}
