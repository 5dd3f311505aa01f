//! Values that can't be made out of their range, and fields of bytes.
use case_book::Words;
use pcp_base::{
    Block, Body, Duplicate, InDom, Kind, List, NoMemory, Pmid, Semantics, Stamp, Text, TextError,
    ValueSet, be32, be64, is_component, is_name, le32, le64,
};
use std::alloc::Global;

fn told(alloc: Global, text: &str) -> Result<Option<String>, NoMemory> {
    Ok(Some(String::from_str(alloc, text)?))
}

// `pmid DOMAIN CLUSTER ITEM`
fn tell_pmid(alloc: Global, mut words: Words<'_>) -> Result<Option<String>, NoMemory> {
    let (Some(domain), Some(cluster), Some(item)) = (words.number(), words.number(), words.number())
    else {
        return Ok(None);
    };
    let Some(pmid) = Pmid::build(domain, cluster, item) else {
        return told(alloc, "none\n");
    };
    tell_pmid_word(alloc, pmid.copy(alloc)?)
}

fn tell_pmid_word(alloc: Global, pmid: Pmid) -> Result<Option<String>, NoMemory> {
    let (word, domain) = (pmid.word(), pmid.domain());
    let (cluster, item) = (pmid.cluster(), pmid.item());
    Ok(Some(format!(in alloc; "{word:08x} {domain} {cluster} {item}\n")?))
}

// `indom DOMAIN SERIAL`
fn tell_indom(alloc: Global, mut words: Words<'_>) -> Result<Option<String>, NoMemory> {
    let (Some(domain), Some(serial)) = (words.number(), words.number()) else {
        return Ok(None);
    };
    let Some(indom) = InDom::build(domain, serial) else {
        return told(alloc, "none\n");
    };
    tell_indom_word(alloc, indom.copy(alloc)?)
}

fn tell_indom_word(alloc: Global, indom: InDom) -> Result<Option<String>, NoMemory> {
    let (word, domain, serial) = (indom.word(), indom.domain(), indom.serial());
    Ok(Some(format!(in alloc; "{word:08x} {domain} {serial}\n")?))
}

// `stamp SEC USEC`
fn tell_stamp(alloc: Global, mut words: Words<'_>) -> Result<Option<String>, NoMemory> {
    let (Some(sec), Some(usec)) = (words.number(), words.number()) else {
        return Ok(None);
    };
    match Stamp::build(sec, usec) {
        Some(stamp) => {
            let copy = stamp.copy(alloc)?;
            let (sec, usec) = (copy.sec(), copy.usec());
            Ok(Some(format!(in alloc; "{sec} {usec}\n")?))
        }
        None => told(alloc, "none\n"),
    }
}

// `earlier SEC USEC SEC USEC`: whether the first stamp is before the second.
fn tell_earlier(alloc: Global, mut words: Words<'_>) -> Result<Option<String>, NoMemory> {
    let (Some(first), Some(second)) = (words.stamp(), words.stamp()) else {
        return Ok(None);
    };
    told(alloc, if first < second { "yes\n" } else { "no\n" })
}

/// The name of a value's type.
pub fn kind_name(kind: Kind) -> &'static str {
    match kind {
        Kind::I32 => "I32",
        Kind::U32 => "U32",
        Kind::I64 => "I64",
        Kind::U64 => "U64",
        Kind::Float => "Float",
        Kind::Double => "Double",
        Kind::Text => "Text",
        Kind::Elapsed => "Elapsed",
    }
}

// `kind CODE` and `semantics CODE`: the name and its code again.
fn tell_kind(alloc: Global, mut words: Words<'_>) -> Result<Option<String>, NoMemory> {
    let Some(code) = words.number() else {
        return Ok(None);
    };
    match Kind::of_code(code) {
        Some(kind) => {
            let (name, code) = (kind_name(kind), kind.code());
            Ok(Some(format!(in alloc; "{name} {code}\n")?))
        }
        None => told(alloc, "none\n"),
    }
}

fn tell_semantics(alloc: Global, mut words: Words<'_>) -> Result<Option<String>, NoMemory> {
    let Some(code) = words.number() else {
        return Ok(None);
    };
    match Semantics::of_code(code) {
        Some(meant) => {
            let code = meant.code();
            let name = match meant {
                Semantics::Counter => "Counter",
                Semantics::Instant => "Instant",
                Semantics::Discrete => "Discrete",
            };
            Ok(Some(format!(in alloc; "{name} {code}\n")?))
        }
        None => told(alloc, "none\n"),
    }
}

// `text`: a text of the input's bytes.
fn tell_text(alloc: Global, input: &[u8]) -> Result<Option<String>, NoMemory> {
    let mut out = String::new(alloc);
    match Text::build(alloc, input) {
        Ok(text) => {
            case_book::write_text(&mut out, text.copy(alloc)?.as_slice())?;
            out.push('\n')?;
        }
        Err(TextError::Zero(zero)) => {
            let at = zero.at;
            write!(&mut out, "Zero {at}\n")?;
        }
        Err(TextError::NoMemory) => return Err(NoMemory),
    }
    Ok(Some(out))
}

// `block CODE`: a block of the input's bytes.
fn tell_block(
    alloc: Global,
    mut words: Words<'_>,
    input: &[u8],
) -> Result<Option<String>, NoMemory> {
    let Ok(code) = words.next().parse::<u8>() else {
        return Ok(None);
    };
    let bytes = List::from_vec(input.to_vec(alloc)?);
    match Block::build(code, bytes) {
        Some(block) => {
            let copy = block.copy(alloc)?;
            let (code, length) = (copy.code(), copy.bytes().len());
            Ok(Some(format!(in alloc; "code {code}, {length} bytes\n")?))
        }
        None => told(alloc, "none\n"),
    }
}

fn write_field(out: &mut String, field: Option<u64>) -> Result<(), NoMemory> {
    match field {
        Some(number) => write!(out, "{number:x}\n")?,
        None => out.push_str("none\n")?,
    }
    Ok(())
}

fn wide(number: Option<u32>) -> Option<u64> {
    match number {
        Some(number) => Some(u64::from(number)),
        None => None,
    }
}

// `be32 OFFSET` and the like: the field of the input there.
fn tell_field(
    alloc: Global,
    form: &str,
    mut words: Words<'_>,
    input: &[u8],
) -> Result<Option<String>, NoMemory> {
    let Some(at) = words.size() else {
        return Ok(None);
    };
    let field = match form {
        "be32" => wide(be32(input, at)),
        "le32" => wide(le32(input, at)),
        "be64" => be64(input, at),
        _ => le64(input, at),
    };
    let mut out = String::new(alloc);
    write_field(&mut out, field)?;
    Ok(Some(out))
}

// `status NUMBER`: whether a set with that status can be written.
fn tell_status(alloc: Global, mut words: Words<'_>) -> Result<Option<String>, NoMemory> {
    let Some(status) = words.signed() else {
        return Ok(None);
    };
    let set = ValueSet {
        pmid: Pmid::of_word(0x1180_0402),
        body: Body::Status(status),
    };
    told(alloc, if set.fits() { "fits\n" } else { "none\n" })
}

// `list NUMBER ..`: a list of numbers, of which the last is taken again.
fn tell_list(alloc: Global, words: &str) -> Result<Option<String>, NoMemory> {
    let mut list = List::empty(alloc);
    for word in words.split(' ') {
        if let Ok(number) = word.parse::<u32>() {
            list.push(number)?;
        }
    }
    let mut out = String::new(alloc);
    if let Some(last) = list.pop() {
        write!(&mut out, "{last},")?;
    }
    let count = list.len();
    write!(&mut out, " {count}:")?;
    for at in 0..=list.len() {
        match list.get(at) {
            Some(number) => {
                let number = *number;
                write!(&mut out, " {number}")?;
            }
            None => out.push_str(" none\n")?,
        }
    }
    Ok(Some(out))
}

fn tell_test(alloc: Global, holds: bool) -> Result<Option<String>, NoMemory> {
    told(alloc, if holds { "yes\n" } else { "no\n" })
}

/// `base WORD ..`, over the input's bytes or the words behind; each is told above.
pub fn tell_value(
    alloc: Global,
    mut words: Words<'_>,
    input: &[u8],
) -> Result<Option<String>, NoMemory> {
    let form = words.next();
    match form {
        "pmid" => tell_pmid(alloc, words),
        "indom" => tell_indom(alloc, words),
        "null" => tell_indom_word(alloc, InDom::null()),
        "stamp" => tell_stamp(alloc, words),
        "earlier" => tell_earlier(alloc, words),
        "kind" => tell_kind(alloc, words),
        "semantics" => tell_semantics(alloc, words),
        "text" => tell_text(alloc, input),
        "block" => tell_block(alloc, words, input),
        "name" => tell_test(alloc, is_name(input)),
        "component" => tell_test(alloc, is_component(input)),
        "set" => tell_status(alloc, words),
        "list" => tell_list(alloc, words.rest()),
        "be32" | "le32" | "be64" | "le64" => tell_field(alloc, form, words, input),
        _ => Ok(None),
    }
}
