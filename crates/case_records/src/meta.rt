//! The records of an archive's Meta file (LOGARCHIVE(5)), behind its label.
use crate::facts::{desc_of, tell_needs};
use archive_meta::{MetaFault, MetaState, domain_stamp, put_description, put_domain};
use case_book::{Words, text_of};
use pcp_base::{Desc, InDom, List, NoMemory, Stamp, Text};
use pcp_model::DomainInstances;
use std::alloc::Global;

fn tell_added(alloc: Global, added: Result<(), MetaFault>) -> Result<String, NoMemory> {
    match added {
        Ok(()) => Ok(String::from_str(alloc, "read\n")?),
        Err(MetaFault::Record { at }) => Ok(format!(in alloc; "Record {at}\n")?),
        Err(MetaFault::NoMemory) => Ok(String::from_str(alloc, "NoMemory\n")?),
    }
}

// `read`: a new state of the input's records. After a refusal the old one stays.
fn read(alloc: Global, state: &mut MetaState, input: &[u8]) -> Result<String, NoMemory> {
    match MetaState::read(alloc, input) {
        Ok(found) => {
            *state = found;
            tell_added(alloc, Ok(()))
        }
        Err(fault) => tell_added(alloc, Err(fault)),
    }
}

// `whole`: the records of the input before a torn one, and where they end.
fn read_whole(alloc: Global, state: &mut MetaState, input: &[u8]) -> Result<String, NoMemory> {
    match MetaState::read_whole(alloc, input) {
        Ok((found, end)) => {
            *state = found;
            Ok(format!(in alloc; "read {end}\n")?)
        }
        Err(fault) => tell_added(alloc, Err(fault)),
    }
}

// `desc WORD`: type code, domain, semantics' code and units.
fn tell_desc(alloc: Global, found: Option<&Desc>) -> Result<String, NoMemory> {
    let Some(desc) = found else {
        return Ok(String::from_str(alloc, "none\n")?);
    };
    let (pmid, indom, units) = (desc.pmid.word(), desc.indom.word(), desc.units.word());
    let (code, semantics) = (desc.code, desc.semantics);
    Ok(format!(in alloc; "{pmid:08x} {code} {indom:08x} {semantics} {units:08x}\n")?)
}

fn tell_names(alloc: Global, found: Option<&List<Text>>) -> Result<String, NoMemory> {
    let Some(names) = found else {
        return Ok(String::from_str(alloc, "none\n")?);
    };
    let mut out = String::new(alloc);
    for name in names.as_slice() {
        case_book::write_text(&mut out, name.as_slice())?;
        out.push('\n')?;
    }
    Ok(out)
}

fn write_instance(out: &mut String, number: i32, name: &[u8]) -> Result<(), NoMemory> {
    write!(out, "{number} ")?;
    case_book::write_text(out, name)?;
    out.push('\n')?;
    Ok(())
}

fn tell_instances(alloc: Global, found: Option<&DomainInstances>) -> Result<String, NoMemory> {
    let Some(listed) = found else {
        return Ok(String::from_str(alloc, "none\n")?);
    };
    let mut out = String::new(alloc);
    for at in 0..listed.len() {
        if let Some((number, name)) = listed.get(at) {
            write_instance(&mut out, number, name)?;
        }
    }
    Ok(out)
}

fn tell_pmids(alloc: Global, state: &MetaState) -> Result<String, NoMemory> {
    let mut out = String::new(alloc);
    for pmid in state.pmids(alloc)?.as_slice() {
        let word = pmid.word();
        write!(&mut out, "{word:08x}\n")?;
    }
    Ok(out)
}

// `stamp`: the time of the domain record whose payload the input is.
fn tell_stamp(alloc: Global, payload: &[u8]) -> Result<String, NoMemory> {
    match domain_stamp(payload) {
        Some(stamp) => {
            let (sec, usec) = (stamp.sec(), stamp.usec());
            Ok(format!(in alloc; "{sec} {usec}\n")?)
        }
        None => Ok(String::from_str(alloc, "none\n")?),
    }
}

// The payload of a description: `PMID CODE DOMAIN SEMANTICS UNITS NAME`.
fn make_description(alloc: Global, mut words: Words<'_>) -> Result<Option<Vec<u8>>, NoMemory> {
    let Some(desc) = desc_of(&mut words) else {
        return Ok(None);
    };
    let name = text_of(alloc, words.rest())?;
    if name.as_slice().len() > 63 {
        return Ok(None);
    }
    let mut out = Vec::new(alloc);
    put_description(&mut out, &desc, &[name])?;
    Ok(Some(out))
}

fn put_both(
    alloc: Global,
    stamp: Stamp,
    indom: InDom,
    first: (i32, Text),
    second: (i32, Text),
) -> Result<Option<Vec<u8>>, NoMemory> {
    if first.1.as_slice().len() > 63 || second.1.as_slice().len() > 63 {
        return Ok(None);
    }
    let mut out = Vec::new(alloc);
    put_domain(&mut out, stamp, indom, &[first, second])?;
    Ok(Some(out))
}

// The payload of a domain of two instances: `DOMAIN SEC USEC NUMBER NAME NUMBER NAME`.
fn make_domain(alloc: Global, mut words: Words<'_>) -> Result<Option<Vec<u8>>, NoMemory> {
    let (Some(indom), Some(stamp)) = (words.hex(), words.stamp()) else {
        return Ok(None);
    };
    let (Some(low), first) = (words.signed(), words.next()) else {
        return Ok(None);
    };
    let (Some(high), second) = (words.signed(), words.next()) else {
        return Ok(None);
    };
    let first = text_of(alloc, first)?;
    let second = text_of(alloc, second)?;
    put_both(
        alloc,
        stamp,
        InDom::of_word(indom),
        (low, first),
        (high, second),
    )
}

fn bytes_of(told: Option<String>) -> Option<Vec<u8>> {
    match told {
        Some(text) => Some(text.into_bytes()),
        None => None,
    }
}

// The instances of a domain at a moment.
fn look_at_domain(
    alloc: Global,
    state: &MetaState,
    mut words: Words<'_>,
) -> Result<Option<String>, NoMemory> {
    let (Some(indom), Some(moment)) = (words.hex(), words.stamp()) else {
        return Ok(None);
    };
    let found = state.domain_at(InDom::of_word(indom), moment);
    Ok(Some(tell_instances(alloc, found)?))
}

// What is told of a metric or of a domain at a moment.
fn look(
    alloc: Global,
    state: &MetaState,
    mut words: Words<'_>,
) -> Result<Option<String>, NoMemory> {
    let form = words.next();
    if form == "domain" {
        return look_at_domain(alloc, state, words);
    }
    let Some(pmid) = words.pmid() else {
        return Ok(None);
    };
    match form {
        "desc" => Ok(Some(tell_desc(alloc, state.desc(pmid))?)),
        "names" => Ok(Some(tell_names(alloc, state.names(pmid))?)),
        _ => Ok(None),
    }
}

/// `meta read`, `meta whole`, `meta extend` and `meta stamp` of the input's bytes; `meta fit` and `meta records_for`
/// of a result (`tell_needs`); then `meta desc WORD`, `meta names WORD`,
/// `meta domain WORD SEC USEC` and `meta pmids`, words in hexadecimal; and `meta put_description ..` and
/// `meta put_domain ..` (above).
pub fn tell_meta(
    alloc: Global,
    state: &mut MetaState,
    words: Words<'_>,
    input: &[u8],
) -> Result<Option<Vec<u8>>, NoMemory> {
    let mut rest = words;
    let told = match rest.next() {
        "read" => read(alloc, state, input)?,
        "whole" => read_whole(alloc, state, input)?,
        "fit" | "records_for" => return tell_needs(alloc, state, words),
        "extend" => tell_added(alloc, state.extend(alloc, input))?,
        "stamp" => tell_stamp(alloc, input)?,
        "pmids" => tell_pmids(alloc, state)?,
        "put_description" => return make_description(alloc, rest),
        "put_domain" => return make_domain(alloc, rest),
        _ => return Ok(bytes_of(look(alloc, state, words)?)),
    };
    Ok(Some(told.into_bytes()))
}
