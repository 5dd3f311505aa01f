//! PDUs as text, for lines of a book: `fetch 0 0 0 11800402`.
use case_book::write_text;
use case_records::write_item;
use pcp_base::{Desc, Duplicate, Item, List, NoMemory, PmResult, Pmid, Text};
use pdu_codec::{Pdu, PduFault, decode, encode, fits, pdu_length};
use profile_filter::DomainPart;
use std::alloc::Global;

fn write_fault(out: &mut String, fault: PduFault) -> Result<(), NoMemory> {
    match fault {
        PduFault::Length { found } => write!(out, "Length {found}")?,
        PduFault::Unknown { found } => write!(out, "Unknown {found}")?,
        PduFault::Body { at } => write!(out, "Body {at}")?,
        PduFault::NoMemory => return Err(NoMemory),
    }
    Ok(())
}

fn write_words(out: &mut String, pmids: &List<Pmid>) -> Result<(), NoMemory> {
    for pmid in pmids.as_slice() {
        let word = pmid.word();
        write!(out, " {word:08x}")?;
    }
    Ok(())
}

// A domain's part: `11800401 but 2 3`, all but these, or `11800401 only 2`.
fn write_part(out: &mut String, part: &DomainPart) -> Result<(), NoMemory> {
    let indom = part.indom.word();
    let form = if part.include { "but" } else { "only" };
    write!(out, "; {indom:08x} {form}")?;
    for instance in part.instances.as_slice() {
        let instance = *instance;
        write!(out, " {instance}")?;
    }
    Ok(())
}

fn write_desc(out: &mut String, desc: &Desc) -> Result<(), NoMemory> {
    let (pmid, indom, units) = (desc.pmid.word(), desc.indom.word(), desc.units.word());
    let (code, semantics) = (desc.code, desc.semantics);
    write!(
        out,
        "desc {pmid:08x} {code} {indom:08x} {semantics} {units:08x}"
    )?;
    Ok(())
}

fn write_name(out: &mut String, name: &Text) -> Result<(), NoMemory> {
    out.push_str(" \"")?;
    write_text(out, name.as_slice())?;
    Ok(out.push('"')?)
}

fn write_pairs(out: &mut String, pairs: &[(i32, Text)]) -> Result<(), NoMemory> {
    for (instance, name) in pairs {
        let instance = *instance;
        write!(out, " {instance}")?;
        write_name(out, name)?;
    }
    Ok(())
}

fn write_profile(
    out: &mut String,
    context: u32,
    global: bool,
    parts: &[DomainPart],
) -> Result<(), NoMemory> {
    let form = if global { "all" } else { "none" };
    write!(out, "profile {context} {form}")?;
    for part in parts {
        write_part(out, part)?;
    }
    Ok(())
}

fn write_names(out: &mut String, status: i32, names: &[Text]) -> Result<(), NoMemory> {
    write!(out, "names {status}")?;
    for name in names {
        write_name(out, name)?;
    }
    Ok(())
}

// A fetch of these metrics in a context, and the moment that its result is to have.
fn write_fetch(
    out: &mut String,
    context: u32,
    sec: u32,
    usec: u32,
    pmids: &List<Pmid>,
) -> Result<(), NoMemory> {
    write!(out, "fetch {context} {sec} {usec}")?;
    write_words(out, pmids)
}

fn write_one(out: &mut String, word: &str, number: u32) -> Result<(), NoMemory> {
    out.push_str(word)?;
    write!(out, " {number:08x}")?;
    Ok(())
}

fn write_asked(out: &mut String, indom: u32, instance: i32) -> Result<(), NoMemory> {
    write!(out, "instance_req {indom:08x} {instance}")?;
    Ok(())
}

fn write_named(out: &mut String, word: &str, name: &Text) -> Result<(), NoMemory> {
    out.push_str(word)?;
    write_name(out, name)
}

// What a client sends alone; nothing of another PDU.
fn write_request(out: &mut String, pdu: &Pdu) -> Result<(), NoMemory> {
    match pdu {
        Pdu::Profile {
            context,
            global,
            parts,
        } => write_profile(out, *context, *global, parts.as_slice()),
        Pdu::Fetch {
            context,
            sec,
            usec,
            pmids,
        } => write_fetch(out, *context, *sec, *usec, pmids),
        Pdu::DescReq { pmid } => write_one(out, "desc_req", pmid.word()),
        Pdu::InstanceReq { indom, instance } => write_asked(out, indom.word(), *instance),
        Pdu::PmnsChild { name } => write_named(out, "child", name),
        Pdu::PmnsTraverse { name } => write_named(out, "traverse", name),
        _ => Ok(()),
    }
}

fn write_error(out: &mut String, code: i32) -> Result<(), NoMemory> {
    write!(out, "error {code}")?;
    Ok(())
}

fn write_instances(out: &mut String, indom: u32, pairs: &[(i32, Text)]) -> Result<(), NoMemory> {
    write_one(out, "instance", indom)?;
    write_pairs(out, pairs)
}

fn write_ids(out: &mut String, status: i32, pmids: &List<Pmid>) -> Result<(), NoMemory> {
    write!(out, "ids {status}")?;
    write_words(out, pmids)
}

// What is answered; nothing of another PDU.
fn write_reply(out: &mut String, pdu: &Pdu) -> Result<(), NoMemory> {
    match pdu {
        Pdu::Error { code } => write_error(out, *code),
        Pdu::Desc(desc) => write_desc(out, desc),
        Pdu::Instance { indom, pairs } => write_instances(out, indom.word(), pairs.as_slice()),
        Pdu::PmnsIds { status, pmids } => write_ids(out, *status, pmids),
        Pdu::PmnsNames { status, names } => write_names(out, *status, names.as_slice()),
        _ => Ok(()),
    }
}

fn write_result(alloc: Global, out: &mut String, answer: &PmResult) -> Result<(), NoMemory> {
    out.push_str("result ")?;
    write_item(out, &Item::Sample(answer.copy(alloc)?))
}

fn write_pdu(alloc: Global, out: &mut String, pdu: &Pdu) -> Result<(), NoMemory> {
    match pdu {
        Pdu::Creds => Ok(out.push_str("creds")?),
        Pdu::Result(answer) => write_result(alloc, out, answer),
        _ => {
            write_request(out, pdu)?;
            write_reply(out, pdu)
        }
    }
}

// The PDU that bytes are, or why they are none.
fn told(alloc: Global, bytes: &[u8]) -> Result<Vec<u8>, NoMemory> {
    let mut out = String::new(alloc);
    match decode(alloc, bytes) {
        Ok(pdu) => write_pdu(alloc, &mut out, &pdu)?,
        Err(fault) => write_fault(&mut out, fault)?,
    }
    out.push('\n')?;
    Ok(out.into_bytes())
}

// The bytes of the PDU that was read, written again.
fn again(alloc: Global, bytes: &[u8]) -> Result<Option<Vec<u8>>, NoMemory> {
    let Ok(pdu) = decode(alloc, bytes) else {
        return Ok(None);
    };
    if !fits(&pdu) {
        return Ok(None);
    }
    Ok(Some(encode(alloc, &pdu)?.into_vec()))
}

fn length(alloc: Global, bytes: &[u8]) -> Result<Option<Vec<u8>>, NoMemory> {
    let Ok(pdu) = decode(alloc, bytes) else {
        return Ok(None);
    };
    let size = pdu_length(&pdu);
    Ok(Some(format!(in alloc; "{size}\n")?.into_bytes()))
}

/// `decode`, `encode` and `length`: the PDU that bytes are, its bytes written again, and their number.
pub fn tell_pdu(alloc: Global, form: &str, bytes: &[u8]) -> Result<Option<Vec<u8>>, NoMemory> {
    match form {
        "decode" => Ok(Some(told(alloc, bytes)?)),
        "encode" => again(alloc, bytes),
        "length" => length(alloc, bytes),
        _ => Ok(None),
    }
}
