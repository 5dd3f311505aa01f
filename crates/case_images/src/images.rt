//! Calls of an image (mmv(5)), whose bytes are the input.
use crate::hostile;
use case_book::Answer;
use fetch_engine::{FetchFault, Shot, answer};
use mmv_layout::{Image, Slot};
use pcp_base::{List, NoMemory, Pmid, Stamp, Text};
use pm_print::image_fault_text;
use profile_filter::Profile;
use result_form::{encode, fits};
use std::alloc::Global;
use std::slice;

fn write_slot(out: &mut String, slot: Slot) -> Result<(), NoMemory> {
    let Slot {
        item,
        instance,
        kind,
        word,
    } = slot;
    let kind = case_parts::kind_name(kind);
    write!(out, "{item} {instance} {kind} in word {word}\n")?;
    Ok(())
}

// `slots`: all words that hold a value.
fn tell_slots(alloc: Global, image: &Image) -> Result<String, NoMemory> {
    let mut out = String::new(alloc);
    for slot in image.slots(alloc)?.as_slice() {
        write_slot(&mut out, *slot)?;
    }
    Ok(out)
}

// `slot ITEM INSTANCE`
fn tell_slot(alloc: Global, image: &Image, rest: &str) -> Result<Option<String>, NoMemory> {
    let (item, instance) = rest.split_once(' ').unwrap_or((rest, ""));
    let (Ok(item), Ok(instance)) = (item.parse::<u32>(), instance.parse::<i32>()) else {
        return Ok(None);
    };
    let mut out = String::new(alloc);
    match image.slot_of(item, instance) {
        Some(slot) => write_slot(&mut out, slot)?,
        None => out.push_str("none\n")?,
    }
    Ok(Some(out))
}

// `texts`: the strings and their offsets.
fn tell_texts(alloc: Global, image: &Image) -> Result<String, NoMemory> {
    let mut out = String::new(alloc);
    for (offset, text) in image.texts(alloc)?.as_slice() {
        let offset = *offset;
        write!(&mut out, "{offset} ")?;
        case_book::write_text(&mut out, text.as_slice())?;
        out.push('\n')?;
    }
    Ok(out)
}

// `copy`: the bytes of a copy.
fn tell_copy(alloc: Global, image: &Image) -> Result<Vec<u8>, NoMemory> {
    let copy = image.copy(alloc)?;
    Ok(pm_print::image_bytes(alloc, &copy)?.into_vec())
}

fn asked(alloc: Global, cluster: u32, rest: &str) -> Result<Option<List<Pmid>>, NoMemory> {
    let (first, count) = rest.split_once(' ').unwrap_or((rest, ""));
    let (Ok(first), Ok(count)) = (first.parse::<u16>(), count.parse::<u16>()) else {
        return Ok(None);
    };
    let mut pmids = List::empty(alloc);
    for step in 0..count {
        let item = (u32::from(first) + u32::from(step)) % 1024;
        let Some(pmid) = Pmid::build(70, cluster, item) else {
            return Ok(None);
        };
        pmids.push(pmid)?;
    }
    Ok(Some(pmids))
}

// `fetch FIRST COUNT`: the payload of what the image answers, as region `app` at second 100, for so many metrics from an
// item on.
fn tell_fetch(alloc: Global, image: &Image, rest: &str) -> Result<Option<Vec<u8>>, NoMemory> {
    let cluster = image.cluster();
    let Some(pmids) = asked(alloc, cluster, rest)? else {
        return Ok(None);
    };
    let (Some(stamp), Ok(file)) = (Stamp::build(100, 0), Text::build(alloc, b"app")) else {
        return Ok(None);
    };
    let shot = Shot {
        file,
        cluster,
        image: Some(image.copy(alloc)?),
    };
    let every = Profile::all(alloc);
    match answer(
        alloc,
        slice::from_ref(&shot),
        &every,
        pmids.as_slice(),
        stamp,
    ) {
        Ok(fetched) => {
            if !fits(&fetched.result) {
                return Ok(None);
            }
            Ok(Some(encode(alloc, &fetched.result)?.into_vec()))
        }
        Err(FetchFault::NoMemory) => Err(NoMemory),
        Err(FetchFault::TooMany { count }) => {
            Ok(Some(format!(in alloc; "TooMany {count}\n")?.into_bytes()))
        }
    }
}

fn tell(alloc: Global, image: &Image, rest: &str) -> Result<Option<Vec<u8>>, NoMemory> {
    let text = match rest {
        "" => String::from_str(alloc, "read\n")?,
        "slots" => tell_slots(alloc, image)?,
        "texts" => tell_texts(alloc, image)?,
        "copy" => return Ok(Some(tell_copy(alloc, image)?)),
        _ => {
            if let Some(asked) = rest.strip_prefix("fetch ") {
                return tell_fetch(alloc, image, asked);
            }
            let Some(slot) = rest.strip_prefix("slot ") else {
                return Ok(None);
            };
            match tell_slot(alloc, image, slot)? {
                Some(told) => told,
                None => return Ok(None),
            }
        }
    };
    Ok(Some(text.into_bytes()))
}

/// `image`, or `image` with one of `slots`, `slot ITEM INSTANCE`, `texts`, `copy`, `fetch FIRST COUNT`, and those of
/// `hostile`.
pub fn tell_image(
    alloc: Global,
    answer: &mut Answer,
    input: &[u8],
    rest: &str,
) -> Result<bool, NoMemory> {
    if !answer.renew()? {
        return Ok(false);
    }
    if let Some(told) = hostile::tell(alloc, input, rest)? {
        answer.put("out", told.as_bytes())?;
        return Ok(true);
    }
    let image = match Image::from_bytes(alloc, input) {
        Ok(image) => image,
        Err(fault) => {
            answer.put("out", image_fault_text(alloc, &fault)?.as_slice())?;
            return Ok(true);
        }
    };
    let Some(told) = tell(alloc, &image, rest)? else {
        return Ok(false);
    };
    answer.put("out", &told)?;
    Ok(true)
}
