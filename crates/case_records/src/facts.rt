//! A result of one metric, and the facts about it, beside what Meta keeps.
use archive_meta::{Changed, Facts, MetaState, RecordsFault};
use case_book::{Words, text_of};
use pcp_base::{Body, Desc, InDom, List, NoMemory, PmResult, Text, Units, ValueSet};
use std::alloc::Global;

/// The words `PMID CODE DOMAIN SEMANTICS UNITS` of a description.
pub fn desc_of(words: &mut Words<'_>) -> Option<Desc> {
    Some(Desc {
        pmid: words.pmid()?,
        code: words.number()?,
        indom: InDom::of_word(words.hex()?),
        semantics: words.number()?,
        units: Units::of_word(words.hex()?),
    })
}

// A name, or `TEXT*COUNT` for a text so many times.
fn name_of(alloc: Global, word: &str) -> Result<Text, NoMemory> {
    let (text, count) = word.split_once('*').unwrap_or((word, "1"));
    let count = count.parse::<usize>().unwrap_or(1);
    text_of(alloc, text.repeat(alloc, count)?.as_str())
}

// Whether one more instance was named, `NUMBER NAME`.
fn push_instance(
    alloc: Global,
    pairs: &mut List<(i32, Text)>,
    words: &mut Words<'_>,
) -> Result<bool, NoMemory> {
    let Some(number) = words.signed() else {
        return Ok(false);
    };
    pairs.push((number, name_of(alloc, words.next())?))?;
    Ok(true)
}

fn pairs_of(alloc: Global, words: &mut Words<'_>) -> Result<List<(i32, Text)>, NoMemory> {
    let mut pairs = List::empty(alloc);
    for _ in 0..8 {
        if !push_instance(alloc, &mut pairs, words)? {
            return Ok(pairs);
        }
    }
    Ok(pairs)
}

// The facts about one metric: `NAME`, and behind it the instances of its domain.
fn facts_of(alloc: Global, desc: Desc, words: &mut Words<'_>) -> Result<Facts, NoMemory> {
    let mut metrics = List::empty(alloc);
    let mut domains = List::empty(alloc);
    let indom = desc.indom;
    metrics.push((desc, name_of(alloc, words.next())?))?;
    let pairs = pairs_of(alloc, words)?;
    if pairs.len() > 0 {
        domains.push((indom, pairs))?;
    }
    Ok(Facts { metrics, domains })
}

// A result in which this metric has the value 7.
fn answer_of(
    alloc: Global,
    desc: &Desc,
    words: &mut Words<'_>,
) -> Result<Option<PmResult>, NoMemory> {
    let Some(stamp) = words.stamp() else {
        return Ok(None);
    };
    let mut pairs = List::empty(alloc);
    pairs.push((-1, 7))?;
    let mut sets = List::empty(alloc);
    sets.push(ValueSet {
        pmid: desc.pmid,
        body: Body::InPlace(pairs),
    })?;
    Ok(Some(PmResult { stamp, sets }))
}

fn tell_fit(alloc: Global, told: Result<(), Changed>) -> Result<Vec<u8>, NoMemory> {
    match &told {
        Ok(_) => Ok(String::from_str(alloc, "fits\n")?.into_bytes()),
        Err(changed) => {
            let pmid = changed.pmid.word();
            Ok(format!(in alloc; "Changed {pmid:08x}\n")?.into_bytes())
        }
    }
}

/// `meta fit PMID CODE DOMAIN SEMANTICS UNITS SEC USEC NAME NUMBER NAME ..` and `meta records_for` with the same words: the
/// result of one metric at a moment, and its facts. A name may be `TEXT*COUNT`, a text so many times.
pub fn tell_needs(
    alloc: Global,
    state: &MetaState,
    mut words: Words<'_>,
) -> Result<Option<Vec<u8>>, NoMemory> {
    let is_fit = words.next() == "fit";
    let Some(desc) = desc_of(&mut words) else {
        return Ok(None);
    };
    let Some(answer) = answer_of(alloc, &desc, &mut words)? else {
        return Ok(None);
    };
    let facts = facts_of(alloc, desc, &mut words)?;
    if is_fit {
        return Ok(Some(tell_fit(alloc, state.fit(&answer, &facts))?));
    }
    match state.records_for(alloc, &answer, &facts) {
        Ok(bytes) => Ok(Some(bytes.into_vec())),
        Err(RecordsFault::Large { bytes }) => Ok(Some(format!(in alloc;
            "Large {bytes}\n"
        )?.into_bytes())),
        Err(RecordsFault::NoMemory) => Err(NoMemory),
    }
}
