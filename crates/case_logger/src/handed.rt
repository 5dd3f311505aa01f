//! The result and the facts that the logger's next call is handed.
use archive_meta::Facts;
use case_book::{Words, text_of};
use pcp_base::{
    Body, Desc, Duplicate, InDom, List, NoMemory, PmResult, Pmid, Stamp, Text, Units, ValueSet,
};
use std::alloc::Global;

/// A result, but for its moment, and the facts about it.
#[derive(Drop)]
pub struct Handed {
    pub sets: List<ValueSet>,
    pub facts: Facts,
}

// `PMID CODE DOMAIN SEMANTICS UNITS`
fn desc_of(words: &mut Words<'_>) -> Option<Desc> {
    Some(Desc {
        pmid: words.pmid()?,
        code: words.number()?,
        indom: InDom::of_word(words.hex()?),
        semantics: words.number()?,
        units: Units::of_word(words.hex()?),
    })
}

fn instances_of(alloc: Global, words: &mut Words<'_>) -> Result<List<(i32, Text)>, NoMemory> {
    let mut pairs = List::empty(alloc);
    for _ in 0..8 {
        let Some(instance) = words.signed() else {
            return Ok(pairs);
        };
        pairs.push((instance, text_of(alloc, words.next())?))?;
    }
    Ok(pairs)
}

fn values_of(alloc: Global, words: &mut Words<'_>) -> Result<List<(i32, u32)>, NoMemory> {
    let mut pairs = List::empty(alloc);
    for _ in 0..8 {
        let (Some(instance), Some(value)) = (words.signed(), words.number()) else {
            return Ok(pairs);
        };
        pairs.push((instance, value))?;
    }
    Ok(pairs)
}

fn many_values(alloc: Global, count: u32) -> Result<List<(i32, u32)>, NoMemory> {
    let mut pairs = List::empty(alloc);
    for value in 0..count {
        pairs.push((-1, value))?;
    }
    Ok(pairs)
}

impl Handed {
    pub fn none(alloc: Global) -> Handed {
        Handed {
            sets: List::empty(alloc),
            facts: Facts {
                metrics: List::empty(alloc),
                domains: List::empty(alloc),
            },
        }
    }

    // `fact PMID CODE DOMAIN SEMANTICS UNITS NAME`
    fn add_fact(&mut self, alloc: Global, words: &mut Words<'_>) -> Result<bool, NoMemory> {
        let Some(desc) = desc_of(words) else {
            return Ok(false);
        };
        let name = text_of(alloc, words.next())?;
        self.facts.metrics.push((desc, name))?;
        Ok(true)
    }

    // `domain DOMAIN NUMBER NAME ..`
    fn add_domain(&mut self, alloc: Global, words: &mut Words<'_>) -> Result<bool, NoMemory> {
        let Some(word) = words.hex() else {
            return Ok(false);
        };
        let pairs = instances_of(alloc, words)?;
        self.facts.domains.push((InDom::of_word(word), pairs))?;
        Ok(true)
    }

    /// The result at a moment.
    pub fn at(&self, alloc: Global, stamp: Stamp) -> Result<PmResult, NoMemory> {
        let sets = self.sets.copy(alloc)?;
        Ok(PmResult { stamp, sets })
    }

    fn push_set(&mut self, pmid: Pmid, body: Body) -> Result<bool, NoMemory> {
        self.sets.push(ValueSet { pmid, body })?;
        Ok(true)
    }

    // `set PMID INSTANCE VALUE ..`
    fn add_set(&mut self, alloc: Global, words: &mut Words<'_>) -> Result<bool, NoMemory> {
        let Some(pmid) = words.pmid() else {
            return Ok(false);
        };
        self.push_set(pmid, Body::InPlace(values_of(alloc, words)?))
    }

    // `many PMID COUNT`: a set of so many values.
    fn add_many(&mut self, alloc: Global, words: &mut Words<'_>) -> Result<bool, NoMemory> {
        let (Some(pmid), Some(count)) = (words.pmid(), words.number()) else {
            return Ok(false);
        };
        self.push_set(pmid, Body::InPlace(many_values(alloc, count)?))
    }

    // `status PMID STATUS`
    fn add_status(&mut self, words: &mut Words<'_>) -> Result<bool, NoMemory> {
        let (Some(pmid), Some(status)) = (words.pmid(), words.signed()) else {
            return Ok(false);
        };
        self.push_set(pmid, Body::Status(status))
    }

    /// `fact ..`, `domain ..`, `set ..`, `many ..`, `status ..`: more of what is handed; `nothing`: none of it any more.
    pub fn add(
        &mut self,
        alloc: Global,
        form: &str,
        mut words: Words<'_>,
    ) -> Result<bool, NoMemory> {
        match form {
            "fact" => self.add_fact(alloc, &mut words),
            "domain" => self.add_domain(alloc, &mut words),
            "set" => self.add_set(alloc, &mut words),
            "many" => self.add_many(alloc, &mut words),
            "status" => self.add_status(&mut words),
            "nothing" => {
                *self = Handed::none(alloc);
                Ok(true)
            }
            _ => Ok(false),
        }
    }
}
