//! The spelling of what may stand many times.
ghost use Rattle.std.specs.Prelude.{◌≡◌, ◌+◌, ◌*◌, ◌≤◌, ◌<◌, ◌++◌, length, FitsSigned, OnOk};
ghost use Rattle.std.specs.Int.{w32};
ghost use Rattle.std.specs.List.{AllByRecursion};
ghost use Rattle.pcp_model.specs.Words.{word, signed_word, zeros};
ghost use Rattle.pdu_codec.specs.Grammar.{state_word};
ghost use Rattle.pdu_codec.specs.Spelling.{all_bytes, all_lengths, text_bytes, text_length, pair_bytes, pair_length, head_bytes, instance_bytes, part_length, IsPair, IsHead, IsShort, ListsNumbers, IsWord};

use pcp_base::{NoMemory, Pmid, Text};
use pcp_model::{put_signed, put_word};
use profile_filter::DomainPart;

/// The words of identifiers.
pub fn put_pmids(out: &mut Vec<u8>, pmids: &[Pmid]) -> Result<(), NoMemory>
    ensures bytes { OnOk result (out.new.items ≡ out.old.items ++ all_bytes word pmids.now) }
    ensures grows { OnOk result (length out.new.items ≡ length out.old.items + 4 * length pmids.now) }
    ensures range { OnOk result (AllByRecursion IsWord pmids.now) }
{
    for pmid in pmids {
        put_word(out, pmid.word())?;
    }
    Ok(())
}

fn put_instances(out: &mut Vec<u8>, instances: &[i32]) -> Result<(), NoMemory>
    ensures bytes { OnOk result (out.new.items ≡ out.old.items ++ all_bytes signed_word instances.now) }
    ensures grows { OnOk result (length out.new.items ≡ length out.old.items + 4 * length instances.now) }
    ensures range { OnOk result (AllByRecursion (FitsSigned w32) instances.now) }
{
    for instance in instances {
        put_signed(out, *instance)?;
    }
    Ok(())
}

fn put_zeros(out: &mut Vec<u8>, count: usize) -> Result<(), NoMemory>
    requires { count < 4 }
    ensures { OnOk result (out.new.items ≡ out.old.items ++ zeros count) }
{
    out.extend_from_slice(&[0; 4][..count])?;
    Ok(())
}

/// A text with its length before it and its padding.
pub fn put_text(out: &mut Vec<u8>, text: &Text) -> Result<(), NoMemory>
    requires { text_length text.now ≤ 65536 }
    ensures bytes { OnOk result (out.new.items ≡ out.old.items ++ text_bytes text.now) }
    ensures grows { OnOk result (length out.new.items ≡ length out.old.items + text_length text.now) }
    ensures range { OnOk result (IsShort text.now) }
{
    let bytes = text.as_slice();
    put_word(out, bytes.len() as u32)?;
    out.extend_from_slice(bytes)?;
    put_zeros(out, (4 - bytes.len() % 4) % 4)
}

pub fn put_texts(out: &mut Vec<u8>, texts: &[Text]) -> Result<(), NoMemory>
    requires { all_lengths text_length texts.now ≤ 65536 }
    ensures bytes { OnOk result (out.new.items ≡ out.old.items ++ all_bytes text_bytes texts.now) }
    ensures grows { OnOk result (length out.new.items ≡ length out.old.items + all_lengths text_length texts.now) }
    ensures range { OnOk result (AllByRecursion IsShort texts.now) }
{
    for text in texts {
        put_text(out, text)?;
    }
    Ok(())
}

/// An instance's number and its name.
fn put_pair(out: &mut Vec<u8>, pair: &(i32, Text)) -> Result<(), NoMemory>
    requires { text_length pair.now.1 ≤ 65536 }
    ensures bytes { OnOk result (out.new.items ≡ out.old.items ++ pair_bytes pair.now) }
    ensures grows { OnOk result (length out.new.items ≡ length out.old.items + pair_length pair.now) }
    ensures range { OnOk result (IsPair pair.now) }
{
    put_signed(out, pair.0)?;
    put_text(out, &pair.1)
}

pub fn put_pairs(out: &mut Vec<u8>, pairs: &[(i32, Text)]) -> Result<(), NoMemory>
    requires { all_lengths pair_length pairs.now ≤ 65536 }
    ensures bytes { OnOk result (out.new.items ≡ out.old.items ++ all_bytes pair_bytes pairs.now) }
    ensures grows { OnOk result (length out.new.items ≡ length out.old.items + all_lengths pair_length pairs.now) }
    ensures range { OnOk result (AllByRecursion IsPair pairs.now) }
{
    for pair in pairs {
        put_pair(out, pair)?;
    }
    Ok(())
}

/// A state: 0 includes, 1 excludes.
pub fn put_state(out: &mut Vec<u8>, include: bool) -> Result<(), NoMemory>
    ensures bytes { OnOk result (out.new.items ≡ out.old.items ++ word (state_word include)) }
    ensures grows { OnOk result (length out.new.items ≡ length out.old.items + 4) }
{
    if include {
        put_word(out, 0)
    } else {
        put_word(out, 1)
    }
}

/// The head of a part.
fn put_head(out: &mut Vec<u8>, part: &DomainPart) -> Result<(), NoMemory>
    requires { part_length part.now ≤ 65536 }
    ensures bytes { OnOk result (out.new.items ≡ out.old.items ++ head_bytes part.now) }
    ensures grows { OnOk result (length out.new.items ≡ length out.old.items + 16) }
    ensures range { OnOk result (IsHead part.now) }
{
    put_word(out, part.indom.word())?;
    put_state(out, part.include)?;
    put_word(out, part.instances.len() as u32)?;
    put_word(out, 0)
}

pub fn put_heads(out: &mut Vec<u8>, parts: &[DomainPart]) -> Result<(), NoMemory>
    requires { all_lengths part_length parts.now ≤ 65536 }
    ensures bytes { OnOk result (out.new.items ≡ out.old.items ++ all_bytes head_bytes parts.now) }
    ensures grows { OnOk result (length out.new.items ≡ length out.old.items + 16 * length parts.now) }
    ensures range { OnOk result (AllByRecursion IsHead parts.now) }
{
    for part in parts {
        put_head(out, part)?;
    }
    Ok(())
}

/// The instances of all parts.
pub fn put_listed(out: &mut Vec<u8>, parts: &[DomainPart]) -> Result<(), NoMemory>
    ensures bytes { OnOk result (out.new.items ≡ out.old.items ++ all_bytes instance_bytes parts.now) }
    ensures grows { OnOk result (length out.new.items + 16 * length parts.now ≡ length out.old.items + all_lengths part_length parts.now) }
    ensures range { OnOk result (AllByRecursion ListsNumbers parts.now) }
{
    for part in parts {
        put_instances(out, part.instances.as_slice())?;
    }
    Ok(())
}
