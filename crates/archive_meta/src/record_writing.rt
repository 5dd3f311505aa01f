//! Records of Meta put behind what a buffer of the caller's holds, each in its one spelling. After a refusal the buffer
//! may hold a part of the record.
ghost use Rattle.std.specs.Prelude.{◌≡◌, ◌+◌, ◌*◌, ◌<◌, [], ◌∷◌, ◌++◌, length, OnOk};
ghost use Rattle.std.specs.List.{AllByRecursion};
ghost use Rattle.std.specs.Prelude.{FitsSigned};
ghost use Rattle.std.specs.Int.{w32};
ghost use Rattle.pcp_base.specs.Texts.{IsText};
ghost use Rattle.pcp_model.specs.Words.{word, signed_word};
ghost use Rattle.pcp_model.specs.Records.{counted_name, counted_names, names_length, description, instance_words, name_offsets, name_table, word_bytes, domain, DescriptionInRange, IsDomain};
ghost use Rattle.archive_meta.specs.Ranges.{IsShortText, HasNumber, HasText, DescInRange};

use pcp_base::{Desc, InDom, NoMemory, Stamp, Text};
use pcp_model::{put_signed, put_word};

fn put_name(out: &mut Vec<u8>, name: &Text) -> Result<(), NoMemory>
    requires { length name.now < 4294967296 }
    ensures bytes { OnOk result (out.new.items ≡ out.old.items ++ counted_name name.now) }
    ensures grows { OnOk result (length out.new.items ≡ length out.old.items + 4 + length name.now) }
    ensures range { OnOk result (IsShortText name.now) }
{
    let bytes = name.as_slice();
    put_word(out, bytes.len() as u32)?;
    out.extend_from_slice(bytes)?;
    Ok(())
}

fn put_names(out: &mut Vec<u8>, names: &[Text]) -> Result<(), NoMemory>
    requires { AllByRecursion (λ name. length name < 4294967296) names.now }
    ensures bytes { OnOk result (out.new.items ≡ out.old.items ++ counted_names names.now) }
    ensures grows { OnOk result (length out.new.items ≡ length out.old.items + names_length names.now) }
    ensures range { OnOk result (AllByRecursion IsShortText names.now) }
{
    for name in names {
        put_name(out, name)?;
    }
    Ok(())
}

fn put_desc(out: &mut Vec<u8>, desc: &Desc) -> Result<(), NoMemory>
    ensures bytes { OnOk result (out.new.items ≡ out.old.items ++ (word desc.now.pmid ++ (word desc.now.code ++ (word desc.now.indom ++ (word desc.now.semantics ++ word desc.now.units))))) }
    ensures grows { OnOk result (length out.new.items ≡ length out.old.items + 20) }
    ensures range { OnOk result (DescInRange desc.now) }
{
    put_word(out, desc.pmid.word())?;
    put_word(out, desc.code)?;
    put_word(out, desc.indom.word())?;
    put_word(out, desc.semantics)?;
    put_word(out, desc.units.word())?;
    Ok(())
}

/// Puts a description and its names, of which there are fewer than 2^32, each shorter than 2^32 bytes.
#[tactic(auto, unfolding(pcp_model::specs::Records::description))]
pub fn put_description(out: &mut Vec<u8>, desc: &Desc, names: &[Text]) -> Result<(), NoMemory>
    requires few { length names.now < 4294967296 }
    requires short { AllByRecursion (λ name. length name < 4294967296) names.now }
    ensures bytes { OnOk result (out.new.items ≡ out.old.items ++ description desc.now names.now) }
    ensures length { OnOk result (length out.new.items ≡ length out.old.items + (28 + names_length names.now)) }
    // What was written is read again: each number fits its word, and no name has a zero byte.
    ensures range { OnOk result (DescriptionInRange desc.now names.now) }
{
    put_word(out, 1)?;
    put_desc(out, desc)?;
    put_word(out, names.len() as u32)?;
    put_names(out, names)?;
    Ok(())
}

fn put_number(out: &mut Vec<u8>, number: i32) -> Result<(), NoMemory>
    ensures bytes { OnOk result (out.new.items ≡ out.old.items ++ signed_word number) }
    ensures grows { OnOk result (length out.new.items ≡ length out.old.items + 4) }
    ensures range { FitsSigned w32 number }
{
    put_signed(out, number)
}

fn put_numbers(out: &mut Vec<u8>, pairs: &[(i32, Text)]) -> Result<(), NoMemory>
    ensures bytes { OnOk result (out.new.items ≡ out.old.items ++ instance_words pairs.now) }
    ensures grows { OnOk result (length out.new.items ≡ length out.old.items + 4 * length pairs.now) }
    ensures range { OnOk result (AllByRecursion HasNumber pairs.now) }
{
    for (number, _) in pairs {
        put_number(out, *number)?;
    }
    Ok(())
}

/// Where each name begins in the table.
fn put_offsets(out: &mut Vec<u8>, pairs: &[(i32, Text)]) -> Result<(), NoMemory>
    requires { length (name_table pairs.now) < 4294967296 }
    ensures bytes { OnOk result (out.new.items ≡ out.old.items ++ word_bytes (name_offsets 0 pairs.now)) }
    ensures grows { OnOk result (length out.new.items ≡ length out.old.items + 4 * length pairs.now) }
{
    let mut at: u32 = 0;
    for (_, name) in pairs {
        put_word(out, at)?;
        at += name.as_slice().len() as u32 + 1;
    }
    Ok(())
}

fn put_ended(out: &mut Vec<u8>, name: &Text) -> Result<(), NoMemory>
    ensures bytes { OnOk result (out.new.items ≡ out.old.items ++ (name.now ++ 0 ∷ [])) }
    ensures grows { OnOk result (length out.new.items ≡ length out.old.items + (length name.now + 1)) }
    ensures range { OnOk result (IsText name.now) }
{
    out.extend_from_slice(name.as_slice())?;
    out.push(0)?;
    Ok(())
}

fn put_table(out: &mut Vec<u8>, pairs: &[(i32, Text)]) -> Result<(), NoMemory>
    ensures bytes { OnOk result (out.new.items ≡ out.old.items ++ name_table pairs.now) }
    ensures grows { OnOk result (length out.new.items ≡ length out.old.items + length (name_table pairs.now)) }
    ensures range { OnOk result (AllByRecursion HasText pairs.now) }
{
    for (_, name) in pairs {
        put_ended(out, name)?;
    }
    Ok(())
}

/// Puts an instance domain from a moment on; the table has the names in the order of the pairs, without gaps. There
/// are fewer than 2^31 pairs, and the table is shorter than 2^32 bytes.
#[tactic(auto, unfolding(pcp_model::specs::Records::domain))]
pub fn put_domain(
    out: &mut Vec<u8>,
    stamp: Stamp,
    indom: InDom,
    pairs: &[(i32, Text)],
) -> Result<(), NoMemory>
    requires few { length pairs.now < 2147483648 }
    requires short { length (name_table pairs.now) < 4294967296 }
    ensures bytes { OnOk result (out.new.items ≡ out.old.items ++ domain stamp indom pairs.now) }
    ensures length { OnOk result (length out.new.items ≡ length out.old.items + (20 + 8 * length pairs.now + length (name_table pairs.now))) }
    // What was written is read again.
    ensures range { OnOk result (IsDomain (domain stamp indom pairs.now) stamp indom pairs.now) }
{
    put_word(out, 2)?;
    put_word(out, stamp.sec())?;
    put_word(out, stamp.usec())?;
    put_word(out, indom.word())?;
    put_word(out, pairs.len() as u32)?;
    put_numbers(out, pairs)?;
    put_offsets(out, pairs)?;
    put_table(out, pairs)?;
    Ok(())
}
