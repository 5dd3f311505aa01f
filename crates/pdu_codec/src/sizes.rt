//! How many bytes a PDU has, without writing it.
ghost use Rattle.std.specs.Prelude.{◌≡◌, ◌+◌, ◌*◌, length, min};
ghost use Rattle.pdu_codec.specs.Spelling.{all_lengths, text_length, pair_length, part_length, body_length, pdu_length};

use crate::pdu::Pdu;
use pcp_base::Text;
use profile_filter::DomainPart;

/// A length with so many words behind it, at most 2^64 - 1.
fn with_words(before: u64, count: usize) -> u64
    ensures { result ≡ min (before + 4 * count) 18446744073709551615 }
{
    before.saturating_add((count as u64).saturating_mul(4))
}

/// A length with a text's behind it, at most 2^64 - 1.
fn with_text(before: u64, text: &Text) -> u64
    ensures { result ≡ min (before + text_length text.now) 18446744073709551615 }
{
    let size = text.as_slice().len();
    let filling = (4 - size % 4) % 4;
    before
        .saturating_add(4 + filling as u64)
        .saturating_add(size as u64)
}

fn with_texts(before: u64, texts: &[Text]) -> u64
    ensures { result ≡ min (before + all_lengths text_length texts.now) 18446744073709551615 }
{
    let mut total = before;
    for text in texts {
        total = with_text(total, text);
    }
    total
}

fn with_pairs(before: u64, pairs: &[(i32, Text)]) -> u64
    ensures { result ≡ min (before + all_lengths pair_length pairs.now) 18446744073709551615 }
{
    let mut total = before;
    for (_, name) in pairs {
        total = with_text(total.saturating_add(4), name);
    }
    total
}

fn with_parts(before: u64, parts: &[DomainPart]) -> u64
    ensures { result ≡ min (before + all_lengths part_length parts.now) 18446744073709551615 }
{
    let mut total = before;
    for part in parts {
        total = with_words(total.saturating_add(16), part.instances.len());
    }
    total
}

/// How many bytes a PDU has in its one spelling, with its header; at most 2^64 - 1.
pub fn pdu_length(pdu: &Pdu) -> u64
    ensures { result ≡ min (pdu_length pdu.now) 18446744073709551615 }
{
    match pdu {
        Pdu::Error { .. } => 16,
        Pdu::Result(answer) => result_form::length(answer).saturating_add(12),
        Pdu::Profile { parts, .. } => with_parts(28, parts.as_slice()),
        Pdu::Fetch { pmids, .. } => with_words(28, pmids.len()),
        Pdu::DescReq { .. } => 16,
        Pdu::Desc(_) => 32,
        Pdu::InstanceReq { .. } => 20,
        Pdu::Instance { pairs, .. } => with_pairs(20, pairs.as_slice()),
        Pdu::Creds => 20,
        Pdu::PmnsIds { pmids, .. } => with_words(20, pmids.len()),
        Pdu::PmnsNames { names, .. } => with_texts(20, names.as_slice()),
        Pdu::PmnsChild { name } => with_text(12, name),
        Pdu::PmnsTraverse { name } => with_text(12, name),
    }
}
