//! Replies, and their bytes.
ghost use Rattle.std.specs.Prelude.{◌≡◌, ◌∷◌, [], find, map, option_map, IfOk, Some};
ghost use Rattle.std.specs.Option.{option_copied};
ghost use Rattle.std.specs.Ordering.{int_eq};
ghost use Rattle.pdu_codec.specs.Spelling.{IsWritable};
ghost use Rattle.pmns_core.specs.Below.{below, children_of};
ghost use Rattle.pmns_core.specs.Pairs.{least_name, pmid_of};
ghost use Rattle.pmcd_session.specs.Replies.{all_of, instances_reply, ids_reply, names_reply, no_metric, no_name, one_instance, protocol_error, greeting, reply_bytes, some_names};

use pcp_base::{Bytes, Duplicate, InDom, List, NoMemory, Pmid, Text};
use pdu_codec::{Pdu, encode, pdu_length};
use pmns_core::Names;
use std::alloc::Global;

/// A name is not there, and none continues it: PM_ERR_NAME (pmErrStr(3)).
const NO_NAME: i32 = -12357;

/// No metric has the number: PM_ERR_PMID (pmErrStr(3)).
const NO_METRIC: i32 = -12358;

/// The domain has no instance of the number: PM_ERR_INST (pmErrStr(3)).
const NO_INSTANCE: i32 = -12360;

/// The client doesn't keep to the protocol, or a reply has too many bytes: PM_ERR_IPC (pmErrStr(3)).
const PROTOCOL: i32 = -12366;

/// The most bytes that a reply has.
const MOST: u64 = 65_536;

/// What the server sends before it reads anything (pmcd(1)): status 0.
pub fn greeting() -> Pdu
    ensures { result ≡ greeting }
{
    Pdu::Error { code: 0 }
}

/// The reply to what isn't asked so.
pub fn protocol_error() -> Pdu
    ensures { result ≡ protocol_error }
{
    Pdu::Error { code: PROTOCOL }
}

/// The bytes of a reply; one of more than 65,536 bytes is an error instead.
pub fn reply_bytes(alloc: Global, reply: &Pdu) -> Result<Bytes, NoMemory>
    requires { IsWritable reply.now }
    ensures { IfOk result (λ bytes. bytes ≡ reply_bytes reply.now) }
{
    if pdu_length(reply) > MOST {
        return encode(alloc, &protocol_error());
    }
    encode(alloc, reply)
}

/// The instance of a number, if it is there.
fn one_instance(alloc: Global, indom: InDom, found: Option<&(i32, Text)>) -> Result<Pdu, NoMemory>
    ensures { IfOk result (λ reply. reply ≡ one_instance indom (option_copied found.entry)) }
{
    let Some(pair) = found else {
        return Ok(Pdu::Error { code: NO_INSTANCE });
    };
    let mut pairs = List::empty(alloc);
    pairs.push((pair.0, pair.1.copy(alloc)?))?;
    Ok(Pdu::Instance { indom, pairs })
}

/// The pair of a number.
fn pair_with(pairs: &[(i32, Text)], instance: i32) -> Option<&(i32, Text)>
    ensures { option_copied result ≡ find (λ pair. int_eq pair.0 instance) pairs.now }
{
    pairs.iter().find(|pair| pair.0 == instance)
}

/// All instances of a domain, for which -1 asks, or the one of a number.
pub fn instances_reply(
    alloc: Global,
    indom: InDom,
    instance: i32,
    pairs: List<(i32, Text)>,
) -> Result<Pdu, NoMemory>
    ensures { IfOk result (λ reply. reply ≡ instances_reply indom instance pairs) }
{
    if instance == -1 {
        return Ok(Pdu::Instance { indom, pairs });
    }
    one_instance(alloc, indom, pair_with(pairs.as_slice(), instance))
}

/// The identifier of each name, if all names are there.
pub fn ids_reply(alloc: Global, names: &Names, asked: &[Text]) -> Result<Pdu, NoMemory>
    ensures { IfOk result (λ reply. reply ≡ ids_reply (all_of (pmid_of names.now) asked.now)) }
{
    let mut pmids = List::empty(alloc);
    for name in asked {
        let Some(pmid) = names.find(name) else {
            return Ok(Pdu::Error { code: NO_NAME });
        };
        pmids.push(pmid)?;
    }
    Ok(Pdu::PmnsIds { status: 0, pmids })
}

/// The least name of each identifier, if each has one.
pub fn names_reply(alloc: Global, names: &Names, asked: &[Pmid]) -> Result<Pdu, NoMemory>
    ensures { IfOk result (λ reply. reply ≡ names_reply no_metric (all_of (least_name names.now) asked.now)) }
{
    let mut found = List::empty(alloc);
    for pmid in asked {
        let Some(name) = names.name_of(*pmid) else {
            return Ok(Pdu::Error { code: NO_METRIC });
        };
        found.push(name.copy(alloc)?)?;
    }
    Ok(Pdu::PmnsNames {
        status: 0,
        names: found,
    })
}

/// The first parts of pairs.
fn firsts<B>(alloc: Global, pairs: &[(Text, B)]) -> Result<List<Text>, NoMemory>
    ensures { IfOk result (λ names. names ≡ map (λ pair. pair.0) pairs.now) }
{
    let mut names = List::empty(alloc);
    for (name, _) in pairs {
        names.push(name.copy(alloc)?)?;
    }
    Ok(names)
}

/// The components that continue a name, if it is there or continued.
pub fn child_reply(alloc: Global, names: &Names, name: &Text) -> Result<Pdu, NoMemory>
    ensures { IfOk result (λ reply. reply ≡ names_reply no_name (option_map (λ parts. map (λ part. part.0) parts) (children_of names.now name.now))) }
{
    match names.children(alloc, name)? {
        Some(parts) => Ok(Pdu::PmnsNames {
            status: 0,
            names: firsts(alloc, parts.as_slice())?,
        }),
        None => Ok(Pdu::Error { code: NO_NAME }),
    }
}

/// The names that are a name or continue it, if there is one.
pub fn traverse_reply(alloc: Global, names: &Names, name: &Text) -> Result<Pdu, NoMemory>
    ensures { IfOk result (λ reply. reply ≡ names_reply no_name (some_names (below names.now name.now))) }
{
    let pairs = names.traverse(alloc, name)?;
    if pairs.is_empty() {
        return Ok(Pdu::Error { code: NO_NAME });
    }
    Ok(Pdu::PmnsNames {
        status: 0,
        names: firsts(alloc, pairs.as_slice())?,
    })
}
