//! One record more, or less, in what is kept beside the records.
ghost use Rattle.std.specs.Prelude.{◌≡◌, ◌↔◌, ◌<◌, ◌∷◌, [], ◌++◌, length, List as Sequence, IsTrue, OnOk, OnErr};
ghost use Rattle.pcp_model.specs.declared.records.MetaRecord.{MetaRecord as Record};
ghost use Rattle.pcp_model.specs.declared.records.MetaRecord.TheVariants.{Description};
ghost use Rattle.archive_meta.specs.Kept.{HasDescriptions, HasMoments};

use crate::descriptions::{Descriptions, forget_metric, note_metric};
use crate::moments::{Moments, forget_moment, note_moment};
use pcp_base::{Desc, NoMemory, Text};
use pcp_model::MetaRecord;

/// Notes a record behind all others.
pub fn note(
    descriptions: &mut Descriptions,
    moments: &mut Moments,
    one: &MetaRecord,
    at: usize,
) -> Result<(), NoMemory>
    requires { at < 4294967296 }
    ensures metrics { OnOk result ((records : Sequence Record) → length records ≡ at → HasDescriptions descriptions.old records → HasDescriptions descriptions.new (records ++ one.now ∷ [])) }
    ensures domains { OnOk result ((records : Sequence Record) → length records ≡ at → HasMoments moments.old records → HasMoments moments.new (records ++ one.now ∷ [])) }
    ensures same_metrics { OnErr result ((records : Sequence Record) → HasDescriptions descriptions.old records → HasDescriptions descriptions.new records) }
    ensures same_domains { OnErr result ((records : Sequence Record) → HasMoments moments.old records → HasMoments moments.new records) }
{
    match one {
        MetaRecord::Description(desc, _) => note_metric(descriptions, desc.pmid, at),
        MetaRecord::Domain(stamp, indom, _) => note_moment(moments, *indom, *stamp, at),
        MetaRecord::Other => Ok(()),
    }
}

/// Forgets the record behind all others.
pub fn forget(descriptions: &mut Descriptions, moments: &mut Moments, one: &MetaRecord, at: usize)
    requires { at < 4294967296 }
    ensures metrics { (records : Sequence Record) → length records ≡ at → HasDescriptions descriptions.old (records ++ one.now ∷ []) → HasDescriptions descriptions.new records }
    ensures domains { (records : Sequence Record) → length records ≡ at → HasMoments moments.old (records ++ one.now ∷ []) → HasMoments moments.new records }
{
    match one {
        MetaRecord::Description(desc, _) => forget_metric(descriptions, desc.pmid, at),
        MetaRecord::Domain(stamp, indom, _) => forget_moment(moments, *indom, *stamp, at),
        MetaRecord::Other => (),
    }
}

/// Whether two texts are the same.
pub fn is_same_text(a: &Text, b: &Text) -> bool
    ensures { IsTrue result ↔ (a.now ≡ b.now) }
{
    a.as_slice() == b.as_slice()
}

fn are_same_texts(a: &[Text], b: &[Text]) -> bool
    ensures { IsTrue result ↔ (a.now ≡ b.now) }
{
    if a.len() != b.len() {
        return false;
    }
    for i in 0..a.len() {
        if !is_same_text(&a[i], &b[i]) {
            return false;
        }
    }
    true
}

/// Whether a record is this description with these names.
pub fn is_description(one: &MetaRecord, desc: &Desc, names: &[Text]) -> bool
    ensures { IsTrue result ↔ (one.now ≡ Description desc.now names.now) }
{
    match one {
        MetaRecord::Description(found, others) => {
            found == desc && are_same_texts(others.as_slice(), names)
        }
        MetaRecord::Domain(_, _, _) | MetaRecord::Other => false,
    }
}
