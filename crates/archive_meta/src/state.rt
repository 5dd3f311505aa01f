//! All records of Meta, and how they are found.
ghost use Rattle.std.specs.Prelude.{◌≡◌, ◌↔◌, ℕ, ◌<◌, ◌≤◌, ◌∷◌, [], ◌++◌, length, take, ℤ, List as Sequence, IsTrue, IfOk, IfErr, OnOk, OnErr, MatchOption};
ghost use Rattle.std.specs.Option.{option_copied};
ghost use Rattle.pcp_model.specs.declared.records.MetaRecord.{MetaRecord as Record};
ghost use Rattle.pcp_model.specs.declared.records.MetaRecord.TheVariants.{Description};
ghost use Rattle.pcp_model.specs.Described.{HoldsAt};
ghost use Rattle.pcp_model.specs.Records.{AreConsistent};
ghost use Rattle.archive_meta.specs.Records.{AreRecords, IsMetaFault, Adds, AreFound, IsAddFault};
ghost use Rattle.archive_meta.specs.Said.{description_of, desc_of, names_of, described_metrics};

use crate::adding::is_description;
use crate::counting::{Room, room_for};
use crate::descriptions::{Descriptions, all_metrics};
use crate::fault::MetaFault;
use crate::framed::record_at;
use crate::hashing::WordHasher;
use crate::keeping::{cut, description_of, domain_at, push};
use crate::moments::Moments;
use indexmap::IndexMap;
use pcp_base::{Desc, InDom, List, NoMemory, Pmid, Stamp, Text};
use pcp_model::{DomainInstances, MetaRecord};
use std::alloc::Global;
use std::collections::BTreeSet;
use std::marker::Model;

/// All records of Meta in the order of the file; no two describe one metric in two ways. Records of other kinds aren't
/// kept: for each record a mark says whether it is the next of those that are.
#[derive(Drop)]
pub struct MetaState {
    records: List<MetaRecord>,
    marks: List<bool>,
    descriptions: Descriptions,
    moments: Moments,
}

impl Model for MetaState {
    ghost use Rattle.std.specs.Prelude.{List as Sequence};
    ghost use Rattle.pcp_model.specs.declared.records.MetaRecord.{MetaRecord as Record};
    ghost use Rattle.archive_meta.specs.Kept.{IsState};
    ghost use Rattle.archive_meta.specs.Woven.{with_other_records};

    ghost Value = { Sequence Record };

    ghost view = { λ m. with_other_records m.marks m.records };

    ghost invariant = { λ m. IsState m.records m.marks m.descriptions m.moments };
}

impl MetaState {
    /// No records.
    pub fn empty(alloc: Global) -> MetaState
        ensures { result ≡ [] }
    {
        MetaState {
            records: List::empty(alloc),
            marks: List::empty(alloc),
            descriptions: IndexMap::with_hasher(alloc, WordHasher::new()),
            moments: BTreeSet::new(alloc),
        }
    }

    /// No records, with room for so many.
    pub(crate) fn with_room(alloc: Global, room: Room) -> Result<MetaState, NoMemory>
        ensures { IfOk result (λ m. m ≡ []) }
    {
        Ok(MetaState {
            records: List::from_vec(Vec::with_capacity(alloc, room.kept)?),
            marks: List::from_vec(Vec::with_capacity(alloc, room.records)?),
            descriptions: IndexMap::with_capacity_and_hasher(
                alloc,
                room.described,
                WordHasher::new(),
            )?,
            moments: BTreeSet::new(alloc),
        })
    }

    /// How many records there are.
    pub fn count(&self) -> usize
        ensures value { result ≡ length self.now }
        ensures consistent { AreConsistent self.now }
    {
        self.marks.len()
    }

    /// The first record that describes a metric.
    pub(crate) fn description_of(&self, pmid: Pmid) -> Option<&MetaRecord>
        ensures value { option_copied result ≡ description_of pmid self.now }
        ensures consistent { AreConsistent self.now }
    {
        description_of(&self.records, &self.descriptions, pmid)
    }

    /// Whether no two descriptions differ with this one more.
    fn agrees_with(&self, desc: &Desc, names: &[Text]) -> bool
        ensures { IsTrue result ↔ AreConsistent (self.now ++ Description desc.now names.now ∷ []) }
    {
        match self.description_of(desc.pmid) {
            Some(first) => is_description(first, desc, names),
            None => true,
        }
    }

    /// Whether no two descriptions differ with a record more.
    fn agrees(&self, one: &MetaRecord) -> bool
        requires { AreConsistent self.now }
        ensures { IsTrue result ↔ AreConsistent (self.now ++ one.now ∷ []) }
    {
        match one {
            MetaRecord::Description(desc, names) => self.agrees_with(desc, names.as_slice()),
            MetaRecord::Domain(_, _, _) => true,
            MetaRecord::Other => true,
        }
    }

    fn push(&mut self, one: MetaRecord) -> Result<(), NoMemory>
        requires { AreConsistent (self.old ++ one ∷ []) }
        ensures ok { OnOk result (self.new ≡ self.old ++ one ∷ []) }
        ensures err { OnErr result (self.new ≡ self.old) }
    {
        push(
            &mut self.records,
            &mut self.marks,
            &mut self.descriptions,
            &mut self.moments,
            one,
        )
    }

    /// Takes away the records behind the first so many: what was added since the state had so many. No memory is taken.
    pub fn cut(&mut self, count: usize)
        ensures { self.new ≡ take count self.old }
    {
        cut(
            &mut self.records,
            &mut self.marks,
            &mut self.descriptions,
            &mut self.moments,
            count,
        );
    }

    pub(crate) fn add(&mut self, one: MetaRecord, at: usize) -> Result<(), MetaFault>
        requires { AreConsistent self.old }
        ensures ok { OnOk result (self.new ≡ self.old ++ one ∷ []) }
        ensures err { OnErr result (self.new ≡ self.old) }
        ensures fault { IfErr result (IsAddFault self.old one at) }
        ensures consistent { OnOk result (AreConsistent (self.old ++ one ∷ [])) }
    {
        if !self.agrees(&one) {
            return Err(MetaFault::Record { at: at as u64 });
        }
        self.push(one)?;
        Ok(())
    }

    fn add_all(&mut self, alloc: Global, bytes: &[u8]) -> Result<(), MetaFault>
        requires { AreConsistent self.old }
        ensures ok { OnOk result (Adds self.old bytes.now self.new) }
        ensures err { OnErr result (take (length self.old) self.new ≡ self.old) }
        ensures fault { IfErr result (IsMetaFault self.old bytes.now) }
    {
        let mut at = 0;
        while at < bytes.len() {
            let (record, next) = record_at(alloc, bytes, at)?;
            self.add(record, at)?;
            at = next;
        }
        Ok(())
    }

    /// Adds the framed records of these bytes, all or none. The state is then the one that is read of all bytes so
    /// far and these. `Record` names the first that is refused; its offset is counted from the start of these bytes.
    pub fn extend(&mut self, alloc: Global, bytes: &[u8]) -> Result<(), MetaFault>
        // What was added is what the bytes are.
        ensures ok { OnOk result (Adds self.old bytes.now self.new) }
        // What the bytes are is added, if no description differs, unless memory runs out.
        ensures only { (records : Sequence Record) → AreRecords bytes.now records → AreConsistent (self.old ++ records) → AreFound (λ _ all. self.new ≡ self.old ++ all) records result }
        // A refusal is the first record that is bad or differs from one that is kept, or want of memory.
        ensures fault { IfErr result (IsMetaFault self.old bytes.now) }
        // A refusal changes nothing.
        ensures err { OnErr result (self.new ≡ self.old) }
    {
        let count = self.count();
        match self.add_all(alloc, bytes) {
            Ok(()) => Ok(()),
            Err(fault) => {
                self.cut(count);
                Err(fault)
            }
        }
    }

    /// The records of the bytes that follow Meta's label. `Record` names the first that is refused.
    pub fn read(alloc: Global, bytes: &[u8]) -> Result<MetaState, MetaFault>
        // What was read is what the bytes are.
        ensures found { IfOk result (AreRecords bytes.now) }
        // No two descriptions of one metric differ.
        ensures consistent { IfOk result AreConsistent }
        // What the bytes are is read, if no description differs, unless memory runs out.
        ensures only { (records : Sequence Record) → AreRecords bytes.now records → AreConsistent records → AreFound (λ m all. m ≡ all) records result }
        // A refusal is the first record that is bad or differs from an earlier one, or want of memory.
        ensures fault { IfErr result (IsMetaFault [] bytes.now) }
    {
        let mut meta = MetaState::with_room(alloc, room_for(bytes))?;
        match meta.extend(alloc, bytes) {
            Ok(()) => Ok(meta),
            Err(fault) => Err(fault),
        }
    }

    /// The description of a metric; `None` exactly where no record describes it.
    pub fn desc(&self, pmid: Pmid) -> Option<&Desc>
        ensures { option_copied result ≡ desc_of (description_of pmid self.now) }
    {
        match self.description_of(pmid) {
            Some(MetaRecord::Description(desc, _)) => Some(desc),
            Some(MetaRecord::Domain(_, _, _)) | Some(MetaRecord::Other) | None => None,
        }
    }

    /// The names of a metric; `None` exactly where no record describes it.
    pub fn names(&self, pmid: Pmid) -> Option<&List<Text>>
        ensures { option_copied result ≡ names_of (description_of pmid self.now) }
    {
        match self.description_of(pmid) {
            Some(MetaRecord::Description(_, names)) => Some(names),
            Some(MetaRecord::Domain(_, _, _)) | Some(MetaRecord::Other) | None => None,
        }
    }

    /// The instances of a domain at a moment, by number and name; `None` exactly where no record of it holds then.
    pub fn domain_at(&self, indom: InDom, t: Stamp) -> Option<&DomainInstances>
        ensures { MatchOption (option_copied result) ((pairs : Sequence (ℤ × Sequence ℕ)) → HoldsAt self.now indom t pairs → ⊥) (HoldsAt self.now indom t) }
    {
        domain_at(&self.records, &self.moments, indom, t)
    }

    /// The metrics that are described, in the order in which they are first.
    pub fn pmids(&self, alloc: Global) -> Result<List<Pmid>, NoMemory>
        ensures { IfOk result (λ pmids. pmids ≡ described_metrics self.now) }
    {
        all_metrics(alloc, &self.descriptions)
    }
}
