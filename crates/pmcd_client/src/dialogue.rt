//! The dialogue: opened by names, and then one sample after another.
ghost use Rattle.std.specs.Prelude.{◌≡◌, ◌≤◌, ◌<◌, ◌∷◌, ◌++◌, [], List as Sequence, ℕ, length, All, IfOk, IfErr};
ghost use Rattle.std.specs.List.{AllByRecursion};
ghost use Rattle.archive_meta.specs.Enough.{AreEnough};
ghost use Rattle.pcp_base.specs.Results.{Fits};
ghost use Rattle.pcp_outside.specs.Sides.{source_side, sink_side};
ghost use Rattle.pmcd_client.specs.Talks.{BreaksOff, Sample, Talks};

use crate::faults::{ReplyFault, TalkFault};
use crate::line::Line;
use crate::listing::{are_enough, lacking, renew};
use crate::metrics::{domains_described, metrics_named, pmids_of};
use archive_meta::Facts;
use pcp_base::{List, PmResult, Pmid, Text};
use pcp_outside::{Sink, Source};
use std::alloc::Global;
use std::marker::Model;

/// A dialogue with a pmcd about the metrics of some names. Contracts see the metrics, what describes them, and how many
/// replies came.
#[derive(Drop)]
pub struct Dialogue {
    line: Line,
    pmids: List<Pmid>,
    facts: Facts,
}

impl Model for Dialogue {
    ghost use Rattle.std.specs.Prelude.{◌<◌, ◌≤◌, length};
    ghost use Rattle.pmcd_client.specs.Replies.{Standing};

    ghost Value = { Standing };

    ghost view = { λ a. record { pmids = a.pmids; facts = a.facts; replies = a.line.replies } };

    ghost invariant = { λ a. (0 < length a.pmids) × (length a.pmids ≤ 64) };
}

impl Dialogue {
    /// Opens a dialogue about 1 to 64 names of at most 400 bytes: awaits the greeting, says that the client speaks the
    /// protocol, and learns the metrics, their descriptions and the instances of their domains. Each reply is taken whole and
    /// nothing behind it; no request is written before it is due. A refusal ends the dialogue.
    pub fn open<I: Source, L: Sink>(
        alloc: Global,
        names: &[Text],
        reply: &mut I,
        request: &mut L,
    ) -> Result<Dialogue, TalkFault>
        requires some { 0 < length names.now }
        requires few { length names.now ≤ 64 }
        requires short { All (λ name. length name ≤ 400) names.now }
        // So it talked, and over it no item came yet.
        ensures talks { IfOk result (Talks names.now (source_side I.Source reply.old reply.new) (sink_side L.Sink request.old request.new) []) }
        // Or so it broke off.
        ensures breaks { IfErr result (BreaksOff names.now (source_side I.Source reply.old reply.new) (sink_side L.Sink request.old request.new) []) }
    {
        let mut line = Line::new(alloc);
        line.await_reply(alloc, &None, reply)?;
        let pmids = line.ask_names(alloc, names, reply, request)?;
        let named = metrics_named(alloc, pmids.as_slice(), names)?;
        let pmids = pmids_of(alloc, named.as_slice())?;
        let metrics = line.ask_descriptions(alloc, named, reply, request)?;
        let indoms = domains_described(alloc, metrics.as_slice())?;
        let domains = line.ask_lists(alloc, indoms.as_slice(), reply, request)?;
        let facts = Facts { metrics, domains };
        Ok(Dialogue { line, pmids, facts })
    }

    /// Fetches one sample: the values of all metrics, and then the instances of each domain whose last list lacks one that
    /// the result shows. The result has a set for each metric, and `facts` describe it. Nothing is said of the dialogue after
    /// a refusal, which ends it.
    pub fn sample<I: Source, L: Sink>(
        &mut self,
        alloc: Global,
        reply: &mut I,
        request: &mut L,
    ) -> Result<PmResult, TalkFault>
        // A dialogue goes on by the item: the result and its facts.
        ensures talks { (names : Sequence (Sequence ℕ)) (first : I) (begun : L) (items : Sequence Sample)
            → Talks names (source_side I.Source first reply.old) (sink_side L.Sink begun request.old) items self.old
            → IfOk result (λ answer. Talks names (source_side I.Source first reply.new) (sink_side L.Sink begun request.new) (items ++ record { result = answer; facts = self.new.facts } ∷ []) self.new) }
        // Or it breaks off, and no item is added.
        ensures breaks { (names : Sequence (Sequence ℕ)) (first : I) (begun : L) (items : Sequence Sample)
            → Talks names (source_side I.Source first reply.old) (sink_side L.Sink begun request.old) items self.old
            → IfErr result (BreaksOff names (source_side I.Source first reply.new) (sink_side L.Sink begun request.new) items) }
        // The result can be logged, and the facts tell enough for it.
        ensures some { IfOk result (λ answer. 0 < length answer.sets) }
        ensures fits { IfOk result (λ answer. AllByRecursion Fits answer.sets) }
        ensures enough { IfOk result (λ answer. AreEnough self.new.facts answer.sets) }
    {
        let answer = self.line.ask_values(alloc, &self.pmids, reply, request)?;
        let indoms = lacking(alloc, &self.facts, answer.sets.as_slice())?;
        let fresh = self
            .line
            .ask_lists(alloc, indoms.as_slice(), reply, request)?;
        renew(alloc, &mut self.facts, fresh.as_slice())?;
        if !are_enough(&self.facts, answer.sets.as_slice()) {
            return Err(TalkFault::Peer {
                reply: self.line.replies.saturating_sub(1),
                why: ReplyFault::Shape,
            });
        }
        Ok(answer)
    }

    /// What describes the metrics of the last sample, or of none yet: their descriptions with the first name of each, and the
    /// last lists of their domains.
    pub fn facts(&self) -> &Facts
        ensures { result.now ≡ self.now.facts }
    {
        &self.facts
    }
}
