//! What is asked, kind by kind.
ghost use Rattle.std.specs.Prelude.{◌≡◌, ◌+◌, ◌≤◌, ◌∷◌, [], List as Sequence, length, map, pos, All, IfOk, OnOk, MatchResult, Some};
ghost use Rattle.pcp_base.specs.declared.desc.Desc.{Desc as Description};
ghost use Rattle.pcp_outside.specs.Causes.{shown_count};
ghost use Rattle.pcp_outside.specs.Sides.{source_side, sink_side};
ghost use Rattle.pdu_codec.specs.declared.pdu.Pdu.{Pdu as Said};
ghost use Rattle.pdu_codec.specs.declared.pdu.Pdu.TheVariants as pdus;
ghost use Rattle.pmcd_client.specs.Bytes.{Passes, Stops};
ghost use Rattle.pmcd_client.specs.Pieces.{list_reply};
ghost use Rattle.pmcd_client.specs.Replies.{with_names};
ghost use Rattle.pmcd_client.specs.Turns.{desc_turn, list_turn};

use crate::faults::TalkFault;
use crate::line::Line;
use crate::listing::Instances;
use pcp_base::{Desc, Duplicate, InDom, List, NoMemory, PmResult, Pmid, Text};
use pcp_outside::{Sink, Source};
use pdu_codec::Pdu;
use std::alloc::Global;

/// Copies of texts.
fn copied(alloc: Global, texts: &[Text]) -> Result<List<Text>, NoMemory>
    ensures { IfOk result (λ made. made ≡ texts.now) }
{
    let mut made = List::from_vec(Vec::with_capacity(alloc, texts.len())?);
    for text in texts {
        made.push(text.copy(alloc)?)?;
    }
    Ok(made)
}

impl Line {
    /// Asks for the description of a metric (pmLookupDesc(3)).
    fn ask_description<I: Source, L: Sink>(
        &mut self,
        alloc: Global,
        pmid: Pmid,
        reply: &mut I,
        request: &mut L,
    ) -> Result<Desc, TalkFault>
        ensures done { MatchResult result
            (λ desc. Passes (source_side I.Source reply.old reply.new) (sink_side L.Sink request.old request.new) (Some (pdus.DescReq pmid) ∷ []) (pdus.Desc desc ∷ []))
            (λ e. Stops (source_side I.Source reply.old reply.new) (sink_side L.Sink request.old request.new) (Some (pdus.DescReq pmid) ∷ []) self.old.replies [] e) }
        ensures counted { OnOk result (self.new.replies ≡ shown_count (self.old.replies + 1)) }
    {
        match self.ask(alloc, Pdu::DescReq { pmid }, reply, request)? {
            Pdu::Desc(desc) => Ok(desc),
            _ => unreachable!(),
        }
    }

    /// Asks for the instances of a domain (pmGetInDom(3)).
    fn ask_instances<I: Source, L: Sink>(
        &mut self,
        alloc: Global,
        indom: InDom,
        reply: &mut I,
        request: &mut L,
    ) -> Result<Instances, TalkFault>
        ensures done { MatchResult result
            (λ pairs. Passes (source_side I.Source reply.old reply.new) (sink_side L.Sink request.old request.new) (list_turn indom ∷ []) (pdus.Instance indom pairs ∷ []))
            (λ e. Stops (source_side I.Source reply.old reply.new) (sink_side L.Sink request.old request.new) (list_turn indom ∷ []) self.old.replies [] e) }
        ensures counted { OnOk result (self.new.replies ≡ shown_count (self.old.replies + 1)) }
    {
        let asked = Pdu::InstanceReq {
            indom,
            instance: -1,
        };
        match self.ask(alloc, asked, reply, request)? {
            Pdu::Instance { pairs, .. } => Ok(pairs),
            _ => unreachable!(),
        }
    }

    /// Asks for the values of metrics (pmFetch(3)).
    pub fn ask_values<I: Source, L: Sink>(
        &mut self,
        alloc: Global,
        pmids: &List<Pmid>,
        reply: &mut I,
        request: &mut L,
    ) -> Result<PmResult, TalkFault>
        requires few { length pmids.now ≤ 1024 }
        ensures done { MatchResult result
            (λ answer. Passes (source_side I.Source reply.old reply.new) (sink_side L.Sink request.old request.new) (Some (pdus.Fetch 0 0 0 pmids.now) ∷ []) (pdus.Result answer ∷ []))
            (λ e. Stops (source_side I.Source reply.old reply.new) (sink_side L.Sink request.old request.new) (Some (pdus.Fetch 0 0 0 pmids.now) ∷ []) self.old.replies [] e) }
        ensures counted { OnOk result (self.new.replies ≡ shown_count (self.old.replies + 1)) }
    {
        let asked = Pdu::Fetch {
            context: 0,
            sec: 0,
            usec: 0,
            pmids: pmids.copy(alloc)?,
        };
        match self.ask(alloc, asked, reply, request)? {
            Pdu::Result(answer) => Ok(answer),
            _ => unreachable!(),
        }
    }

    /// Says that the client speaks the protocol, and asks for the metrics of names (pmLookupName(3)).
    pub fn ask_names<I: Source, L: Sink>(
        &mut self,
        alloc: Global,
        names: &[Text],
        reply: &mut I,
        request: &mut L,
    ) -> Result<List<Pmid>, TalkFault>
        requires few { length names.now ≤ 64 }
        requires short { All (λ name. length name ≤ 400) names.now }
        ensures done { MatchResult result
            (λ pmids. Passes (source_side I.Source reply.old reply.new) (sink_side L.Sink request.old request.new) (Some (pdus.PmnsNames (pos 0) names.now) ∷ []) (pdus.PmnsIds (pos 0) pmids ∷ []))
            (λ e. Stops (source_side I.Source reply.old reply.new) (sink_side L.Sink request.old request.new) (Some (pdus.PmnsNames (pos 0) names.now) ∷ []) self.old.replies [] e) }
        ensures counted { OnOk result (self.new.replies ≡ shown_count (self.old.replies + 1)) }
    {
        let copies = copied(alloc, names)?;
        let asked = Pdu::PmnsNames {
            status: 0,
            names: copies,
        };
        match self.ask(alloc, asked, reply, request)? {
            Pdu::PmnsIds { pmids, .. } => Ok(pmids),
            _ => unreachable!(),
        }
    }

    /// Asks for the description of each metric.
    pub fn ask_descriptions<I: Source, L: Sink>(
        &mut self,
        alloc: Global,
        metrics: Vec<(Pmid, Text)>,
        reply: &mut I,
        request: &mut L,
    ) -> Result<List<(Desc, Text)>, TalkFault>
        ensures { MatchResult result
            (λ told. (descs : Sequence Description) × Passes (source_side I.Source reply.old reply.new) (sink_side L.Sink request.old request.new) (map desc_turn metrics.items) (map pdus.Desc descs) × (told ≡ with_names descs metrics.items) × (self.new.replies ≡ shown_count (self.old.replies + length descs)))
            (λ e. (replies : Sequence Said) × Stops (source_side I.Source reply.old reply.new) (sink_side L.Sink request.old request.new) (map desc_turn metrics.items) self.old.replies replies e) }
    {
        let mut told = List::empty(alloc);
        for (pmid, name) in metrics {
            let desc = match self.ask_description(alloc, pmid, reply, request) {
                Ok(desc) => desc,
                Err(fault) => return Err(fault),
            };
            match told.push((desc, name)) {
                Ok(()) => {}
                Err(_) => return Err(TalkFault::NoMemory),
            }
        }
        Ok(told)
    }

    /// Asks for the instances of each domain.
    pub fn ask_lists<I: Source, L: Sink>(
        &mut self,
        alloc: Global,
        indoms: &[InDom],
        reply: &mut I,
        request: &mut L,
    ) -> Result<List<(InDom, Instances)>, TalkFault>
        ensures done { MatchResult result
            (λ lists. Passes (source_side I.Source reply.old reply.new) (sink_side L.Sink request.old request.new) (map list_turn indoms.now) (map list_reply lists))
            (λ e. (replies : Sequence Said) × Stops (source_side I.Source reply.old reply.new) (sink_side L.Sink request.old request.new) (map list_turn indoms.now) self.old.replies replies e) }
        ensures counted { IfOk result (λ lists. self.new.replies ≡ shown_count (self.old.replies + length lists)) }
    {
        let mut lists = List::empty(alloc);
        for indom in indoms {
            let pairs = match self.ask_instances(alloc, *indom, reply, request) {
                Ok(pairs) => pairs,
                Err(fault) => return Err(fault),
            };
            match lists.push((*indom, pairs)) {
                Ok(()) => {}
                Err(_) => return Err(TalkFault::NoMemory),
            }
        }
        Ok(lists)
    }
}
