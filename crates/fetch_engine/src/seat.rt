//! The seat of one who reads a server's regions: a pass of each.
ghost use Rattle.std.specs.Prelude.{◌≡◌, ◌<◌, length, slice_get, IfSome};
ghost use Rattle.std.specs.Option.{option_copied};
ghost use Rattle.region_core.specs.declared.mode.Mode.TheVariants.{Idle};
ghost use Rattle.region_rule.specs.Calls.{Learns, Gathers};
ghost use Rattle.region_rule.specs.Seats.{Token};
ghost use Rattle.region_rule.specs.Tokens.{note_of};
ghost use Rattle.region_words.specs.Images.{mmv};
ghost use Rattle.fetch_engine.specs.Servers.{ChangesAt, IsRegionAt, IsSeated};

use crate::server::Server;
use fetch_answers::{Known, Named, Told};
use region_words::{Note, Pass};
use std::marker::Model;

/// A pass of each region of a server, in ascending cluster, and what was read of each last, as long as it serves: what is
/// known of the regions by their last readings, what is kept of those that were missed then, and the name space of what is
/// known, once it was read. It may go to another thread.
#[derive(Drop)]
pub struct Seat {
    pub(crate) passes: Vec<Pass>,
    pub(crate) known: Vec<Known>,
    pub(crate) spares: Vec<Option<Told>>,
    pub(crate) named: Option<Named>,
}

impl Model for Seat {
    ghost use Rattle.std.specs.Prelude.{◌≡◌, length, IfSome};
    ghost use Rattle.fetch_engine.specs.Kept.{AreKept, AreNamesOf, kept_in, seated_by};
    ghost use Rattle.fetch_engine.specs.Servers.{Seated};

    ghost Value = { Seated };

    ghost view = { λ a. seated_by a.passes.items a.known.items a.spares.items a.named };

    ghost invariant = { λ a. AreKept a.passes.items (kept_in a.known.items a.spares.items) × (length a.spares.items ≡ length a.known.items) × IfSome a.named (AreNamesOf a.known.items) };
}

impl Seat {
    /// The name space that `read_names` kept, and the clusters of the regions that were missed; nothing where none is kept.
    pub fn named(&self) -> Option<&Named>
        ensures { option_copied result ≡ self.now.named }
    {
        self.named.as_ref()
    }

    /// A note of what the seat's pass of the region at a position has seen.
    #[tactic(auto, using(crate::proofs::SeatPasses::is_there, crate::proofs::SeatPasses::is_here, crate::proofs::SeatPasses::seated_by, crate::proofs::Holding::kept_noted))]
    pub fn note(&mut self, server: &Server, index: u32) -> Note
        requires seated { IsSeated server.now self.old.tokens }
        requires there { index < length server.now }
        ensures same { self.new ≡ self.old }
        ensures note { IfSome (slice_get self.old.tokens index) (λ (token : Token). (result.region ≡ token.region) × (result.view ≡ note_of token.view)) }
    {
        let at = index as usize;
        self.passes[at].note(&server.mounted[at].region)
    }

    /// The seat's pass of the region at a position takes the longer of what it and the note have seen.
    #[tactic(auto, using(crate::proofs::SeatPasses::is_there, crate::proofs::SeatPasses::is_here, crate::proofs::SeatPasses::seated_by, crate::proofs::Holding::kept_learned))]
    pub fn learn(&mut self, server: &Server, index: u32, note: Note)
        requires seated { IsSeated server.now self.old.tokens }
        requires there { index < length server.now }
        requires note { IsRegionAt server.now index note.region }
        ensures learns { ChangesAt index self.old.tokens self.new.tokens (λ before after. Learns mmv before.view note.view after.view) }
        ensures kept { self.new.kept ≡ self.old.kept }
        ensures named { self.new.named ≡ self.old.named }
        ensures seated { IsSeated server.now self.new.tokens }
    {
        let at = index as usize;
        self.passes[at].learn(&server.mounted[at].region, note);
    }

    /// Ends another pass of the region at a position: the seat's pass keeps the list of its entries, which are all it made,
    /// and the lists that it had kept.
    #[tactic(auto, using(crate::proofs::SeatPasses::is_there, crate::proofs::SeatPasses::is_here, crate::proofs::SeatPasses::seated_by, crate::proofs::Holding::kept_gathered))]
    pub fn gather(&mut self, server: &Server, index: u32, ended: Pass)
        requires seated { IsSeated server.now self.old.tokens }
        requires there { index < length server.now }
        requires ended { IsRegionAt server.now index ended.region }
        ensures gathers { ChangesAt index self.old.tokens self.new.tokens (λ before after. Gathers mmv before.view ended.view after.view) }
        ensures kept { self.new.kept ≡ self.old.kept }
        ensures named { self.new.named ≡ self.old.named }
        ensures seated { IsSeated server.now self.new.tokens }
    {
        let at = index as usize;
        self.passes[at].gather(&server.mounted[at].region, ended);
    }
}
