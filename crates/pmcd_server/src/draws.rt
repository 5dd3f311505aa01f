//! Numbers that threads draw from one word, each once: what the proofs know of them.

use atomic_table::{Join, Play, Split, TableRule};
use std::collections::LinkedList;

/// What is known of the numbers that a thread drew. No value of it is ever made.
pub struct Draws {
    /// How many numbers it may still draw.
    pub left: u64,
    pub drawn: LinkedList<u64>,
}

/// The rule: no number is drawn twice, and none is left out.
pub(crate) struct EachOnce;

impl TableRule<(), Draws, ()> for EachOnce {
    ghost use Rattle.std.specs.Prelude.{[]};
    ghost use Rattle.pmcd_server.specs.Draws.{AreDrawn, draws, most};

    ghost holds = { λ _ s. AreDrawn s.words s.views };

    ghost first = { λ _. draws most [] };
}

/// A number is drawn.
pub(crate) struct Drawing;

impl Play<(), Draws> for Drawing {
    ghost use Rattle.pmcd_server.specs.Draws.{Draw};

    ghost then = { λ _ me n new. Draw me n new };
}

/// A worker gets its share.
pub(crate) struct Sharing;

impl Split<Draws> for Sharing {
    ghost use Rattle.std.specs.Prelude.{[]};
    ghost use Rattle.pmcd_server.specs.Draws.{after_sharing, draws, share};

    ghost left = { after_sharing };

    ghost right = { λ _. draws share [] };
}

/// What a worker drew is put to what others drew.
pub(crate) struct Taking;

impl Join<Draws> for Taking {
    ghost use Rattle.std.specs.Prelude.{[]};
    ghost use Rattle.pmcd_server.specs.Draws.{after_taking, draws};

    ghost both = { after_taking };

    ghost spent = { draws 0 [] };
}
