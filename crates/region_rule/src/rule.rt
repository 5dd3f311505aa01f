//! The rule over the table's words and all views, and what each kind of step tells the pass that takes it.
ghost use Rattle.std.specs.Prelude.{◌-◌};
ghost use Rattle.region_core.specs.declared.act.Act.TheVariants.{Load, Swap, Add, Enter, Leave, Take, Begin, Put, End, Free};
ghost use Rattle.region_rule.specs.Tokens.{after_giving, next_pass, note_of, spent_view, after_learning, after_gathering};
ghost use Rattle.region_rule.specs.Seats.{Tells, TellsView};

use crate::opening::Opening;
use crate::view::View;
use atomic_table::{Join, Play, Split, TableRule};
use region_core::Shape;
use std::marker::PhantomData;

/// The rule of a region whose images have the layout of `S`.
pub struct Rule<S> {
    shape: PhantomData<S>,
}

impl<S: Shape> TableRule<(), View, Opening> for Rule<S> {
    ghost use Rattle.region_rule.specs.Views.{IsOneJournal, first_view};

    ghost holds = { λ key s. IsOneJournal S.shaping key.words key.passes s.words s.views };

    ghost first = { λ key. first_view key.words key.passes };
}

pub(crate) struct Loads<S> {
    shape: PhantomData<S>,
}

impl<S: Shape> Play<(), View> for Loads<S> {
    ghost then = { λ s me n new. Tells S.shaping (Load (s.word - 1)) me n new };
}

pub(crate) struct Swaps<S> {
    shape: PhantomData<S>,
}

impl<S: Shape> Play<(), View> for Swaps<S> {
    ghost then = { λ s me n new. Tells S.shaping (Swap (s.word - 1) s.first) me n new };
}

pub(crate) struct Adds<S> {
    shape: PhantomData<S>,
}

impl<S: Shape> Play<(), View> for Adds<S> {
    ghost then = { λ s me n new. Tells S.shaping (Add (s.word - 1) s.first) me n new };
}

pub(crate) struct Enters<S> {
    shape: PhantomData<S>,
}

impl<S: Shape> Play<(), View> for Enters<S> {
    ghost then = { λ s me n new. Tells S.shaping Enter me n new };
}

pub(crate) struct Leaves<S> {
    shape: PhantomData<S>,
}

impl<S: Shape> Play<(), View> for Leaves<S> {
    ghost then = { λ s me n new. Tells S.shaping Leave me n new };
}

pub(crate) struct Takes<S> {
    shape: PhantomData<S>,
}

impl<S: Shape> Play<(), View> for Takes<S> {
    ghost then = { λ s me n new. Tells S.shaping Take me n new };
}

pub(crate) struct Begins<S> {
    shape: PhantomData<S>,
}

impl<S: Shape> Play<(), View> for Begins<S> {
    ghost then = { λ s me n new. Tells S.shaping (Begin s.first) me n new };
}

pub(crate) struct Puts<S> {
    shape: PhantomData<S>,
}

impl<S: Shape> Play<(), View> for Puts<S> {
    ghost then = { λ s me n new. Tells S.shaping (Put (s.word - 1) s.first) me n new };
}

pub(crate) struct Ends<S> {
    shape: PhantomData<S>,
}

impl<S: Shape> Play<(), View> for Ends<S> {
    ghost then = { λ s me n new. Tells S.shaping (End s.first) me n new };
}

pub(crate) struct Frees<S> {
    shape: PhantomData<S>,
}

impl<S: Shape> Play<(), View> for Frees<S> {
    ghost then = { λ s me n new. Tells S.shaping Free me n new };
}

/// A load of the gate that adds no entry, and tells a pass what the rule says of its own view.
pub(crate) struct Looks<S> {
    shape: PhantomData<S>,
}

impl<S: Shape> Play<(), View> for Looks<S> {
    ghost then = { λ s me n new. TellsView S.shaping me n new };
}

/// A pass hands on the numbers that nobody has yet.
pub(crate) struct Give;

impl Split<View> for Give {
    ghost left = { after_giving };

    ghost right = { next_pass };
}

/// A pass gives a note of what it has seen.
pub(crate) struct Noting;

impl Split<View> for Noting {
    ghost left = { λ v. v };

    ghost right = { note_of };
}

/// A pass learns what a note has seen.
pub(crate) struct Learn;

impl Join<View> for Learn {
    ghost both = { after_learning };

    ghost spent = { spent_view };
}

/// A pass ends another one.
pub(crate) struct Gather;

impl Join<View> for Gather {
    ghost both = { after_gathering };

    ghost spent = { spent_view };
}
