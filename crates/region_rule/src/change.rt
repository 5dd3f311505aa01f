//! Changes of the layout: a pass has the region to itself, raises generation 1, stores the new image's words, and raises
//! generation 2 last (mmv(5)).
ghost use Rattle.std.specs.Prelude.{◌≡◌, ◌+◌, ◌-◌, ◌^◌, ◌<◌, MatchResult, max, length, slice_index};
ghost use Rattle.region_rule.specs.Tokens.{note_of};
ghost use Rattle.region_core.specs.declared.mode.Mode.TheVariants.{Idle, Changing};
ghost use Rattle.region_rule.specs.Seats.{IsSame};
ghost use Rattle.region_rule.specs.Calls.{Learns};
ghost use Rattle.region_rule.specs.Changes.{next_after, left_from, left_of, Acts, Starts, Fails, Stores, last_acts};

use crate::fault::ChangeFault;
use crate::pass::{Note, Pass};
use crate::region::Region;
use crate::view::View;
use atomic_table::Seat;
use region_core::Shape;
use std::marker::{Model, PhantomData};

/// A pass that changes the layout: generation 1 is `generation` already, and words of the image are left to store. A change
/// must be finished: it can't be dropped.
pub struct Change<S: Shape> {
    number: u32,
    seat: Seat<(), View>,
    image: Vec<u64>,
    next: u32,
    generation: u64,
    shape: PhantomData<S>,
}

impl<S: Shape> Model for Change<S> {
    ghost use Rattle.std.specs.Prelude.{◌≡◌, []};
    ghost use Rattle.region_rule.specs.declared.view.Role.TheVariants.{Numbered};
    ghost use Rattle.region_rule.specs.Seats.{token_of};
    ghost use Rattle.region_rule.specs.Changes.{Relaying, UnderWay};

    ghost Value = { Relaying };

    ghost view = { λ c. record { token = token_of c.seat; generation = c.generation; image = c.image.items; next = c.next } };

    ghost invariant = { λ c. (c.seat.me.1 ≡ []) × (c.seat.me.0.role ≡ Numbered) × (c.number ≡ c.seat.me.0.number) × UnderWay S.shaping c.seat.me.0 c.image.items c.next c.generation };
}

/// The generation after `old`: the moment, or the number after `old` where that is greater.
fn next_generation(moment: u64, old: u64) -> u64
    requires { old < 2 ^ 64 - 1 }
    ensures value { result ≡ max moment (old + 1) }
    ensures above { old < result }
{
    if moment < old + 1 { old + 1 } else { moment }
}

/// The word that is stored after this one.
fn index_after(next: u32) -> u32
    requires { next < 65536 }
    ensures { result ≡ next_after next }
{
    if next == 0 { 3 } else { next + 1 }
}

/// This word of the image.
fn word_at(image: &Vec<u64>, next: u32) -> u64
    requires { next < length image.now.items }
    ensures { result ≡ slice_index image.now.items next }
{
    image[next as usize]
}

/// How many words are left to store.
fn count_left(next: u32, image: &Vec<u64>) -> u32
    requires { length image.now.items < 2 ^ 32 }
    ensures { result ≡ left_from next image.now.items }
{
    let words = image.len() as u32;
    if next == 0 {
        return words.saturating_sub(2);
    }
    words.saturating_sub(next)
}

impl<S: Shape> Region<S> {
    /// Begins a change to this image. `TooLarge` comes exactly where the image has more words than the region; `Busy` exactly
    /// where the gate was not 0; and `Spent` exactly where generation 1 is 2^64 - 1, and then the change bit is taken back.
    /// Else generation 1 becomes the greater of the moment and the old one plus 1.
    pub fn begin_change(
        &self,
        pass: Pass,
        image: Vec<u64>,
        moment: u64,
    ) -> Result<Change<S>, (Pass, Vec<u64>, ChangeFault)>
        requires here { pass.region ≡ self.now }
        requires image { S.shaping.IsImage image.items }
        ensures begins { MatchResult
            result
            (λ change. Starts S.shaping pass.view (length self.now.words) image.items moment change)
            (λ refused. Fails S.shaping pass.view (length self.now.words) image.items refused.0.view refused.2) }
        ensures stays { MatchResult result (λ change. IsSame Idle Changing pass change.token) (λ refused. IsSame Idle Idle pass refused.0 × (refused.1.items ≡ image.items)) }
    {
        if image.len() > self.capacity as usize {
            let need = image.len() as u64;
            let capacity = self.capacity as u64;
            return Err((pass, image, ChangeFault::TooLarge { need, capacity }));
        }
        let Pass { number, mut seat } = pass;
        let gate = self.take(&mut seat);
        if gate != 0 {
            return Err((Pass { number, seat }, image, ChangeFault::Busy { gate }));
        }
        let generation = self.load_first(&mut seat);
        if generation == u64::MAX {
            self.free(&mut seat);
            return Err((
                Pass { number, seat },
                image,
                ChangeFault::Spent { generation },
            ));
        }
        let generation = next_generation(moment, generation);
        self.begin(&mut seat, generation);
        Ok(Change {
            number,
            seat,
            image,
            next: 0,
            generation,
            shape: PhantomData,
        })
    }
}

impl<S: Shape> Change<S> {
    /// The new generation.
    pub fn generation(&self) -> u64
        ensures { result ≡ self.now.generation }
    {
        self.generation
    }

    /// How many words are left to store: all of the image but the two generations at the start, and 0 at the end.
    pub fn left(&self) -> u32
        ensures { result ≡ left_of self.now }
    {
        count_left(self.next, &self.image)
    }

    /// Stores the next word of the image, and answers how many are left. With none left it does nothing.
    pub fn step(&mut self, region: &Region<S>) -> u32
        requires here { self.old.token.region ≡ region.now }
        ensures left { result ≡ left_of self.new }
        ensures stores { Stores S.shaping self.old self.new }
        ensures stays { IsSame Changing Changing self.old.token self.new.token }
    {
        if self.left() == 0 {
            return 0;
        }
        let value = word_at(&self.image, self.next);
        region.put(&mut self.seat, self.next, value);
        self.next = index_after(self.next);
        self.left()
    }

    /// Stores the words that are left, stores generation 2, and clears the change bit.
    pub fn finish(self, region: &Region<S>) -> Pass
        requires here { self.token.region ≡ region.now }
        ensures finishes { Acts S.shaping self.token.view (last_acts self) result.view }
        ensures stays { IsSame Changing Idle self.token result }
    {
        let mut change = self;
        while change.left() > 0 {
            let _ = change.step(region);
        }
        change.close(region)
    }

    /// Stores generation 2, and clears the change bit.
    fn close(self, region: &Region<S>) -> Pass
        requires here { self.token.region ≡ region.now }
        requires done { left_of self ≡ 0 }
        ensures finishes { Acts S.shaping self.token.view (last_acts self) result.view }
        ensures stays { IsSame Changing Idle self.token result }
    {
        let Change {
            number,
            mut seat,
            image: _,
            next: _,
            generation,
            shape: _,
        } = self;
        region.end(&mut seat, generation);
        region.free(&mut seat);
        Pass { number, seat }
    }

    /// A note of what the change has seen.
    pub fn note(&mut self, region: &Region<S>) -> Note
        requires here { self.old.token.region ≡ region.now }
        ensures same { self.new ≡ self.old }
        ensures note { (result.region ≡ self.old.token.region) × (result.view ≡ note_of self.old.token.view) }
    {
        Note {
            seat: region.note_seat(&mut self.seat),
        }
    }

    /// Takes the longer of what the change and the note have seen.
    pub fn learn(&mut self, region: &Region<S>, note: Note)
        requires here { self.old.token.region ≡ region.now }
        requires note { note.region ≡ region.now }
        ensures learns { Learns S.shaping self.old.token.view note.view self.new.token.view }
        ensures image { (self.new.generation ≡ self.old.generation) × (self.new.image ≡ self.old.image) × (self.new.next ≡ self.old.next) }
        ensures stays { IsSame Changing Changing self.old.token self.new.token }
    {
        region.learn_seat(&mut self.seat, note.seat);
    }
}
