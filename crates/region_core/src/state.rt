//! A region's state as data, and the replay of a journal over it.

ghost use Rattle.std.specs.Prelude.{◌≡◌, ◌≢◌, ◌↔◌, ◌<◌, IsTrue, IfOk, MatchResult, length, slice_get};
ghost use Rattle.region_core.specs.State.{opening as opening_of};
ghost use Rattle.region_core.specs.Replay.{EndsIn, StopsFor};

use crate::act::{Act, Entry};
use crate::mode::Mode;
use std::alloc::{AllocError, Global};
use std::marker::Model;

/// The image words up to the capacity, the gate, and what each pass is doing.
#[derive(Drop)]
pub struct State {
    words: Vec<u64>,
    gate: u64,
    modes: Vec<Mode>,
}

impl Model for State {
    ghost use Rattle.region_core.specs.State.{State as RegionState};
    ghost use Rattle.region_core.specs.Gate.{IsGated};

    ghost Value = { RegionState };

    ghost view = { λ s. record { words = s.words.items; gate = s.gate; modes = s.modes.items } };

    ghost invariant = { λ s. IsGated s.gate s.modes.items };
}

/// Why a replay stopped.
#[derive(Clone, Copy)]
pub enum Stop {
    /// There was no memory left.
    NoMemory,
    /// The entry at this position of the journal, counted from 0, is the first one that modes, generations or the capacity
    /// don't allow.
    NotOpen(usize),
}

impl From<AllocError> for Stop {
    ghost use Rattle.region_core.specs.declared.state.Stop.TheVariants.{NoMemory};

    ghost from_gives = { λ _ stop. stop ≡ NoMemory };

    fn from(_error: AllocError) -> Stop {
        Stop::NoMemory
    }
}

/// Runs a journal over a new region of these words, up to the capacity, and so many passes. `Ok` is the state after the last
/// entry. `Err(NotOpen(position))` names the first entry that modes, generations or the capacity don't allow, and comes exactly
/// where there is one; no layout makes such a journal legal.
pub fn replay(alloc: Global, words: &[u64], passes: u32, log: &[Entry]) -> Result<State, Stop>
    ensures { MatchResult
        result
        (EndsIn (opening_of words.now passes) log.now)
        (StopsFor (opening_of words.now passes) log.now) }
{
    let mut state = State::opening(alloc, words, passes)?;
    for (position, entry) in log.iter().enumerate() {
        if !state.is_open(*entry) {
            return Err(Stop::NotOpen(position));
        }
        state.step(*entry);
    }
    Ok(state)
}

/// The gate of a region where a pass is changing and nobody was bounced, 2^63.
const TAKEN: u64 = 1 << 63;

impl State {
    ghost use Rattle.region_core.specs.State.{word, g1, g2, opening, with_word, after, IsIn, IsOpen, IsStable};

    /// The state at a region's making: these words, and so many passes, each idle.
    pub fn opening(alloc: Global, words: &[u64], passes: u32) -> Result<State, AllocError>
        ensures { IfOk result (λ s. s ≡ opening words.now passes) }
    {
        let words = Vec::from_slice(alloc, words)?;
        let modes = vec![in alloc; Mode::Idle; passes as usize]?;
        Ok(State {
            words,
            gate: 0,
            modes,
        })
    }

    /// The image words, up to the capacity.
    pub fn words(&self) -> &[u64]
        ensures { result.now ≡ self.now.words }
    {
        self.words.as_slice()
    }

    /// The number of passes inside or bounced, plus 2^63 where one is changing.
    pub fn gate(&self) -> u64
        ensures { result ≡ self.now.gate }
    {
        self.gate
    }

    /// What pass `by` is doing; `None` where there is no such pass.
    pub fn mode(&self, by: u32) -> Option<Mode>
        ensures { result ≡ slice_get self.now.modes by }
    {
        self.modes.get(by as usize).copied()
    }

    // An image word, and 0 past the capacity.
    fn word(&self, at: usize) -> u64
        ensures { result ≡ word self.now at }
    {
        match self.words.get(at) {
            Some(word) => *word,
            None => 0,
        }
    }

    // Whether pass `by` is there, and in this mode.
    fn is_in(&self, by: u32, mode: Mode) -> bool
        ensures { IsTrue result ↔ IsIn mode self.now by }
    {
        match self.mode(by) {
            Some(found) => found == mode,
            None => false,
        }
    }

    // Whether the two generations agree.
    fn is_stable(&self) -> bool
        ensures { IsTrue result ↔ IsStable self.now }
    {
        self.word(1) == self.word(2)
    }

    // Stores the value in a word; a word past the capacity is let be.
    fn store(&mut self, at: usize, value: u64)
        ensures { self.new ≡ with_word self.old at value }
    {
        if at < self.words.len() {
            self.words[at] = value;
        }
    }

    // Adds 1 to the gate: the pass is inside, or bounced where another is changing.
    fn enter(&mut self, by: u32)
        requires { IsIn Mode.Idle self.old by }
        ensures { self.new ≡ after self.old by Act.Enter }
    {
        let mode = if self.gate < TAKEN {
            Mode::Attached
        } else {
            Mode::Bounced
        };
        self.gate += 1;
        self.modes[by as usize] = mode;
    }

    // Takes the pass's 1 from the gate.
    fn leave(&mut self, by: u32)
        requires { IsOpen self.old by Act.Leave }
        ensures { self.new ≡ after self.old by Act.Leave }
    {
        self.gate -= 1;
        self.modes[by as usize] = Mode::Idle;
    }

    // Sets the change bit where the gate is 0.
    fn take(&mut self, by: u32)
        requires { IsIn Mode.Idle self.old by }
        ensures { self.new ≡ after self.old by Act.Take }
    {
        if self.gate == 0 {
            self.gate = TAKEN;
            self.modes[by as usize] = Mode::Changing;
        }
    }

    // Clears the change bit.
    fn free(&mut self, by: u32)
        requires { IsIn Mode.Changing self.old by }
        ensures { self.new ≡ after self.old by Act.Free }
    {
        self.gate -= TAKEN;
        self.modes[by as usize] = Mode::Idle;
    }

    // Whether a load of this word may come next.
    fn may_load(&self, by: u32, at: u32) -> bool
        ensures { IsTrue result ↔ IsOpen self.now by (Act.Load at) }
    {
        (by as usize) < self.modes.len() && (at as usize) < self.words.len()
    }

    // Whether a swap of this word, or an add to it, may come next.
    fn may_swap(&self, by: u32, at: u32) -> bool
        ensures { IsTrue result ↔ (IsIn Mode.Attached self.now by × (at < length self.now.words)) }
    {
        self.is_in(by, Mode::Attached) && (at as usize) < self.words.len()
    }

    // Whether a leave may come next.
    fn may_leave(&self, by: u32) -> bool
        ensures { IsTrue result ↔ IsOpen self.now by Act.Leave }
    {
        self.is_in(by, Mode::Attached) || self.is_in(by, Mode::Bounced)
    }

    // Whether a begin with this generation may come next.
    fn may_begin(&self, by: u32, generation: u64) -> bool
        ensures { IsTrue result ↔ IsOpen self.now by (Act.Begin generation) }
    {
        self.is_in(by, Mode::Changing) && self.is_stable() && self.word(1) < generation
    }

    // Whether a store of this word may come next.
    fn may_put(&self, by: u32, at: u32) -> bool
        ensures { IsTrue result ↔ (IsIn Mode.Changing self.now by × (g1 self.now ≢ g2 self.now) × (at ≢ 1) × (at ≢ 2) × (at < length self.now.words)) }
    {
        self.is_in(by, Mode::Changing)
            && !self.is_stable()
            && at != 1
            && at != 2
            && (at as usize) < self.words.len()
    }

    // Whether an end with this generation may come next.
    fn may_end(&self, by: u32, generation: u64) -> bool
        ensures { IsTrue result ↔ IsOpen self.now by (Act.End generation) }
    {
        self.is_in(by, Mode::Changing) && self.word(1) == generation && self.word(2) != generation
    }

    // Whether a free may come next.
    fn may_free(&self, by: u32) -> bool
        ensures { IsTrue result ↔ IsOpen self.now by Act.Free }
    {
        self.is_in(by, Mode::Changing) && self.is_stable()
    }

    /// Whether this entry may come next, as far as modes, generations and the capacity tell. What the form of the words
    /// asks besides, that a value is allowed in its word and that a change ends in an image, is left to the layout.
    pub fn is_open(&self, entry: Entry) -> bool
        ensures { IsTrue result ↔ IsOpen self.now entry.by entry.act }
    {
        let by = entry.by;
        match entry.act {
            Act::Load(at) => self.may_load(by, at),
            Act::Swap(at, value) => self.may_swap(by, at),
            Act::Add(at, number) => self.may_swap(by, at),
            Act::Enter => self.is_in(by, Mode::Idle),
            Act::Leave => self.may_leave(by),
            Act::Take => self.is_in(by, Mode::Idle),
            Act::Begin(generation) => self.may_begin(by, generation),
            Act::Put(at, value) => self.may_put(by, at),
            Act::End(generation) => self.may_end(by, generation),
            Act::Free => self.may_free(by),
        }
    }

    /// Takes the step of this entry.
    pub fn step(&mut self, entry: Entry)
        requires { IsOpen self.old entry.by entry.act }
        ensures { self.new ≡ after self.old entry.by entry.act }
    {
        let by = entry.by;
        match entry.act {
            Act::Load(_) => {}
            Act::Swap(at, value) => self.store(at as usize, value),
            Act::Add(at, number) => {
                let found = self.word(at as usize);
                self.store(at as usize, found.wrapping_add(number));
            }
            Act::Enter => self.enter(by),
            Act::Leave => self.leave(by),
            Act::Take => self.take(by),
            Act::Begin(generation) => self.store(1, generation),
            Act::Put(at, value) => self.store(at as usize, value),
            Act::End(generation) => self.store(2, generation),
            Act::Free => self.free(by),
        }
    }
}
