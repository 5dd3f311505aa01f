//! The acts that store an image word, as what they do to the words alone.

ghost use Rattle.std.specs.Prelude.{◌≡◌, slice_index, slice_set};
ghost use Rattle.region_core.specs.State.{plus};

/// An act that stores an image word. `Swap` and `Add` carry the number of the pass, the word and the value.
#[derive(Clone, Copy)]
pub enum Event {
    /// Word 1 is this generation.
    Begin(u64),
    /// This word is the value.
    Put(u32, u64),
    /// Word 2 is this generation.
    End(u64),
    /// This value word is the value.
    Swap(u32, u32, u64),
    /// This value word rises by the number, modulo 2^64.
    Add(u32, u32, u64),
}

impl Event {
    ghost use Rattle.std.specs.Prelude.{◌≡◌};
    ghost use Rattle.region_core.specs.Events.{after_event};

    /// Does to the words of an image what the event does to those of a region. A word past the end is let be.
    pub fn apply(self, words: &mut [u64])
        ensures { words.new ≡ after_event words.old self }
    {
        match self {
            Event::Begin(generation) => store(words, 1, generation),
            Event::Put(word, value) | Event::Swap(_, word, value) => store(
                words,
                word as usize,
                value,
            ),
            Event::End(generation) => store(words, 2, generation),
            Event::Add(_, word, number) => add(words, word as usize, number),
        }
    }
}

// Stores the value in a word; a word past the end is let be.
fn store(words: &mut [u64], at: usize, value: u64)
    ensures { words.new ≡ slice_set words.old at value }
{
    if at < words.len() {
        words[at] = value;
    }
}

// Adds the number to a word, modulo 2^64.
fn add(words: &mut [u64], at: usize, number: u64)
    ensures { words.new ≡ slice_set words.old at (plus (slice_index words.old at) number) }
{
    if at < words.len() {
        words[at] = words[at].wrapping_add(number);
    }
}
