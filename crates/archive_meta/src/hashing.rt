//! How a table finds words: those that follow one another, as the identifiers of one agent do, stand near one another in
//! it, so that a long Meta is read without a wait for memory at each record.
ghost use Rattle.std.specs.Prelude.{◌≡◌};

use std::hash::{BuildHasher, Hasher};

/// Hashes a word of 4 bytes. Its seed is fixed, so whoever picks the words can make them collide; look-ups are then slow
/// and never wrong.
#[derive(Clone, Copy)]
pub struct WordHasher {
    word: u32,
}

impl WordHasher {
    /// No byte has come.
    pub fn new() -> WordHasher
        ensures { result ≡ record { word = 0 } }
    {
        WordHasher { word: 0 }
    }
}

impl Hasher for WordHasher {
    ghost use Rattle.std.specs.Prelude.{fold};
    ghost use Rattle.archive_meta.specs.Hashing.{next_word, spread};

    ghost write = { λ s bytes. record s { word = fold next_word s.word bytes } };

    ghost finish = { λ s. spread s.word };

    fn finish(&self) -> u64 {
        let run = u64::from(self.word / 64) * 86_476_435_957 / 65_536;
        let near = u64::from(self.word / 4 % 16) + u64::from(self.word % 4) * 16_777_216;
        run + near
    }

    fn write(&mut self, bytes: &[u8]) {
        let mut word = self.word;
        for byte in bytes {
            word = word / 256 + u32::from(*byte) * 16_777_216;
        }
        self.word = word;
    }
}

impl BuildHasher for WordHasher {
    type Hasher = WordHasher;

    ghost build_hasher = { λ s. s };

    fn build_hasher(&self) -> WordHasher {
        *self
    }
}
