//! Sources and sinks over bytes in memory that move at most so many bytes a call.
use pcp_memory::{MemSink, MemSource};
use pcp_outside::{Failed, Sink, Source};

/// A source that gives at most `most` bytes a call.
#[derive(Drop)]
pub struct PieceSource {
    pub inner: MemSource,
    pub most: usize,
}

impl Source for PieceSource {
    ghost use Rattle.std.specs.Prelude.{[]};

    ghost tells = { ⊥ };

    ghost left = { λ _. [] };

    ghost faults = { λ s. s.inner.faults };

    fn take(&mut self, buffer: &mut [u8]) -> Result<usize, Failed> {
        let end = buffer.len().min(self.most);
        self.inner.take(&mut buffer[..end])
    }
}

/// A sink that takes at most `most` bytes a call, and at least one.
#[derive(Drop)]
pub struct PieceSink {
    pub inner: MemSink,
    pub most: usize,
}

impl Sink for PieceSink {
    ghost use Rattle.std.specs.Prelude.{[]};

    ghost tells = { ⊥ };

    ghost written = { λ _. [] };

    ghost faults = { λ s. s.inner.faults };

    fn put(&mut self, bytes: &[u8]) -> Result<usize, Failed> {
        let end = bytes.len().min(self.most.max(1));
        self.inner.put(&bytes[..end])
    }
}
