//! A run between its lines.
use arrayvec::ArrayVec;
use run_archive::Sampler;
use run_passes::Running;

/// What a run keeps between its lines: the passes of its regions, the session of its archive with its groups once they have started, the
/// lines that it has written, and where among these the lines of the last ticks begin that logged a result: of those whose results are held to
/// be written, at most 64.
pub(crate) struct Run<'a> {
    pub(crate) running: Running,
    pub(crate) sampler: Sampler<'a>,
    pub(crate) out: Vec<u8>,
    pub(crate) marks: ArrayVec<usize, 64>,
}
