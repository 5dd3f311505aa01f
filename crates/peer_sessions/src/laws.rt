//! What holds where a client's peer is a session. Each is the contract of a function without parameters, which does nothing.
ghost use Rattle.std.specs.Prelude.{ℕ, List as Sequence};
ghost use Rattle.pcp_outside.specs.Sides.{clock_side, sink_side, source_side};
ghost use Rattle.pm_pulling.specs.Ends.{call_side};
ghost use Rattle.pm_pulling.specs.Pulling.{pull_side};
ghost use Rattle.peer_sessions.specs.Laws.{LoggedAreAnswers, SamplesAreAnswers};

use pcp_outside::{Clock, Disk, Sink, Source};

/// Where the replies that a client takes are those that a session writes for its requests, each sample's result is the
/// answer to a fetch of that session, in order, over readings of the regions that are shown or missed. `P` gives the
/// replies and `Q` takes the requests at the client; `I`, `O` and `C` are the session's input, output and clock.
pub fn samples_are_answers<P: Source, Q: Sink, I: Source, O: Sink, C: Clock>()
    ensures { (a b : P) (c d : Q) (e f : I) (g h : O) (k l : C)
        → SamplesAreAnswers (source_side P.Source a b) (sink_side Q.Sink c d) (source_side I.Source e f) (sink_side O.Sink g h) (clock_side C.Clock k l) }
{}

/// So it is of all results that `pull` logs; `D` is its disk.
pub fn logged_are_answers<P: Source, Q: Sink, D: Disk, I: Source, O: Sink, C: Clock>()
    ensures { (words : Sequence (Sequence ℕ)) (a b : P) (c d : Q) (m n : D) (e f : I) (g h : O) (k l : C)
        → LoggedAreAnswers (call_side words (pull_side (source_side P.Source a b) (sink_side Q.Sink c d) D.Disk m n)) (source_side I.Source e f) (sink_side O.Sink g h) (clock_side C.Clock k l) }
{}
