//! What holds between writing and reading.
ghost use Rattle.archive_frame.specs.Laws.{NoFrameBeginsAnother, EachFrameStands, WrittenLabelIsRead, LabelSaysOneThing, LabelStopsOnce};

/// No framed record is the beginning of another one.
#[tactic(auto, using(pcp_model::proofs::Unique::both_frames))]
pub fn no_frame_begins_another()
    ensures { NoFrameBeginsAnother }
{}

/// Records that were framed one behind another are stepped over again, whatever follows: each stands where those
/// before it end. So `step_forward` from there gives it and its end, and `step_back` from this end gives it and its
/// beginning.
pub fn each_frame_stands()
    ensures { EachFrameStands }
{}

/// What `label_bytes` writes, `read_label` reads as that label, unless memory runs out.
#[tactic(auto, using(crate::proofs::Unique::written_read))]
pub fn written_label_is_read()
    ensures { WrittenLabelIsRead }
{}

/// No bytes are the labels of two values.
pub fn label_says_one_thing()
    ensures { LabelSaysOneThing }
{}

/// Bytes that are no label have one first byte that fits none.
pub fn label_stops_once()
    ensures { LabelStopsOnce }
{}
