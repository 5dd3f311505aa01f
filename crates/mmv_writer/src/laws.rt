//! What drafts and their images say of each other.
ghost use Rattle.mmv_writer.specs.Laws.{DraftsAreImages, LayoutsAreDrafts};
ghost use Rattle.mmv_writer.specs.Lifting.{DraftsAreOfVersion2, LiftedSaysTheLayout};
ghost use Rattle.mmv_writer.specs.Saying.{DraftsAreSaid};

/// The spelling of a draft that has at most 65,536 words is an image.
#[tactic(auto, using(crate::proofs::Images::drafts_are_images))]
pub fn drafts_are_images()
    ensures { DraftsAreImages }
{}

/// The spelling of a draft that has at most 65,536 words says the draft, with all its strings.
pub fn drafts_are_said()
    ensures { DraftsAreSaid }
{}

/// What an image says is a draft: its rows meet the rules for rows.
pub fn layouts_are_drafts()
    ensures { LayoutsAreDrafts }
{}

/// A draft is one of version 2 as well.
pub fn drafts_are_of_version_2()
    ensures { DraftsAreOfVersion2 }
{}

/// A lifted image says what the image said, but for the version and the strings of names.
pub fn lifted_says_the_layout()
    ensures { LiftedSaysTheLayout }
{}
