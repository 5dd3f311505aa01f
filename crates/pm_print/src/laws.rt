//! Laws of printed images.
ghost use Rattle.pm_print.specs.Laws.{BytesAreTheImage};

/// The bytes of an image are read as this image.
#[tactic(auto, using(crate::proofs::Bytes::bytes_are))]
pub fn bytes_are_the_image()
    ensures { BytesAreTheImage }
{}
