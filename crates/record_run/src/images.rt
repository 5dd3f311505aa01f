//! The images of a script.
ghost use Rattle.std.specs.Prelude.{All};
ghost use Rattle.region_core.specs.Shape.{IsWord};
ghost use Rattle.record_run.specs.Pictured.{AreImages, AreOfWords};

use run_script::Script;

/// The words of an image have 64 bits.
fn words_fit(words: &[u64])
    ensures { All IsWord words.now }
{}

/// Each image of a script is one, of words of 64 bits: what its regions are made on.
pub fn images_are(script: &Script)
    ensures images { AreImages script.now }
    ensures of_words { AreOfWords script.now }
{
    for (_, image) in script.images.as_slice() {
        words_fit(image.words());
    }
}
