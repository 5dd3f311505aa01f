//! The words of a draft, unless they are too many.
ghost use Rattle.std.specs.Prelude.{◌≡◌, ◌≤◌, length, MatchResult};
ghost use Rattle.mmv_writer.specs.Refusals.{IsTooLarge};
ghost use Rattle.mmv_writer.specs.Spelling.{image_words};

use crate::fault::BuildFault;
use crate::spelling::{image_with_strings, words_needed};
use crate::strings::all_strings;
use mmv_layout::Layout;
use std::alloc::Global;

/// How many words an image has at most.
const MOST_WORDS: u64 = 65536;

/// The words of a draft; `TooLarge` exactly where they are more than 65,536.
#[tactic(auto, using(crate::proofs::Lengths::length_spelled), unfolding(crate::specs::Spelling::image_words))]
pub fn words_of_draft(alloc: Global, draft: &Layout) -> Result<Vec<u64>, BuildFault>
    ensures { MatchResult result
        (λ words. (words.items ≡ image_words draft.now) × (length (image_words draft.now) ≤ 65536))
        (λ fault. IsTooLarge draft.now fault) }
{
    let strings = all_strings(alloc, draft)?;
    let words = words_needed(draft, &strings);
    if words > MOST_WORDS {
        return Err(BuildFault::TooLarge { words });
    }
    let made = image_with_strings(alloc, draft, &strings)?;
    Ok(made)
}
