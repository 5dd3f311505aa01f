//! What was read of a region.
ghost use Rattle.std.specs.Prelude.{◌≡◌, ◌<◌, All, IfOk};
ghost use Rattle.mmv_layout.specs.Rows.{layout_of};
ghost use Rattle.fetch_answers.specs.Bounds.{IsBounded};

use mmv_layout::{Image, Layout};
use pcp_base::{NoMemory, Text};
use std::alloc::Global;

/// What was read of a region: the name of its file, the cluster in which it is served, and an image, or none where
/// the region was missed.
#[derive(Drop)]
pub struct Shot {
    pub file: Text,
    pub cluster: u32,
    pub image: Option<Image>,
}

/// What an image says, with the bounds of its numbers and texts.
#[tactic(auto, using(crate::proofs::Bounds::bounded))]
pub fn layout_in(alloc: Global, image: &Image) -> Result<Layout, NoMemory>
    ensures value { IfOk result (λ layout. layout ≡ layout_of image.now) }
    ensures bounds { IfOk result (λ layout. IsBounded layout) }
{
    let _words = image.words();
    let layout = image.layout(alloc)?;
    Ok(layout)
}
