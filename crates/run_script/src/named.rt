//! The steps of a pass, with the region and the pass by their numbers, where both are there.
ghost use Rattle.std.specs.Prelude.{◌≡◌};
ghost use Rattle.run_script.specs.Steps.{attaches, detaches, swaps, adds, begins, steps_on, finishes, loads, reads, ends};

use crate::lines::{Given, Slot};
use crate::script::Line;

pub fn attaches(at: Option<(u32, u32)>) -> Option<Line>
    ensures { result ≡ attaches at }
{
    let (region, pass) = at?;
    Some(Line::Attach { region, pass })
}

pub fn detaches(at: Option<(u32, u32)>) -> Option<Line>
    ensures { result ≡ detaches at }
{
    let (region, pass) = at?;
    Some(Line::Detach { region, pass })
}

pub fn swaps(at: Option<(u32, u32)>, slot: Slot, value: Given) -> Option<Line>
    ensures { result ≡ swaps at slot value }
{
    let (region, pass) = at?;
    Some(Line::Swap {
        region,
        pass,
        item: slot.item,
        instance: slot.instance,
        value,
    })
}

pub fn adds(at: Option<(u32, u32)>, slot: Slot, number: i128) -> Option<Line>
    ensures { result ≡ adds at slot number }
{
    let (region, pass) = at?;
    Some(Line::Add {
        region,
        pass,
        item: slot.item,
        instance: slot.instance,
        number,
    })
}

/// A change to an image, where the image is there too.
pub fn begins(at: Option<(u32, u32)>, image: Option<u32>, moment: u64) -> Option<Line>
    ensures { result ≡ begins at image moment }
{
    let (region, pass) = at?;
    let image = image?;
    Some(Line::Begin {
        region,
        pass,
        image,
        moment,
    })
}

pub fn steps_on(at: Option<(u32, u32)>) -> Option<Line>
    ensures { result ≡ steps_on at }
{
    let (region, pass) = at?;
    Some(Line::Step { region, pass })
}

pub fn finishes(at: Option<(u32, u32)>) -> Option<Line>
    ensures { result ≡ finishes at }
{
    let (region, pass) = at?;
    Some(Line::Finish { region, pass })
}

pub fn loads(at: Option<(u32, u32)>) -> Option<Line>
    ensures { result ≡ loads at }
{
    let (region, pass) = at?;
    Some(Line::Load { region, pass })
}

pub fn reads(at: Option<(u32, u32)>, index: u32) -> Option<Line>
    ensures { result ≡ reads at index }
{
    let (region, pass) = at?;
    Some(Line::Word {
        region,
        pass,
        index,
    })
}

pub fn ends(at: Option<(u32, u32)>) -> Option<Line>
    ensures { result ≡ ends at }
{
    let (region, pass) = at?;
    Some(Line::Done { region, pass })
}
