//! The draws of a linear congruential generator, and the add that a draw makes.
ghost use Rattle.std.specs.Prelude.{◌≡◌};
ghost use Rattle.run_script.specs.Generated.{next, draw, add_of};

use crate::script::Line;

/// The generator's number behind one more draw.
pub fn next(number: u64) -> u64
    ensures { result ≡ next number }
{
    number
        .wrapping_mul(6_364_136_223_846_793_005)
        .wrapping_add(1_442_695_040_888_963_407)
}

/// The draw of a number: its upper half.
pub fn draw(number: u64) -> u32
    ensures { result ≡ draw number }
{
    (number >> 32) as u32
}

/// The add of a draw.
pub fn add_of(draw: u32) -> Line
    ensures { result ≡ add_of draw }
{
    Line::Add {
        region: draw % 3,
        pass: draw / 3 % 4,
        item: 1 + draw / 12 % 12,
        instance: None,
        number: i128::from(1 + draw / 65_536 % 100),
    }
}
