//! Reading the value words of a region again, as long as its generation stands.
ghost use Rattle.std.specs.Prelude.{◌≡◌, ◌<◌, length, All, IfOk, IfErr};
ghost use Rattle.std.specs.List.{zip};
ghost use Rattle.region_core.specs.declared.mode.Mode.TheVariants.{Idle};
ghost use Rattle.region_rule.specs.Seats.{IsSame};
ghost use Rattle.fetch_engine.specs.Kept.{IsKeptBy, ReadsAgainBy, ValuesFail};
ghost use Rattle.fetch_engine.specs.Tries.{with_values};

use fetch_answers::Told;
use region_words::{Known as Generation, Pass, Region, ValueFault};

/// Writes values into words.
fn write_all(words: &mut Vec<u64>, indexes: &[u32], values: &[u64])
    requires long { length values.now ≡ length indexes.now }
    requires below { All (λ index. index < length words.old.items) indexes.now }
    ensures { words.new.items ≡ with_values words.old.items (zip indexes.now values.now) }
{
    for at in 0..indexes.len() {
        words[indexes[at] as usize] = values[at];
    }
}

/// Reads the value words again, if the region has the generation still. What is told stays as it is after a refusal.
pub fn read_again(region: &Region, pass: &mut Pass, told: &mut Told) -> Result<(), ValueFault>
    requires here { pass.old.region ≡ region.now }
    requires kept { IsKeptBy pass.old told.old }
    ensures reads { IfOk result (λ _. ReadsAgainBy told.old pass.old.view told.new pass.new.view) }
    ensures fails { IfErr result (ValuesFail told.old pass.old.view pass.new.view) }
    ensures same { IfErr result (λ _. told.new ≡ told.old) }
    ensures kept { IsKeptBy pass.new told.new }
    ensures stays { IsSame Idle Idle pass.old pass.new }
{
    let generation = Generation {
        generation: told.generation,
    };
    region.read_values(pass, &generation, &told.indexes, &mut told.found)?;
    write_all(&mut told.words, &told.indexes, &told.found);
    Ok(())
}
