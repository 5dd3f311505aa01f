//! The command `once SEC USEC FILE`: an image is run as a script that logs all its metrics at one tick, over any files.
ghost use Rattle.std.specs.Prelude.{◌≡◌, ◌≤◌, [], ◌∷◌, length, IfErr, IfOk, OnOk, None, Some};
ghost use Rattle.pcp_base.specs.Names.{IsComponent};
ghost use Rattle.mmv_layout.specs.Images.{IsImage};
ghost use Rattle.run_script.specs.Rules.{KeepsRules};
ghost use Rattle.script_runs.specs.Once.{once_group, once_region, once_script};
ghost use Rattle.pm_words.specs.Inputs.{input_limit, refusal_of, Refuses};
ghost use Rattle.pm_words.specs.Serving.{Meets};
ghost use Rattle.pm_runs.specs.commands.once.{once as meaning_of_once, logging, logged_line};

use crate::running::run_script;
use log_schedule::{Config, Group};
use mmv_layout::{Image, ImageFault};
use pcp_base::{Bytes, Duplicate, List, NoMemory, Text};
use pcp_outside::Disk;
use pm_words::{OnceWords, Refusal, of_ending};
use run_passes::Opened;
use run_script::{Line, RegionRow, Script};
use std::alloc::Global;
use text_lines::one_number_line;

// The volume limit, which is the greatest.
const LIMIT: u64 = 1_073_741_824;

fn one<T: Drop>(alloc: Global, item: T) -> Result<List<T>, NoMemory>
    ensures { IfOk result (λ list. list ≡ item ∷ []) }
{
    let mut list = List::empty(alloc);
    list.push(item)?;
    Ok(list)
}

// `log mandatory on once { mmv }`
fn once_group(alloc: Global) -> Result<Group, NoMemory>
    ensures { IfOk result (λ group. group ≡ once_group) }
{
    let Ok(root) = Text::build(alloc, b"mmv") else {
        return Err(NoMemory);
    };
    let names = one(alloc, root)?;
    Ok(Group {
        interval: None,
        names,
    })
}

// The region FILE on an image, whose words are its capacity.
fn once_region(alloc: Global, file: &Text, image: &Image) -> Result<RegionRow, NoMemory>
    ensures region { IfOk result (λ row. row ≡ once_region file.now image.now) }
    ensures image { IsImage image.now }
    ensures bound { length image.now ≤ 65536 }
{
    let capacity = image.words().len() as u32;
    let file = file.copy(alloc)?;
    Ok(RegionRow {
        file,
        image: 0,
        capacity,
        passes: 1,
        line: 1,
    })
}

// The run of an image as a script.
fn script_of(alloc: Global, asked: &OnceWords, image: Image) -> Result<Script, NoMemory>
    requires { IsComponent asked.now.file }
    ensures script { IfOk result (λ script. script ≡ once_script asked.now.stamp asked.now.file image) }
    ensures bound { OnOk result (length image ≤ 65536) }
{
    let region = once_region(alloc, &asked.file, &image)?;
    let group = once_group(alloc)?;
    let name = asked.file.copy(alloc)?;
    let images = one(alloc, (name, image))?;
    let regions = one(alloc, region)?;
    let groups = one(alloc, group)?;
    let tick = Line::Tick { stamp: asked.stamp };
    let steps = one(alloc, (2, tick))?;
    Ok(Script {
        images,
        regions,
        config: Config { groups },
        steps,
    })
}

// The script of an input's image.
fn prepare(alloc: Global, asked: &OnceWords, input: &[u8]) -> Result<Script, Refusal>
    requires within { length input.now ≤ input_limit }
    requires named { IsComponent asked.now.file }
    ensures script { IfOk result (λ script. (logging asked.now).script input.now ≡ Some script) }
    ensures rules { IfOk result KeepsRules }
    ensures good { OnOk result (refusal_of (meaning_of_once asked.now).reads input.now ≡ None) }
    ensures cause { IfErr result (Refuses (meaning_of_once asked.now).reads input.now) }
{
    let image = match Image::from_bytes(alloc, input) {
        Ok(image) => image,
        Err(ImageFault::NoMemory) => return Err(Refusal::NoMemory),
        Err(fault) => return Err(Refusal::Image(fault)),
    };
    let script = script_of(alloc, asked, image)?;
    Ok(script)
}

// How many results were logged.
fn logged_line(alloc: Global, count: u64) -> Result<Bytes, NoMemory>
    ensures { IfOk result (λ line. line ≡ logged_line count) }
{
    one_number_line(alloc, b"logged", count)
}

/// Runs the image of an input, over any files, and tells how many results were logged.
pub fn once<D: Disk>(
    alloc: Global,
    asked: &OnceWords,
    input: &[u8],
    disk: &mut D,
    opened: &mut Option<Opened>,
) -> Result<Bytes, Refusal>
    requires within { length input.now ≤ input_limit }
    requires named { IsComponent asked.now.file }
    requires closed { opened.old ≡ None }
    ensures meets { Meets (meaning_of_once asked.now) input.now D.Disk disk.old disk.new opened.new [] result }
{
    let script = prepare(alloc, asked, input)?;
    let replayed = run_script(alloc, script, LIMIT, disk, opened)?;
    match of_ending(replayed.ending) {
        None => {
            let line = logged_line(alloc, replayed.logged)?;
            Ok(line)
        }
        Some(refusal) => Err(refusal),
    }
}
