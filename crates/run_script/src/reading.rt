//! A whole script, line by line.
ghost use Rattle.std.specs.Prelude.{◌≡◌, ◌≤◌, length, OnOk};
ghost use Rattle.text_lines.specs.Lines.{lines_of};
ghost use Rattle.run_script.specs.HeadLines.{head_line};
ghost use Rattle.run_script.specs.Said.{nothing};
ghost use Rattle.run_script.specs.Names.{IsKept, Keeps};
ghost use Rattle.run_script.specs.Reading.{Goes, Leads, Answers, with_head_line, with_script_line, ended_at, script_of};

use crate::fault::{LineStop, ReadScriptError};
use crate::head::{add_group, add_region, may_name};
use crate::head_line::read_head_line;
use crate::images::{take_first_line, take_image_line};
use crate::lines::HeadLine;
use crate::names::place_of;
use crate::said::{Said, Stage};
use crate::script::Script;
use crate::steps::take_step;
use std::alloc::Global;
use std::collections::BTreeMap;
use text_lines::split_line;

// A line of the head between images, which is without its line feed.
#[tactic(auto, using(crate::proofs::NamePositions::stays), unfolding(crate::specs::Reading::with_head_line))]
fn take_head_line(
    alloc: Global,
    said: &mut Said,
    names: &BTreeMap<Vec<u8>, u32>,
    number: u32,
    line: &[u8],
) -> Result<Stage, LineStop>
    requires { IsKept names.now said.now number }
    ensures step { Goes (with_head_line number said.old line.now (head_line line.now)) said.new result }
    ensures kept { OnOk result (Keeps names.now said.old names.now said.new) }
{
    let Some(found) = read_head_line(alloc, line)? else {
        return Err(LineStop::grammar());
    };
    match found {
        HeadLine::Image(name) => {
            if !may_name(said, names, &name) {
                return Err(LineStop::condition());
            }
            Ok(Stage::Opening(name))
        }
        HeadLine::Region {
            file,
            image,
            capacity,
            passes,
        } => {
            let place = place_of(names, &image);
            add_region(said, place, number, file, capacity, passes)?;
            Ok(Stage::Head)
        }
        HeadLine::Log => {
            add_group(alloc, said, line)?;
            Ok(Stage::Head)
        }
        HeadLine::Start => Ok(Stage::Steps),
    }
}

// A line of a script, which is without its line feed.
#[tactic(auto, using(crate::proofs::NamePositions::stays), unfolding(crate::specs::Reading::with_script_line))]
fn take_script_line(
    alloc: Global,
    stage: Stage,
    said: &mut Said,
    names: &mut BTreeMap<Vec<u8>, u32>,
    number: u32,
    line: &[u8],
) -> Result<Stage, LineStop>
    requires { IsKept names.now said.now number }
    ensures step { Goes (with_script_line number (stage, said.old) line.now) said.new result }
    ensures kept { OnOk result (Keeps names.old said.old names.new said.new) }
{
    match stage {
        Stage::Head => take_head_line(alloc, said, names, number, line),
        Stage::Opening(name) => take_first_line(alloc, said, name, line),
        Stage::Image(name, builder) => take_image_line(alloc, said, names, name, builder, line),
        Stage::Steps => {
            take_step(alloc, said, names, number, line)?;
            Ok(Stage::Steps)
        }
    }
}

// Takes lines, of which the first is line 1, and gives where they lead and the number of the line after the last.
fn take_lines(alloc: Global, said: &mut Said, bytes: &[u8]) -> Result<(Stage, u32), ReadScriptError>
    requires size { length bytes.now ≤ 16777216 }
    requires first { said.now ≡ nothing }
    ensures { Leads (lines_of bytes.now) said.new result }
{
    let mut names = BTreeMap::new(alloc);
    let mut stage = Stage::Head;
    let mut rest = bytes;
    let mut number = 1;
    while !rest.is_empty() {
        let Some((line, behind)) = split_line(rest) else {
            return Err(LineStop::grammar().on(number as u64));
        };
        stage = match take_script_line(alloc, stage, said, &mut names, number, line) {
            Ok(later) => later,
            Err(stop) => return Err(stop.on(number as u64)),
        };
        rest = behind;
        number += 1;
    }
    Ok((stage, number))
}

// The script of what was said, where the last line stood here.
fn end_script(said: Said, stage: Stage, after: u32) -> Result<Script, ReadScriptError>
    ensures { Answers (ended_at after (stage, said)) result }
{
    match stage {
        Stage::Steps => Ok(said.into_script()),
        _ => Err(LineStop::grammar().on(after as u64)),
    }
}

impl Script {
    /// Reads a whole script, or tells the first fault in the order of the lines; of a script that ends before its line
    /// `start`, or inside an image, the fault is on the line after the last. The bytes are at most 16,777,216.
    #[tactic(auto, unfolding(crate::specs::Reading::script_of))]
    pub fn read(alloc: Global, bytes: &[u8]) -> Result<Script, ReadScriptError>
        requires { length bytes.now ≤ 16777216 }
        ensures { Answers (script_of bytes.now) result }
    {
        let mut said = Said::nothing(alloc);
        let (stage, after) = take_lines(alloc, &mut said, bytes)?;
        end_script(said, stage, after)
    }
}
