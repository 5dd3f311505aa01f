//! What the lines of a book act on: what a case has outside of the program, and the parts whose calls no command makes.
//! A word's function stands in the crate of its part: `case_outside`, `case_commands`, `case_images`,
//! `case_logger`, `case_parts` or `case_records`.
mod parts;

use crate::scene::parts::Parts;
use case_book::{Answer, Kept, Line, Subject};
use case_images::tell_image;
use case_logger::Logging;
use case_outside::{Outside, prepare_input};
use pcp_base::NoMemory;
use std::alloc::Global;

/// What one case has: its outside, a logger, and all other parts.
#[derive(Drop)]
pub struct Scene {
    outside: Outside,
    logging: Logging,
    parts: Parts,
}

impl Scene {
    pub fn new(alloc: Global) -> Scene {
        Scene {
            outside: Outside::new(alloc),
            logging: Logging::new(alloc),
            parts: Parts::new(alloc),
        }
    }
}

impl Subject for Scene {
    fn begin(&mut self, alloc: Global) -> Result<(), NoMemory> {
        *self = Scene::new(alloc);
        Ok(())
    }

    fn step(
        &mut self,
        alloc: Global,
        kept: &Kept,
        answer: &mut Answer,
        line: Line<'_>,
    ) -> Result<bool, NoMemory> {
        let rest = line.rest;
        let outside = &mut self.outside;
        match line.word {
            "input" | "more" | "line" | "set" | "cut" => {
                prepare_input(alloc, kept, &mut outside.input, line)
            }
            "fail" | "slow" => outside.prepare_failure(line),
            "before" | "wrap" | "restart" | "plan" => outside.drive.prepare(alloc, kept, line),
            "crash" if rest == "sure" || rest == "full" => {
                outside.drive.prepare(alloc, kept, line)
            }
            "run" => case_commands::run(alloc, outside, answer, rest),
            "file" | "files" | "calls" | "fewer" | "taken" => {
                outside.drive.look(alloc, kept, answer, line)
            }
            "stream" => outside.call_stream(alloc, answer, rest),
            "disk" => outside.drive.call(alloc, kept, answer, rest),
            "crash" | "cuts" => case_commands::crash(alloc, &mut outside.drive, kept, answer, line),
            "faults" | "pairs" => case_commands::faults(alloc, outside, answer, line),
            "recovered" => {
                case_commands::recovered(alloc, &mut outside.drive, kept, answer, line)
            }
            "logger" => self.logging.call(alloc, &mut outside.drive, answer, rest),
            "image" => tell_image(alloc, answer, &outside.input, rest),
            _ => self.parts.step(alloc, &outside.input, answer, line),
        }
    }
}
