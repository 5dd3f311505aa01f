//! What the lines of a book act on: bytes, of which PDUs are read, or that come as a stream or from a client.
use crate::pdus::tell_pdu;
use crate::streams::tell_pieces;
use case_book::{Answer, Kept, Line, Subject, Words};
use case_outside::prepare_input;
use case_sessions::{Given, tell_session};
use pcp_base::NoMemory;
use std::alloc::Global;

/// The bytes that a line's call takes.
#[derive(Drop)]
pub struct Scene {
    input: Vec<u8>,
    given: Given,
}

impl Scene {
    pub fn new(alloc: Global) -> Scene {
        Scene {
            input: Vec::new(alloc),
            given: Given::new(alloc),
        }
    }

    // A call, and what it tells.
    fn call(&self, alloc: Global, answer: &mut Answer, line: Line<'_>) -> Result<bool, NoMemory> {
        if !answer.renew()? {
            return Ok(false);
        }
        let told = match line.word {
            "pdu" => tell_pdu(alloc, line.rest, &self.input)?,
            "pieces" => tell_pieces(alloc, Words::of(line.rest), &self.input)?,
            "session" => tell_session(alloc, &self.given, &self.input, line.rest)?,
            _ => None,
        };
        let Some(told) = told else {
            return Ok(false);
        };
        answer.put("out", &told)?;
        Ok(true)
    }
}

impl Subject for Scene {
    fn begin(&mut self, alloc: Global) -> Result<(), NoMemory> {
        self.input.clear();
        self.given = Given::new(alloc);
        Ok(())
    }

    fn step(
        &mut self,
        alloc: Global,
        kept: &Kept,
        answer: &mut Answer,
        line: Line<'_>,
    ) -> Result<bool, NoMemory> {
        match line.word {
            "input" | "more" | "set" | "cut" => {
                prepare_input(alloc, kept, &mut self.input, line)
            }
            "serve" | "change" | "moment" | "fail" => self.given.prepare(alloc, kept, line),
            _ => self.call(alloc, answer, line),
        }
    }
}
