//! All that a case has outside of the program.
use crate::drive::Drive;
use case_book::Line;
use pcp_base::NoMemory;
use std::alloc::Global;

/// What the next run's source and sink do: which of their calls fail, and how many bytes a call moves at most.
#[derive(Drop)]
pub struct Given {
    pub source_fails: Vec<u64>,
    pub sink_fails: Vec<u64>,
    pub most: usize,
}

impl Given {
    /// No call fails, and each moves all.
    pub fn new(alloc: Global) -> Given {
        Given {
            source_fails: Vec::new(alloc),
            sink_fails: Vec::new(alloc),
            most: usize::MAX,
        }
    }
}

/// The input, what the next run is given, and the disk that all runs of a case share.
#[derive(Drop)]
pub struct Outside {
    pub input: Vec<u8>,
    pub given: Given,
    pub drive: Drive,
}

// Notes that a call of an object is to fail. False where there is no such object, or its disk stands.
fn add_failure(
    given: &mut Given,
    drive: &mut Drive,
    object: &str,
    number: u64,
) -> Result<bool, NoMemory> {
    match object {
        "source" => given.source_fails.push(number)?,
        "sink" => given.sink_fails.push(number)?,
        "disk" if !drive.is_made && drive.plan.is_empty() => drive.fails.push(number)?,
        _ => return Ok(false),
    }
    Ok(true)
}

impl Outside {
    pub fn new(alloc: Global) -> Outside {
        Outside {
            input: Vec::new(alloc),
            given: Given::new(alloc),
            drive: Drive::new(alloc),
        }
    }

    /// `fail source N` and `fail sink N`: that call of the next run fails. `fail disk N`: that call of all runs of
    /// the case. `slow`: the next run's source and sink move one byte a call.
    pub fn prepare_failure(&mut self, line: Line<'_>) -> Result<bool, NoMemory> {
        if line.word == "slow" {
            self.given.most = 1;
            return Ok(line.rest.is_empty());
        }
        let failing = Line::of(line.rest);
        match failing.rest.parse::<u64>() {
            Ok(number) => add_failure(&mut self.given, &mut self.drive, failing.word, number),
            Err(_) => Ok(false),
        }
    }
}
