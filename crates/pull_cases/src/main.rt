//! Runs the books of cases about a remote logger (pmlogger(1)) that are named by its words, and tells of each how many cases it has
//! and how many differ.
#![tactic(auto)]

mod runs;
mod scene;

use crate::scene::Scene;
use anyhow::{Result, bail};
use case_book::Book;
use pcp_base::NoMemory;
use std::rt::Files;
use std::{env, fs};

fn got<T: Drop>(answer: std::result::Result<T, NoMemory>) -> Result<T> {
    match answer {
        Ok(value) => Ok(value),
        Err(NoMemory) => bail!("out of memory"),
    }
}

fn run_books<R: Files + AllocGlobal + Print>(rt: &R, words: &[String]) -> Result<()> {
    let alloc = rt.alloc();
    let mut book = Book::new(alloc);
    let mut scene = Scene::new(alloc);
    for word in words {
        let path = word.as_str();
        let text = fs::read_to_string(rt, path)?;
        let count = got(book.run(alloc, &mut scene, &text))?;
        let (cases, differ) = (count.cases, count.differ);
        println!(rt; "{path}: {cases} cases, {differ} differ")?;
        print!(rt; "{}", book.report())?;
    }
    Ok(())
}

fn main(rt: HostRuntime) -> Result<()> {
    let alloc = rt.alloc();
    let words: Vec<String> = env::args(&rt)?.collect(alloc)?;
    run_books(&rt, words.get(1..).unwrap_or(&[]))
}
