//! Runs the books of cases that are named by its words, and tells of each how many cases it has and how many differ.
//! A word that doesn't end in `.cases` names a file that lies beside the books after it.
#![tactic(auto)]

mod scene;

use crate::scene::Scene;
use anyhow::{Result, bail};
use case_book::{Book, Count};
use pcp_base::NoMemory;
use std::alloc::Global;
use std::rt::Files;
use std::{env, fs};

fn got<T: Drop>(answer: std::result::Result<T, NoMemory>) -> Result<T> {
    match answer {
        Ok(value) => Ok(value),
        Err(NoMemory) => bail!("out of memory"),
    }
}

// The name of a book: its file's, without folders and without `.cases`.
fn name_of(path: &str) -> &str {
    let (_, name) = path.rsplit_once('/').unwrap_or(("", path));
    name.strip_suffix(".cases").unwrap_or(name)
}

fn tell<R: Print>(rt: &R, path: &str, count: Count, report: &str) -> Result<()> {
    let Count { cases, differ } = count;
    let name = name_of(path);
    println!(rt; "{name}: {cases} cases, {differ} differ")?;
    print!(rt; "{report}")?;
    Ok(())
}

fn run_book<R: Files + AllocGlobal + Print>(
    rt: &R,
    book: &mut Book,
    scene: &mut Scene,
    path: &str,
) -> Result<()> {
    let text = fs::read_to_string(rt, path)?;
    let count = got(book.run(rt.alloc(), scene, &text))?;
    tell(rt, path, count, book.report())
}

fn lay_beside<R: Files + AllocGlobal>(rt: &R, book: &mut Book, path: &str) -> Result<()> {
    let bytes = fs::read(rt, path)?;
    got(book.add_file(rt.alloc(), path, bytes))
}

fn run_books<R: Files + AllocGlobal + Print>(
    rt: &R,
    book: &mut Book,
    scene: &mut Scene,
    words: &[String],
) -> Result<()> {
    for word in words {
        let path = word.as_str();
        if path.ends_with(".cases") {
            run_book(rt, book, scene, path)?;
        } else {
            lay_beside(rt, book, path)?;
        }
    }
    Ok(())
}

fn run_all<R: Files + AllocGlobal + Print>(rt: &R, alloc: Global, words: &[String]) -> Result<()> {
    let mut book = Book::new(alloc);
    let mut scene = Scene::new(alloc);
    run_books(rt, &mut book, &mut scene, words)
}

fn main(rt: HostRuntime) -> Result<()> {
    let alloc = rt.alloc();
    let words: Vec<String> = env::args(&rt)?.collect(alloc)?;
    run_all(&rt, alloc, words.get(1..).unwrap_or(&[]))
}
