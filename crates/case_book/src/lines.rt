//! The lines of a book: a line that begins with a space goes on with the line before it.
use pcp_base::NoMemory;
use std::alloc::Global;

/// A line: its first word, and what stands behind the space after it.
#[derive(Clone, Copy)]
pub struct Line<'a> {
    pub word: &'a str,
    pub rest: &'a str,
}

impl<'a> Line<'a> {
    /// The line of this text.
    pub fn of(text: &'a str) -> Line<'a> {
        let (word, rest) = text.split_once(' ').unwrap_or((text, ""));
        Line { word, rest }
    }
}

/// A line with all that goes on with it, and the number of its first row, from 1.
#[derive(Drop)]
pub(crate) struct Row {
    pub number: usize,
    pub text: String,
}

/// The lines of a text. Empty ones are left out.
pub(crate) fn rows_of(alloc: Global, text: &str) -> Result<Vec<Row>, NoMemory> {
    let mut rows: Vec<Row> = Vec::new(alloc);
    let mut number = 0usize;
    for row in text.split('\n') {
        number = number.saturating_add(1);
        if row.is_empty() {
            continue;
        }
        match rows.last_mut() {
            Some(last) if row.starts_with(' ') => last.text.push_str(row)?,
            _ => rows.push(Row {
                number,
                text: String::from_str(alloc, row)?,
            })?,
        }
    }
    Ok(rows)
}
