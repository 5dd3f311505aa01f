//! Named bytes: those that a book keeps for its later lines, and the files that lie beside it.
use crate::literals::{read_hex, read_text};
use pcp_base::NoMemory;
use std::alloc::Global;

#[derive(Drop)]
struct Named {
    name: String,
    bytes: Vec<u8>,
}

/// Bytes under names. A book's own are forgotten at its end; files beside it stay.
#[derive(Drop)]
pub struct Kept {
    named: Vec<Named>,
    files: Vec<Named>,
}

fn find<'a>(all: &'a [Named], name: &str) -> Option<&'a [u8]> {
    for one in all {
        if one.name.as_str() == name {
            return Some(one.bytes.as_slice());
        }
    }
    None
}

impl Kept {
    pub(crate) fn new(alloc: Global) -> Kept {
        Kept {
            named: Vec::new(alloc),
            files: Vec::new(alloc),
        }
    }

    pub(crate) fn forget(&mut self) {
        self.named.clear();
    }

    // Keeps bytes under a name. False where it has some.
    pub(crate) fn keep(
        &mut self,
        alloc: Global,
        name: &str,
        bytes: Vec<u8>,
    ) -> Result<bool, NoMemory> {
        if name.is_empty() || self.get(name).is_some() {
            return Ok(false);
        }
        let name = String::from_str(alloc, name)?;
        self.named.push(Named { name, bytes })?;
        Ok(true)
    }

    pub(crate) fn add_file(
        &mut self,
        alloc: Global,
        name: &str,
        bytes: Vec<u8>,
    ) -> Result<(), NoMemory> {
        let name = String::from_str(alloc, name)?;
        self.files.push(Named { name, bytes })?;
        Ok(())
    }

    /// The bytes of a name.
    pub fn get(&self, name: &str) -> Option<&[u8]> {
        find(self.named.as_slice(), name)
    }

    // The bytes of names, one after another.
    fn join(&self, alloc: Global, names: &str) -> Result<Option<Vec<u8>>, NoMemory> {
        let mut bytes = Vec::new(alloc);
        for name in names.split_whitespace() {
            let Some(more) = self.get(name) else {
                return Ok(None);
            };
            bytes.extend_from_slice(more)?;
        }
        Ok(Some(bytes))
    }

    /// The bytes of a literal: `hex ..`, `text ..`, `line ..` (a text with a line feed behind it), `kept NAME ..`,
    /// `beside FILE` or `empty`. `None` where it is none of these.
    pub fn read(&self, alloc: Global, literal: &str) -> Result<Option<Vec<u8>>, NoMemory> {
        let (form, rest) = literal.split_once(' ').unwrap_or((literal, ""));
        match form {
            "hex" => read_hex(alloc, rest),
            "text" => read_text(alloc, rest),
            "line" => read_line(alloc, rest),
            "kept" => self.join(alloc, rest),
            "beside" => self.read_file(alloc, rest),
            "empty" if rest.is_empty() => Ok(Some(Vec::new(alloc))),
            _ => Ok(None),
        }
    }

    fn read_file(&self, alloc: Global, name: &str) -> Result<Option<Vec<u8>>, NoMemory> {
        match find(self.files.as_slice(), name) {
            Some(bytes) => Ok(Some(bytes.to_vec(alloc)?)),
            None => Ok(None),
        }
    }
}

/// The bytes of a text and a line feed behind it.
pub(crate) fn read_line(alloc: Global, text: &str) -> Result<Option<Vec<u8>>, NoMemory> {
    let Some(mut bytes) = read_text(alloc, text)? else {
        return Ok(None);
    };
    bytes.push(b'\n')?;
    Ok(Some(bytes))
}
