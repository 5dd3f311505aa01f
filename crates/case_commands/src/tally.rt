//! How many images are read as what.
use pcp_base::NoMemory;
use std::alloc::Global;

/// What an image is read as.
#[derive(Clone, Copy)]
pub enum Found {
    Unreadable,
    Nothing,
    Undescribed,
    Described,
    Other,
}

/// How many images are read as what.
#[derive(Clone, Copy)]
pub struct Tally {
    pub images: u64,
    pub unreadable: u64,
    pub undescribed: u64,
    pub described: u64,
    pub other: u64,
}

impl Tally {
    pub fn none() -> Tally {
        Tally {
            images: 0,
            unreadable: 0,
            undescribed: 0,
            described: 0,
            other: 0,
        }
    }

    pub fn add(&mut self, found: Found) {
        self.images = self.images.saturating_add(1);
        match found {
            Found::Unreadable => self.unreadable = self.unreadable.saturating_add(1),
            Found::Undescribed => self.undescribed = self.undescribed.saturating_add(1),
            Found::Described => self.described = self.described.saturating_add(1),
            Found::Other => self.other = self.other.saturating_add(1),
            Found::Nothing => {}
        }
    }

    /// Whether each image has no item, or the described one.
    pub fn has_none_or_one(self) -> bool {
        self.unreadable == 0 && self.undescribed == 0 && self.other == 0
    }

    /// The line of it, where the item has a name.
    pub fn tell(self, alloc: Global, name: &str) -> Result<String, NoMemory> {
        let Tally {
            images,
            unreadable,
            undescribed,
            described,
            other,
        } = self;
        let mut out = String::new(alloc);
        write!(&mut out, "images {images}, {described} with {name}, ")?;
        write!(&mut out, "{undescribed} with it undescribed, ")?;
        write!(&mut out, "{unreadable} unreadable, {other} other\n")?;
        Ok(out)
    }
}
