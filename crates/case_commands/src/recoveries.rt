//! Recovers the images that a crash may leave.
use crate::parts::{Part, advance, fronts_of, parts_at, parts_cut};
use case_book::{Answer, Kept, Line};
use case_outside::{Drive, Held, bytes_in, disk_of, file_of, snapshot};
use pcp_base::{FileId, List, NoMemory};
use pcp_memory::{MemDisk, MemSink, MemSource};
use pm_commands::offline;
use std::alloc::Global;

// How many images are recovered with the output that is wanted, to Meta and the volumes as they stand, and to no byte.
#[derive(Clone, Copy)]
struct Outcomes {
    images: u64,
    told: u64,
    same: u64,
    empty: u64,
}

impl Outcomes {
    fn none() -> Outcomes {
        Outcomes {
            images: 0,
            told: 0,
            same: 0,
            empty: 0,
        }
    }

    fn add(&mut self, told: bool, same: bool, empty: bool) {
        self.images = self.images.saturating_add(1);
        self.told = self.told.saturating_add(u64::from(told));
        self.same = self.same.saturating_add(u64::from(same));
        self.empty = self.empty.saturating_add(u64::from(empty));
    }

    fn are_all_same(self) -> bool {
        self.told == self.images && self.same == self.images
    }

    fn tell(self, alloc: Global, name: &str) -> Result<String, NoMemory> {
        let Outcomes {
            images,
            told,
            same,
            empty,
        } = self;
        Ok(format!(in alloc;
            "images {images}, {told} with {name}, {same} the same, {empty} empty\n"
        )?)
    }
}

// What each recovery is compared with: its output, and the files as they stand.
#[derive(Clone, Copy)]
struct Wanted<'a> {
    output: &'a [u8],
    now: &'a [Held],
}

// Runs `recover`, and answers what it writes; its status is not looked at.
fn recover(alloc: Global, disk: &mut MemDisk) -> Result<Vec<u8>, NoMemory> {
    let mut words = Vec::new(alloc);
    words.push(String::from_str(alloc, "recover")?)?;
    let mut source = MemSource::new(List::empty(alloc), List::empty(alloc));
    let mut sink = MemSink::new(alloc, List::empty(alloc));
    let mut opened = None;
    let _status = offline(alloc, &words, &mut source, &mut sink, disk, &mut opened);
    Ok(sink.bytes().to_vec(alloc)?)
}

// Whether Meta and the volumes are the same; both lists have all files.
fn are_same(left: &[Held], now: &[Held]) -> bool {
    if left.len() != now.len() {
        return false;
    }
    for held in left {
        if held.file != FileId::Index && held.bytes.as_slice() != bytes_in(now, held.file) {
            return false;
        }
    }
    true
}

fn are_empty(left: &[Held]) -> bool {
    for held in left {
        if !held.bytes.is_empty() {
            return false;
        }
    }
    true
}

// Recovers the image of these files, and counts how it compares with what is wanted.
fn recover_image(
    alloc: Global,
    parts: &[Part],
    wanted: Wanted<'_>,
    outcomes: &mut Outcomes,
) -> Result<(), NoMemory> {
    let files = fronts_of(alloc, parts)?;
    let mut disk = disk_of(alloc, &files, List::empty(alloc))?;
    let output = recover(alloc, &mut disk)?;
    let left = snapshot(alloc, &disk)?;
    outcomes.add(
        output.as_slice() == wanted.output,
        are_same(&left, wanted.now),
        are_empty(&left),
    );
    Ok(())
}

// Recovers each image of one moment.
fn recover_moment(
    alloc: Global,
    parts: &mut [Part],
    wanted: Wanted<'_>,
    outcomes: &mut Outcomes,
) -> Result<(), NoMemory> {
    for _ in 0..u64::MAX {
        recover_image(alloc, parts, wanted, outcomes)?;
        if !advance(parts) {
            break;
        }
    }
    Ok(())
}

// Recovers each image of each moment of the runs, of the files that ever held bytes.
fn recover_moments(
    alloc: Global,
    drive: &Drive,
    ever: &[Held],
    wanted: Wanted<'_>,
) -> Result<Outcomes, NoMemory> {
    let mut outcomes = Outcomes::none();
    for moment in drive.first_moment..=drive.disk.moments() {
        let mut parts = parts_at(alloc, &drive.disk, moment, ever)?;
        recover_moment(alloc, &mut parts, wanted, &mut outcomes)?;
    }
    Ok(outcomes)
}

// Recovers what stands where one file is cut to each of its lengths and the others are whole.
fn recover_cuts(
    alloc: Global,
    name: &str,
    wanted: Wanted<'_>,
) -> Result<Option<Outcomes>, NoMemory> {
    let Some(file) = file_of(name) else {
        return Ok(None);
    };
    let mut parts = parts_cut(alloc, wanted.now, file)?;
    let mut outcomes = Outcomes::none();
    recover_moment(alloc, &mut parts, wanted, &mut outcomes)?;
    Ok(Some(outcomes))
}

fn count(
    alloc: Global,
    drive: &Drive,
    form: &str,
    wanted: Wanted<'_>,
) -> Result<Option<(Outcomes, bool)>, NoMemory> {
    if let Some(name) = form.strip_prefix("cuts ") {
        return match recover_cuts(alloc, name, wanted)? {
            Some(outcomes) => Ok(Some((outcomes, true))),
            None => Ok(None),
        };
    }
    if form != "moments" {
        return Ok(None);
    }
    let files = drive.files.as_slice();
    let ever = if files.len() > wanted.now.len() {
        files
    } else {
        wanted.now
    };
    let outcomes = recover_moments(alloc, drive, ever, wanted)?;
    Ok(Some((outcomes, outcomes.are_all_same())))
}

/// `recovered moments NAME`: each image of each moment of the runs, recovered, writes what is kept under the name, and leaves
/// Meta and the volumes as they stand. `recovered cuts FILE NAME`: what does where one file is cut. Each writes how many
/// images there were, how many wrote that, how many were left as the files stand, and how many without a byte.
pub fn recovered(
    alloc: Global,
    drive: &mut Drive,
    kept: &Kept,
    answer: &mut Answer,
    line: Line<'_>,
) -> Result<bool, NoMemory> {
    let (form, name) = line.rest.rsplit_once(' ').unwrap_or(("", line.rest));
    let Some(output) = kept.get(name) else {
        return Ok(false);
    };
    if !answer.renew()? {
        return Ok(false);
    }
    drive.make(alloc)?;
    let now = snapshot(alloc, &drive.disk)?;
    let wanted = Wanted { output, now: &now };
    match count(alloc, drive, form, wanted)? {
        Some((outcomes, holds)) => {
            let told = outcomes.tell(alloc, name)?;
            answer.put("out", told.as_bytes())?;
            Ok(holds)
        }
        None => Ok(false),
    }
}
