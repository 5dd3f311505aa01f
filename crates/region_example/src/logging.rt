//! The logging: what the region shows goes into an archive (LOGARCHIVE(5)), one result at a time.

use anyhow::{Context, Result, ensure};
use archive_recovery::{Archive, recover};
use fetch_answers::{Fetched, Shot, answer, names_of};
use logger_core::Logger;
use mmv_layout::Image;
use pcp_base::{List, Stamp, Text};
use pcp_model::Label;
use pcp_outside::{Clock, Disk};
use profile_filter::Profile;
use result_form::fits;
use std::alloc::Global;

// The greatest volume of the archive, in bytes.
const VOLUME_LIMIT: u64 = 1_073_741_824;

/// The moment by a clock.
pub fn now(clock: &mut impl Clock) -> Result<Stamp> {
    clock.now()?.context("the clock shows no moment")
}

// The label of a new archive.
fn first_label(alloc: Global, stamp: Stamp) -> Result<Label> {
    let host = Text::build(alloc, b"localhost")?;
    let zone = Text::build(alloc, b"UTC")?;
    Label::build(1, stamp, host, zone).context("a text of the label is too long")
}

// The logger of an archive that recovery left, or of a new one.
fn go_on(alloc: Global, disk: &mut impl Disk, archive: Archive, stamp: Stamp) -> Result<Logger> {
    if archive.label.is_some() {
        return Ok(Logger::reopen(disk, archive, VOLUME_LIMIT)?);
    }
    let label = first_label(alloc, stamp)?;
    Ok(Logger::create(alloc, disk, &label, VOLUME_LIMIT)?)
}

/// The logger of an archive, which is recovered first, and begun where there is none.
pub fn open(alloc: Global, disk: &mut impl Disk, stamp: Stamp) -> Result<Logger> {
    let archive = recover(alloc, disk)?;
    go_on(alloc, disk, archive, stamp)
}

// What a fetch of all metrics of an image answers (pmFetch(3)). Their names are `mmv.log.lines` and `mmv.log.bytes`.
fn fetch(alloc: Global, image: Image, stamp: Stamp) -> Result<Fetched> {
    let shots = [Shot {
        file: Text::build(alloc, b"log")?,
        cluster: image.cluster(),
        image: Some(image),
    }];
    let named = names_of(alloc, &shots)?;
    let root = Text::build(alloc, b"mmv")?;
    let mut pmids = List::empty(alloc);
    for (_, pmid) in named.names.traverse(alloc, &root)?.as_slice() {
        pmids.push(*pmid)?;
    }
    let profile = Profile::all(alloc);
    Ok(answer(alloc, &shots, &profile, pmids.as_slice(), stamp)?)
}

/// Logs what an image shows as one result, and makes it sure: from then on no crash takes it away.
pub fn log(
    alloc: Global,
    disk: &mut impl Disk,
    logger: &mut Logger,
    image: Image,
    stamp: Stamp,
) -> Result<()> {
    let shown = fetch(alloc, image, stamp)?;
    ensure!(!shown.result.sets.is_empty(), "no metric is shown");
    ensure!(fits(&shown.result), "the result can't be written");
    logger.log(alloc, disk, &shown.result, &shown.facts)?;
    Ok(logger.flush(disk)?)
}
