//! The program `region_example BASE LINES`, an example of a program that lets itself be watched. It counts the lines and bytes of the
//! log on standard input, by the level of each line, in a region: words of memory laid out as memory mapped values (mmv(5)), to which
//! threads add while others read. Behind each LINES lines it logs what the region shows, as one result of the archive (LOGARCHIVE(5))
//! whose files' names begin with BASE. `layout` says what is counted, `counting` counts, `logging` logs, and `running` has it all done.
#![tactic(auto)]

mod counting;
mod layout;
mod level;
mod logging;
mod running;

use anyhow::{Result, bail, ensure};
use layout::{BYTES, LINES, count_in};
use level::LEVELS;
use pcp_system::{FileDisk, SystemClock};
use running::run;
use std::env;
use std::io::Read;

fn main(rt: HostRuntime) -> Result<()> {
    let alloc = rt.alloc();
    let words: Vec<String> = env::args(&rt)?.collect(alloc)?;
    let [_, base, every] = words.as_slice() else {
        bail!("usage: region_example BASE LINES < LOG");
    };
    let every = every.parse::<usize>()?;
    ensure!(every > 0, "LINES is 0");
    let mut input = Vec::new(alloc);
    rt.reader().read_to_end(&mut input)?;
    let lines: Vec<&[u8]> = input.split_inclusive(|byte| *byte == b'\n').collect(alloc)?;
    let batches: Vec<&[&[u8]]> = lines.chunks(every).collect(alloc)?;
    let mut disk = FileDisk::new(alloc, &rt, base.to_string(alloc)?);
    let mut clock = SystemClock::new(&rt);
    let (logged, image) = run(&rt, alloc, &mut disk, &mut clock, &batches)?;
    println!(rt; "logged {logged}")?;
    for (level, name) in LEVELS {
        let lines = count_in(&image, LINES, level);
        let bytes = count_in(&image, BYTES, level);
        if let (Some(lines), Some(bytes)) = (lines, bytes) {
            println!(rt; "{name}: {lines} lines, {bytes} bytes")?;
        }
    }
    Ok(())
}
