//! What a logger's calls answered, as lines.
use archive_recovery::RecoverFault;
use logger_core::{LogFault, Logger};
use pcp_base::{FileId, NoMemory};
use std::alloc::Global;

fn write_file(out: &mut String, file: FileId) -> Result<(), NoMemory> {
    match file {
        FileId::Meta => out.push_str("meta")?,
        FileId::Index => out.push_str("index")?,
        FileId::Volume(number) => write!(out, "volume {number}")?,
    }
    Ok(())
}

fn write_full(out: &mut String, file: FileId, bytes: u64) -> Result<(), NoMemory> {
    out.push_str("Full ")?;
    write_file(out, file)?;
    write!(out, " {bytes}\n")?;
    Ok(())
}

/// A line that names the refusal of a logger's call, with its numbers.
pub fn tell_fault(alloc: Global, fault: LogFault) -> Result<String, NoMemory> {
    let mut out = String::new(alloc);
    match fault {
        LogFault::Closed => out.push_str("Closed\n")?,
        LogFault::Live { volume } => write!(&mut out, "Live {volume}\n")?,
        LogFault::Large { bytes } => write!(&mut out, "Large {bytes}\n")?,
        LogFault::NotLater { last } => {
            let (sec, usec) = (last.sec(), last.usec());
            write!(&mut out, "NotLater {sec} {usec}\n")?
        }
        LogFault::Changed { pmid } => {
            let pmid = pmid.word();
            write!(&mut out, "Changed {pmid:08x}\n")?
        }
        LogFault::Full { file, bytes } => write_full(&mut out, file, bytes)?,
        LogFault::NoMemory => out.push_str("NoMemory\n")?,
        LogFault::DiskFault => out.push_str("DiskFault\n")?,
    }
    Ok(out)
}

/// A line that names the refusal of a result of a group, and which it is, from 0.
pub fn tell_place(alloc: Global, k: u32, fault: LogFault) -> Result<String, NoMemory> {
    let mut out = format!(in alloc; "{k} ")?;
    let told = tell_fault(alloc, fault)?;
    out.push_str(told.as_str())?;
    Ok(out)
}

/// A line that names the refusal of `recover`, with its file and place.
pub fn tell_refusal(alloc: Global, fault: RecoverFault) -> Result<String, NoMemory> {
    let mut out = String::new(alloc);
    match fault {
        RecoverFault::Compressed { file } => {
            out.push_str("Compressed ")?;
            write_file(&mut out, file)?;
            out.push('\n')?
        }
        RecoverFault::NotArchive { file, at } => {
            out.push_str("NotArchive ")?;
            write_file(&mut out, file)?;
            write!(&mut out, " {at}\n")?
        }
        RecoverFault::DiskFault => out.push_str("DiskFault\n")?,
        RecoverFault::NoMemory => out.push_str("NoMemory\n")?,
    }
    Ok(out)
}

/// How many items a logger has, and how many of them are acknowledged.
pub fn tell_counts(alloc: Global, logger: &Logger) -> Result<String, NoMemory> {
    let (logged, acknowledged) = (logger.logged(), logger.acknowledged());
    Ok(format!(in alloc; "logged {logged} acknowledged {acknowledged}\n")?)
}
