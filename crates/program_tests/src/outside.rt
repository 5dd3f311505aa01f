//! The objects over the system: readers and writers, a door over loopback, the clock, and the files of an archive in a folder.
use pcp_memory::{ListClock, MemDisk, MemDoor, MemSink, MemSource};
use pcp_outside::{
    Disk, Door, Failed, FileId, LOGGER, SessionEnd, Sink, Source, Turn, append_synced,
    read_to_limit, write_all,
};
use pcp_system::{
    ClientSource, Connection, FileDisk, Pace, Patience, ReaderSource, SystemClock, TcpDoor,
    WriterSink,
};
use std::alloc::{Alloc, AllocError, Global};
use std::fs::{self, File, Files};
use std::io::{Cursor, Read, Write, pipe};
use std::net::{Net, Shutdown, TcpListener, TcpStream};
use std::os::unix::fs::symlink;
use std::test::Fail;
use std::thread;
use std::time::{Clock, Duration, Instant};

fn needs_send<T: Send>() {}

#[test]
fn what_a_session_has_may_be_sent(_rt: HostRuntime) {
    needs_send::<MemDoor>();
    needs_send::<MemSource>();
    needs_send::<MemSink>();
    needs_send::<ListClock>();
    needs_send::<MemDisk>();
    needs_send::<ClientSource>();
    needs_send::<WriterSink<Connection>>();
}

// Whether a source has these three bytes and ends.
fn has_all(alloc: Global, source: &mut impl Source, bytes: &[u8]) -> bool {
    match read_to_limit(alloc, source, 3) {
        Ok(read) => read.as_slice() == bytes,
        Err(_) => false,
    }
}

// Whether a source gives three bytes at once; then it is let go.
fn gives_three(source: impl Source + Drop) -> bool {
    let mut source = source;
    let mut buffer = [0u8; 4];
    matches!(source.take(&mut buffer), Ok(3))
}

fn takes_all(sink: &mut impl Sink) -> bool {
    write_all(sink, b"abc").is_ok()
}

#[test]
fn an_adapter_reads_and_writes(rt: HostRuntime) -> Result<(), Fail> {
    let alloc = rt.alloc();
    assert!(rt;
        has_all(
            alloc,
            &mut ReaderSource::new(Cursor::new(b"abc".as_slice())),
            b"abc"
        )
    );
    assert!(rt; takes_all(&mut WriterSink::new(Vec::new(alloc))));
    assert!(rt; !takes_all(&mut WriterSink::new(Cursor::new([0u8; 0]))));
    Ok(())
}

#[test]
fn a_pipe_that_nobody_reads_is_told(rt: HostRuntime) -> Result<(), Fail> {
    let (reader, writer) = pipe(&rt)?;
    let mut sink = WriterSink::new(writer);
    assert!(rt; takes_all(&mut sink) && gives_three(ReaderSource::new(reader)));
    assert!(rt; !takes_all(&mut sink));
    let why = sink
        .why(rt.alloc(), "it")?
        .unwrap_or(String::new(rt.alloc()));
    assert_eq!(rt; why.as_str(), "it: broken pipe (write)");
    Ok(())
}

// Whether the next client is told something, which sends `ask`, or bytes that aren't read.
fn is_told<R: Clock + Alloc<A = Global>>(rt: &R, listener: &TcpListener, reads: bool) -> bool {
    let mut door = TcpDoor::new(listener, rt);
    let Ok((mut input, mut out, time)) = door.next() else {
        return false;
    };
    let is_read = !reads || has_all(rt.alloc(), &mut input, b"ask");
    let is_written = write_all(&mut out, b"told").is_ok();
    door.ended(input, out, time, SessionEnd::Closed).is_ok() && is_read && is_written
}

// Whether a client that sends these bytes is told something through a door, and gets it.
fn visits<R>(rt: &R, sent: &[u8], reads: bool) -> Result<bool, Fail>
where
    R: Net<Listener = TcpListener, Stream = TcpStream> + Clock + Alloc<A = Global>,
{
    let listener = TcpListener::bind(rt, "127.0.0.1:0")?;
    let mut client = TcpStream::connect(rt, listener.local_addr()?)?;
    client.write_all(sent)?;
    client.shutdown(Shutdown::Write)?;
    let is_well = is_told(rt, &listener, reads);
    let mut told = Vec::new(rt.alloc());
    client.read_to_end(&mut told)?;
    Ok(is_well && told.as_slice() == b"told".as_slice())
}

// Input that isn't read doesn't cost a client its replies.
#[test]
fn a_client_comes_in_through_a_door(rt: HostRuntime) -> Result<(), Fail> {
    let unread = vec![in rt.alloc(); 0u8; 40_000]?;
    assert!(rt; visits(&rt, b"ask", true)?);
    assert!(rt; visits(&rt, unread.as_slice(), false)?);
    Ok(())
}

// What the source of a client answers to two reads, where the client sends these bytes and then keeps silent.
fn two_reads<R>(rt: &R, idle: Duration, sent: &[u8]) -> Result<[Result<usize, Failed>; 2], Fail>
where
    R: Net<Listener = TcpListener, Stream = TcpStream> + Clock + Alloc<A = Global>,
{
    let listener = TcpListener::bind(rt, "127.0.0.1:0")?;
    let mut client = TcpStream::connect(rt, listener.local_addr()?)?;
    let patience = Patience {
        begun: Duration::from_millis(50),
        idle,
    };
    let mut door = TcpDoor::with_patience(&listener, rt, patience);
    let (mut input, _out, _time) = door.next()?;
    client.write_all(sent)?;
    let mut buffer = [0u8; 64];
    Ok([input.take(&mut buffer), input.take(&mut buffer)])
}

#[test]
fn a_client_that_keeps_silent_is_given_up(rt: HostRuntime) -> Result<(), Fail> {
    let start = Instant::now(&rt)?;
    let (long, short) = (Duration::from_secs(30), Duration::from_millis(300));
    let reads = two_reads(&rt, long, &[0, 0, 0])?;
    assert!(rt; matches!(reads, [Ok(3), Err(Failed)]));
    assert!(rt; start.elapsed(&rt)? < Duration::from_secs(15));
    let start = Instant::now(&rt)?;
    let reads = two_reads(&rt, short, &[0, 0, 0, 5, 1])?;
    assert!(rt; matches!(reads, [Ok(5), Err(Failed)]));
    assert!(rt; start.elapsed(&rt)? >= short);
    Ok(())
}

#[test]
fn a_door_asks_its_listener_again(rt: HostRuntime) -> Result<(), Fail> {
    let listener = TcpListener::bind(&rt, "127.0.0.1:0")?;
    listener.set_nonblocking(true)?;
    let address = listener.local_addr()?;
    let mut door = TcpDoor::new(&listener, &rt);
    let (is_given, connected) = thread::join(
        &rt,
        || door.next().is_ok(),
        || {
            thread::sleep(&rt, Duration::from_millis(250));
            TcpStream::connect(&rt, address).is_ok()
        },
    );
    assert!(rt; is_given && connected);
    Ok(())
}

#[test]
fn a_second_passes_between_samples(rt: HostRuntime) -> Result<(), Fail> {
    let mut clock = SystemClock::new(&rt);
    let pace = Pace::new(&rt);
    let start = Instant::now(&rt)?;
    pace.turn(0, 1);
    pace.turn(LOGGER, 0);
    let first = pcp_outside::Clock::now(&mut clock)?;
    pace.turn(LOGGER, 1);
    assert!(rt; start.elapsed(&rt)? >= Duration::from_secs(1));
    assert!(rt; first.is_some() && first < pcp_outside::Clock::now(&mut clock)?);
    Ok(())
}

fn disk_at<'a, R: Files<File = File>>(
    alloc: Global,
    rt: &'a R,
    base: &str,
) -> Result<FileDisk<'a, R>, AllocError> {
    Ok(FileDisk::new(alloc, rt, String::from_str(alloc, base)?))
}

// Calls of a disk alone: whoever calls these has nothing to do with their contracts.
fn meta_len(disk: &mut impl Disk) -> Option<u64> {
    disk.len(FileId::Meta).ok()
}

fn first_len(disk: &mut impl Disk) -> Option<u64> {
    disk.len(FileId::Volume(0)).ok()
}

fn volumes(disk: &mut impl Disk) -> Option<u32> {
    disk.volumes().ok()
}

fn wrapped(disk: &mut impl Disk) -> Option<FileId> {
    disk.wrapped().ok()?
}

fn is_appended(disk: &mut impl Disk, bytes: &[u8]) -> bool {
    disk.append(FileId::Meta, bytes).is_ok()
}

fn is_synced(disk: &mut impl Disk) -> bool {
    disk.sync(FileId::Meta).is_ok()
}

fn is_index_synced(disk: &mut impl Disk) -> bool {
    disk.sync(FileId::Index).is_ok()
}

// Appends to Meta and two volumes, and cuts one of these to nothing and the other to 5 bytes.
fn is_filled<D: Disk>(disk: &mut D) -> bool
    requires { D.tells → ⊥ }
{
    append_synced(disk, FileId::Volume(0), b"abc").is_ok()
        && append_synced(disk, FileId::Volume(0), b"def").is_ok()
        && append_synced(disk, FileId::Meta, b"m").is_ok()
        && disk.append(FileId::Volume(3), b"z").is_ok()
        && disk.cut(FileId::Volume(3), 0).is_ok()
        && disk.cut(FileId::Volume(0), 5).is_ok()
}

// Whether these bytes stand at an offset of the volume 0.
fn stands<D: Disk>(disk: &mut D, at: u64, bytes: &[u8]) -> bool
    requires { D.tells → ⊥ }
{
    let mut buffer = [0u8; 100];
    let count = bytes.len().min(100);
    let is_read = disk
        .read(FileId::Volume(0), at, &mut buffer[..count])
        .is_ok();
    is_read && &buffer[..count] == bytes
}

// Calls of the system alone.
fn is_written<R: Files<File = File>>(rt: &R, names: &[&str], text: &[u8]) -> bool {
    for name in names {
        if fs::write(rt, *name, text).is_err() {
            return false;
        }
    }
    true
}

fn is_linked<R: Files<File = File>>(rt: &R, name: &str, link: &str) -> bool {
    symlink(rt, name, link).is_ok()
}

fn is_folder<R: Files<File = File>>(rt: &R, name: &str) -> bool {
    fs::create_dir(rt, name).is_ok()
}

fn is_renamed<R: Files<File = File>>(rt: &R, from: &str, to: &str) -> bool {
    fs::rename(rt, from, to).is_ok()
}

fn len_of<R: Files<File = File>>(rt: &R, name: &str) -> Option<u64> {
    Some(fs::metadata(rt, name).ok()?.len())
}

// Whether an empty disk keeps what is appended, cut and synced.
fn keeps<D: Disk>(disk: &mut D) -> bool
    requires { D.tells → ⊥ }
{
    volumes(disk) == Some(0)
        && is_filled(disk)
        && first_len(disk) == Some(5)
        && volumes(disk) == Some(1)
        && stands(disk, 2, b"cde")
        && is_index_synced(disk)
}

// Whether a disk whose folder is away at a sync does nothing from then on.
fn stays_failed<R: Files<File = File>>(rt: &R, disk: &mut impl Disk) -> bool {
    is_appended(disk, b"abc")
        && is_renamed(rt, "here", "away")
        && !is_synced(disk)
        && is_renamed(rt, "away", "here")
        && !is_synced(disk)
        && !is_appended(disk, b"def")
        && len_of(rt, "here/arch.meta") == Some(3)
}

// Whether reads that go on give all of the volume 0.
fn goes_on<D: Disk>(disk: &mut D, content: &[u8]) -> bool
    requires { D.tells → ⊥ }
{
    for (number, piece) in content.chunks(100).enumerate() {
        if !stands(disk, number as u64 * 100, piece) {
            return false;
        }
    }
    true
}

// Whether reads are those of the file, also behind a change of what was read ahead.
fn reads_on<D: Disk>(disk: &mut D, content: &[u8]) -> bool
    requires { D.tells → ⊥ }
{
    goes_on(disk, content)
        && goes_on(disk, content.get(..200).unwrap_or(&[]))
        && disk.cut(FileId::Volume(0), 250).is_ok()
        && disk.append(FileId::Volume(0), b"new").is_ok()
        && stands(disk, 200, content.get(200..250).unwrap_or(&[]))
        && stands(disk, 250, b"new")
}

// What is asked of a disk.
#[derive(Clone, Copy)]
enum Asked<'a> {
    Keeps,
    Names,
    Meta(Option<u64>),
    Fails,
    Reads(&'a [u8]),
}

fn answers<R: Files<File = File>, D: Disk>(rt: &R, disk: &mut D, asked: Asked<'_>) -> bool
    requires { D.tells → ⊥ }
{
    match asked {
        Asked::Keeps => keeps(disk),
        Asked::Names => volumes(disk) == Some(2) && wrapped(disk) == Some(FileId::Volume(2)),
        Asked::Meta(len) => meta_len(disk) == len,
        Asked::Fails => stays_failed(rt, disk),
        Asked::Reads(content) => reads_on(disk, content),
    }
}

// Whether a disk answers so.
fn is_so<R: Files<File = File>>(
    alloc: Global,
    rt: &R,
    base: &str,
    asked: Asked<'_>,
) -> Result<bool, AllocError> {
    Ok(answers(rt, &mut disk_at(alloc, rt, base)?, asked))
}

#[test]
fn the_system_keeps_the_files_of_an_archive(rt: HostRuntime) -> Result<(), Fail> {
    assert!(rt; is_so(rt.alloc(), &rt, "outside_files", Asked::Keeps)?);
    Ok(())
}

// Files that are wrapped are no volumes either, and the first of them is told.
#[test]
fn names_of_no_volume_are_passed_over(rt: HostRuntime) -> Result<(), Fail> {
    let names = [
        "odd.1",
        "odd.07",
        "odd.2x",
        "odd.10000",
        "odd.2147483646",
        "odd.99999999999",
        "odd.12.gz",
        "odd.2.xz",
    ];
    assert!(rt; is_written(&rt, &names, b"x"));
    assert!(rt; is_so(rt.alloc(), &rt, "odd", Asked::Names)?);
    Ok(())
}

#[test]
fn a_sync_that_failed_stays_failed(rt: HostRuntime) -> Result<(), Fail> {
    assert!(rt; is_folder(&rt, "here"));
    assert!(rt; is_so(rt.alloc(), &rt, "here/arch", Asked::Fails)?);
    Ok(())
}

// 20,000 bytes, of which no two pieces side by side are alike.
fn content_of(alloc: Global) -> Result<Vec<u8>, AllocError> {
    let mut content = Vec::new(alloc);
    for at in 0..20_000u32 {
        content.push((at % 251) as u8)?;
    }
    Ok(content)
}

#[test]
fn reads_that_go_on_are_those_of_the_file(rt: HostRuntime) -> Result<(), Fail> {
    let content = content_of(rt.alloc())?;
    assert!(rt; is_written(&rt, &["ahead.0"], &content));
    assert!(rt; is_so(rt.alloc(), &rt, "ahead", Asked::Reads(&content))?);
    Ok(())
}

// What a disk tells of files that it can't measure.
fn why_unmeasured<R: Files<File = File>>(
    alloc: Global,
    rt: &R,
    base: &str,
) -> Result<String, AllocError> {
    let mut disk = disk_at(alloc, rt, base)?;
    let is_measured = meta_len(&mut disk).is_some();
    let why = disk.why()?;
    match why {
        Some(why) if !is_measured => Ok(why),
        _ => Ok(String::new(alloc)),
    }
}

#[test]
fn a_link_is_followed_and_a_folder_is_a_fault(rt: HostRuntime) -> Result<(), Fail> {
    assert!(rt; is_written(&rt, &["kinds-elsewhere"], b"abc"));
    assert!(rt; is_linked(&rt, "kinds-elsewhere", "kinds.meta"));
    assert!(rt;
        is_so(rt.alloc(), &rt, "kinds", Asked::Meta(Some(3)))? && is_folder(&rt, "kinds.4")
    );
    let why = why_unmeasured(rt.alloc(), &rt, "kinds")?;
    assert_eq!(rt; why.as_str(), "kinds.4: not a regular file (measure)");
    Ok(())
}

// Whether one disk writes alone: meanwhile the other one doesn't, and a third one can't even measure; behind it the lock is free, but
// the files aren't those that the other one was told.
fn writes_alone<R: Files<File = File>>(
    alloc: Global,
    rt: &R,
    one: impl Disk + Drop,
    other: &mut impl Disk,
) -> Result<bool, AllocError> {
    let mut one = one;
    let is_sole = meta_len(other) == Some(0)
        && is_appended(&mut one, b"abc")
        && !is_appended(other, b"x");
    let is_locked = is_so(alloc, rt, "one_writer", Asked::Meta(None))?;
    drop(one);
    let is_kept = !is_appended(other, b"x") && len_of(rt, "one_writer.meta") == Some(3);
    Ok(is_sole && is_locked && is_kept)
}

fn one_writes<R: Files<File = File>>(alloc: Global, rt: &R) -> Result<bool, AllocError> {
    let one = disk_at(alloc, rt, "one_writer")?;
    writes_alone(alloc, rt, one, &mut disk_at(alloc, rt, "one_writer")?)
}

#[test]
fn one_disk_writes_an_archive(rt: HostRuntime) -> Result<(), Fail> {
    assert!(rt; one_writes(rt.alloc(), &rt)?);
    Ok(())
}

fn is_untouched<R: Files<File = File>>(alloc: Global, rt: &R) -> Result<bool, AllocError> {
    let base = String::from_str(alloc, "for_reading")?;
    let is_written = is_appended(&mut FileDisk::for_reading(alloc, rt, base), b"x");
    Ok(!is_written && len_of(rt, "for_reading.meta").is_none())
}

#[test]
fn a_disk_for_reading_changes_nothing(rt: HostRuntime) -> Result<(), Fail> {
    assert!(rt; is_untouched(rt.alloc(), &rt)?);
    Ok(())
}
