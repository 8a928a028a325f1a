ghost use Rattle.std.specs.Prelude.{◌<◌, ◌≤◌, ◌^◌};
ghost use Rattle.p9_manual.specs.Effects.{message_length, room_for};

use crate::{
    Device, Failed, FileDevice, Files, FilesFault, MemFiles, MemSink, MemSource, PathFail,
    ReadDevice, RealFiles, Sink, Source, StdSink, StdSource, WriteDevice, drain,
};
use p9_word::{Effect, IoCall, Msg, NoMemory, Room, Seq};
use std::alloc::Global;
use std::fs;
use std::fs::File;
use std::os::unix::fs::{PermissionsExt, symlink};
use std::process::Abort;
use std::test::Fail;

fn lasts<T>(outcome: Result<T, NoMemory>) -> Result<T, Fail> {
    Ok(outcome.ok().ok_or("no memory")?)
}

fn opens<T>(outcome: Result<T, FilesFault>) -> Result<T, Fail> {
    Ok(outcome.ok().ok_or("not opened or closed")?)
}

fn numbers(alloc: Global, n: u64) -> Result<Seq<u64>, Fail> {
    let mut numbers = Room::new(alloc);
    lasts(numbers.reserve(1))?;
    if numbers.spare() > 0 {
        numbers.push(n);
    }
    Ok(numbers.into_seq())
}

/// Serves one call, and tells its effect: the bytes that were read or the count that was written, and
/// whether that failed.
fn told<D: Device>(alloc: Global, device: &mut D, call: IoCall) -> Result<String, Fail>
    requires room { room_for call ≤ 65536 }
    requires message { message_length call < 2 ^ 32 }
{
    let mut room = Room::new(alloc);
    lasts(room.reserve(65536))?;
    if room.spare() < 65536 {
        return Err(Fail::from("no room"));
    }
    let text = match device.serve(&call, room) {
        Effect::Got { failed, bytes } => {
            let text = String::from_utf8_lossy(alloc, bytes.as_slice())?;
            format!(in alloc; "{text} {failed}")?
        }
        Effect::Wrote { count, failed } => format!(in alloc; "{count} {failed}")?,
        Effect::Opened => format!(in alloc; "opened")?,
        Effect::Shut => format!(in alloc; "shut")?,
        Effect::Refused => format!(in alloc; "refused")?,
    };
    Ok(text)
}

fn expect_effect<D: Device>(
    rt: &impl Abort,
    alloc: Global,
    device: &mut D,
    call: IoCall,
    wanted: &str,
) -> Result<(), Fail>
    requires room { room_for call ≤ 65536 }
    requires message { message_length call < 2 ^ 32 }
{
    let text = told(alloc, device, call)?;
    assert_eq!(rt; text.as_str(), wanted);
    Ok(())
}

#[test]
fn faults_have_texts(rt: HostRuntime) -> Result<(), Fail> {
    let text = format!(in rt.alloc(); "{Failed}; {}; {}", FilesFault::Failed, FilesFault::Memory)?;
    assert_eq!(rt;
        text.as_str(),
        "a read or a write failed; the file can't be opened or closed; memory was wanted"
    );
    Ok(())
}

#[test]
fn a_file_is_read_until_a_read_fails(rt: HostRuntime) -> Result<(), Fail> {
    let alloc = rt.alloc();
    let bytes = lasts(Msg::from_slice(alloc, b"abcdef"))?;
    let source = MemSource::new(bytes, 2, numbers(alloc, 3)?);
    let mut device: FileDevice<MemSource, MemSink> = FileDevice::In(ReadDevice::new(source));
    expect_effect(&rt, alloc, &mut device, IoCall::IoReadN(3), "refused")?;
    expect_effect(&rt, alloc, &mut device, IoCall::IoOpen, "opened")?;
    expect_effect(&rt, alloc, &mut device, IoCall::IoReadN(0), "refused")?;
    expect_effect(&rt, alloc, &mut device, IoCall::IoReadN(3), "abc false")?;
    expect_effect(&rt, alloc, &mut device, IoCall::IoReadN(3), " true")?;
    expect_effect(&rt, alloc, &mut device, IoCall::IoReadN(3), " false")?;
    expect_effect(&rt, alloc, &mut device, IoCall::IoClose, "shut")?;
    Ok(())
}

#[test]
fn a_file_is_written_until_a_write_fails(rt: HostRuntime) -> Result<(), Fail> {
    let alloc = rt.alloc();
    let sink = lasts(MemSink::new(alloc, 5, 2, numbers(alloc, 2)?))?;
    let mut device = WriteDevice::new(sink);
    expect_effect(&rt, alloc, &mut device, IoCall::IoOpen, "opened")?;
    let message = lasts(Msg::from_slice(alloc, b"abc"))?;
    if message.as_slice().len() != 3 {
        return Ok(());
    }
    expect_effect(&rt, alloc, &mut device, IoCall::IoWrite(message), "2 true")?;
    let mut sink = device.into_inner();
    assert_eq!(rt; sink.as_slice(), b"ab".as_slice());
    assert_eq!(rt; drain(&mut sink, b"cdefg"), 3);
    assert_eq!(rt; sink.as_slice(), b"abcde".as_slice());
    Ok(())
}

#[test]
fn a_single_read_gives_what_one_read_gives(rt: HostRuntime) -> Result<(), Fail> {
    let alloc = rt.alloc();
    let bytes = lasts(Msg::from_slice(alloc, b"abcdef"))?;
    let source = MemSource::new(bytes, 4, numbers(alloc, 4)?);
    let mut device: FileDevice<MemSource, MemSink> = FileDevice::In(ReadDevice::new(source));
    expect_effect(&rt, alloc, &mut device, IoCall::IoRead(3), "refused")?;
    expect_effect(&rt, alloc, &mut device, IoCall::IoOpen, "opened")?;
    expect_effect(&rt, alloc, &mut device, IoCall::IoRead(0), "refused")?;
    expect_effect(&rt, alloc, &mut device, IoCall::IoRead(65537), "refused")?;
    expect_effect(&rt, alloc, &mut device, IoCall::IoRead(3), "abc false")?;
    expect_effect(&rt, alloc, &mut device, IoCall::IoRead(65536), "def false")?;
    expect_effect(&rt, alloc, &mut device, IoCall::IoRead(3), " false")?;
    expect_effect(&rt, alloc, &mut device, IoCall::IoRead(3), " true")?;
    expect_effect(&rt, alloc, &mut device, IoCall::IoRead(3), " false")?;
    expect_effect(&rt, alloc, &mut device, IoCall::IoReadN(3), " false")?;
    Ok(())
}

#[test]
fn a_file_that_is_read_refuses_the_rest(rt: HostRuntime) -> Result<(), Fail> {
    let alloc = rt.alloc();
    let source = MemSource::new(
        lasts(Msg::from_slice(alloc, b"abc"))?,
        2,
        numbers(alloc, 9)?,
    );
    let mut reader: FileDevice<MemSource, MemSink> = FileDevice::In(ReadDevice::new(source));
    expect_effect(&rt, alloc, &mut reader, IoCall::IoOpen, "opened")?;
    expect_effect(
        &rt,
        alloc,
        &mut reader,
        IoCall::IoWrite(Msg::new()),
        "refused",
    )?;
    expect_effect(
        &rt,
        alloc,
        &mut reader,
        IoCall::IoOwn(7, Msg::new()),
        "refused",
    )?;
    expect_effect(&rt, alloc, &mut reader, IoCall::IoReadN(65537), "refused")?;
    Ok(())
}

#[test]
fn a_file_that_is_written_refuses_the_rest(rt: HostRuntime) -> Result<(), Fail> {
    let alloc = rt.alloc();
    let sink = lasts(MemSink::new(alloc, 5, 2, numbers(alloc, 9)?))?;
    let mut writer: FileDevice<MemSource, MemSink> = FileDevice::Out(WriteDevice::new(sink));
    expect_effect(
        &rt,
        alloc,
        &mut writer,
        IoCall::IoWrite(Msg::new()),
        "refused",
    )?;
    expect_effect(&rt, alloc, &mut writer, IoCall::IoOpen, "opened")?;
    expect_effect(&rt, alloc, &mut writer, IoCall::IoRead(3), "refused")?;
    expect_effect(&rt, alloc, &mut writer, IoCall::IoReadN(3), "refused")?;
    expect_effect(
        &rt,
        alloc,
        &mut writer,
        IoCall::IoOwn(7, Msg::new()),
        "refused",
    )?;
    expect_effect(
        &rt,
        alloc,
        &mut writer,
        IoCall::IoWrite(Msg::new()),
        "0 false",
    )?;
    expect_effect(&rt, alloc, &mut writer, IoCall::IoClose, "shut")?;
    Ok(())
}

#[test]
fn memory_files_fail_as_planned(rt: HostRuntime) -> Result<(), Fail> {
    let alloc = rt.alloc();
    let mut files = MemFiles::new(alloc);
    assert!(rt; files.source(alloc, b"in").err() == Some(FilesFault::Failed));
    lasts(files.add(b"in", lasts(Msg::from_slice(alloc, b"old"))?))?;
    lasts(files.add(b"in", lasts(Msg::from_slice(alloc, b"abc"))?))?;
    assert!(rt; files.get(b"in") == Some(b"abc".as_slice()));
    lasts(files.plan(b"in", PathFail::Source))?;
    lasts(files.plan(b"in", PathFail::Read(1)))?;
    lasts(files.plan(b"out", PathFail::Sink))?;
    lasts(files.plan(b"out", PathFail::Write(1)))?;
    lasts(files.plan(b"out", PathFail::Close))?;
    assert!(rt; files.source(alloc, b"in").is_err());
    let mut source = opens(files.source(alloc, b"in"))?;
    let mut buf = [0; 8];
    assert!(rt; source.read(&mut buf).is_err());
    assert_eq!(rt; source.read(&mut buf).ok(), Some(3));
    files.room(4);
    assert!(rt; files.sink(alloc, b"out").is_err());
    let sink = opens(files.sink(alloc, b"out"))?;
    assert!(rt; files.close(b"out", sink).is_err());
    assert!(rt; files.get(b"out").is_none());
    let mut sink = opens(files.sink(alloc, b"out"))?;
    assert!(rt; sink.write(b"abcdef").is_err());
    assert_eq!(rt; drain(&mut sink, b"abcdef"), 4);
    opens(files.close(b"out", sink))?;
    assert!(rt; files.get(b"out") == Some(b"abcd".as_slice()));
    Ok(())
}

/// Removes files that a test made, and those of an earlier run that did not end.
fn clear(rt: &HostRuntime, paths: &[&str]) {
    for path in paths {
        let _ = fs::remove_file(rt, *path);
    }
}

#[test]
fn std_readers_and_writers_are_sources_and_sinks(rt: HostRuntime) -> Result<(), Fail> {
    let mut sink = StdSink::new(File::create(&rt, "std.txt")?);
    assert_eq!(rt; drain(&mut sink, b"six by"), 6);
    assert_eq!(rt; sink.taken(), 6);
    let _file = sink.into_inner();
    let mut source = StdSource::new(File::open(&rt, "std.txt")?);
    let mut buf = [0; 8];
    assert_eq!(rt; source.read(&mut buf).ok(), Some(6));
    assert_eq!(rt; source.read(&mut buf).ok(), Some(0));
    assert_eq!(rt; &buf, b"six by\0\0");
    assert_eq!(rt; source.given(), 6);
    let mut folder = StdSource::new(File::open(&rt, ".")?);
    assert!(rt; folder.read(&mut buf).is_err());
    assert_eq!(rt; folder.given(), 0);
    let mut full = StdSink::new(File::create(&rt, "/dev/full")?);
    assert_eq!(rt; drain(&mut full, b"six by"), 0);
    assert_eq!(rt; full.taken(), 0);
    clear(&rt, &["std.txt"]);
    Ok(())
}

/// Writes new contents to a path of the system, in place or under a temporary name.
fn write_through(rt: &HostRuntime, path: &[u8], is_in_place: bool) -> Result<(), Fail> {
    let mut files = RealFiles::new(rt);
    let mut sink = opens(files.sink(rt.alloc(), path))?;
    if drain(&mut sink, b"new") < 3 {
        return Err(Fail::from("not written"));
    }
    if sink.is_in_place() != is_in_place {
        return Err(Fail::from("opened otherwise"));
    }
    opens(files.close(path, sink))?;
    let counts = (files.replaced(), files.written_in_place());
    if counts != if is_in_place { (0, 1) } else { (1, 0) } {
        return Err(Fail::from("not counted"));
    }
    Ok(())
}

#[test]
fn real_files_are_replaced_only_when_whole(rt: HostRuntime) -> Result<(), Fail> {
    let alloc = rt.alloc();
    let mut files = RealFiles::new(&rt);
    fs::write(&rt, "out.txt", "old")?;
    fs::set_permissions(&rt, "out.txt", fs::Permissions::from_mode(0o640))?;
    let mut sink = opens(files.sink(alloc, b"out.txt"))?;
    assert_eq!(rt; drain(&mut sink, b"new"), 3);
    assert_eq!(rt; sink.taken(), 3);
    assert_eq!(rt; fs::read_to_string(&rt, "out.txt")?.as_str(), "old");
    assert!(rt; fs::exists(&rt, ".out.txt.p9pipe-0.tmp")?);
    {
        let _let_go = opens(files.sink(alloc, b"out.txt"))?;
        assert!(rt; fs::exists(&rt, ".out.txt.p9pipe-1.tmp")?);
    }
    assert!(rt; !fs::exists(&rt, ".out.txt.p9pipe-1.tmp")?);
    assert_eq!(rt; files.replaced(), 0);
    opens(files.close(b"out.txt", sink))?;
    assert_eq!(rt; files.replaced(), 1);
    assert_eq!(rt; files.written_in_place(), 0);
    assert_eq!(rt; fs::read_to_string(&rt, "out.txt")?.as_str(), "new");
    assert!(rt; !fs::exists(&rt, ".out.txt.p9pipe-0.tmp")?);
    assert_eq!(rt;
        fs::metadata(&rt, "out.txt")?.permissions().mode() & 0o777,
        0o640
    );
    let mut source = opens(files.source(alloc, b"out.txt"))?;
    let mut buf = [0; 8];
    assert_eq!(rt; source.read(&mut buf).ok(), Some(3));
    clear(&rt, &["out.txt"]);
    Ok(())
}

/// What the test of paths makes.
const MADE: [&str; 4] = [
    "link.txt",
    "folder/real.txt",
    "folder/made.txt",
    "folder/dangling.txt",
];

#[test]
fn real_paths_are_taken_as_a_filter_takes_them(rt: HostRuntime) -> Result<(), Fail> {
    let alloc = rt.alloc();
    clear(&rt, &MADE);
    let _ = fs::remove_dir(&rt, "folder");
    fs::create_dir(&rt, "folder")?;
    fs::write(&rt, "folder/real.txt", "old")?;
    symlink(&rt, "folder/real.txt", "link.txt")?;
    symlink(&rt, "made.txt", "folder/dangling.txt")?;
    write_through(&rt, b"link.txt", false)?;
    write_through(&rt, b"folder/dangling.txt", false)?;
    write_through(&rt, b"/dev/null", true)?;
    assert!(rt; fs::symlink_metadata(&rt, "link.txt")?.is_symlink());
    assert_eq!(rt; fs::read_to_string(&rt, "folder/real.txt")?.as_str(), "new");
    assert!(rt; fs::symlink_metadata(&rt, "folder/dangling.txt")?.is_symlink());
    assert_eq!(rt; fs::read_to_string(&rt, "folder/made.txt")?.as_str(), "new");
    assert!(rt; !fs::metadata(&rt, "/dev/null")?.is_file());
    let mut files = RealFiles::new(&rt);
    for path in [
        b"folder".as_slice(),
        b"folder/".as_slice(),
        b"".as_slice(),
        b"\xff".as_slice(),
    ] {
        assert!(rt; files.source(alloc, path).err() == Some(FilesFault::Failed));
        assert!(rt; files.sink(alloc, path).err() == Some(FilesFault::Failed));
    }
    assert!(rt; files.sink(alloc, b"none/out.txt").is_err());
    assert!(rt; files.sink(alloc, b"new/").is_err());
    clear(&rt, &MADE);
    fs::remove_dir(&rt, "folder")?;
    Ok(())
}
