//! What no clause says: that the calls answer with memory to be had, what the worked examples give, and
//! what the devices over std do.
ghost use Rattle.std.specs.Prelude.{◌≤◌};

use crate::{
    Failed, FileShelf, MemShelf, MemSink, NoMemory, ReadFault, Shelf, Sink, StdSink, read_named,
    write_whole,
};
use std::process::{self, Abort};
use std::test::Fail;
use std::{env, fs};

// How much of a piece of so many bytes is written, in how many faults, at a sink of this room and take
// whose second write fails.
fn written_of(
    rt: &(impl Abort + AllocGlobal),
    room: usize,
    take: usize,
    len: usize,
) -> Result<(bool, usize, u64), Fail>
    requires { 1 ≤ take }
{
    let mut sink = MemSink::make(rt.alloc(), room, take, &[2])?;
    let piece = vec![in rt.alloc(); 7u8; len]?;
    let whole = write_whole(&mut sink, piece.as_slice()).is_ok();
    Ok((whole, sink.written().len(), sink.faults()))
}

#[test]
fn a_sink_takes_its_share_of_each_piece_and_fails_where_it_is_told(
    rt: HostRuntime,
) -> Result<(), Fail> {
    assert_eq!(rt; written_of(&rt, 100, 10, 5)?, (true, 5, 0));
    assert_eq!(rt; written_of(&rt, 100, 10, 10)?, (true, 10, 0));
    assert_eq!(rt; written_of(&rt, 100, 10, 11)?, (false, 10, 1));
    assert_eq!(rt; written_of(&rt, 10_000, 100, 2_000)?, (false, 100, 1));
    assert_eq!(rt;
        written_of(&rt, 3, 10, 4)?,
        (false, 3, 1),
        "the sink is full"
    );
    assert_eq!(rt; written_of(&rt, 0, 10, 0)?, (true, 0, 0));
    Ok(())
}

#[test]
fn a_name_is_read_whole_up_to_the_limit(rt: HostRuntime) -> Result<(), Fail> {
    let mut shelf = MemShelf::make(rt.alloc(), 3, &[])?;
    shelf.add_file("a.s", b"first")?;
    shelf.add_file("b.s", b"")?;
    shelf.add_file("a.s", b"second")?;
    for (name, limit, want) in [
        ("a.s", 100, Ok(b"second".as_slice())),
        ("a.s", 6, Ok(b"second".as_slice())),
        ("a.s", 5, Err(ReadFault::TooLong)),
        ("a.s", 0, Err(ReadFault::TooLong)),
        ("b.s", 0, Ok(b"".as_slice())),
        ("c.s", 100, Err(ReadFault::Failed)),
    ] {
        let read = read_named(rt.alloc(), &mut shelf, name, limit);
        assert!(rt;
            read.as_ref()
                .map(|bytes| bytes.as_slice())
                .map_err(|fault| *fault)
                == want,
            "{name} {limit}"
        );
    }
    assert_eq!(rt; shelf.faults(), 1, "of the name that no file has");
    Ok(())
}

#[test]
fn a_fault_in_mid_stream_is_told_and_the_files_stay(rt: HostRuntime) -> Result<(), Fail> {
    for (failing, faults) in [(1, 1), (2, 1), (3, 1), (5, 1), (6, 0)] {
        let mut shelf = MemShelf::make(rt.alloc(), 2, &[failing])?;
        shelf.add_file("a.s", b"12345")?;
        let first = read_named(rt.alloc(), &mut shelf, "a.s", 100);
        assert_eq!(rt;
            first.err(),
            if faults == 1 {
                Some(ReadFault::Failed)
            } else {
                None
            },
            "{failing}"
        );
        assert_eq!(rt; shelf.faults(), faults, "{failing}");
        let again = read_named(rt.alloc(), &mut shelf, "a.s", 100);
        assert_eq!(rt; again.is_ok(), failing != 6, "{failing}");
    }
    Ok(())
}

#[test]
fn a_file_of_many_pieces_is_read_whole(rt: HostRuntime) -> Result<(), Fail> {
    let mut content = Vec::new(rt.alloc());
    for i in 0..200_003u32 {
        content.push((i % 251) as u8)?;
    }
    for take in [7usize, 100_000] {
        let mut shelf = MemShelf::make(rt.alloc(), take, &[])?;
        shelf.add_file("long", content.as_slice())?;
        let read = read_named(rt.alloc(), &mut shelf, "long", 200_003)?;
        assert!(rt; read.as_slice() == content.as_slice(), "{take}");
    }
    Ok(())
}

#[test]
fn files_of_the_system_are_read_and_their_faults_counted(rt: HostRuntime) -> Result<(), Fail> {
    let folder = env::temp_dir(&rt)?;
    let path = format!(in rt.alloc(); "{}/mca_io-{}", folder.display(), process::id(rt.process()))?;
    fs::write(&rt, path.as_str(), b"the content")?;
    let mut shelf = FileShelf::make(&rt, rt.alloc());
    let read = read_named(rt.alloc(), &mut shelf, path.as_str(), 100);
    let long = read_named(rt.alloc(), &mut shelf, path.as_str(), 10);
    fs::remove_file(&rt, path.as_str())?;
    assert_eq!(rt; read?.as_slice(), b"the content".as_slice());
    assert_eq!(rt; long.err(), Some(ReadFault::TooLong));
    assert!(rt; shelf.choose(path.as_str()).is_err(), "the file is gone");
    assert_eq!(rt;
        read_named(rt.alloc(), &mut shelf, "/", 100).err(),
        Some(ReadFault::Failed),
        "a directory is no file"
    );
    Ok(())
}

#[test]
fn a_writer_of_std_gets_the_bytes(rt: HostRuntime) -> Result<(), Fail> {
    let mut bytes: Vec<u8> = Vec::new(rt.alloc());
    let mut sink = StdSink::make(&mut bytes);
    assert!(rt; write_whole(&mut sink, b"one line\n").is_ok());
    assert_eq!(rt; bytes.as_slice(), b"one line\n".as_slice());
    let mut out = StdSink::make(rt.stdout());
    assert_eq!(rt; out.write(b"x\n").ok(), Some(2));
    let mut room = [0u8; 4];
    let mut full = StdSink::make(&mut room[..]);
    assert!(rt;
        write_whole(&mut full, b"12345").is_err(),
        "a write of nothing counts as a fault"
    );
    Ok(())
}

#[test]
fn faults_say_what_was_wrong(rt: HostRuntime) -> Result<(), Fail> {
    for (fault, want) in [
        (ReadFault::Failed, "the shelf failed"),
        (ReadFault::TooLong, "the content is too long"),
        (ReadFault::Memory, "out of memory"),
    ] {
        assert_eq!(rt; format!(in rt.alloc(); "{fault}")?.as_str(), want);
    }
    let (failed, memory) = (Failed, NoMemory);
    assert_eq!(rt;
        format!(in rt.alloc(); "{failed}; {memory}")?.as_str(),
        "a device failed; out of memory"
    );
    Ok(())
}
