//! What no clause says: which calls fail, and that calls succeed.

ghost use Rattle.std.specs.Prelude.{◌≤◌};

use gx_io::{MemFiles, MemSink, NeverFails, StdFiles, StdSink, read_whole, write_whole};
use std::alloc::{AllocError, Global};
use std::fs;
use std::test::Fail;

const ROOM: usize = 1_048_576;

fn named(alloc: Global, name: &str, bytes: &[u8]) -> Result<(String, Vec<u8>), AllocError> {
    Ok((String::from_str(alloc, name)?, bytes.to_vec(alloc)?))
}

/// Files of these two names, where the calls with these numbers fail.
fn two_files(alloc: Global, failing: &[u64]) -> Result<MemFiles, AllocError> {
    let long = named(alloc, "long", b"abcdefgh")?;
    let empty = named(alloc, "empty", b"")?;
    let second = named(alloc, "long", b"never read")?;
    let files = vec![in alloc; long, empty, second]?;
    Ok(MemFiles::new(files, failing.to_vec(alloc)?))
}

fn sink_of(alloc: Global, most: usize, failing: &[u64]) -> Result<MemSink, Fail>
    requires { 1 ≤ most }
{
    Ok(
        MemSink::new(alloc, most, failing.to_vec(alloc)?)
            .ok()
            .ok_or("no memory")?,
    )
}

/// How many bytes were read whole, and none at a refusal.
fn read_length(alloc: Global, files: &mut MemFiles, name: &str, limit: u64) -> Option<usize> {
    Some(read_whole(alloc, files, name, limit).ok()?.len())
}

#[test]
fn reads_whole_up_to_the_limit(rt: HostRuntime) -> Result<(), Fail> {
    let alloc = rt.alloc();
    let cases: [(&str, u64, &[u64], Option<usize>); 7] = [
        ("long", 8, &[], Some(8)),
        ("long", 7, &[], None),
        ("empty", 0, &[], Some(0)),
        ("long", 8, &[0], None),
        ("long", 8, &[2], None),
        ("long", 8, &[3], Some(8)),
        ("absent", 8, &[], None),
    ];
    for (name, limit, failing, wanted) in cases {
        let mut files = two_files(alloc, failing)?;
        assert!(rt; read_length(alloc, &mut files, name, limit) == wanted);
    }
    Ok(())
}

#[test]
fn reads_more_than_a_piece(rt: HostRuntime) -> Result<(), Fail> {
    let alloc = rt.alloc();
    let all = vec![in alloc; 7; 200_000]?;
    let files = vec![in alloc; named(alloc, "large", &all)?]?;
    let mut files = MemFiles::new(files, Vec::new(alloc));
    let came = read_whole(alloc, &mut files, "large", 200_000)
        .ok()
        .ok_or("refused")?;
    assert!(rt; came == all);
    Ok(())
}

#[test]
fn a_prefix_is_written_where_a_call_fails(rt: HostRuntime) -> Result<(), Fail> {
    let alloc = rt.alloc();
    let text = b"c i 2\nc i 2\n";
    for (failing, written) in [(0, 0), (1, 5), (2, 10), (3, 12), (4, 12)] {
        let mut sink = sink_of(alloc, 5, &[failing])?;
        assert!(rt; write_whole(&mut sink, text).is_ok() == (failing == 4));
        assert!(rt; sink.bytes() == &text[..written]);
    }
    Ok(())
}

#[test]
fn an_empty_list_is_one_flush(rt: HostRuntime) -> Result<(), Fail> {
    let alloc = rt.alloc();
    let mut sink = sink_of(alloc, 1, &[0])?;
    assert!(rt; write_whole(&mut sink, b"").is_err());
    assert!(rt; write_whole(&mut sink, b"").is_ok());
    Ok(())
}

#[test]
fn never_fails(rt: HostRuntime) -> Result<(), Fail> {
    let alloc = rt.alloc();
    let mut files = NeverFails::new(two_files(alloc, &[])?);
    let long = read_whole(alloc, &mut files, "long", 8)
        .ok()
        .ok_or("refused")?;
    assert!(rt; long.as_slice() == b"abcdefgh".as_slice());
    let absent = read_whole(alloc, &mut files, "absent", 8)
        .ok()
        .ok_or("refused")?;
    assert!(rt; absent.is_empty());

    let mut sink = NeverFails::new(sink_of(alloc, ROOM, &[])?);
    let all = vec![in alloc; 1; ROOM + 1]?;
    assert!(rt; write_whole(&mut sink, &all).is_ok());
    Ok(())
}

#[test]
fn real_files_and_output(rt: HostRuntime) -> Result<(), Fail> {
    let alloc = rt.alloc();
    fs::write(&rt, "two_lines", "one\ntwo\n")?;
    let mut files = StdFiles::new(&rt);
    let came = read_whole(alloc, &mut files, "two_lines", 8)
        .ok()
        .ok_or("refused")?;
    assert!(rt; came.as_slice() == b"one\ntwo\n".as_slice());
    assert!(rt; read_whole(alloc, &mut files, "absent", 8).is_err());
    let mut sink = StdSink::new(&rt);
    assert!(rt; write_whole(&mut sink, &came).is_ok());
    fs::remove_file(&rt, "two_lines")?;
    Ok(())
}
