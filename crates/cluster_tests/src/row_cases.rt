//! Small files, with the row of the first fault worked out by hand.

use clustering::read_points;
use gx_base::{InputFault, NoMemory, What};
use std::alloc::Global;
use std::test::Fail;

const FILES: [(&str, u64); 15] = [
    ("", 0),
    ("5,7", 0),
    ("5,7\n5\n", 2),
    ("x,y\n5,7\n", 1),
    ("5,7\n\n\n8,9\nq,1\n", 3),
    ("\"5\",7\r\n", 0),
    ("0000000005,-0\n", 0),
    ("00000000005,1\n", 1),
    ("1000000000,-1000000000\n", 0),
    ("1000000001,0\n", 1),
    ("5,7,8\n", 1),
    ("5,\n", 1),
    ("5, 7\n", 1),
    ("-,7\n", 1),
    ("+5,7\n", 1),
];

/// The row of the first fault, 0 for a file that is read, and 999 for one that is refused otherwise.
fn row_of(alloc: Global, file: &[u8]) -> u64 {
    match read_points(alloc, file) {
        Ok(_) => 0,
        Err(InputFault::Line(row)) => row,
        Err(_) => 999,
    }
}

#[test]
fn faults_have_their_rows(rt: HostRuntime) {
    for (file, row) in FILES {
        assert_eq!(rt; row_of(rt.alloc(), file.as_bytes()), row);
    }
}

/// So many equal rows, and then the bytes given.
fn rows(alloc: Global, count: u64, end: &[u8]) -> Result<Vec<u8>, NoMemory> {
    let mut text = Vec::new(alloc);
    for _ in 0..count {
        text.extend_from_slice(b"1,2\n")?;
    }
    text.extend_from_slice(end)?;
    Ok(text)
}

fn is_too_large(alloc: Global, text: &[u8]) -> bool {
    matches!(
        read_points(alloc, text),
        Err(InputFault::Large(What::Points))
    )
}

#[test]
fn more_points_than_may_be_read(rt: HostRuntime) -> Result<(), Fail> {
    let most = rows(rt.alloc(), 20_000, b"")?;
    assert_eq!(rt; row_of(rt.alloc(), &most), 0);
    let more = rows(rt.alloc(), 20_001, b"")?;
    assert!(rt; is_too_large(rt.alloc(), &more));
    let faulty = rows(rt.alloc(), 20_001, b"x")?;
    assert_eq!(rt; row_of(rt.alloc(), &faulty), 20_002);
    Ok(())
}
