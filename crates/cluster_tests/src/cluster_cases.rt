//! Small files and the reports of their runs, one body after another, worked by hand.

use clustering::{Chain, read_points, report, start};
use commit_book::run_serially;
use gx_base::Spot;
use std::alloc::Global;
use std::test::Fail;

/// The points of a file, or none where it is refused.
fn points(alloc: Global, file: &[u8]) -> Option<Vec<Spot>> {
    match read_points(alloc, file) {
        Ok(spots) if spots.len() <= 20_000 => Some(spots),
        _ => None,
    }
}

/// Whether a run of these points is reported so, and false where memory runs out.
fn reports(alloc: Global, spots: &[Spot], text: &[u8]) -> bool {
    if spots.len() > 20_000 {
        return false;
    }
    let Ok((mut rooms, ready)) = start(alloc, spots) else {
        return false;
    };
    let chain = Chain::new(spots.len() as u64);
    match run_serially(alloc, &chain, &mut rooms, &ready) {
        Ok(order) => match report(alloc, spots, &order, &rooms) {
            Ok(bytes) => bytes.as_slice() == text,
            Err(_) => false,
        },
        Err(_) => false,
    }
}

fn is_reported(alloc: Global, file: &str, text: &str) -> bool {
    match points(alloc, file.as_bytes()) {
        Some(spots) => reports(alloc, &spots, text.as_bytes()),
        None => false,
    }
}

#[test]
fn cluster_small_files(rt: HostRuntime) -> Result<(), Fail> {
    assert!(rt; is_reported(rt.alloc(), "", ""));
    assert!(rt; is_reported(rt.alloc(), "5,7\n", "i 0\nc 0 5 7 1\n"));
    Ok(())
}

#[test]
fn cluster_square(rt: HostRuntime) -> Result<(), Fail> {
    let file = "0,0\n0,2\n2,2\n2,0\n";
    let text = "i 0\ni 0\ni 0\ni 0\ni 1\ni 2\ni 3\nm 1 0 2\nm 2 0 4\nm 3 2 2\nc 0 1 1 4\n";
    assert!(rt; is_reported(rt.alloc(), file, text));
    Ok(())
}

#[test]
fn cluster_line(rt: HostRuntime) -> Result<(), Fail> {
    let file = "0,0\n10,0\n15,0\n";
    let text = "i 0\ni 0\ni 0\ni 1\ni 2\nm 1 0 3\nm 2 1 2\nc 0 8 0 3\n";
    assert!(rt; is_reported(rt.alloc(), file, text));
    Ok(())
}
