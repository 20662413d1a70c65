//! Files, the words of runs on them, and what is written, worked by hand.

use galois_run::{Status, run_turns};
use gx_base::What;
use gx_io::{MemFiles, MemSink};
use std::alloc::Global;
use std::test::Fail;

/// How a run ended, and what it wrote.
#[derive(Drop)]
pub(crate) struct Ended {
    pub status: Status,
    pub written: Vec<u8>,
}

/// Runs the program on these words, where the file `points` holds this text, and `table` that.
pub(crate) fn run_words(
    alloc: Global,
    words: &[&str],
    points: &[u8],
    table: &str,
) -> Result<Ended, Fail> {
    let mut all = Vec::new(alloc);
    for word in words {
        all.push(String::from_str(alloc, word)?)?;
    }
    let first = (String::from_str(alloc, "points")?, points.to_vec(alloc)?);
    let second = (
        String::from_str(alloc, "table")?,
        table.as_bytes().to_vec(alloc)?,
    );
    let mut files = MemFiles::new(vec![in alloc; first, second]?, Vec::new(alloc));
    let Ok(mut sink) = MemSink::new(alloc, 65_536, Vec::new(alloc)) else {
        return Err("no memory".into());
    };
    let status = run_turns(alloc, &all, &mut files, &mut sink);
    Ok(Ended {
        status,
        written: sink.bytes().to_vec(alloc)?,
    })
}

/// Whether `cluster` on these points ends well and writes this.
fn writes(alloc: Global, points: &str, text: &str) -> Result<bool, Fail> {
    let run = run_words(alloc, &["cluster", "points"], points.as_bytes(), "")?;
    Ok(run.status == Status::Ok && run.written.as_slice() == text.as_bytes())
}

/// Whether `cluster` on these points, with these words after them, ends with this status and writes nothing.
fn refuses(
    alloc: Global,
    words: &[&str],
    points: &[u8],
    table: &str,
    status: Status,
) -> Result<bool, Fail> {
    let run = run_words(alloc, words, points, table)?;
    Ok(run.status == status && run.written.is_empty())
}

#[test]
fn cluster_small_files(rt: HostRuntime) -> Result<(), Fail> {
    assert!(rt; writes(rt.alloc(), "5,7\n", "i 0\nc 0 5 7 1\n")?);
    assert!(rt; writes(rt.alloc(), "", "")?);
    let words = ["cluster", "points"];
    for (file, line) in [("5,7\n5\n", 2), ("x,y\n5,7\n", 1)] {
        let status = Status::BadInput { line };
        assert!(rt; refuses(rt.alloc(), &words, file.as_bytes(), "", status)?);
    }
    Ok(())
}

#[test]
fn cluster_square(rt: HostRuntime) -> Result<(), Fail> {
    let file = "0,0\n0,2\n2,2\n2,0\n";
    let text = "i 0\ni 0\ni 0\ni 0\ni 1\ni 2\ni 3\nm 1 0 2\nm 2 0 4\nm 3 2 2\nc 0 1 1 4\n";
    assert!(rt; writes(rt.alloc(), file, text)?);
    Ok(())
}

#[test]
fn cluster_line(rt: HostRuntime) -> Result<(), Fail> {
    let file = "0,0\n10,0\n15,0\n";
    let text = "i 0\ni 0\ni 0\ni 1\ni 2\nm 1 0 3\nm 2 1 2\nc 0 8 0 3\n";
    assert!(rt; writes(rt.alloc(), file, text)?);
    Ok(())
}

#[test]
fn too_many_points(rt: HostRuntime) -> Result<(), Fail> {
    let mut file = Vec::new(rt.alloc());
    for _ in 0..20_001u64 {
        file.extend_from_slice(b"3,4\n")?;
    }
    let status = Status::TooLarge { what: What::Points };
    assert!(rt; refuses(rt.alloc(), &["cluster", "points"], &file, "", status)?);
    Ok(())
}

const CONDITIONS: [(&str, Status); 4] = [
    (
        "type flow\n",
        Status::BadTable {
            why: galois_run::TableFault::Line(1),
        },
    ),
    (
        "type points\nat fly : true\n",
        Status::BadTable {
            why: galois_run::TableFault::Line(2),
        },
    ),
    (
        "type points\nnearest add : true\n",
        Status::BadTable {
            why: galois_run::TableFault::Pair {
                first: 35,
                second: 32,
            },
        },
    ),
    (
        "type cells\nset set : true\n",
        Status::BadTable {
            why: galois_run::TableFault::Pair {
                first: 10,
                second: 10,
            },
        },
    ),
];

#[test]
fn refused_conditions(rt: HostRuntime) -> Result<(), Fail> {
    let words = ["cluster", "points", "--conditions", "table"];
    for (table, status) in CONDITIONS {
        assert!(rt; refuses(rt.alloc(), &words, b"5,7\n", table, status)?);
    }
    Ok(())
}
