//! Worked cases of the top call, over files and a sink in memory.

ghost use Rattle.std.specs.Prelude.{◌≤◌};

use galois_run::{Status, run_turns, status_line};
use gx_base::What;
use gx_io::{MemFiles, MemSink};
use std::alloc::Global;
use std::test::Fail;

const FOUR_NODES: &str = "c example
p max 4 5
n 1 s
n 4 t
a 1 2 3
a 1 3 2
a 2 4 2
a 3 4 3
a 2 3 5
";

const FOUR_NODES_REPORT: &str = "c i 2
c i 2
c i 3
c i 3
s 5
f 1 2 3
f 1 3 2
f 2 4 2
f 3 4 3
f 2 3 1
";

/// How a run ended, and what it wrote.
#[derive(Drop)]
pub(crate) struct Ended {
    pub status: Status,
    pub written: Vec<u8>,
}

/// What is to fail in a run, by the numbers of the calls, and how much a write takes.
#[derive(Clone, Copy)]
pub(crate) struct Trouble<'a> {
    pub reads: &'a [u64],
    pub writes: &'a [u64],
    pub most: usize,
}

pub(crate) const NONE: Trouble = Trouble {
    reads: &[],
    writes: &[],
    most: 65_536,
};

/// Runs the program on these words, where the file `net` holds this text.
pub(crate) fn run_words(
    alloc: Global,
    words: &[&str],
    text: &str,
    trouble: Trouble,
) -> Result<Ended, Fail>
    requires { 1 ≤ trouble.most }
{
    let mut all = Vec::new(alloc);
    for word in words {
        all.push(String::from_str(alloc, word)?)?;
    }
    let file = (
        String::from_str(alloc, "net")?,
        text.as_bytes().to_vec(alloc)?,
    );
    let mut files = MemFiles::new(vec![in alloc; file]?, trouble.reads.to_vec(alloc)?);
    let Ok(mut sink) = MemSink::new(alloc, trouble.most, trouble.writes.to_vec(alloc)?) else {
        return Err("no memory".into());
    };
    let status = run_turns(alloc, &all, &mut files, &mut sink);
    Ok(Ended {
        status,
        written: sink.bytes().to_vec(alloc)?,
    })
}

/// Whether a run on these words ends so, and has written this.
pub(crate) fn ends_so(
    alloc: Global,
    words: &[&str],
    text: &str,
    trouble: Trouble,
    status: Status,
    written: &str,
) -> Result<bool, Fail>
    requires { 1 ≤ trouble.most }
{
    let run = run_words(alloc, words, text, trouble)?;
    Ok(run.status == status && run.written.as_slice() == written.as_bytes())
}

/// Whether `flow` on the four nodes ends so where this fails, and has written this.
fn four_nodes_end_so(
    alloc: Global,
    trouble: Trouble,
    status: Status,
    written: &str,
) -> Result<bool, Fail>
    requires { 1 ≤ trouble.most }
{
    ends_so(
        alloc,
        &["flow", "net"],
        FOUR_NODES,
        trouble,
        status,
        written,
    )
}

/// Networks, each with the report of one worker, and with the value of the greatest flow.
pub(crate) const NETWORKS: [(&str, &str, i64); 6] = [
    (FOUR_NODES, FOUR_NODES_REPORT, 5),
    // two ways of one unit each
    (
        "p max 4 4
n 1 s
n 4 t
a 1 2 1
a 1 3 1
a 2 4 1
a 3 4 1
",
        "c i 2
c i 2
c i 3
c i 3
s 2
f 1 2 1
f 1 3 1
f 2 4 1
f 3 4 1
",
        2,
    ),
    // no way to the sink
    (
        "p max 3 1
n 1 s
n 3 t
a 1 2 4
",
        "c i 2
c i 2
s 0
f 1 2 0
",
        0,
    ),
    (
        "p max 2 0
n 1 s
n 2 t
",
        "s 0
",
        0,
    ),
    // parallel arcs
    (
        "p max 2 4
n 1 s
n 2 t
a 1 2 3
a 1 2 4
a 2 1 5
a 1 2 0
",
        "s 7
f 1 2 3
f 1 2 4
f 2 1 0
f 1 2 0
",
        7,
    ),
    // large capacities
    (
        "p max 3 4
n 1 s
n 3 t
a 1 2 1000000000
a 1 2 1000000000
a 2 3 1000000000
a 2 3 1000000000
",
        "c i 2
c i 2
s 2000000000
f 1 2 1000000000
f 1 2 1000000000
f 2 3 1000000000
f 2 3 1000000000
",
        2_000_000_000,
    ),
];

#[test]
fn small_networks_have_their_reports(rt: HostRuntime) -> Result<(), Fail> {
    for (text, report, _) in NETWORKS {
        assert!(rt;
            ends_so(rt.alloc(), &["flow", "net"], text, NONE, Status::Ok, report)?,
            "{text}"
        );
    }
    Ok(())
}

#[test]
fn failing_read(rt: HostRuntime) -> Result<(), Fail> {
    let alloc = rt.alloc();
    let failing = Trouble {
        reads: &[1],
        ..NONE
    };
    assert!(rt; four_nodes_end_so(alloc, failing, Status::ReadFault, "")?);
    let absent = ["flow", "absent"];
    assert!(rt; ends_so(alloc, &absent, FOUR_NODES, NONE, Status::ReadFault, "")?);
    Ok(())
}

#[test]
fn short_writes(rt: HostRuntime) -> Result<(), Fail> {
    let alloc = rt.alloc();
    let third = Trouble {
        writes: &[2],
        most: 5,
        ..NONE
    };
    assert!(rt; four_nodes_end_so(alloc, third, Status::WriteFault, "c i 2\nc i ")?);
    let none = Trouble { most: 5, ..NONE };
    assert!(rt; four_nodes_end_so(alloc, none, Status::Ok, FOUR_NODES_REPORT)?);
    Ok(())
}

#[test]
fn usage_words(rt: HostRuntime) -> Result<(), Fail> {
    let alloc = rt.alloc();
    let wrong: [&[&str]; 15] = [
        &[],
        &["flow"],
        &["flow", "net", "net"],
        &["flow", "--seed"],
        &["flow", ""],
        &["fly", "net"],
        &["FLOW", "net"],
        &["classify"],
        &["classify", "net", "net"],
        &["classify", "--table"],
        &["flow", "net", "--table", "precise", "--conditions", "own"],
        &["flow", "--help"],
        &["--help", "net"],
        &["--help", "--version"],
        &["--Help"],
    ];
    for words in wrong {
        assert!(rt; ends_so(alloc, words, FOUR_NODES, NONE, Status::Usage, "")?);
    }
    let dash = ["flow", "-net"];
    assert!(rt; ends_so(alloc, &dash, FOUR_NODES, NONE, Status::ReadFault, "")?);
    Ok(())
}

/// Whether this word alone ends well, reads nothing, and writes a text that begins and ends like this.
fn tells_of_itself(alloc: Global, word: &str, first: &str, last: &str) -> Result<bool, Fail> {
    // neither starting a file nor reading one would do
    let failing = Trouble {
        reads: &[0, 1],
        ..NONE
    };
    let run = run_words(alloc, &[word], FOUR_NODES, failing)?;
    let text = run.written.as_slice();
    Ok(
        run.status == Status::Ok
            && text.starts_with(first.as_bytes())
            && text.ends_with(last.as_bytes()),
    )
}

#[test]
fn help_and_version(rt: HostRuntime) -> Result<(), Fail> {
    let alloc = rt.alloc();
    let first = "usage: galois COMMAND WORDS [--name value]...\n\nCommands:\n  flow FILE ";
    assert!(rt;
        tells_of_itself(
            alloc,
            "--help",
            first,
            "\n  galois cluster examples/square.points\n"
        )?
    );
    let name = "galois 0.1\n";
    assert!(rt; tells_of_itself(alloc, "--version", name, name)?);
    Ok(())
}

#[test]
fn refused_networks(rt: HostRuntime) -> Result<(), Fail> {
    for (text, status) in [
        (
            "p max 2 1\nn 1 s\nn 2 t\na 0 2 5\n",
            Status::BadInput { line: 4 },
        ),
        (
            "p max 2 2\nn 1 s\nn 2 t\na 1 2 5\n",
            Status::BadInput { line: 5 },
        ),
        (
            "p max 100001 0\nn 1 s\nn 2 t\n",
            Status::TooLarge { what: What::Nodes },
        ),
    ] {
        assert!(rt; ends_so(rt.alloc(), &["flow", "net"], text, NONE, status, "")?);
    }
    Ok(())
}

fn tells(alloc: Global, status: Status, line: &str) -> Result<bool, Fail> {
    match status_line(alloc, &status) {
        Ok(told) => Ok(told.as_str() == line),
        Err(_) => Err("no memory".into()),
    }
}

#[test]
fn status_lines(rt: HostRuntime) -> Result<(), Fail> {
    for (status, line) in [
        (Status::Ok, ""),
        (
            Status::Usage,
            "galois: usage: galois COMMAND WORDS [--name value]...",
        ),
        (Status::BadInput { line: 12 }, "galois: line 12: bad input"),
        (
            Status::TooLarge { what: What::File },
            "galois: too large: file",
        ),
        (Status::Spent, "galois: spent"),
        (Status::Kept, "galois: kept"),
    ] {
        assert!(rt; tells(rt.alloc(), status, line)?);
    }
    Ok(())
}
