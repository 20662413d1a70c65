//! Runs of `flow` under tables of the user's choice.

ghost use Rattle.std.specs.Prelude.{◌≤◌};

use galois_run::{Status, TableFault, run_turns, status_line};
use gx_base::What;
use gx_io::{MemFiles, MemSink};
use std::alloc::Global;
use std::test::Fail;

const DIAMOND: &str = "p max 4 4
n 1 s
n 4 t
a 1 2 1
a 1 3 1
a 2 4 1
a 3 4 1
";

/// The diamond under a table in which no two calls of different iterations may stand.
const GLOBAL: &str = "c i 2
c i 2
c i 3
c i 3
s 2
f 1 2 1
f 1 3 1
f 2 4 1
f 3 4 1
t 0 0 take 2 0 0 0
t 1 1 take 3 0 0 0
t 2 0 call 2 excess 2 0 0 0 -> 1 0 0 0
t 3 1 call 3 excess 3 0 0 0 -> 1 0 0 0
t 4 0 call 2 height 2 0 0 0 -> 0 0 0 0
t 5 1 call 3 height 3 0 0 0 -> 0 0 0 0
t 6 0 call 1 flow 1 0 0 0 -> 1 0 0 0
t 7 1 conflict 2 flow 2 0 0 0
u 7 0 0 excess 2 0 0 0 -> 1 0 0 0 would 1 0 0 0
t 8 0 undo 1 flow 1 0 0 0
t 9 0 undo 2 height 2 0 0 0
t 10 0 undo 2 excess 2 0 0 0
t 11 1 undo 3 height 3 0 0 0
t 12 1 undo 3 excess 3 0 0 0
";

const FOUR_NODES: &str = "p max 4 5
n 1 s
n 4 t
a 1 2 3
a 1 3 2
a 2 4 2
a 3 4 3
a 2 3 5
";

const FOUR_NODES_REPORT: &str = "c i 2
c i 2
c i 3
c i 3
s 5
f 1 2 3
f 1 3 2
f 2 4 2
f 3 4 3
f 2 3 1
";

/// Below the precise table.
const APART: &str = "type flow
excess gain : a1 != a2
gain gain : true
";

/// Above it, in one row.
const LOOSE: &str = "type flow
excess gain : true
";

/// Runs the program on these words and files, where the reads of these numbers fail.
fn run_with(
    alloc: Global,
    words: &[&str],
    held: Vec<(String, Vec<u8>)>,
    failing: &[u64],
) -> Result<(Status, Vec<u8>), Fail> {
    let mut all = Vec::new(alloc);
    for word in words {
        all.push(String::from_str(alloc, word)?)?;
    }
    let mut files = MemFiles::new(held, failing.to_vec(alloc)?);
    let Ok(mut sink) = MemSink::new(alloc, 65_536, Vec::new(alloc)) else {
        return Err("no memory".into());
    };
    let status = run_turns(alloc, &all, &mut files, &mut sink);
    Ok((status, sink.bytes().to_vec(alloc)?))
}

/// Runs the program on these words, where the files `net` and `own` hold these texts, and the reads of these numbers
/// fail.
fn run_on(
    alloc: Global,
    words: &[&str],
    net: &str,
    own: &str,
    failing: &[u64],
) -> Result<(Status, Vec<u8>), Fail> {
    let mut held = Vec::new(alloc);
    held.push((
        String::from_str(alloc, "net")?,
        net.as_bytes().to_vec(alloc)?,
    ))?;
    held.push((
        String::from_str(alloc, "own")?,
        own.as_bytes().to_vec(alloc)?,
    ))?;
    run_with(alloc, words, held, failing)
}

/// Whether these words end well, and write this.
fn writes(alloc: Global, words: &[&str], net: &str, own: &str, wanted: &str) -> Result<bool, Fail> {
    let (status, written) = run_on(alloc, words, net, own, &[])?;
    Ok(status == Status::Ok && written.as_slice() == wanted.as_bytes())
}

#[test]
fn diamond_global_told(rt: HostRuntime) -> Result<(), Fail> {
    let words = [
        "flow",
        "net",
        "--virtual",
        "2",
        "--turns",
        "8",
        "--table",
        "global",
        "--trace",
        "on",
        "--told",
        "on",
    ];
    assert!(rt; writes(rt.alloc(), &words, DIAMOND, "", GLOBAL)?);
    Ok(())
}

const UNDER_OWN: [&str; 4] = ["flow", "net", "--conditions", "own"];

/// How `flow` under a table of the user's own ended, where it wrote nothing.
fn refusal(alloc: Global, net: &str, own: &str) -> Result<Status, Fail> {
    let (status, written) = run_on(alloc, &UNDER_OWN, net, own, &[])?;
    if !written.is_empty() {
        return Err("something was written".into());
    }
    Ok(status)
}

/// Whether a status tells this line on standard error.
fn tells(alloc: Global, status: Status, line: &str) -> Result<bool, Fail> {
    match status_line(alloc, &status) {
        Ok(told) => Ok(told.as_str() == line),
        Err(_) => Err("no memory".into()),
    }
}

#[test]
fn below_and_conditions(rt: HostRuntime) -> Result<(), Fail> {
    let alloc = rt.alloc();
    let loose = refusal(alloc, FOUR_NODES, LOOSE)?;
    let why = TableFault::Pair {
        first: 18,
        second: 19,
    };
    assert!(rt; loose == Status::BadTable { why });
    assert!(rt; tells(alloc, loose, "galois: conditions: excess gain")?);
    assert!(rt; writes(alloc, &UNDER_OWN, FOUR_NODES, APART, FOUR_NODES_REPORT)?);
    Ok(())
}

fn is_refused_at(status: Status, line: u64) -> bool {
    let why = TableFault::Line(line);
    status == Status::BadTable { why }
}

#[test]
fn conditions_are_refused_before_the_network(rt: HostRuntime) -> Result<(), Fail> {
    let alloc = rt.alloc();
    let faulty = refusal(alloc, "no network\n", "type flow\nexcess fly : true\n")?;
    assert!(rt; is_refused_at(faulty, 2));
    assert!(rt; tells(alloc, faulty, "galois: conditions: line 2")?);
    assert!(rt; is_refused_at(refusal(alloc, "no network\n", "type set\n")?, 1));
    let network = refusal(alloc, "no network\n", APART)?;
    assert!(rt; network == Status::BadInput { line: 1 });
    Ok(())
}

#[test]
fn both_files_are_read_before_either_is_judged(rt: HostRuntime) -> Result<(), Fail> {
    let alloc = rt.alloc();
    let first = ["flow", "absent", "--conditions", "own"];
    let (status, _) = run_on(alloc, &first, "", "type flow\nexcess fly : true\n", &[])?;
    assert!(rt; status == Status::ReadFault);
    let second = ["flow", "net", "--conditions", "absent"];
    let (status, _) = run_on(alloc, &second, "no network\n", "", &[])?;
    assert!(rt; status == Status::ReadFault);
    let (status, _) = run_on(alloc, &UNDER_OWN, FOUR_NODES, APART, &[1])?;
    assert!(rt; status == Status::ReadFault);
    Ok(())
}

/// One byte more than a file may have.
const TOO_MANY_BYTES: usize = 67_108_865;

/// How `flow` under a table of the user's own ends, where the one file that there is has too many bytes.
fn status_beside(alloc: Global, name: &str) -> Result<Status, Fail> {
    let mut held = Vec::new(alloc);
    held.push((
        String::from_str(alloc, name)?,
        Vec::from_elem(alloc, b'\n', TOO_MANY_BYTES)?,
    ))?;
    let (status, _) = run_with(alloc, &UNDER_OWN, held, &[])?;
    Ok(status)
}

#[test]
fn the_conditions_are_read_before_the_network(rt: HostRuntime) -> Result<(), Fail> {
    let alloc = rt.alloc();
    let what = What::File;
    assert!(rt; status_beside(alloc, "own")? == Status::TooLarge { what });
    assert!(rt; status_beside(alloc, "net")? == Status::ReadFault);
    Ok(())
}

/// Words that are refused.
const REFUSED: [&[&str]; 7] = [
    &["flow", "net", "--conditions", "own", "--table", "global"],
    &["flow", "net", "--table", "Precise"],
    &["flow", "net", "--table", ""],
    &["flow", "net", "--table", "rw", "--table", "rw"],
    &["flow", "net", "--conditions", "--own"],
    &["flow", "net", "--conditions"],
    &["classify", "own", "--table", "rw"],
];

#[test]
fn words_on_tables(rt: HostRuntime) -> Result<(), Fail> {
    let alloc = rt.alloc();
    for words in REFUSED {
        let (status, _) = run_on(alloc, words, FOUR_NODES, APART, &[])?;
        assert!(rt; status == Status::Usage);
    }
    for name in ["precise", "simple", "rw", "global"] {
        let words = ["flow", "net", "--table", name];
        assert!(rt; writes(alloc, &words, FOUR_NODES, "", FOUR_NODES_REPORT)?);
    }
    Ok(())
}
