//! Small flow files, with what is to be told of each. The lines were worked out by hand from the form of flow files.
//!
//! A row has what is told: 0 for a file that is read, the line of the first fault, or 901 and 902 for too many nodes and
//! arcs. Then comes the file, where `/` stands for a line feed, `^` for a carriage return and `~` for a tab, and after
//! `|` why.

use gx_base::{InputFault, NoMemory, What};
use preflow_push::read_max;
use std::alloc::Global;
use std::test::Fail;
use text_lines::{next_field, number};

/// Flow files.
const WHOLE: &str = "0 p max 2 0/n 1 s/n 2 t/| the least file
0 p max 2 0/n 1 s/n 2 t| the last line lacks its line feed
0 p max 2 0/n 2 t/n 1 s| the sink may stand before the source
0 p max 2 1/a 1 2 5/n 1 s/n 2 t| an arc before both
0 p max 2 2/a 1 2 5/n 2 t/a 2 1 5/n 1 s| and between them
0 p max 2 2/n 1 s/n 2 t/a 1 2 5/a 1 2 5/| two arcs between the same nodes
0 p max 2 1/n 1 s/n 2 t/a 2 1 0| out of the sink and into the source, of no capacity
0 p max 2 1/n 1 s/n 2 t/a 1 2 1000000000| the largest capacity
0 c/cat// ~ /p max 2 0/c n 1 s/n 1 s/n 2 t/could| skipped lines: a first sign c, and lines without a field
0 p~max 2~0^/ n  1 s ^/n 2 t^/| both blanks, several of them, and carriage returns that go with line feeds
0 p max 2 0/^/n 1 s/n 2 t| a carriage return before a line feed is an empty line
0 p max 02 000000000000000000/n 01 s/n 2 t| leading zeros within 18 digits
0 p max 100000 0/n 100000 s/n 1 t| as many nodes as may be";

/// Faults of the line that begins with `p`, and of what stands before it.
const PROBLEMS: &str = "1 | no line at all: the problem is missing
2 c/| a comment alone: the problem is missing after it
3 //| two empty lines
1 n 1 s/p max 2 0/n 2 t| a source before the problem
1 n 2 t/p max 2 0/n 1 s| a sink before it
1 a 1 2 5/p max 2 1/n 1 s/n 2 t| an arc before it
3 c/~/q/p max 2 0/| another word before it; the lines that are skipped count
1 # a/p max 2 0/n 1 s/n 2 t| # begins no comment
1 P max 2 0/n 1 s/n 2 t| another case
1 pmax 2 0/n 1 s/n 2 t| no blank after the p
1 p Max 2 0/n 1 s/n 2 t| the word is max
1 p min 2 0/n 1 s/n 2 t| another problem
1 p 2 0/n 1 s/n 2 t| no word
1 p/n 1 s/n 2 t| nothing after the p
1 p max/n 1 s/n 2 t| no numbers
1 p max 2/n 1 s/n 2 t| one number
1 p max 2 0 0/n 1 s/n 2 t| three numbers
1 p max -2 0/n 1 s/n 2 t| a sign before the nodes
1 p max 2 -0/n 1 s/n 2 t| a sign before the arcs
1 p max +2 0/n 1 s/n 2 t| plus is a sign too
1 p max 2.0 0/n 1 s/n 2 t| a point is no digit
1 p max 0x2 0/n 1 s/n 2 t| nor is a letter
1 p max x 0/n 1 s/n 2 t| no number of nodes
1 p max 2 x/n 1 s/n 2 t| no number of arcs
1 p max 1 0/n 1 s/n 1 t| one node
1 p max 0 0/| no node
1 p max 0000000000000000002 0/n 1 s/n 2 t| 19 digits of nodes
1 p max 2 0000000000000000000/n 1 s/n 2 t| 19 digits of arcs
2 p max 2 0/p max 2 0/n 1 s/n 2 t| the problem twice
4 p max 2 0/n 1 s/n 2 t/p max 2 0| the problem once more at the end";

/// Faults of the lines of the source and the sink.
const TERMINALS: &str = "2 p max 3 0/n/n 2 t| nothing after the n
2 p max 3 0/n 1/n 2 t| no word
2 p max 3 0/n s/n 2 t| no node
2 p max 3 0/n s 1/n 2 t| turned round
2 p max 3 0/n 1 s s/n 2 t| a field too many
2 p max 3 0/n 1 S/n 2 t| another case of the word
2 p max 3 0/n 1 x/n 2 t| another word
2 p max 3 0/n 1 st/n 2 t| two words in one
2 p max 3 0/N 1 s/n 2 t| another case of the kind
2 p max 3 0/node 1 s/n 2 t| another kind
2 p max 3 0/n 0 s/n 2 t| nodes begin at 1
2 p max 3 0/n 4 s/n 2 t| a source past the last node
3 p max 3 0/n 1 s/n 4 t| a sink past the last node
2 p max 3 0/n -1 s/n 2 t| a sign
2 p max 3 0/n 0000000000000000001 s/n 2 t| 19 digits
3 p max 3 0/n 1 s/n 1 s/n 2 t| the source twice, at the same node
3 p max 3 0/n 1 s/n 2 s/n 3 t| a second source
4 p max 3 0/n 1 s/n 2 t/n 2 t| the sink twice, at the same node
4 p max 3 0/n 1 s/n 2 t/n 3 t| a second sink
3 p max 3 0/n 1 s/n 1 t/n 2 t| the source's node as the sink
3 p max 3 0/n 1 t/n 1 s/n 2 s| the sink's node as the source
4 p max 2 0/c/c n/n 3 s/| comments count as lines";

/// Faults of the lines of arcs.
const ARCS: &str = "4 p max 3 2/n 1 s/n 3 t/a/a 2 3 5| nothing after the a
4 p max 3 2/n 1 s/n 3 t/a 1/a 2 3 5| one number
4 p max 3 2/n 1 s/n 3 t/a 1 2/a 2 3 5| no capacity
4 p max 3 2/n 1 s/n 3 t/a 1 2 5 5/a 2 3 5| a field too many
4 p max 3 2/n 1 s/n 3 t/a 0 2 5/a 2 3 5| it leaves no node
4 p max 3 2/n 1 s/n 3 t/a 4 2 5/a 2 3 5| it leaves a node past the last
4 p max 3 2/n 1 s/n 3 t/a 1 0 5/a 2 3 5| it enters no node
4 p max 3 2/n 1 s/n 3 t/a 1 4 5/a 2 3 5| it enters a node past the last
4 p max 3 2/n 1 s/n 3 t/a 2 2 5/a 2 3 5| both ends are one node
4 p max 3 2/n 1 s/n 3 t/a 1 2 1000000001/a 2 3 5| its capacity is too large
4 p max 3 2/n 1 s/n 3 t/a 1 2 0000000001000000000/a 2 3 5| 19 digits
4 p max 3 2/n 1 s/n 3 t/a 1 2 -1/a 2 3 5| a capacity below 0
4 p max 3 2/n 1 s/n 3 t/a 1 2 5.0/a 2 3 5| a capacity with a point
4 p max 3 2/n 1 s/n 3 t/a 1 2 x/a 2 3 5| no number
4 p max 3 2/n 1 s/n 3 t/a x 2 5/a 2 3 5| the first end is no number
4 p max 3 2/n 1 s/n 3 t/a 1 x 5/a 2 3 5| nor the second
4 p max 3 2/n 1 s/n 3 t/A 1 2 5/a 2 3 5| another case
4 p max 3 2/n 1 s/n 3 t/arc 1 2 5/a 2 3 5| another kind
4 p max 3 2/n 1 s/n 3 t/e 1 2/a 2 3 5| the kind of another problem
6 p max 3 2/n 1 s/n 3 t/a 1 2 5/a 2 3 5/a 1 3 5/| the arc number M + 1
2 p max 2 0/a 1 2 5/n 1 s/n 2 t| an arc where none is to be
5 p max 3 2/n 1 s/n 3 t/a 1 2 5/a 0 2 5/a 9 9 9/| the first of two faults
5 p max 3 2/n 1 s/n 3 t/a 1 2 5/x/a 2 3 5| a line of no kind between
2 p max 2 1/a 3 1 5/n 1 s/n 2 t| an arc of no such node before the terminals";

/// What is missing, how lines end, and what is too large.
const ENDS: &str = "2 p max 2 0/| both terminals are missing
3 p max 2 0/n 1 s/| the sink is missing
3 p max 2 0/n 2 t| the source is missing
4 p max 2 1/n 1 s/n 2 t| the one arc is missing
5 p max 2 2/n 1 s/n 2 t/a 1 2 5/| the second arc is missing
6 p max 2 2/n 1 s/n 2 t/a 1 2 5/c end/| it is told after the comment
7 p max 2 2/n 1 s/n 2 t/a 1 2 5/~//| and after lines of blanks
3 p max 2 1/a 1 2 5/| the terminals are missing and the arcs are whole
4 p max 2 0/n 1 s/n 2 t/^| a carriage return alone at the end is a line with a field
3 p max 2 0/n 1 s/n 2 t^^/| one carriage return goes with the line feed, the other one stays
3 p max 2 0/n 1 s/n 2 t^| no line feed that this one goes with
1 p max 2 0^n 1 s^n 2 t^| carriage returns end no line
4 // /x/| empty lines and blanks count
4 p max 2 0/n 1 s/n 2 t/#| # begins no comment at the end either
901 p max 100001 0/n 1 s/n 2 t/| one node more than may be
901 p max 999999999999999999 0/n 1 s/n 2 t/| the largest number of nodes
4 p max 100001 0/n 1 s/n 2 t/x| too many nodes, and a fault: the fault
3 p max 100001 0/n 1 s/| too many nodes, and something missing: the missing
4 p max 2 400001/n 1 s/n 2 t/| arcs past the limit are announced, and missing
4 p max 100001 999999999999999999/n 1 s/n 2 t/| the same with too many nodes";

/// What the reader tells of a file.
fn told(alloc: Global, file: &[u8]) -> u64 {
    match read_max(alloc, file) {
        Ok(_) => 0,
        Err(InputFault::Line(line)) => line,
        Err(InputFault::Large(What::Nodes)) => 901,
        Err(InputFault::Large(What::Arcs)) => 902,
        Err(_) => 999,
    }
}

/// The file of a row, after the blank before it.
fn file_of(alloc: Global, row: &[u8]) -> Result<Vec<u8>, NoMemory> {
    let mut file = Vec::new(alloc);
    for byte in row.iter().skip(1) {
        match *byte {
            b'|' => return Ok(file),
            b'/' => file.push(b'\n')?,
            b'^' => file.push(b'\r')?,
            b'~' => file.push(b'\t')?,
            byte => file.push(byte)?,
        }
    }
    Ok(file)
}

/// Whether the reader tells what a row says.
fn is_right(alloc: Global, row: &[u8]) -> Result<bool, NoMemory> {
    let Some((wanted, rest)) = next_field(row) else {
        return Ok(false);
    };
    let file = file_of(alloc, rest)?;
    Ok(number(wanted) == Some(told(alloc, &file)))
}

#[test]
fn small_files(rt: HostRuntime) -> Result<(), Fail> {
    let alloc = rt.alloc();
    for table in [WHOLE, PROBLEMS, TERMINALS, ARCS, ENDS] {
        for row in table.lines() {
            assert!(rt; is_right(alloc, row.as_bytes())?, "{row}");
        }
    }
    Ok(())
}

/// A file of so many equal arcs, and a last line.
fn with_arcs(alloc: Global, head: &[u8], count: usize, last: &[u8]) -> Result<Vec<u8>, NoMemory> {
    let mut file = Vec::new(alloc);
    file.extend_from_slice(head)?;
    for _ in 0..count {
        file.extend_from_slice(b"a 1 2 5\n")?;
    }
    file.extend_from_slice(last)?;
    Ok(file)
}

#[test]
fn as_many_arcs_as_may_be(rt: HostRuntime) -> Result<(), Fail> {
    let alloc = rt.alloc();
    let file = with_arcs(alloc, b"p max 2 400000\nn 1 s\nn 2 t\n", 400_000, b"")?;
    assert_eq!(rt; told(alloc, &file), 0);
    Ok(())
}

#[test]
fn one_arc_more(rt: HostRuntime) -> Result<(), Fail> {
    let alloc = rt.alloc();
    let file = with_arcs(alloc, b"p max 2 400001\nn 1 s\nn 2 t\n", 400_001, b"")?;
    assert_eq!(rt; told(alloc, &file), 902);
    Ok(())
}

#[test]
fn a_fault_after_many_arcs(rt: HostRuntime) -> Result<(), Fail> {
    let alloc = rt.alloc();
    let head = b"p max 100001 400001\nn 1 s\nn 2 t\n";
    let file = with_arcs(alloc, head, 400_001, b"a 1 1 5")?;
    assert_eq!(rt; told(alloc, &file), 400_005);
    Ok(())
}
