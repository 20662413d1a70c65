//! Worked cases of `classify`, and of tables that are read from their texts.

ghost use Rattle.std.specs.Prelude.{[], ◌∷◌, IfOk, OnOk};
ghost use Rattle.gx_base.specs.Kinds.{kind_number};
ghost use Rattle.gx_base.specs.TableRows.{RowMap, row_of};
ghost use Rattle.gx_base.specs.Tables.{IsValid};
ghost use Rattle.cond_syntax.specs.TableTexts.{IsTableText};

use crate::run_cases::{NONE, Trouble, ends_so, run_words};
use cond_lattice::{NotBelow, below};
use cond_text::{TextFault, read_table};
use flow_graph::FlowShard;
use galois_run::Status;
use gx_base::{Choice, Kind, SeqType, Table};
use std::alloc::Global;
use std::test::Fail;

const APART_SET: &str = "type set
add add : a1 != a2
add remove : a1 != a2
add contains : a1 != a2
remove add : a1 != a2
remove remove : a1 != a2
remove contains : a1 != a2
contains add : a1 != a2
contains remove : a1 != a2
contains contains : true
";

const APART_SET_ROWS: &str = "row add add SIMPLE a1 != a2
row add remove SIMPLE a1 != a2
row add contains SIMPLE a1 != a2
row remove add SIMPLE a1 != a2
row remove remove SIMPLE a1 != a2
row remove contains SIMPLE a1 != a2
row contains add SIMPLE a1 != a2
row contains remove SIMPLE a1 != a2
row contains contains SIMPLE true
modes 2
mode 0 add.a remove.a
mode 1 contains.a
matrix 0 xx
matrix 1 x.
";

const EMPTY_SET_ROWS: &str = "row add add SIMPLE false
row add remove SIMPLE false
row add contains SIMPLE false
row remove add SIMPLE false
row remove remove SIMPLE false
row remove contains SIMPLE false
row contains add SIMPLE false
row contains remove SIMPLE false
row contains contains SIMPLE false
modes 1
mode 0 add.* remove.* contains.*
matrix 0 x
";

const DOMAINS: &str = "type domains
credit credit : true
weigh sum : b1 = 0 or dom1 != a2
weigh total : b1 = 0 or dom1 != dom2
";

const DOMAINS_ROWS: &str = "row weigh weigh SIMPLE false
row weigh total GENERAL b1 = 0 or dom1 != dom2
row weigh move SIMPLE false
row weigh credit SIMPLE false
row weigh sum ONLINE b1 = 0 or dom1 != a2
row total weigh SIMPLE false
row total total SIMPLE false
row total move SIMPLE false
row total credit SIMPLE false
row total sum SIMPLE false
row move weigh SIMPLE false
row move total SIMPLE false
row move move SIMPLE false
row move credit SIMPLE false
row move sum SIMPLE false
row credit weigh SIMPLE false
row credit total SIMPLE false
row credit move SIMPLE false
row credit credit SIMPLE true
row credit sum SIMPLE false
row sum weigh SIMPLE false
row sum total SIMPLE false
row sum move SIMPLE false
row sum credit SIMPLE false
row sum sum SIMPLE false
modes none weigh total
";

/// An add lets a later look through, and a look no later add.
const DIRECTED_SET: &str = "type set
add add : true
add remove : true
add contains : true
remove add : true
remove remove : true
remove contains : true
contains add : false
contains remove : true
contains contains : true
";

const DIRECTED_SET_ROWS: &str = "row add add SIMPLE true
row add remove SIMPLE true
row add contains SIMPLE true
row remove add SIMPLE true
row remove remove SIMPLE true
row remove contains SIMPLE true
row contains add SIMPLE false
row contains remove SIMPLE true
row contains contains SIMPLE true
modes 2
mode 0 add.*
mode 1 contains.*
matrix 0 ..
matrix 1 x.
";

/// Adds exclude each other where one of two values is the same; the other methods exclude all.
const TWO_VALUES: &str = "type cells
add add : b1 != b2 and a1 != a2
";

const TWO_VALUES_ROWS: &str = "row read read SIMPLE false
row read add SIMPLE false
row read set SIMPLE false
row add read SIMPLE false
row add add SIMPLE b1 != b2 and a1 != a2
row add set SIMPLE false
row set read SIMPLE false
row set add SIMPLE false
row set set SIMPLE false
modes 4
mode 0 read.* set.*
mode 1 add.*
mode 2 add.a
mode 3 add.b
matrix 0 xx..
matrix 1 x...
matrix 2 ..x.
matrix 3 ...x
";

/// A reply against an argument.
const REPLIES: &str = "type set
add add : true
add remove : p1 != a2
add contains : true
remove add : true
remove remove : true
remove contains : true
contains add : true
contains remove : true
contains contains : true
";

const REPLIES_MODES: &str = "modes 2
mode 0 add.p
mode 1 remove.a
matrix 0 .x
matrix 1 ..
";

const PRECISE_SET: &str = "type set
add add : a1 != a2 or (p1 = 0 and p2 = 0)
add remove : a1 != a2
add contains : a1 != a2 or p1 = 0
remove add : a1 != a2
remove remove : a1 != a2 or (p1 = 0 and p2 = 0)
remove contains : a1 != a2 or p1 = 0
contains add : a1 != a2 or p2 = 0
contains remove : a1 != a2 or p2 = 0
contains contains : true
";

/// A row with 65 open parentheses.
const DEEP: &str = "type set
add add : (((((((((((((((((((((((((((((((((((((((((((((((((((((((((((((((((true)))))))))))))))))))))))))))))))))))))))))))))))))))))))))))))))))
";

/// Whether `classify` on this text ends well and writes this report.
fn classifies(alloc: Global, text: &str, report: &str) -> Result<bool, Fail> {
    ends_so(alloc, &["classify", "net"], text, NONE, Status::Ok, report)
}

/// Whether `classify` on this text ends well, and its report with these lines.
fn ends_with(alloc: Global, text: &str, lines: &str) -> Result<bool, Fail> {
    let run = run_words(alloc, &["classify", "net"], text, NONE)?;
    Ok(run.status == Status::Ok && run.written.as_slice().ends_with(lines.as_bytes()))
}

#[test]
fn classify_set(rt: HostRuntime) -> Result<(), Fail> {
    let alloc = rt.alloc();
    assert!(rt; classifies(alloc, APART_SET, APART_SET_ROWS)?);
    assert!(rt; classifies(alloc, "type set\n", EMPTY_SET_ROWS)?);
    Ok(())
}

#[test]
fn modes_are_directed_and_of_several_values(rt: HostRuntime) -> Result<(), Fail> {
    let alloc = rt.alloc();
    assert!(rt; classifies(alloc, DIRECTED_SET, DIRECTED_SET_ROWS)?);
    assert!(rt; classifies(alloc, TWO_VALUES, TWO_VALUES_ROWS)?);
    assert!(rt; ends_with(alloc, REPLIES, REPLIES_MODES)?);
    Ok(())
}

#[test]
fn where_all_calls_commute_there_are_no_modes(rt: HostRuntime) -> Result<(), Fail> {
    let alloc = rt.alloc();
    let free = "type set
add add : true
add remove : true
add contains : true
remove add : true
remove remove : true
remove contains : true
contains add : true
contains remove : true
contains contains : true
";
    assert!(rt; ends_with(alloc, free, "row contains contains SIMPLE true\nmodes 0\n")?);
    Ok(())
}

#[test]
fn classify_domains(rt: HostRuntime) -> Result<(), Fail> {
    assert!(rt; classifies(rt.alloc(), DOMAINS, DOMAINS_ROWS)?);
    Ok(())
}

/// Whether `classify` on this text tells this line, and writes nothing.
fn is_faulty_at(alloc: Global, text: &str, line: u64) -> Result<bool, Fail> {
    let words = ["classify", "net"];
    ends_so(alloc, &words, text, NONE, Status::BadInput { line }, "")
}

/// Whether the first fault of this text is this one, and `classify` tells its line and writes nothing.
fn is_refused(alloc: Global, text: &str, line: u64, fault: TextFault) -> Result<bool, Fail> {
    let told = match read_table(alloc, text.as_bytes(), &[Kind::Set]) {
        Ok(_) => None,
        Err(refused) => Some(refused),
    };
    Ok(told == Some(fault) && is_faulty_at(alloc, text, line)?)
}

#[test]
fn condition_faults(rt: HostRuntime) -> Result<(), Fail> {
    let alloc = rt.alloc();
    for (text, line, fault) in [
        (
            "type set\nadd add : a1 ! a2\n",
            2,
            TextFault::Syntax { line: 2 },
        ),
        (
            "type set\nadd fly : true\n",
            2,
            TextFault::UnknownMethod { line: 2 },
        ),
        (
            "type set\nadd add : e1 = 0\n",
            2,
            TextFault::UnknownName { line: 2 },
        ),
        (
            "type set\nadd add : true\nadd add : true\n",
            3,
            TextFault::Twice { line: 3 },
        ),
        (DEEP, 2, TextFault::TooDeep { line: 2 }),
        ("", 1, TextFault::Syntax { line: 1 }),
    ] {
        assert!(rt; is_refused(alloc, text, line, fault)?);
    }
    Ok(())
}

#[test]
fn classify_reads_and_writes_by_pieces(rt: HostRuntime) -> Result<(), Fail> {
    let alloc = rt.alloc();
    let words = ["classify", "net"];
    let unread = Trouble {
        reads: &[1],
        ..NONE
    };
    assert!(rt; ends_so(alloc, &words, APART_SET, unread, Status::ReadFault, "")?);
    let third = Trouble {
        writes: &[2],
        most: 4,
        ..NONE
    };
    assert!(rt;
        ends_so(
            alloc,
            &words,
            APART_SET,
            third,
            Status::WriteFault,
            "row add "
        )?
    );
    Ok(())
}

/// The set table with this text.
fn set_table(alloc: Global, text: &str) -> Result<Table, Fail> {
    match read_table(alloc, text.as_bytes(), &[Kind::Set]) {
        Ok((_, table)) => Ok(table),
        Err(_) => Err("no table".into()),
    }
}

/// Whether the rows of this pair of methods are the first that aren't below.
fn is_above_at(answer: Result<(), NotBelow>, first: u32, second: u32) -> bool {
    answer == Err(NotBelow { first, second })
}

#[test]
fn below_and_conditions(rt: HostRuntime) -> Result<(), Fail> {
    let alloc = rt.alloc();
    let precise = set_table(alloc, PRECISE_SET)?;
    let loose = set_table(alloc, "type set\nadd add : true\n")?;
    assert!(rt; is_above_at(below(Kind::Set, &loose, &precise), 0, 0));
    assert!(rt; below(Kind::Set, &precise, &precise).is_ok());
    Ok(())
}

/// Whether the table of a text is below a valid one, row by row.
fn compare(
    alloc: Global,
    kind: Kind,
    bytes: &[u8],
    valid: &Table,
) -> Result<Result<(), NotBelow>, Fail>
    requires { IsValid (kind_number kind) (row_of valid.now) }
    // Then it is valid too: a table that was read is false for methods of other kinds.
    ensures { IfOk result (λ answer. OnOk answer ((rows : RowMap) × IsTableText (kind ∷ []) bytes.now kind rows × IsValid (kind_number kind) (row_of rows))) }
{
    cond_syntax::laws::read_tables_are_printable();
    cond_syntax::laws::read_tables_are_of_wanted_kinds();
    gx_base::laws::below_valid_is_valid();
    let (read, table) = read_table(alloc, bytes, &[kind])?;
    let answer = below(read, &table, valid);
    Ok(answer)
}

/// Whether the flow table of a text is below the precise one that flow shards ship.
fn compare_with_shipped(alloc: Global, text: &str) -> Result<Result<(), NotBelow>, Fail> {
    gate_core::laws::shipped_tables_serve_gates::<FlowShard>();
    let shipped = FlowShard::shipped(alloc, Kind::Flow, Choice::Precise)?;
    compare(alloc, Kind::Flow, text.as_bytes(), &shipped)
}

#[test]
fn flow_tables_beside_the_shipped_one(rt: HostRuntime) -> Result<(), Fail> {
    let alloc = rt.alloc();
    assert!(rt; compare_with_shipped(alloc, "type flow\n")?.is_ok());
    let apart = "type flow\nheight relabel : a2 != a1 and b1 = 0\ngain gain : a1 != a2\n";
    assert!(rt; compare_with_shipped(alloc, apart)?.is_ok());
    let loose = "type flow\ngain gain : true\ngain excess : a1 != a2 or p1 = 0\n";
    assert!(rt; is_above_at(compare_with_shipped(alloc, loose)?, 19, 18));
    Ok(())
}
