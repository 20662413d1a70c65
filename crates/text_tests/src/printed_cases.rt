//! What is read, how its rows are printed, and that what is printed is read back.
ghost use Rattle.std.specs.Prelude.{IfOk, List, Contains, string_bytes};
ghost use Rattle.gx_base.specs.declared.kinds.Kind.{Kind};
ghost use Rattle.gx_base.specs.TableRows.{row_of};
ghost use Rattle.cond_syntax.specs.Printable.{IsReadBack};

use crate::fault_cases::ALL;
use crate::table_texts::{CELLS, DOMAINS, FLOWS, POINTS, SETS};
use cond_text::{TextFault, print_cond, print_table, read_table};
use gx_base::{Cond, Kind, Table, method_at};
use std::alloc::Global;
use std::test::Fail;

/// Texts of set tables and others that are read.
const READ: [&str; 24] = [
    "type set",
    "type set\n",
    "type set\r\n",
    "\n \t\n# c\n\t # d\n#\r\ntype set\n#\n\r\n \r\n",
    "\ttype \t set ",
    "type set\nadd add:true",
    "type set\n add\tadd : true\t\r\n",
    "type set\nadd add : a1!=a2",
    "type set\nadd add : a1<=a2 or 1<p1",
    "type set\nadd add : b1 = c2 and c1 = d2 and q1 = r2 and s1 = s2",
    "type set\nadd add : not not not true",
    "type set\nadd add : not (((a1 = a2)))",
    "type set\nadd add:not(true)and(false)or(true)",
    "type set\nadd add : 000000000000000001 = -0",
    "type set\nadd add : -999999999999999999 < 999999999999999999",
    "type set\nadd add : 1=1or 2=2and 3=3",
    "type set\nadd add : a1<-1",
    "type set\nadd add : beyond(arg1,arg2,rep1)=beyond ( rep2 , rep2\t, rep2 )",
    "type set\nadd add : false\nadd remove : false\nremove add : false",
    "type set\n# add add : true\nadd add : true\n#add add : true",
    "type domains\nsum sum : dom1 = dom2",
    "type points\nnearest at : true",
    "type flow\nflow flow : true",
    "type cells\nset set : true",
];

/// Of how many pairs of a kind's methods the row isn't `False`.
fn rows_of(alloc: Global, text: &str, wanted: Kind) -> Result<u64, TextFault> {
    let (kind, table) = read_table(alloc, text.as_bytes(), &[wanted])?;
    let mut rows = 0;
    for i in 0..6u32 {
        for j in 0..6u32 {
            if let (Some(first), Some(second)) = (method_at(kind, i), method_at(kind, j)) {
                if !matches!(table.row(first, second), Cond::False) && rows < 36 {
                    rows += 1;
                }
            }
        }
    }
    Ok(rows)
}

#[test]
fn shipped_tables_are_read(rt: HostRuntime) -> Result<(), Fail> {
    for (kind, text, rows) in [
        (Kind::Set, SETS, 9),
        (Kind::Cells, CELLS, 9),
        (Kind::Flow, FLOWS, 36),
        (Kind::Points, POINTS, 16),
        (Kind::Domains, DOMAINS, 25),
    ] {
        assert!(rt; rows_of(rt.alloc(), text, kind)? == rows);
    }
    Ok(())
}

/// The table of a text, and what is printed of it.
fn read_and_print(
    alloc: Global,
    bytes: &[u8],
    wanted: &[Kind],
) -> Result<(Kind, Table, String), Fail>
    // What is printed of a table that was read is read back, with the same rows, wherever its kind is wanted, and so
    // where the same kinds are wanted.
    ensures wherever_wanted { IfOk result (λ x. (kinds : List Kind) → Contains kinds x.0 → IsReadBack kinds (string_bytes x.2) x.0 (row_of x.1)) }
    ensures as_wanted { IfOk result (λ x. IsReadBack wanted.now (string_bytes x.2) x.0 (row_of x.1)) }
{
    cond_syntax::laws::read_tables_are_printable();
    cond_syntax::laws::read_tables_are_of_wanted_kinds();
    let (kind, table) = read_table(alloc, bytes, wanted)?;
    let printed = print_table(alloc, kind, &table)?;
    Ok((kind, table, printed))
}

/// Whether what is printed of the table of a text is read back, and then printed as before.
fn is_read_back(alloc: Global, text: &str) -> Result<bool, Fail> {
    let (kind, _, printed) = read_and_print(alloc, text.as_bytes(), &ALL)?;
    let (again, _, twice) = read_and_print(alloc, printed.as_bytes(), &ALL)?;
    Ok(again == kind && twice.as_str() == printed.as_str())
}

#[test]
fn shipped_tables_are_printed_and_read_back(rt: HostRuntime) -> Result<(), Fail> {
    for text in [SETS, CELLS, FLOWS, POINTS, DOMAINS] {
        assert!(rt; is_read_back(rt.alloc(), text)?);
    }
    Ok(())
}

#[test]
fn small_tables_are_printed_and_read_back(rt: HostRuntime) -> Result<(), Fail> {
    for text in READ {
        assert!(rt; is_read_back(rt.alloc(), text)?, "{text}");
    }
    Ok(())
}

/// Whether the row of two methods is printed like this.
fn has_row(alloc: Global, table: &Table, first: u32, second: u32, row: &str) -> Result<bool, Fail> {
    let printed = print_cond(alloc, table.row(first, second))?;
    Ok(printed.as_str() == row)
}

#[test]
fn rows_have_their_conditions(rt: HostRuntime) -> Result<(), Fail> {
    let alloc = rt.alloc();
    let text = b"type domains
total weigh : (b2 = 0) or dom1!=dom2 and (true)
sum sum : not-7<=s1 and (true and false)
sum total : a1=a2 or (true or false) or 1=1
weigh move : false";
    let (kind, table) = read_table(alloc, text, &ALL)?;
    assert!(rt; kind == Kind::Domains);
    assert!(rt; has_row(alloc, &table, 49, 48, "b2 = 0 or dom1 != dom2 and true")?);
    assert!(rt; has_row(alloc, &table, 52, 52, "not -7 <= s1 and (true and false)")?);
    assert!(rt; has_row(alloc, &table, 52, 49, "a1 = a2 or (true or false) or 1 = 1")?);
    assert!(rt; has_row(alloc, &table, 48, 50, "false")?);
    assert!(rt; has_row(alloc, &table, 48, 49, "false")?);
    Ok(())
}
