//! The shipped tables beside what the rules on conditions give.

ghost use Rattle.std.specs.Prelude.{◌≡◌, IfOk};
ghost use Rattle.gx_base.specs.declared.conditions.Side.TheVariants.{First, Second};
ghost use Rattle.gx_base.specs.declared.conditions.Term.TheVariants.{Value as ValueTerm};
ghost use Rattle.gx_base.specs.Conditions.{condition_of, Ne as NeCondition};

use cond_lattice::{join, meet, strengthen};
use cond_text::{print_cond, read_table};
use flow_graph::FlowShard;
use gx_base::{Choice, Cond, Kind, NoMemory, SeqType, Side, Table, Term};
use shared_sets::{Cells, SharedSet};
use std::alloc::Global;
use std::test::Fail;

/// The calls of an object that tell of it, through the bound: the state function, tidying and a table.
fn told<T: SeqType>(alloc: Global, object: &mut T) -> Result<(i64, Table), NoMemory> {
    object.tidy()?;
    Ok((
        object.observe(1),
        T::shipped(alloc, Kind::Flow, Choice::Global)?,
    ))
}

#[test]
fn a_shard_tells_of_itself_through_the_bound(rt: HostRuntime) -> Result<(), Fail> {
    let alloc = rt.alloc();
    let mut shard = FlowShard::new(alloc);
    let (seen, table) = told(alloc, &mut shard)?;
    assert_eq!(rt; seen, 0);
    assert!(rt; table.row(16, 18).equals(&Cond::False));
    Ok(())
}

/// The precise table of flow shards, row by row.
const FLOW_TEXT: &str = "type flow
height height : true
height relabel : a1 != a2 or p1 = b2
height excess : true
height gain : true
height flow : true
height send : true
relabel height : a1 != a2 or p1 = b1
relabel relabel : a1 != a2 or (b1 = b2 and p1 = b1)
relabel excess : true
relabel gain : true
relabel flow : true
relabel send : true
excess height : true
excess relabel : true
excess excess : true
excess gain : a1 != a2 or b2 = 0
excess flow : true
excess send : true
gain height : true
gain relabel : true
gain excess : a1 != a2 or b1 = 0
gain gain : true
gain flow : true
gain send : true
flow height : true
flow relabel : true
flow excess : true
flow gain : true
flow flow : true
flow send : a1 != a2 or b2 = 0
send height : true
send relabel : true
send excess : true
send gain : true
send flow : a1 != a2 or b1 = 0
send send : true
";

/// The precise table of sets.
const SET_TEXT: &str = "type set
add add : a1 != a2 or (p1 = 0 and p2 = 0)
add remove : a1 != a2
add contains : a1 != a2 or p1 = 0
remove add : a1 != a2
remove remove : a1 != a2 or (p1 = 0 and p2 = 0)
remove contains : a1 != a2 or p1 = 0
contains add : a1 != a2 or p2 = 0
contains remove : a1 != a2 or p2 = 0
contains contains : true
";

/// The precise table of cells.
const CELLS_TEXT: &str = "type cells
read read : true
read add : a1 != a2 or b2 = 0
read set : a1 != a2 or p1 = b2
add read : a1 != a2 or b1 = 0
add add : true
add set : a1 != a2 or b1 = 0
set read : a1 != a2 or p1 = b1
set add : a1 != a2 or b2 = 0
set set : a1 != a2 or (b1 = b2 and p1 = b1)
";

/// The table of readers and writers of sets.
const SET_LOOKS: &str = "type set
add add : a1 != a2
add remove : a1 != a2
add contains : a1 != a2
remove add : a1 != a2
remove remove : a1 != a2
remove contains : a1 != a2
contains add : a1 != a2
contains remove : a1 != a2
contains contains : true
";

/// The table of readers and writers of cells.
const CELLS_LOOKS: &str = "type cells
read read : true
read add : a1 != a2
read set : a1 != a2
add read : a1 != a2
add add : a1 != a2
add set : a1 != a2
set read : a1 != a2
set add : a1 != a2
set set : a1 != a2
";

/// Whether a text is that of a table which a type ships for a kind.
fn is_shipped<T: SeqType>(
    alloc: Global,
    kind: Kind,
    choice: Choice,
    text: &str,
) -> Result<bool, Fail> {
    let shipped = T::shipped(alloc, kind, choice)?;
    let (_, table) = read_table(alloc, text.as_bytes(), &[kind])?;
    Ok(table.equals(&shipped))
}

#[test]
fn shipped_tables_are_those_of_their_texts(rt: HostRuntime) -> Result<(), Fail> {
    let alloc = rt.alloc();
    let precise = Choice::Precise;
    let looks = Choice::Rw;
    assert!(rt; is_shipped::<FlowShard>(alloc, Kind::Flow, precise, FLOW_TEXT)?);
    assert!(rt; is_shipped::<SharedSet>(alloc, Kind::Set, precise, SET_TEXT)?);
    assert!(rt; is_shipped::<Cells>(alloc, Kind::Cells, precise, CELLS_TEXT)?);
    assert!(rt; is_shipped::<SharedSet>(alloc, Kind::Set, looks, SET_LOOKS)?);
    assert!(rt; is_shipped::<Cells>(alloc, Kind::Cells, looks, CELLS_LOOKS)?);
    Ok(())
}

/// The values with this number differ.
fn differ(place: u32) -> Cond
    ensures { condition_of result ≡ NeCondition (ValueTerm First place) (ValueTerm Second place) }
{
    Cond::Ne(
        Term::Value(Side::First, place),
        Term::Value(Side::Second, place),
    )
}

/// Whether a condition is printed like this.
fn is_printed(alloc: Global, cond: &Cond, text: &str) -> Result<bool, NoMemory> {
    Ok(print_cond(alloc, cond)?.as_str() == text)
}

/// Two rows of the precise table of points.
const POINT_ROWS: &str = "type points
nearest remove : p2 = 0 or p1 != a2
nearest add : p2 = 0 or a1 = a2 or (p1 != -1 and beyond(arg1, arg2, rep1) = 1)
";

#[test]
fn lattice_bounds(rt: HostRuntime) -> Result<(), Fail> {
    let alloc = rt.alloc();
    let a = differ(0);
    let b = differ(1);
    let both = meet(alloc, &a, &b)?;
    assert!(rt; is_printed(alloc, &both, "a1 != a2 and b1 != b2")?);
    assert!(rt; is_printed(alloc, &join(alloc, &both, &a)?, "a1 != a2")?);
    assert!(rt; is_printed(alloc, &join(alloc, &a, &b)?, "true")?);
    assert!(rt; is_printed(alloc, &join(alloc, &Cond::False, &a)?, "a1 != a2")?);
    let (_, points) = read_table(alloc, POINT_ROWS.as_bytes(), &[Kind::Points])?;
    let nearest_remove = strengthen(alloc, points.row(35, 33))?;
    assert!(rt; is_printed(alloc, &nearest_remove, "p1 != a2")?);
    let nearest_add = strengthen(alloc, points.row(35, 32))?;
    assert!(rt; is_printed(alloc, &nearest_add, "false")?);
    Ok(())
}
