//! Sets and cells by themselves: that calls succeed and are taken back, and that tidying drops what is dead.

use gx_base::{Call, Reply, SeqType};
use shared_sets::{Cells, SharedSet, cells_methods, set_methods};
use std::test::Fail;

/// Takes back a call, where it has room.
fn taken_back<T: SeqType>(object: &mut T, call: Call, reply: Reply) -> bool {
    let roomed = object.roomed(call, reply);
    if roomed {
        object.undo(call, reply);
    }
    roomed
}

fn needs<T: Send + Drop>(_value: &T) {}

#[test]
fn a_set_is_as_its_calls_leave_it(rt: HostRuntime) -> Result<(), Fail> {
    let mut set = SharedSet::new(rt.alloc());
    needs(&set);
    let add = Call::new(set_methods::ADD, 3, 0, 0, 0);
    let remove = Call::new(set_methods::REMOVE, 3, 0, 0, 0);
    let yes = Reply::new(1, 0, 0, 0);
    let no = Reply::new(0, 0, 0, 0);
    assert_eq!(rt; set.apply(add)?.p, 1);
    assert_eq!(rt; set.apply(add)?.p, 0);
    assert!(rt; set.has(3) && !set.has(4));
    assert!(rt; taken_back(&mut set, add, no) && set.has(3));
    assert_eq!(rt; set.apply(remove)?.p, 1);
    assert_eq!(rt; set.apply(remove)?.p, 0);
    assert!(rt; !set.has(3));
    assert!(rt; taken_back(&mut set, remove, yes) && set.has(3));
    assert!(rt; taken_back(&mut set, add, yes) && !set.has(3));
    assert_eq!(rt; set.observe(3), 0);
    Ok(())
}

#[test]
fn cells_are_as_their_calls_leave_them(rt: HostRuntime) -> Result<(), Fail> {
    let mut cells = Cells::new(rt.alloc());
    needs(&cells);
    let add = Call::new(cells_methods::ADD, 3, i64::MAX, 0, 0);
    let set = Call::new(cells_methods::SET, 3, 4, 0, 0);
    assert_eq!(rt; cells.apply(add)?.p, 0);
    assert_eq!(rt; cells.apply(set)?.p, i64::MAX);
    assert_eq!(rt;
        cells.apply(Call::new(cells_methods::READ, 3, 0, 0, 0))?.p,
        4
    );
    assert!(rt; taken_back(&mut cells, set, Reply::new(i64::MAX, 0, 0, 0)));
    assert_eq!(rt; cells.value(3), i64::MAX);
    assert_eq!(rt; cells.value(4), 0);
    assert_eq!(rt; cells.observe(3), 0);
    // A call of another kind of object does nothing.
    assert_eq!(rt; cells.apply(Call::new(set_methods::ADD, 3, 9, 0, 0))?.p, 0);
    assert_eq!(rt; cells.value(3), i64::MAX);
    Ok(())
}

#[test]
fn tidying_drops_dead_rows_where_they_are_many(rt: HostRuntime) -> Result<(), Fail> {
    let mut set = SharedSet::new(rt.alloc());
    let yes = Reply::new(1, 0, 0, 0);
    for x in 0..64 {
        set.apply(Call::new(set_methods::ADD, x, 0, 0, 0))?;
    }
    for x in 0..64 {
        set.apply(Call::new(set_methods::REMOVE, x, 0, 0, 0))?;
    }
    set.apply(Call::new(set_methods::ADD, 80, 0, 0, 0))?;
    set.tidy()?;
    assert!(rt; set.has(80) && set.roomed(Call::new(set_methods::ADD, 80, 0, 0, 0), yes));
    assert!(rt; !set.has(1) && !set.roomed(Call::new(set_methods::ADD, 1, 0, 0, 0), yes));
    Ok(())
}
