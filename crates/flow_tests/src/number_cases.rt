//! What no clause says: that calls succeed, what `tidy` drops, and values worked by hand.

use number_rows::NumberRows;
use std::test::Fail;

#[test]
fn numbers_are_kept_by_key(rt: HostRuntime) -> Result<(), Fail> {
    let mut rows = NumberRows::new(rt.alloc());
    assert_eq!(rt; rows.value(7), 0);
    assert!(rt; !rows.has_row(7));
    rows.write(7, -3)?;
    rows.write(i64::MIN, i64::MAX)?;
    rows.write(7, 4)?;
    assert_eq!(rt; rows.value(7), 4);
    assert_eq!(rt; rows.value(i64::MIN), i64::MAX);
    assert_eq!(rt; rows.value(0), 0);
    let there = rows.has_row(i64::MIN);
    assert!(rt; there);
    rows.rewrite(i64::MIN, 9);
    assert_eq!(rt; rows.value(i64::MIN), 9);
    Ok(())
}

#[test]
fn dead_rows_are_dropped_once_they_are_more_than_half(rt: HostRuntime) -> Result<(), Fail> {
    let mut rows = NumberRows::new(rt.alloc());
    for key in 0..64 {
        rows.write(key, 10 + key)?;
    }
    for key in 0..32 {
        rows.write(key, 0)?;
    }
    rows.tidy();
    assert!(rt; rows.has_row(1) && rows.has_row(3));
    // A row that dies, lives again and dies once more counts once.
    rows.write(3, 8)?;
    rows.write(3, 0)?;
    rows.tidy();
    assert!(rt; rows.has_row(1) && rows.has_row(3));
    rows.write(40, 0)?;
    rows.tidy();
    assert!(rt; !rows.has_row(1) && !rows.has_row(3) && !rows.has_row(40));
    assert_eq!(rt; rows.value(39), 49);
    assert_eq!(rt; rows.value(40), 0);
    // The rows that are left are few, so they stay even where all are dead.
    for key in 32..64 {
        rows.write(key, 0)?;
    }
    rows.tidy();
    assert!(rt; rows.has_row(32) && rows.has_row(63));
    Ok(())
}
