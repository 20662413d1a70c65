//! Worked cases of points, and the shapes that would make a tree deep.

use crate::draws::Draws;
use gx_base::{Call, NoMemory, Reply, SeqType, Spot};
use kd_points::KdPoints;
use kd_points::point_methods::{ADD, AT, NEAREST, REMOVE};
use std::alloc::Global;
use std::test::Fail;

const LONG_LINE: i64 = 20_000;

/// 1,000 drawn points, tidied.
fn thousand(alloc: Global) -> Result<KdPoints, NoMemory> {
    let mut points = KdPoints::new(alloc);
    let mut draws = Draws::new(1);
    for id in 0..1000 {
        let x = draws.coordinate();
        let y = draws.coordinate();
        points.apply(Call::new(ADD, id, x, y, 0))?;
    }
    points.tidy()?;
    Ok(points)
}

#[test]
fn nearest_looks(rt: HostRuntime) -> Result<(), Fail> {
    let mut points = thousand(rt.alloc())?;
    assert_eq!(rt; points.looked(), 0);
    for id in 0..1000 {
        let at = points.apply(Call::new(AT, id, 0, 0, 0))?;
        points.apply(Call::new(NEAREST, id, at.q, at.r, 0))?;
    }
    assert!(rt; points.looked() >= 1000 && points.looked() < 500_000);
    Ok(())
}

#[test]
fn a_line_in_order_is_deep_and_found(rt: HostRuntime) -> Result<(), Fail> {
    let mut points = KdPoints::new(rt.alloc());
    for id in 0..LONG_LINE {
        points.apply(Call::new(ADD, id, id.wrapping_mul(3), 0, 0))?;
    }
    let first = points.apply(Call::new(NEAREST, LONG_LINE, -1, 0, 0))?;
    assert!(rt; first == Reply::new(0, 0, 0, 0));
    let last = points.apply(Call::new(NEAREST, 0, i64::MAX, 0, 0))?;
    assert!(rt; last == Reply::new(LONG_LINE - 1, (LONG_LINE - 1) * 3, 0, 0));
    points.tidy()?;
    let looked = points.looked();
    let middle = points.apply(Call::new(NEAREST, 100, 300, 0, 0))?;
    assert!(rt; middle == Reply::new(99, 297, 0, 0));
    assert!(rt; points.looked().wrapping_sub(looked) < 100);
    Ok(())
}

#[test]
fn points_of_an_upright_line_are_split_along_it(rt: HostRuntime) -> Result<(), Fail> {
    let mut spots = Vec::new(rt.alloc());
    for id in 0..LONG_LINE {
        let y = id.wrapping_mul(3);
        spots.push(Spot { id, x: 0, y, z: 0 })?;
    }
    let mut points = KdPoints::with_points(rt.alloc(), &spots)?;
    assert_eq!(rt; points.count(), 20_000);
    let middle = points.apply(Call::new(NEAREST, 100, 0, 300, 0))?;
    assert!(rt; middle == Reply::new(99, 0, 297, 0));
    assert!(rt; points.looked() < 100);
    Ok(())
}

#[test]
fn points_that_may_not_be_added_are_left_out(rt: HostRuntime) -> Result<(), Fail> {
    let mut spots = Vec::new(rt.alloc());
    for (id, x, z) in [(1, 0, 0), (1, 5, 0), (-1, 0, 0), (2, 0, 1), (3, 4, 0)] {
        spots.push(Spot { id, x, y: 0, z })?;
    }
    let points = KdPoints::with_points(rt.alloc(), &spots)?;
    assert_eq!(rt; points.count(), 2);
    assert!(rt;
        points.at(1).is_some_and(|point| point.x == 0)
            && points.at(2).is_none()
            && points.at(3).is_some()
    );
    Ok(())
}

#[test]
fn equal_points_are_found_by_number(rt: HostRuntime) -> Result<(), Fail> {
    let mut points = KdPoints::new(rt.alloc());
    for step in 0..LONG_LINE {
        points.apply(Call::new(ADD, step.wrapping_mul(7919) % LONG_LINE, 5, 5, 0))?;
    }
    points.tidy()?;
    assert!(rt; points.apply(Call::new(NEAREST, 7, 5, 5, 0))? == Reply::new(0, 5, 5, 0));
    assert!(rt; points.apply(Call::new(NEAREST, 0, 5, 5, 0))? == Reply::new(1, 5, 5, 0));
    assert_eq!(rt; points.count(), 20_000);
    Ok(())
}

#[test]
fn refused_calls_change_nothing(rt: HostRuntime) -> Result<(), Fail> {
    let mut points = KdPoints::new(rt.alloc());
    let no = Reply::new(0, 0, 0, 0);
    assert!(rt; points.apply(Call::new(ADD, -1, 0, 0, 0))? == no);
    assert!(rt; points.apply(Call::new(ADD, 1, 0, 0, 1))? == no);
    assert!(rt; points.apply(Call::new(ADD, 1, 0, 0, 0))? == Reply::new(1, 0, 0, 0));
    assert!(rt; points.apply(Call::new(ADD, 1, 5, 5, 0))? == no);
    assert!(rt; points.apply(Call::new(REMOVE, 1, 5, 5, 0))? == no);
    assert!(rt; points.apply(Call::new(99, 1, 5, 5, 0))? == no);
    assert!(rt;
        points.at(1)
            == Some(Spot {
                id: 1,
                x: 0,
                y: 0,
                z: 0
            })
            && points.at(2).is_none()
    );
    assert!(rt; points.apply(Call::new(NEAREST, 1, 0, 0, 0))? == Reply::new(-1, 0, 0, 0));
    assert_eq!(rt; points.count(), 1);
    assert_eq!(rt; points.observe(1), 0);
    Ok(())
}

#[test]
fn far_corners_stop_at_the_greatest_distance(rt: HostRuntime) -> Result<(), Fail> {
    let mut points = KdPoints::new(rt.alloc());
    points.apply(Call::new(ADD, 8, i64::MAX, i64::MAX, 0))?;
    points.apply(Call::new(ADD, 3, i64::MAX, i64::MAX - 1, 0))?;
    let found = points.apply(Call::new(NEAREST, 9, i64::MIN, i64::MIN, 0))?;
    assert!(rt; found == Reply::new(3, i64::MAX, i64::MAX - 1, 0));
    Ok(())
}
