//! What points are to answer: a list of points, walked from end to end.

use gx_base::{Call, Reply, Spot};
use kd_points::point_methods::{ADD, AT, NEAREST, REMOVE};
use std::alloc::{AllocError, Global};

/// The points, in no order.
#[derive(Drop)]
pub struct ListOfPoints {
    spots: Vec<Spot>,
}

/// The distance of two points, the lesser of their numbers and the greater.
fn key(p: Spot, q: Spot) -> (u128, i64, i64) {
    let x = p.x.abs_diff(q.x) as u128;
    let y = p.y.abs_diff(q.y) as u128;
    let distance = x.saturating_mul(x).saturating_add(y.saturating_mul(y));
    (distance, p.id.min(q.id), p.id.max(q.id))
}

impl ListOfPoints {
    pub fn new(alloc: Global) -> ListOfPoints {
        ListOfPoints {
            spots: Vec::new(alloc),
        }
    }

    pub fn count(&self) -> u64 {
        self.spots.len() as u64
    }

    pub fn at(&self, id: i64) -> Option<Spot> {
        for spot in &self.spots {
            if spot.id == id {
                return Some(*spot);
            }
        }
        None
    }

    /// The point of another number with the least key.
    pub fn nearest(&self, q: Spot) -> Option<Spot> {
        let mut best: Option<Spot> = None;
        for spot in &self.spots {
            if spot.id == q.id {
                continue;
            }
            best = match best {
                Some(other) if key(q, other) <= key(q, *spot) => Some(other),
                _ => Some(*spot),
            };
        }
        best
    }

    /// Takes the point of a number out.
    pub fn take_out(&mut self, id: i64) {
        self.spots.retain(|spot: &Spot| spot.id != id);
    }

    pub fn put(&mut self, spot: Spot) -> Result<(), AllocError> {
        self.take_out(spot.id);
        self.spots.push(spot)?;
        Ok(())
    }

    /// Does a call and answers its reply.
    pub fn apply(&mut self, call: Call) -> Result<Reply, AllocError> {
        let spot = Spot {
            id: call.a,
            x: call.b,
            y: call.c,
            z: call.d,
        };
        let there = self.at(spot.id);
        match call.method {
            ADD => {
                let added = spot.id >= 0 && spot.z == 0 && there.is_none();
                if added {
                    self.put(spot)?;
                }
                Ok(Reply::new(if added { 1 } else { 0 }, 0, 0, 0))
            }
            REMOVE => {
                let removed = there == Some(spot);
                if removed {
                    self.take_out(spot.id);
                }
                Ok(Reply::new(if removed { 1 } else { 0 }, 0, 0, 0))
            }
            AT => Ok(match there {
                Some(point) => Reply::new(1, point.x, point.y, point.z),
                None => Reply::new(0, 0, 0, 0),
            }),
            NEAREST => Ok(match self.nearest(spot) {
                Some(point) => Reply::new(point.id, point.x, point.y, point.z),
                None => Reply::new(-1, 0, 0, 0),
            }),
            _ => Ok(Reply::new(0, 0, 0, 0)),
        }
    }
}
