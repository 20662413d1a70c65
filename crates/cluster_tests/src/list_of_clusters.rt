//! What a clustering is to print: points in a list, where the nearest one is found by walking all of them.
ghost use Rattle.std.specs.Prelude.{◌<◌, IfSome, length};

use std::alloc::Global;
use std::test::Fail;

/// A point, and how many points of the file it is.
#[derive(Clone, Copy, Drop)]
pub struct Cluster {
    pub id: i64,
    pub x: i64,
    pub y: i64,
    pub weight: i64,
}

/// What a point became a part of, and the weight of that.
#[derive(Clone, Copy, Drop)]
struct Merge {
    id: i64,
    into: i64,
    weight: i64,
}

/// The points that are left, what became of the others, and the numbers that are ready.
#[derive(Drop)]
pub struct Clusters {
    left: Vec<Cluster>,
    merges: Vec<Merge>,
    ready: Vec<i64>,
}

/// The distance of two points, the lesser of their numbers and the greater.
fn key(p: Cluster, q: Cluster) -> (u128, i64, i64) {
    let x = p.x.abs_diff(q.x) as u128;
    let y = p.y.abs_diff(q.y) as u128;
    let distance = x.saturating_mul(x).saturating_add(y.saturating_mul(y));
    (distance, p.id.min(q.id), p.id.max(q.id))
}

/// The mean of x and y by their weights v and w, rounded down.
fn mean(v: i64, x: i64, w: i64, y: i64) -> i64 {
    let weight = v.wrapping_add(w);
    if weight <= 0 {
        return 0;
    }
    let sum = v.wrapping_mul(x).wrapping_add(w.wrapping_mul(y));
    sum.div_euclid(weight)
}

fn cluster_index(clusters: &[Cluster], id: i64) -> Option<usize>
    ensures { IfSome result (λ place. place < length clusters.now) }
{
    for place in 0..clusters.len() {
        if clusters[place].id == id {
            return Some(place);
        }
    }
    None
}

fn place_in(ready: &[i64], id: i64) -> Option<usize>
    ensures { IfSome result (λ place. place < length ready.now) }
{
    for place in 0..ready.len() {
        if ready[place] == id {
            return Some(place);
        }
    }
    None
}

impl Clusters {
    /// The points of a file, each with the weight 1, and all ready.
    pub fn new(alloc: Global, places: &[(i64, i64)]) -> Result<Clusters, Fail> {
        let mut left = Vec::new(alloc);
        let mut ready = Vec::new(alloc);
        for (id, place) in places.iter().enumerate() {
            left.push(Cluster {
                id: id as i64,
                x: place.0,
                y: place.1,
                weight: 1,
            })?;
            ready.push(id as i64)?;
        }
        Ok(Clusters {
            left,
            merges: Vec::new(alloc),
            ready,
        })
    }

    pub fn is_nothing_ready(&self) -> bool {
        self.ready.is_empty()
    }

    fn at(&self, id: i64) -> Option<Cluster> {
        let place = cluster_index(&self.left, id)?;
        Some(self.left[place])
    }

    fn take_out(&mut self, id: i64) {
        if let Some(place) = cluster_index(&self.left, id) {
            self.left.remove(place);
        }
    }

    fn make_ready(&mut self, id: i64) -> Result<(), Fail> {
        if place_in(&self.ready, id).is_none() {
            self.ready.push(id)?;
        }
        Ok(())
    }

    /// The point of another number with the least key.
    fn nearest(&self, q: Cluster) -> Option<Cluster> {
        let mut best: Option<Cluster> = None;
        for cluster in &self.left {
            if cluster.id == q.id {
                continue;
            }
            best = match best {
                Some(other) if key(q, other) <= key(q, *cluster) => Some(other),
                _ => Some(*cluster),
            };
        }
        best
    }

    /// Makes two points one, which has the smaller number.
    fn merge(&mut self, p: Cluster, q: Cluster) -> Result<(), Fail> {
        let (u, v) = if p.id < q.id { (p, q) } else { (q, p) };
        let weight = u.weight.wrapping_add(v.weight);
        self.take_out(u.id);
        self.take_out(v.id);
        self.left.push(Cluster {
            id: u.id,
            x: mean(u.weight, u.x, v.weight, v.x),
            y: mean(u.weight, u.y, v.weight, v.y),
            weight,
        })?;
        self.merges.push(Merge {
            id: v.id,
            into: u.id,
            weight,
        })?;
        self.make_ready(u.id)
    }

    /// Goes from the point to the nearest one, and on from there, until two are each other's nearest, and merges these.
    fn work_on(&mut self, id: i64) -> Result<(), Fail> {
        let Some(mut current) = self.at(id) else {
            return Ok(());
        };
        let mut previous: Option<Cluster> = None;
        for _ in 0..self.left.len() {
            let Some(next) = self.nearest(current) else {
                return Ok(());
            };
            match previous {
                Some(last) if last.id == next.id => {
                    self.merge(last, current)?;
                    if id != last.id && id != current.id {
                        self.make_ready(id)?;
                    }
                    return Ok(());
                }
                _ => previous = Some(current),
            }
            current = next;
        }
        Ok(())
    }

    /// Commits a number, and answers false where it isn't ready.
    pub fn commit(&mut self, id: i64) -> Result<bool, Fail> {
        let Some(place) = place_in(&self.ready, id) else {
            return Ok(false);
        };
        self.ready.remove(place);
        self.work_on(id)?;
        Ok(true)
    }

    /// The line of a number whose point is gone.
    fn put_if_gone(&self, alloc: Global, text: &mut Vec<u8>, id: i64) -> Result<(), Fail> {
        for merge in &self.merges {
            if merge.id == id {
                let line = format!(in alloc; "m {id} {} {}\n", merge.into, merge.weight)?;
                text.extend_from_slice(line.as_bytes())?;
            }
        }
        Ok(())
    }

    /// The line of a number whose point is left.
    fn put_if_left(&self, alloc: Global, text: &mut Vec<u8>, id: i64) -> Result<(), Fail> {
        if let Some(cluster) = self.at(id) {
            let line = format!(in alloc;
                "c {id} {} {} {}\n",
                cluster.x, cluster.y, cluster.weight
            )?;
            text.extend_from_slice(line.as_bytes())?;
        }
        Ok(())
    }

    /// The report after commits in this order, of so many points.
    pub fn text(&self, alloc: Global, order: &[i64], count: i64) -> Result<Vec<u8>, Fail> {
        let mut text = Vec::new(alloc);
        for id in order {
            let line = format!(in alloc; "i {id}\n")?;
            text.extend_from_slice(line.as_bytes())?;
        }
        for id in 0..count {
            self.put_if_gone(alloc, &mut text, id)?;
        }
        for id in 0..count {
            self.put_if_left(alloc, &mut text, id)?;
        }
        Ok(text)
    }
}
