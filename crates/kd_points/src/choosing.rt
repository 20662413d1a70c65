//! Which spots of a list become points.
ghost use Rattle.std.specs.Prelude.{◌≡◌, IfOk, OnOk};
ghost use Rattle.gx_base.specs.States.{State};
ghost use Rattle.kd_points.specs.PointsState.{no_points, with_added, added_points};
ghost use Rattle.kd_points.specs.PointLists.{ArePoints, IsChosen};

use crate::point_calls::{add_call, is_addable};
use gx_base::{NoMemory, Spot};
use indexmap::IndexSet;
use std::alloc::Global;

/// The spots that became points so far, and their numbers.
#[derive(Drop)]
pub struct Chosen {
    pub spots: Vec<Spot>,
    pub numbers: IndexSet<i64>,
}

impl Chosen {
    fn with_capacity(alloc: Global, points: usize) -> Result<Chosen, NoMemory>
        ensures { IfOk result (IsChosen no_points) }
    {
        Ok(Chosen {
            spots: Vec::with_capacity(alloc, points)?,
            numbers: IndexSet::with_capacity(alloc, points)?,
        })
    }

    /// Takes one spot more, where it may be a point and no other has its number.
    fn take(&mut self, spot: Spot) -> Result<(), NoMemory>
        ensures { (s : State) → IsChosen s self.old → OnOk result (IsChosen (with_added s spot) self.new) }
    {
        if is_addable(add_call(spot)) && self.numbers.insert(spot.id)? {
            self.spots.push(spot)?;
        }
        Ok(())
    }
}

/// The points that are there once the spots were added in order.
pub fn chosen_points(alloc: Global, spots: &[Spot]) -> Result<Vec<Spot>, NoMemory>
    ensures { IfOk result (λ points. ArePoints (added_points spots.now) points.items) }
{
    let mut chosen = Chosen::with_capacity(alloc, spots.len())?;
    for spot in spots {
        chosen.take(*spot)?;
    }
    Ok(chosen.spots)
}
