ghost use Rattle.std.specs.Prelude.{◌≡◌, ◌∷◌, [], length, map, IfOk};
ghost use Rattle.gx_base.specs.Replays.{in_rooms};
ghost use Rattle.kd_points.specs.PointsState.{points_state};
ghost use Rattle.shared_sets.specs.CellsState.{cells_state};
ghost use Rattle.clustering.specs.CloudState.{state_of};
ghost use Rattle.clustering.specs.PointCalls.{rooms};
ghost use Rattle.clustering.specs.Starts.{start_weights, start_states, start_ready};

use crate::cloud::Cloud;
use crate::point_calls::{id_item, number_call};
use gx_base::{Item, NoMemory, SeqType, Spot};
use kd_points::KdPoints;
use shared_sets::Cells;
use shared_sets::cells_methods::SET;
use std::alloc::Global;

/// The rooms at the start, and the items that are ready then.
pub fn start(alloc: Global, spots: &[Spot]) -> Result<(Vec<Cloud>, Vec<Item>), NoMemory>
    ensures rooms { IfOk result (λ made. length made.0.items ≡ rooms) }
    ensures states { IfOk result (λ made. in_rooms (map state_of made.0.items) ≡ start_states spots.now) }
    ensures ready { IfOk result (λ made. made.1.items ≡ start_ready spots.now) }
{
    let points = KdPoints::with_points(alloc, spots)?;
    let weights = weights_of(alloc, spots)?;
    let rooms = clouds_of(alloc, points, weights)?;
    let ready = items_of(alloc, spots)?;
    Ok((rooms, ready))
}

fn clouds_of(alloc: Global, points: KdPoints, weights: Cells) -> Result<Vec<Cloud>, NoMemory>
    ensures rooms { IfOk result (λ made. length made.items ≡ rooms) }
    ensures states { IfOk result (λ made. map state_of made.items ≡ points_state points ∷ cells_state weights ∷ []) }
{
    let mut rooms = Vec::new(alloc);
    rooms.push(Cloud::Points(points))?;
    rooms.push(Cloud::Weights(weights))?;
    Ok(rooms)
}

fn weights_of(alloc: Global, spots: &[Spot]) -> Result<Cells, NoMemory>
    ensures { IfOk result (λ cells. cells_state cells ≡ start_weights spots.now) }
{
    let mut weights = Cells::new(alloc);
    for spot in spots {
        weights.apply(number_call(SET, spot.id, 1))?;
    }
    Ok(weights)
}

fn items_of(alloc: Global, spots: &[Spot]) -> Result<Vec<Item>, NoMemory>
    ensures { IfOk result (λ items. items.items ≡ start_ready spots.now) }
{
    Ok(spots.iter().map(|spot| id_item(spot.id)).collect(alloc)?)
}
