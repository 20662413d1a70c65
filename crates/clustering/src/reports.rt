ghost use Rattle.std.specs.Prelude.{◌≡◌, ◌++◌, ◌<◌, ◌^◌, map, length, OnOk, IfOk};
ghost use Rattle.std.specs.List.{flat_map, range_with_len};
ghost use Rattle.gx_base.specs.Replays.{in_rooms};
ghost use Rattle.commit_book.specs.Commits.{items_of};
ghost use Rattle.clustering.specs.CloudState.{state_of};
ghost use Rattle.clustering.specs.ClusterReports.{id_line, commit_line, merge_line, left_line, gone_line, there_line, cluster_report};

use crate::cloud::Cloud;
use crate::cloud_rooms::{cell_in, point_in};
use crate::merges::{into_key, weight_key};
use commit_book::Commit;
use gx_base::{NoMemory, Spot};
use line_writer::{Field, put_line};
use std::alloc::{AllocError, Global};

/// The commits in their order, the points that are gone, and those that are left: a line for each. Points are looked
/// for by the numbers from 0, of which there are as many as spots.
pub fn report(
    alloc: Global,
    spots: &[Spot],
    order: &[Commit],
    rooms: &[Cloud],
) -> Result<Vec<u8>, NoMemory>
    ensures { IfOk result (λ text. text.items ≡ cluster_report (length spots.now) (items_of order.now) (in_rooms (map state_of rooms.now))) }
{
    let mut text = Vec::new(alloc);
    put_commits(&mut text, order)?;
    put_gone(&mut text, spots, rooms)?;
    put_left(&mut text, spots, rooms)?;
    Ok(text)
}

fn put_commits(text: &mut Vec<u8>, order: &[Commit]) -> Result<(), AllocError>
    ensures { OnOk result (text.new.items ≡ text.old.items ++ flat_map commit_line (items_of order.now)) }
{
    for commit in order {
        put_commit(text, commit.item.k0)?;
    }
    Ok(())
}

fn put_gone(text: &mut Vec<u8>, spots: &[Spot], rooms: &[Cloud]) -> Result<(), AllocError>
    ensures { OnOk result (text.new.items ≡ text.old.items ++ flat_map (gone_line (in_rooms (map state_of rooms.now))) (range_with_len 0 (length spots.now))) }
{
    for (id, _spot) in spots.iter().enumerate() {
        put_if_gone(text, id, rooms)?;
    }
    Ok(())
}

fn put_left(text: &mut Vec<u8>, spots: &[Spot], rooms: &[Cloud]) -> Result<(), AllocError>
    ensures { OnOk result (text.new.items ≡ text.old.items ++ flat_map (there_line (in_rooms (map state_of rooms.now))) (range_with_len 0 (length spots.now))) }
{
    for (id, _spot) in spots.iter().enumerate() {
        put_if_left(text, id, rooms)?;
    }
    Ok(())
}

fn put_if_gone(text: &mut Vec<u8>, id: usize, rooms: &[Cloud]) -> Result<(), AllocError>
    requires { id < 2 ^ 63 }
    ensures { OnOk result (text.new.items ≡ text.old.items ++ gone_line (in_rooms (map state_of rooms.now)) id) }
{
    match point_in(rooms, id as i64) {
        None => put_merge(
            text,
            id as i64,
            cell_in(rooms, into_key(id as i64)),
            cell_in(rooms, weight_key(id as i64)),
        ),
        Some(_) => Ok(()),
    }
}

fn put_if_left(text: &mut Vec<u8>, id: usize, rooms: &[Cloud]) -> Result<(), AllocError>
    requires { id < 2 ^ 63 }
    ensures { OnOk result (text.new.items ≡ text.old.items ++ there_line (in_rooms (map state_of rooms.now)) id) }
{
    match point_in(rooms, id as i64) {
        None => Ok(()),
        Some(spot) => put_point(text, spot, cell_in(rooms, id as i64)),
    }
}

fn put_commit(text: &mut Vec<u8>, id: i64) -> Result<(), AllocError>
    ensures { OnOk result (text.new.items ≡ text.old.items ++ id_line id) }
{
    put_line(text, &[Field::Word("i"), Field::Number(id)])
}

fn put_merge(text: &mut Vec<u8>, id: i64, into: i64, weight: i64) -> Result<(), AllocError>
    ensures { OnOk result (text.new.items ≡ text.old.items ++ merge_line id into weight) }
{
    put_line(
        text,
        &[
            Field::Word("m"),
            Field::Number(id),
            Field::Number(into),
            Field::Number(weight),
        ],
    )
}

fn put_point(text: &mut Vec<u8>, spot: Spot, weight: i64) -> Result<(), AllocError>
    ensures { OnOk result (text.new.items ≡ text.old.items ++ left_line spot weight) }
{
    put_line(
        text,
        &[
            Field::Word("c"),
            Field::Number(spot.id),
            Field::Number(spot.x),
            Field::Number(spot.y),
            Field::Number(weight),
        ],
    )
}
