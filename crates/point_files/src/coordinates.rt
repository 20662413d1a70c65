//! The fields of a row.

ghost use Rattle.std.specs.Prelude.{◌≡◌, ◌≤◌, IfSome};
ghost use Rattle.point_files.specs.PointRows as said;
ghost use Rattle.csv.specs.Records.{fields_of};

use csv::ByteRecord;
use text_lines::number;

const MOST_COORDINATE: u64 = 1_000_000_000;

const MOST_COORDINATE_DIGITS: usize = 10;

/// The size of a coordinate, which its digits spell.
fn size(digits: &[u8]) -> Option<u64>
    ensures value { result ≡ said.size_of digits.now }
    ensures small { IfSome result (λ n. n ≤ said.most_coordinate) }
{
    if digits.len() > MOST_COORDINATE_DIGITS {
        return None;
    }
    match number(digits) {
        Some(n) if n <= MOST_COORDINATE => Some(n),
        _ => None,
    }
}

/// The coordinate that a field spells.
fn coordinate(field: &[u8]) -> Option<i64>
    ensures { result ≡ said.coordinate_of field.now }
{
    match field {
        [] => None,
        [b'-', digits @ ..] => match size(digits) {
            Some(n) => Some(-(n as i64)),
            None => None,
        },
        _ => match size(field) {
            Some(n) => Some(n as i64),
            None => None,
        },
    }
}

fn both(x: &[u8], y: &[u8]) -> Option<(i64, i64)>
    ensures { result ≡ said.both_coordinates (said.coordinate_of x.now) (said.coordinate_of y.now) }
{
    let x = coordinate(x)?;
    let y = coordinate(y)?;
    Some((x, y))
}

/// Where a row says that a point stands.
pub fn place(row: &ByteRecord) -> Option<(i64, i64)>
    ensures { result ≡ said.coordinates_in (fields_of row.now) }
{
    match row.get(0) {
        None => None,
        Some(first) => match row.get(1) {
            None => None,
            Some(second) => match row.get(2) {
                None => both(first, second),
                Some(_) => None,
            },
        },
    }
}
