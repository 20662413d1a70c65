//! Reading a file of points.

ghost use Rattle.std.specs.Prelude.{◌≡◌, ◌⊎◌, ℕ, ◌+◌, ◌<◌, ◌≤◌, ◌^◌, length, List, ◌∷◌, [], ◌++◌, Result, None, Ok, Err, IfOk, IfErr, IsTrue, IsFalse};
ghost use Rattle.csv.specs.Records.{fields_of};
ghost use Rattle.gx_base.specs.declared.inputs.InputFault as fault;
ghost use Rattle.gx_base.specs.declared.inputs.InputFault.TheVariants as faults;
ghost use Rattle.gx_base.specs.declared.calls.Spot as spot;
ghost use Rattle.point_files.specs.PointRows.{FileRow, coordinates_in};
ghost use Rattle.point_files.specs.PointFiles.{CallsFor, answer_of, most_points};
ghost use Rattle.point_files.specs.PointReading.{HasRead, HasReadAll, StopsReading};

use crate::coordinates::place;
use csv::{ByteRecord, ReaderBuilder};
use gx_base::{InputFault, NoMemory, Spot, What};
use std::alloc::Global;

const MOST_POINTS: u64 = 20_000;

/// The points of a file, numbered from 0 by its rows. A fault tells the first row that says of no point where it stands;
/// a file of more points than may be read is too large.
pub fn read_points(alloc: Global, bytes: &[u8]) -> Result<Vec<Spot>, InputFault>
    // The answer is what the text calls for, unless memory runs out.
    ensures told { (result ≡ Err faults.NoMemory) ⊎ CallsFor bytes.now (answer_of result) }
    ensures only { (answer : Result (List spot.Spot) fault.InputFault) → CallsFor bytes.now answer → (result ≡ Err faults.NoMemory) ⊎ (answer_of result ≡ answer) }
    ensures few { IfOk result (λ spots. length spots.items ≤ most_points) }
{
    let seen = read_rows(alloc, bytes)?;
    seen.finish()
}

/// Reads row by row, whatever the limit.
fn read_rows(alloc: Global, bytes: &[u8]) -> Result<RowsRead, InputFault>
    ensures read { IfOk result (λ seen. HasReadAll bytes.now seen) }
    ensures stopped { IfErr result (λ fault. StopsReading bytes.now fault) }
{
    let reader = ReaderBuilder::new()
        .has_headers(false)
        .flexible(true)
        .from_reader(alloc, bytes);
    let mut seen = RowsRead::new(alloc);
    for row in reader.into_byte_records() {
        match row {
            Ok(row) => match seen.take(&row) {
                Ok(true) => {}
                Ok(false) => return Err(InputFault::Line(seen.rows + 1)),
                Err(NoMemory) => return Err(InputFault::NoMemory),
            },
            Err(_) => return Err(InputFault::NoMemory),
        }
    }
    Ok(seen)
}

/// What the rows said so far.
#[derive(Drop)]
pub struct RowsRead {
    /// The points of the rows, as many as may be read.
    spots: Vec<Spot>,
    rows: u64,
}

impl RowsRead {
    fn new(alloc: Global) -> RowsRead
        ensures { HasRead [] result }
    {
        RowsRead {
            spots: Vec::new(alloc),
            rows: 0,
        }
    }

    /// Takes what one more row says, and tells whether it says where a point stands.
    fn take(&mut self, row: &ByteRecord) -> Result<bool, NoMemory>
        requires { self.old.rows < 2 ^ 63 }
        ensures good { IfOk result (λ good. IsTrue good → (rows : List FileRow) → HasRead rows self.old → HasRead (rows ++ fields_of row.now ∷ []) self.new) }
        ensures faulty { IfOk result (λ good. IsFalse good → coordinates_in (fields_of row.now) ≡ None) }
        ensures unchanged { IfOk result (λ good. IsFalse good → self.new.rows ≡ self.old.rows) }
    {
        let Some((x, y)) = place(row) else {
            return Ok(false);
        };
        if self.rows < MOST_POINTS {
            self.spots.push(Spot {
                id: self.rows as i64,
                x,
                y,
                z: 0,
            })?;
        }
        self.rows += 1;
        Ok(true)
    }

    /// The points, where they are no more than may be read.
    fn finish(self) -> Result<Vec<Spot>, InputFault>
        ensures { (bytes : List ℕ) → HasReadAll bytes self → CallsFor bytes (answer_of result) }
    {
        if self.rows > MOST_POINTS {
            return Err(InputFault::Large(What::Points));
        }
        Ok(self.spots)
    }
}
