ghost use Rattle.std.specs.Prelude.{◌≡◌, ℤ, IsTrue, IsOk, OnOk, OnErr, not};
ghost use Rattle.number_rows.specs.Entries.{FitAll, dead_in, is_zero, found_zero, one_if};

use gx_base::NoMemory;
use indexmap::IndexMap;
use std::alloc::Global;

/// Below so many rows `tidy` does nothing: they take up little, and to free their table and take it again
/// would cost more than they do.
pub const LEAST_TIDIED: usize = 64;

/// Numbers by key, which are 0 until they are written.
#[derive(Drop)]
pub struct NumberRows {
    numbers: IndexMap<i64, i64>,
    // how many rows hold 0
    dead: usize,
    ghost fit: { FitAll numbers.entries },
    ghost counted: { dead ≡ dead_in numbers.entries },
}

impl NumberRows {
    ghost use Rattle.std.specs.FinMap as map;
    ghost use Rattle.std.specs.List.{IsDistinct};
    ghost use Rattle.std.specs.Map.{keys_of};
    ghost use Rattle.std.specs.Ordering.{int_eq};
    ghost use Rattle.number_rows.specs.NumbersAsRows.{number_in};
    ghost use Rattle.number_rows.specs.NumberRows.{number_rows_of, dead_rows, IsLean};

    /// No rows: each number is 0.
    pub fn new(alloc: Global) -> NumberRows
        ensures { number_rows_of result ≡ map.empty }
    {
        NumberRows {
            numbers: IndexMap::new(alloc),
            dead: 0,
        }
    }

    /// The number of a key.
    pub fn value(&self, key: i64) -> i64
        ensures { result ≡ number_in (number_rows_of self.now) key }
    {
        match self.found(key) {
            Some(number) => number,
            None => 0,
        }
    }

    /// Whether the key has a row, so that its number is written without memory.
    pub fn has_row(&self, key: i64) -> bool
        ensures { result ≡ map.contains_key (number_rows_of self.now) key }
    {
        self.found(key).is_some()
    }

    fn found(&self, key: i64) -> Option<i64>
        ensures { result ≡ map.get (number_rows_of self.now) key }
    {
        match self.numbers.get(&key) {
            Some(number) => Some(*number),
            None => None,
        }
    }

    /// Writes a number, and makes a row for it if need be.
    pub fn write(&mut self, key: i64, number: i64) -> Result<(), NoMemory>
        ensures ok { OnOk result (number_rows_of self.new ≡ map.insert (number_rows_of self.old) key number) }
        ensures err { OnErr result (number_rows_of self.new ≡ number_rows_of self.old) }
        ensures succeeds { IsTrue (map.contains_key (number_rows_of self.old) key) → IsOk result }
    {
        // So the count of dead rows has room for one more.
        let rows = self.numbers.len();
        prove!(self.dead <= rows);
        let was = self.numbers.insert(key, number)?;
        self.dead = self.dead + dead_for(Some(number)) - dead_for(was);
        Ok(())
    }

    /// Writes a number in the row that its key has.
    pub fn rewrite(&mut self, key: i64, number: i64)
        requires { IsTrue (map.contains_key (number_rows_of self.old) key) }
        ensures { number_rows_of self.new ≡ map.insert (number_rows_of self.old) key number }
    {
        self.write(key, number).unwrap();
    }

    /// Drops the dead rows where they are more than half of all rows, and these are `LEAST_TIDIED` at least.
    /// Else does nothing at all, and keeps the room that its table has to spare.
    pub fn tidy(&mut self)
        ensures numbers { (key : ℤ) → number_in (number_rows_of self.new) key ≡ number_in (number_rows_of self.old) key }
        ensures lean { IsLean self.new }
        ensures dropped { ¬ (IsLean self.old) → dead_rows self.new ≡ 0 }
        ensures idle { IsLean self.old → self.new ≡ self.old }
    {
        let rows = self.numbers.len();
        if rows < LEAST_TIDIED || self.dead <= rows / 2 {
            return;
        }
        self.drop_dead_rows();
    }

    // Drops each dead row, and gives back the room that is spare then. Each key has one row, as the length of
    // the map says.
    fn drop_dead_rows(&mut self)
        requires { IsDistinct int_eq (keys_of self.old.numbers.entries) }
        ensures numbers { (key : ℤ) → number_in (number_rows_of self.new) key ≡ number_in (number_rows_of self.old) key }
        ensures dropped { dead_rows self.new ≡ 0 }
    {
        self.numbers.retain(
            |_key: &i64, number: &mut i64| -> bool
                ensures { (result ≡ not (is_zero number.old)) × (number.new ≡ number.old) }
            { *number != 0 },
        );
        self.numbers.shrink_to_fit();
        self.dead = 0;
    }
}

// What a row adds to the count of dead ones: 1 where it holds 0.
fn dead_for(number: Option<i64>) -> usize
    ensures { result ≡ one_if (found_zero number) }
{
    match number {
        Some(0) => 1,
        _ => 0,
    }
}
