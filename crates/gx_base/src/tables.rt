ghost use Rattle.std.specs.Prelude.{◌≡◌, ℕ, ◌<◌, ◌↔◌, IsTrue, IfOk, OnOk, OnErr, vec_len};
ghost use Rattle.std.specs.FinMap as map;
ghost use Rattle.std.specs.List.{position_from};
ghost use Rattle.gx_base.specs.Conditions.{condition_of};
ghost use Rattle.gx_base.specs.RowLists.{is_row_of, table_row_of, table_rows_of, buckets_of, bucket_number, table_rows_in, row_map_of, AreBuckets, IsRowPut, AgreeOn};

use crate::conditions::Cond;
use crate::kinds::MOST_METHODS;
use crate::memory::NoMemory;
use std::alloc::Global;
use std::marker::Model;

/// A row of a table.
#[derive(Debug, Drop)]
pub struct Row {
    first: u32,
    second: u32,
    cond: Cond,
}

/// Conditions on pairs of methods. A pair without a row has the condition `False`.
#[derive(Debug, Drop)]
pub struct Table {
    /// The rows, each in the bucket of its pair, so that a row is found among few others.
    buckets: Vec<Vec<Row>>,
    /// What is lent for a pair without a row.
    blank: Cond,
}

impl Model for Table {
    ghost use Rattle.std.specs.Prelude.{IsTrue};
    ghost use Rattle.gx_base.specs.Conditions.{condition_of, is_false};
    ghost use Rattle.gx_base.specs.TableRows.{RowMap, row_map_code};

    ghost Value = { RowMap };

    ghost coded = { row_map_code };

    ghost use Rattle.gx_base.specs.RowLists.{buckets_of, row_map_of, AreBuckets};

    ghost view = { λ table. row_map_of (buckets_of table.buckets.items) };

    ghost invariant = { λ table. AreBuckets 0 (buckets_of table.buckets.items) × IsTrue (is_false (condition_of table.blank)) };
}

/// The number of the bucket of two methods.
fn bucket_at(first: u32, second: u32) -> usize
    ensures { result ≡ bucket_number (first, second) }
{
    (first % MOST_METHODS) as usize * MOST_METHODS as usize + (second % MOST_METHODS) as usize
}

/// The place of the row of two methods.
fn pair_index(rows: &[Row], first: u32, second: u32) -> Option<usize>
    ensures { result ≡ position_from (is_row_of first second) 0 rows.now }
{
    rows.iter()
        .position(|row| row.first == first && row.second == second)
}

/// Puts a row in the place of the one for the same methods, or after all others.
fn put_row(rows: &mut Vec<Row>, row: Row) -> Result<(), NoMemory>
    ensures ok { OnOk result (IsRowPut rows.old.items row rows.new.items) }
    ensures err { OnErr result (rows.new.items ≡ rows.old.items) }
{
    match pair_index(rows, row.first, row.second) {
        Some(place) => rows[place] = row,
        None => rows.push(row)?,
    }
    Ok(())
}

/// Makes empty buckets up to one with this number.
fn make_buckets(buckets: &mut Vec<Vec<Row>>, number: usize) -> Result<(), NoMemory>
    requires { AreBuckets 0 (buckets_of buckets.old.items) }
    ensures made { OnOk result (number < vec_len buckets.new) }
    ensures rows { row_map_of (buckets_of buckets.new.items) ≡ row_map_of (buckets_of buckets.old.items) }
    ensures kept { AreBuckets 0 (buckets_of buckets.new.items) }
{
    let alloc = *buckets.allocator();
    'more: while buckets.len() <= number {
        buckets.push(Vec::new(alloc))?;
    }
    Ok(())
}

/// Puts a row in its bucket, in the place of the one for the same methods.
fn put_in_bucket(buckets: &mut Vec<Vec<Row>>, row: Row) -> Result<(), NoMemory>
    requires { AreBuckets 0 (buckets_of buckets.old.items) }
    ensures ok { OnOk result (row_map_of (buckets_of buckets.new.items) ≡ map.insert (row_map_of (buckets_of buckets.old.items)) (table_row_of row).0 (table_row_of row).1) }
    ensures err { OnErr result (row_map_of (buckets_of buckets.new.items) ≡ row_map_of (buckets_of buckets.old.items)) }
    ensures kept { AreBuckets 0 (buckets_of buckets.new.items) }
{
    let number = bucket_at(row.first, row.second);
    make_buckets(buckets, number)?;
    put_row(&mut buckets[number], row)
}

fn copies(rows: &[Row], alloc: Global) -> Result<Vec<Row>, NoMemory>
    ensures { IfOk result (λ copies. table_rows_of copies.items ≡ table_rows_of rows.now) }
{
    let mut copies = Vec::with_capacity(alloc, rows.len())?;
    for row in rows {
        copies.push(row.copy(alloc)?)?;
    }
    Ok(copies)
}

fn bucket_copies(buckets: &[Vec<Row>], alloc: Global) -> Result<Vec<Vec<Row>>, NoMemory>
    ensures { IfOk result (λ copied. buckets_of copied.items ≡ buckets_of buckets.now) }
{
    let mut copied = Vec::with_capacity(alloc, buckets.len())?;
    for bucket in buckets {
        copied.push(copies(bucket, alloc)?)?;
    }
    Ok(copied)
}

/// Whether two tables have the same rows for the methods of these.
fn agree_on(rows: &[Row], one: &Table, other: &Table) -> bool
    ensures { IsTrue result ↔ AgreeOn one.now other.now (table_rows_of rows.now) }
{
    for row in rows {
        let here = one.row(row.first, row.second);
        let there = other.row(row.first, row.second);
        if !here.equals(there) {
            return false;
        }
    }
    true
}

/// Whether two tables have the same rows for the methods of all in these buckets.
fn agree_on_all(buckets: &[Vec<Row>], one: &Table, other: &Table) -> bool
    ensures { IsTrue result ↔ AgreeOn one.now other.now (table_rows_in (buckets_of buckets.now)) }
{
    for bucket in buckets {
        if !agree_on(bucket, one, other) {
            return false;
        }
    }
    true
}

impl Row {
    fn copy(&self, alloc: Global) -> Result<Row, NoMemory>
        ensures { IfOk result (λ copy. table_row_of copy ≡ table_row_of self.now) }
    {
        Ok(Row {
            first: self.first,
            second: self.second,
            cond: self.cond.copy(alloc)?,
        })
    }
}

impl Table {
    ghost use Rattle.gx_base.specs.TableRows.{row_of};

    /// A table in which every row is `False`.
    pub fn blank(alloc: Global) -> Table
        ensures { result ≡ map.empty }
    {
        Table {
            buckets: Vec::new(alloc),
            blank: Cond::False,
        }
    }

    /// Replaces a row.
    pub fn put(&mut self, first: u32, second: u32, cond: Cond) -> Result<(), NoMemory>
        ensures ok { OnOk result (self.new ≡ map.insert self.old (first, second) (condition_of cond)) }
        ensures err { OnErr result (self.new ≡ self.old) }
    {
        put_in_bucket(
            &mut self.buckets,
            Row {
                first,
                second,
                cond,
            },
        )
    }

    /// The row of two methods, of which the first ran first.
    pub fn row(&self, first: u32, second: u32) -> &Cond
        ensures { condition_of result.now ≡ row_of self.now first second }
    {
        let number = bucket_at(first, second);
        if number < self.buckets.len() {
            let rows = &self.buckets[number];
            if let Some(place) = pair_index(rows, first, second) {
                return &rows[place].cond;
            }
        }
        &self.blank
    }

    /// A table with the same rows.
    pub fn copy(&self) -> Result<Table, NoMemory>
        ensures { IfOk result (λ copy. copy ≡ self.now) }
    {
        let alloc = *self.buckets.allocator();
        let buckets = bucket_copies(&self.buckets, alloc)?;
        Ok(Table {
            buckets,
            blank: Cond::False,
        })
    }

    /// Whether each pair's rows are equal. A pair without a row is one whose row is `False`.
    pub fn equals(&self, other: &Table) -> bool
        ensures { IsTrue result ↔ ((first second : ℕ) → row_of self.now first second ≡ row_of other.now first second) }
    {
        agree_on_all(&self.buckets, self, other) && agree_on_all(&other.buckets, self, other)
    }
}
