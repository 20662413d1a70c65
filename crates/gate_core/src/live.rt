ghost use Rattle.std.specs.Prelude.{◌≡◌, ◌+◌, ◌<◌, ◌≤◌, ◌++◌, ◌∷◌, [], ◌↔◌, IsTrue, OnOk, length, remove, slice_index_or, vec_len, vec_capacity};
ghost use Rattle.gate_core.specs.Entries.{others_than, others_of_first, one_if_other};

use crate::entries::is_entry_of;
use gx_base::Entry;
use std::alloc::{AllocError, Global};

/// The uncommitted entries of a gate, in the order of their calls. How many are of another iteration than
/// the first is counted, so that a gate knows at once that an iteration is alone there.
#[derive(Drop)]
pub(crate) struct LiveEntries {
    entries: Vec<Entry>,
    others: usize,
    ghost counted: { others ≡ others_of_first entries.items },
}

impl LiveEntries {
    pub(crate) fn new(alloc: Global) -> LiveEntries
        ensures { result.entries.items ≡ [] }
    {
        LiveEntries {
            entries: Vec::new(alloc),
            others: 0,
        }
    }

    pub(crate) fn as_slice(&self) -> &[Entry]
        ensures value { result.now ≡ self.now.entries.items }
    {
        self.entries.as_slice()
    }

    /// Whether no other iteration has an entry here.
    #[inline(always)]
    pub(crate) fn are_all_of(&self, worker: u32, iter: u64) -> bool
        ensures { IsTrue result ↔ (others_than worker iter self.now.entries.items ≡ []) }
    {
        let entries = self.entries.as_slice();
        if entries.is_empty() {
            return true;
        }
        let of_first = is_entry_of(&entries[0], worker, iter);
        self.others == 0 && of_first
    }

    /// Takes the memory for one more entry.
    #[inline(always)]
    pub(crate) fn reserve_one(&mut self) -> Result<(), AllocError>
        ensures items { self.new.entries.items ≡ self.old.entries.items }
        ensures room { OnOk result (vec_len self.new.entries + 1 ≤ vec_capacity self.new.entries) }
    {
        self.entries.reserve(1)
    }

    #[inline(always)]
    pub(crate) fn push_reserved(&mut self, entry: Entry)
        requires { vec_len self.old.entries < vec_capacity self.old.entries }
        ensures items { self.new.entries.items ≡ self.old.entries.items ++ entry ∷ [] }
    {
        // So the count of others has room for one more.
        let len = self.entries.len();
        prove!(self.others <= len);
        self.others += other_than_first(self.entries.as_slice(), &entry);
        self.entries.push_reserved(entry);
    }

    pub(crate) fn remove(&mut self, place: usize) -> Entry
        requires { place < length self.old.entries.items }
        ensures value { result ≡ slice_index_or self.old.entries.items place result }
        ensures items { self.new.entries.items ≡ remove self.old.entries.items place }
    {
        let entry = self.entries.remove(place);
        self.others = others_without(self.entries.as_slice(), self.others, place, &entry);
        entry
    }

    pub(crate) fn keep_others(&mut self, worker: u32, iter: u64)
        ensures { self.new.entries.items ≡ others_than worker iter self.old.entries.items }
    {
        self.entries
            .retain(move |entry| !is_entry_of(entry, worker, iter));
        self.others = count_others(self.entries.as_slice());
    }
}

// 1 for an entry of another iteration than the first of these.
#[inline(always)]
fn other_than_first(entries: &[Entry], entry: &Entry) -> usize
    ensures { result ≡ one_if_other entries.now entry.now }
{
    if entries.is_empty() {
        return 0;
    }
    let first = &entries[0];
    if is_entry_of(entry, first.worker, first.iter) {
        0
    } else {
        1
    }
}

// The count of others once an entry has left its place: one that wasn't the first changes it by itself alone.
fn others_without(entries: &[Entry], others: usize, place: usize, entry: &Entry) -> usize
    requires { 0 < place → others ≡ others_of_first entries.now + one_if_other entries.now entry.now }
    ensures { result ≡ others_of_first entries.now }
{
    if place == 0 {
        count_others(entries)
    } else {
        others - other_than_first(entries, entry)
    }
}

fn count_others(entries: &[Entry]) -> usize
    ensures { result ≡ others_of_first entries.now }
{
    if entries.is_empty() {
        return 0;
    }
    let first = &entries[0];
    count_others_than(entries, first.worker, first.iter)
}

fn count_others_than(entries: &[Entry], worker: u32, iter: u64) -> usize
    ensures { result ≡ length (others_than worker iter entries.now) }
{
    let mut others = 0;
    for entry in entries {
        if !is_entry_of(entry, worker, iter) {
            others += 1;
        }
    }
    others
}
