ghost use Rattle.std.specs.Prelude.{◌≡◌, ◌+◌, ◌-◌, ◌^◌, ◌<◌, ◌≤◌, ◌++◌, length, vec_len, vec_capacity, Some, if◌then◌else◌};
ghost use Rattle.gate_core.specs.Entries.{is_of, has_entry, entries_of, done_under};
ghost use Rattle.gate_core.specs.LastPlaces.{IsLastPlace};

use gx_base::Entry;

#[inline(always)]
pub(crate) fn is_entry_of(entry: &Entry, worker: u32, iter: u64) -> bool
    ensures { result ≡ is_of worker iter entry.now }
{
    entry.worker == worker && entry.iter == iter
}

// Where the last entry of an iteration stands.
pub(crate) fn last_place(entries: &[Entry], worker: u32, iter: u64) -> Option<usize>
    ensures { IsLastPlace worker iter entries.now result }
{
    for place in (0..entries.len()).rev() {
        if is_entry_of(&entries[place], worker, iter) {
            return Some(place);
        }
    }
    None
}

// Adds the entries of an iteration to the done ones, under a number, and gives the mark that they leave.
pub(crate) fn append_done(
    done: &mut Vec<Entry>,
    live: &[Entry],
    worker: u32,
    iter: u64,
    number: u64,
    mark: u64,
) -> u64
    requires room { vec_len done.old + length live.now ≤ vec_capacity done.old }
    requires number { number < 2 ^ 64 - 1 }
    ensures done { done.new.items ≡ done.old.items ++ done_under number (entries_of worker iter live.now) }
    ensures mark { result ≡ (if has_entry worker iter live.now then number + 1 else mark) }
    ensures capacity { vec_capacity done.new ≡ vec_capacity done.old }
{
    let mut mark = mark;
    for entry in live {
        if is_entry_of(entry, worker, iter) {
            done.push_reserved(done_as(entry, number));
            mark = number + 1;
        }
    }
    mark
}

fn done_as(entry: &Entry, number: u64) -> Entry
    ensures { result ≡ record entry.now { done = Some number } }
{
    Entry {
        done: Some(number),
        ..*entry
    }
}
