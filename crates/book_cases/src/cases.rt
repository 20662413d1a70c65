//! Books: worked cases, the limits, and ten thousand calls beside a plain model.
use commit_book::{Book, Commit, CommitRefuse, MOST_COMMITS, Step};
use gx_base::{Call, Homed, Item, NoMemory, Reply};
use std::alloc::Global;
use std::test::Fail;

const FIVE: Item = Item {
    k0: 5,
    k1: 0,
    k2: 0,
    k3: 0,
};

const SEVEN: Item = Item { k0: 7, ..FIVE };

const fn item(k0: i64) -> Item {
    Item::new(k0, 0, 0, 0)
}

fn step() -> Step {
    Step {
        room: 0,
        call: Call::new(18, 1, 0, 0, 0),
        reply: Reply::new(0, 0, 0, 0),
    }
}

fn steps(alloc: Global, count: usize) -> Result<Vec<Step>, NoMemory> {
    let mut log = Vec::new(alloc);
    for _ in 0..count {
        log.push(step())?;
    }
    Ok(log)
}

/// Whether a commit without steps answers so.
fn answers(
    book: &mut Book,
    item: Item,
    pushes: &[Item],
    answer: Result<u64, CommitRefuse>,
) -> bool {
    book.commit(0, 0, item, &[], pushes) == answer
}

#[test]
fn book_commits_in_order(rt: HostRuntime) -> Result<(), Fail> {
    let mut book = Book::new(rt.alloc(), true, &[SEVEN, FIVE])?;
    assert!(rt; answers(&mut book, item(6), &[], Err(CommitRefuse::NotReady)));
    let refuse = CommitRefuse::NotLeast { least: FIVE };
    assert!(rt; answers(&mut book, SEVEN, &[], Err(refuse)));
    assert!(rt; answers(&mut book, FIVE, &[SEVEN, item(9)], Ok(0)));
    assert!(rt; book.is_ready(SEVEN) && book.is_ready(item(9)) && !book.is_ready(FIVE));
    Ok(())
}

#[test]
fn book_commits_until_spent(rt: HostRuntime) -> Result<(), Fail> {
    let mut book = Book::new(rt.alloc(), false, &[FIVE])?;
    for number in 0..MOST_COMMITS {
        assert!(rt; answers(&mut book, FIVE, &[FIVE], Ok(number as u64)));
    }
    assert!(rt; answers(&mut book, FIVE, &[FIVE], Err(CommitRefuse::Spent)));
    assert_eq!(rt; book.commits().len(), MOST_COMMITS);
    Ok(())
}

#[test]
fn book_commits_until_kept(rt: HostRuntime) -> Result<(), Fail> {
    let mut book = Book::new(rt.alloc(), false, &[FIVE])?;
    let log = steps(rt.alloc(), 1_048_576)?;
    for number in 0..8 {
        assert!(rt; book.commit(0, 0, FIVE, log.as_slice(), &[FIVE]) == Ok(number));
    }
    assert!(rt; book.commit(0, 0, FIVE, &[step()], &[FIVE]) == Err(CommitRefuse::Kept));
    assert!(rt; answers(&mut book, FIVE, &[], Ok(8)));
    assert!(rt; book.is_empty());
    assert_eq!(rt; book.journal().len(), 8_388_608);
    Ok(())
}

/// A room can hold a book, and a thread can be given one.
fn goes_to_threads<T: Homed + Send>(_value: &T) {}

#[test]
fn book_takes_and_puts_back(rt: HostRuntime) -> Result<(), Fail> {
    let mut book = Book::empty(rt.alloc());
    goes_to_threads(&book);
    assert!(rt; book.next_free(0, 0)?.is_none());
    book = Book::new(rt.alloc(), false, &[SEVEN, FIVE])?;
    assert!(rt; book.next_free(0, 0)? == Some(FIVE));
    assert!(rt; book.next_free(1, 0)? == Some(SEVEN));
    assert!(rt; book.next_free(0, 1)?.is_none());
    book.put_back(0, 0);
    // the hold that worker 1 had ends with the one that it gets
    assert!(rt; book.next_free(1, 0)? == Some(FIVE));
    assert!(rt; book.next_free(0, 1)? == Some(SEVEN));
    Ok(())
}

/// What an iteration holds.
#[derive(Clone, Copy, Drop)]
struct Held {
    worker: u32,
    iter: u64,
    item: Item,
}

/// A book as lists that are searched from end to end.
#[derive(Drop)]
struct PlainBook {
    ordered: bool,
    ready: Vec<Item>,
    held: Vec<Held>,
    commits: Vec<Commit>,
}

impl PlainBook {
    fn is_ready(&self, item: Item) -> bool {
        self.ready.iter().any(|other| *other == item)
    }

    fn insert(&mut self, item: Item) -> Result<(), NoMemory> {
        if !self.is_ready(item) {
            self.ready.push(item)?;
        }
        Ok(())
    }

    fn put_back(&mut self, worker: u32, iter: u64) {
        self.held
            .retain(|held| held.worker != worker || held.iter != iter);
    }

    fn next_free(&mut self, worker: u32, iter: u64) -> Result<Option<Item>, NoMemory> {
        let mut least: Option<Item> = None;
        for item in &self.ready {
            let is_held = self.held.iter().any(|held| held.item == *item);
            if !is_held && least.is_none_or(|other| *item < other) {
                least = Some(*item);
            }
        }
        if let Some(item) = least {
            self.put_back(worker, iter);
            self.held.push(Held { worker, iter, item })?;
        }
        Ok(least)
    }

    fn refusal(&self, item: Item) -> Option<CommitRefuse> {
        if !self.is_ready(item) {
            return Some(CommitRefuse::NotReady);
        }
        let mut least = item;
        for other in &self.ready {
            if *other < least {
                least = *other;
            }
        }
        if self.ordered && least < item {
            return Some(CommitRefuse::NotLeast { least });
        }
        None
    }

    fn commit(
        &mut self,
        commit: Commit,
        pushes: &[Item],
    ) -> Result<Result<u64, CommitRefuse>, NoMemory> {
        if let Some(refuse) = self.refusal(commit.item) {
            return Ok(Err(refuse));
        }
        self.ready.retain(|other| *other != commit.item);
        self.held.retain(|held| held.item != commit.item);
        for push in pushes {
            self.insert(*push)?;
        }
        let number = self.commits.len() as u64;
        self.commits.push(commit)?;
        Ok(Ok(number))
    }
}

/// Numbers that look random.
#[derive(Drop)]
struct Draws {
    state: u64,
}

impl Draws {
    fn draw(&mut self) -> u64 {
        self.state = self
            .state
            .wrapping_mul(6_364_136_223_846_793_005)
            .wrapping_add(1_442_695_040_888_963_407);
        self.state >> 33
    }

    fn item(&mut self) -> Item {
        item((self.draw() % 20) as i64)
    }
}

/// Makes one call on both books. Whether they answer the same.
fn same_call(book: &mut Book, plain: &mut PlainBook, draws: &mut Draws) -> Result<bool, NoMemory> {
    let worker = (draws.draw() % 4) as u32;
    let iter = draws.draw() % 3;
    match draws.draw() % 3 {
        0 => Ok(book.next_free(worker, iter)? == plain.next_free(worker, iter)?),
        1 => {
            book.put_back(worker, iter);
            plain.put_back(worker, iter);
            Ok(true)
        }
        _ => {
            let item = draws.item();
            let pushes = [draws.item(), draws.item(), draws.item()];
            let pushes = &pushes[..(draws.draw() % 4) as usize];
            let steps = draws.draw() % 4;
            let log = &[step(), step(), step()][..steps as usize];
            let commit = Commit {
                worker,
                iter,
                item,
                steps,
            };
            Ok(book.commit(worker, iter, item, log, pushes) == plain.commit(commit, pushes)?)
        }
    }
}

#[test]
fn book_beside_a_plain_one(rt: HostRuntime) -> Result<(), Fail> {
    let alloc = rt.alloc();
    let mut draws = Draws { state: 1 };
    let mut ready = Vec::new(alloc);
    for _ in 0..30 {
        ready.push(draws.item())?;
    }
    for ordered in [false, true] {
        let mut book = Book::new(alloc, ordered, ready.as_slice())?;
        let mut plain = PlainBook {
            ordered,
            ready: Vec::new(alloc),
            held: Vec::new(alloc),
            commits: Vec::new(alloc),
        };
        for item in &ready {
            plain.insert(*item)?;
        }
        for _ in 0..10_000 {
            assert!(rt; same_call(&mut book, &mut plain, &mut draws)?);
            let item = draws.item();
            assert!(rt; book.is_ready(item) == plain.is_ready(item));
            assert!(rt; book.is_empty() == plain.ready.is_empty());
        }
        assert!(rt; book.commits() == plain.commits.as_slice());
        assert!(rt; plain.commits.len() > 100);
    }
    Ok(())
}
