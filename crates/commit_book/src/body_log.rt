ghost use Rattle.std.specs.Prelude.{◌≡◌};
ghost use Rattle.gx_base.specs.Outcomes.{nothing_done};
ghost use Rattle.commit_book.specs.Commits.{outcome_of};

use gx_base::{Item, Step};
use std::alloc::Global;

/// What the body of an item did: its steps and its pushes, each in their order.
#[derive(Drop)]
pub struct BodyLog {
    pub steps: Vec<Step>,
    pub pushes: Vec<Item>,
}

impl BodyLog {
    /// That of a body which does nothing. It takes no memory.
    pub fn new(alloc: Global) -> BodyLog
        ensures { outcome_of result ≡ nothing_done }
    {
        BodyLog {
            steps: Vec::new(alloc),
            pushes: Vec::new(alloc),
        }
    }

    /// Makes it that of a body which does nothing, and keeps its memory.
    pub fn clear(&mut self)
        ensures { outcome_of self.new ≡ nothing_done }
    {
        self.steps.clear();
        self.pushes.clear();
    }
}
