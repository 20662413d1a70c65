ghost use Rattle.std.specs.Prelude.{◌≡◌, ◌+◌, ◌≤◌, ◌^◌, ◌<◌, [], ◌∷◌, ◌++◌, OnOk, OnErr, length};
ghost use Rattle.gx_base.specs.Outcomes.{journal};
ghost use Rattle.gx_base.specs.SerialRuns.{all_counted};
ghost use Rattle.commit_book.specs.StoredBooks.{whole_commit};

use gx_base::{Commit, Item, NoMemory, Step};
use std::alloc::Global;
use std::marker::Model;

/// What has committed: each commit with what its body did. The steps of all commits stand in one list, and their pushes
/// in another, so that a commit takes no list of its own.
#[derive(Drop)]
pub struct Past {
    commits: Vec<Commit>,
    journal: Vec<Step>,
    push_counts: Vec<usize>,
    pushes: Vec<Item>,
}

impl Model for Past {
    ghost use Rattle.std.specs.Prelude.{List};
    ghost use Rattle.std.specs.Coded.{coded_list};
    ghost use Rattle.gx_base.specs.Outcomes.{WholeCommit, whole_commit_code};
    ghost use Rattle.commit_book.specs.StoredBooks.{whole_commits, AddUp};

    ghost Value = { List WholeCommit };

    ghost coded = { coded_list whole_commit_code };

    ghost view = { λ past. whole_commits past.commits.items past.journal.items past.push_counts.items past.pushes.items };

    ghost invariant = { λ past. AddUp past.commits.items past.journal.items past.push_counts.items past.pushes.items };
}

impl Past {
    /// Nothing has committed. It takes no memory.
    pub fn new(alloc: Global) -> Past
        ensures { result ≡ [] }
    {
        Past {
            commits: Vec::new(alloc),
            journal: Vec::new(alloc),
            push_counts: Vec::new(alloc),
            pushes: Vec::new(alloc),
        }
    }

    pub fn commits(&self) -> &[Commit]
        ensures { result.now ≡ all_counted self.now }
    {
        self.commits.as_slice()
    }

    pub fn journal(&self) -> &[Step]
        ensures { result.now ≡ journal self.now }
    {
        self.journal.as_slice()
    }

    /// One more commit, with the steps and the pushes of its body. Where memory runs out nothing has changed.
    pub fn append(&mut self, commit: Commit, log: &[Step], pushes: &[Item]) -> Result<(), NoMemory>
        requires { commit.steps ≡ length log.now }
        ensures ok { OnOk result (self.new ≡ self.old ++ whole_commit commit log.now pushes.now ∷ []) }
        ensures err { OnErr result (self.new ≡ self.old) }
    {
        self.commits.reserve(1)?;
        self.push_counts.reserve(1)?;
        self.pushes.reserve(pushes.len())?;
        self.journal.extend_from_slice(log)?;
        self.commits.push(commit)?;
        self.push_counts.push(pushes.len())?;
        self.pushes.extend_from_slice(pushes)?;
        Ok(())
    }
}
