use gx_base::{Item, NoMemory};

/// Why a book refuses a commit. Of two reasons it gives the one that stands first here.
#[derive(Clone, Copy, Debug, PartialEq, Eq, Drop)]
pub enum CommitRefuse {
    /// The item isn't ready.
    NotReady,
    /// Items commit in their order, and this one, the least that is ready, comes before.
    NotLeast { least: Item },
    /// As many items have committed as may.
    Spent,
    /// The journal would get more steps than it may have.
    Kept,
    NoMemory,
}

impl From<NoMemory> for CommitRefuse {
    ghost use Rattle.std.specs.Prelude.{◌≡◌};
    ghost use Rattle.commit_book.specs.declared.refusals.CommitRefuse.TheVariants.{NoMemory as OutOfMemory};

    ghost from_gives = { λ _ refuse. refuse ≡ OutOfMemory };

    fn from(_refused: NoMemory) -> CommitRefuse {
        CommitRefuse::NoMemory
    }
}
