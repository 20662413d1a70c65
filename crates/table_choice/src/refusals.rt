/// Why a table that a user wrote is refused.
#[derive(Clone, Copy, Debug, PartialEq, Eq, Drop)]
pub enum TableRefuse {
    /// The text has its first fault on this line, from 1.
    Line { line: u64 },
    /// The first pair of methods, by their numbers, whose row isn't below the other table's.
    NotBelow { first: u32, second: u32 },
    NoMemory,
}

impl From<gx_base::NoMemory> for TableRefuse {
    ghost use Rattle.std.specs.Prelude.{◌≡◌};
    ghost use Rattle.table_choice.specs.declared.refusals.TableRefuse.TheVariants.{NoMemory as OutOfMemory};

    ghost from_gives = { λ _ refuse. refuse ≡ OutOfMemory };

    fn from(_refused: gx_base::NoMemory) -> TableRefuse {
        TableRefuse::NoMemory
    }
}
