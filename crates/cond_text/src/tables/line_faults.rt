//! What is wrong with one line of a table's text.

ghost use Rattle.std.specs.Prelude.{◌≡◌};
ghost use Rattle.cond_text.specs.LineAnswers.{told_at};
ghost use Rattle.cond_text.specs.declared.tables.line_faults.LineFault.TheVariants as refused;

use crate::faults::TextFault;
use gx_base::NoMemory;

/// What is wrong with a line, or want of memory.
#[derive(Clone, Copy, Drop)]
pub(super) enum LineFault {
    Syntax,
    UnknownMethod,
    UnknownName,
    Twice,
    TooDeep,
    NoMemory,
}

impl From<NoMemory> for LineFault {
    ghost from_gives = { λ _ fault. fault ≡ refused.NoMemory };

    fn from(_refused: NoMemory) -> LineFault {
        LineFault::NoMemory
    }
}

impl LineFault {
    /// The fault with the line's number.
    pub(super) fn at(self, line: u64) -> TextFault
        ensures { result ≡ told_at line self }
    {
        match self {
            LineFault::Syntax => TextFault::Syntax { line },
            LineFault::UnknownMethod => TextFault::UnknownMethod { line },
            LineFault::UnknownName => TextFault::UnknownName { line },
            LineFault::Twice => TextFault::Twice { line },
            LineFault::TooDeep => TextFault::TooDeep { line },
            LineFault::NoMemory => TextFault::NoMemory,
        }
    }
}
