//! The methods of cells.
ghost use Rattle.std.specs.Prelude.{◌≡◌};
ghost use Rattle.gx_base.specs.CellsKind.{cells_use};
ghost use Rattle.shared_sets.specs.CellsMethods.{use_from};

use gx_base::CELLS_METHODS;
use kind_tables::register_rows::Deed;

/// Replies the number of a key.
pub const READ: u32 = CELLS_METHODS;

/// Adds to the number of a key.
pub const ADD: u32 = READ + 1;

/// Writes the number of a key, and replies the old one.
pub const SET: u32 = READ + 2;

/// The first method of cells, and what follows the last.
pub(crate) const FIRST_METHOD: u32 = READ;

pub(crate) const METHODS_END: u32 = SET + 1;

/// What the method of this number does. `None` for a method of another kind of object.
pub(crate) fn deed_of(method: u32) -> Option<Deed>
    ensures { use_from result ≡ cells_use method }
{
    match method {
        READ => Some(Deed::Reads),
        ADD => Some(Deed::Adds),
        SET => Some(Deed::Sets),
        _ => None,
    }
}
