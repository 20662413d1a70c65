use commit_book::Book;
use gate_core::{Gate, Screen};
use gx_base::{Homed, SeqType};

/// What a room holds.
#[derive(Drop)]
pub enum Value<T: SeqType, S: Screen<T>> {
    Object(Gate<T, S>),
    Book(Book),
}

impl<T: SeqType, S: Screen<T>> Homed for Value<T, S> {
    ghost use Rattle.rooms.specs.Values.{tells, IsHomed, value_alone};

    ghost told = { λ value. tells value };

    ghost lawful = { λ value. IsHomed value };

    ghost alone = { λ value homed no_book worker. value_alone value homed no_book worker };
}
