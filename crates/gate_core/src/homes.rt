use crate::gates::Gate;
use crate::screens::Screen;
use gx_base::{Homed, SeqType};

// Every lawful gate is lawful here too: `laws::lawful_gates_may_be_homed`.
impl<T: SeqType, S: Screen<T>> Homed for Gate<T, S> {
    ghost use Rattle.gate_core.specs.Homes.{room_view, IsHomedGate};

    ghost told = { λ gate. room_view gate };

    ghost lawful = { λ gate. IsHomedGate gate };

    ghost alone = { λ _ homed _ worker. homed.alone worker };
}
