ghost use Rattle.std.specs.Prelude.{◌≡◌};
ghost use Rattle.gx_base.specs.declared.acts.Act.TheVariants as acts;
ghost use Rattle.preflow_push.specs.FlowCalls.{flow_call_of, room_of};
ghost use Rattle.preflow_push.specs.Discharge.{node_item};

use crate::rooms::room_of;
use gx_base::{Act, Call, Item};

/// A call on a node or an arc.
pub fn flow_call(method: u32, number: i64, amount: i64) -> Call
    ensures { result ≡ flow_call_of method number amount }
{
    Call {
        method,
        a: number,
        b: amount,
        c: 0,
        d: 0,
    }
}

/// The act that makes a call in the room of its node or arc.
pub fn call_act(method: u32, number: i64, amount: i64) -> Act
    ensures { result ≡ acts.Call (room_of number) (flow_call_of method number amount) }
{
    Act::Call {
        room: room_of(number),
        call: flow_call(method, number, amount),
    }
}

/// The item of a node.
pub fn node_item(node: i64) -> Item
    ensures { result ≡ node_item node }
{
    Item {
        k0: node,
        k1: 0,
        k2: 0,
        k3: 0,
    }
}
