//! Laws of the start and of reports, over their definitions alone. A caller of one of these functions, which do
//! nothing, may use what it ensures.

ghost use Rattle.std.specs.Prelude.{◌≡◌, ℕ, ℤ, List, FitsSigned};
ghost use Rattle.std.specs.Int.{w64};
ghost use Rattle.std.specs.List.{AllByRecursion};
ghost use Rattle.flow_files.specs.FlowLimits.{IsReadable};
ghost use Rattle.preflow_push.specs.FlowStates.{excess_in, flow_in};
ghost use Rattle.gx_base.specs.declared.items.Item.{Item};
ghost use Rattle.flow_files.specs.Networks.{Net};
ghost use Rattle.preflow_push.specs.OrderLaw.{HasNodesOfWords, ReportsOrder};
ghost use Rattle.preflow_push.specs.StartLaw.{IsStart, balance};
ghost use Rattle.preflow_push.specs.Starts.{start_states, start_ready};

/// Where the work on a network starts, in plain words.
pub fn the_start_is_a_full_source()
    ensures start { (net : Net) → AllByRecursion (λ arc. FitsSigned w64 arc.cap) net.arcs → IsStart net (start_states net) (start_ready net) }
    // The sums of a network that was read don't wrap.
    ensures exact { (bytes : List ℕ) (net : Net) → IsReadable bytes net → (node : ℤ) → excess_in (start_states net) node ≡ balance (flow_in (start_states net)) node 1 net.arcs }
{}

/// Two orders from a network's start whose reports are the same bytes are the same order, whatever stands after the
/// reports. So it is the bytes that say in which order the items have committed.
pub fn reports_tell_their_orders()
    ensures told { (net : Net) → HasNodesOfWords net → (bytes : List ℕ) (order other : List Item) → ReportsOrder net bytes order → ReportsOrder net bytes other → order ≡ other }
    // The nodes of a network that was read have such numbers.
    ensures of_files { (bytes : List ℕ) (net : Net) → IsReadable bytes net → HasNodesOfWords net }
{}
