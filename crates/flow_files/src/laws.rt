//! The law of flow files, over their definitions alone. A caller of this function, which does nothing, may use what it
//! ensures.

ghost use Rattle.std.specs.Prelude.{ℕ, List};
ghost use Rattle.flow_files.specs.FlowLimits.{CallsForOne};

/// Each text calls for just one answer: it is the flow file of one network, and within the limits or past one that is
/// told, or one line is told as its first fault.
pub fn each_text_calls_for_one_answer()
    ensures { (bytes : List ℕ) → CallsForOne bytes }
{}
