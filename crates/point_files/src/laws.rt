//! The law of files of points, over their definitions alone. A caller of this function, which does nothing, may use what
//! it ensures.

ghost use Rattle.std.specs.Prelude.{ℕ, List};
ghost use Rattle.point_files.specs.PointFiles.{CallsForOne};

/// Each text calls for just one answer: it is the file of some points, no more than may be read or more, or one row is
/// told as its first fault.
pub fn each_text_calls_for_one_answer()
    ensures { (bytes : List ℕ) → CallsForOne bytes }
{}
