//! Laws of the runs of the cluster program, over definitions alone. A caller of one of these functions, which do nothing,
//! may use what it ensures.

ghost use Rattle.std.specs.Prelude.{◌≡◌, ℕ, ◌<◌, List, [], length};
ghost use Rattle.gx_base.specs.declared.calls.Spot.{Spot};
ghost use Rattle.gx_base.specs.declared.items.Item.{Item};
ghost use Rattle.gx_base.specs.Outcomes.{WholeCommit, order_of, outcomes_of};
ghost use Rattle.gx_base.specs.SerialIterations.{Ended};
ghost use Rattle.gx_base.specs.States.{State};
ghost use Rattle.clustering.specs.PointFiles.{IsReadable};
ghost use Rattle.cluster_laws.specs.ChainKeys.{KeysFallInEach};
ghost use Rattle.cluster_laws.specs.ClusterRuns.{IsRunOn, MergesMutualPairs, IsUnbounded, EndsInOne};
ghost use Rattle.cluster_laws.specs.OrderLaw.{AreNumberedFromZero, ReportsOrder};

/// A commit takes out no point, or two. Then each of the two was the nearest one to the other in the state before it.
pub fn merged_points_are_mutually_nearest()
    ensures { (spots : List Spot) (commits : List WholeCommit) (ended : Ended) → IsRunOn spots commits ended → MergesMutualPairs spots commits }
{}

/// Along the chain of each body the key of a pair, of a point and the nearest one to it, is greater than that of the next
/// pair; or the next pair goes back to the point before, and is the last one.
pub fn keys_fall_along_chains()
    ensures { (spots : List Spot) (commits : List WholeCommit) (ended : Ended) → IsRunOn spots commits ended → KeysFallInEach commits }
{}

/// Wherever a run on the points of a file has come to, the bound on the calls of `nearest` isn't what would end a body
/// there.
pub fn bodies_end_by_themselves()
    ensures { (bytes : List ℕ) (spots : List Spot) (commits : List WholeCommit) (ended : Ended) → IsReadable bytes spots → IsRunOn spots commits ended → (item : Item) → IsUnbounded (length spots) item ended.states }
{}

/// The report on a whole run on the points of a file that has one tells one point that is left, whose weight is the number
/// of the points.
pub fn whole_runs_end_in_one_point()
    ensures { (bytes : List ℕ) (spots : List Spot) (commits : List WholeCommit) (after : ℕ → State) → IsReadable bytes spots → 0 < length spots
        → IsRunOn spots commits (record { states = after; ready = []; outcomes = outcomes_of commits }) → EndsInOne (length spots) (order_of commits) after }
{}

/// Two orders from the start of a file's points whose reports are the same bytes are the same order, whatever stands after
/// the reports. So it is the bytes that say in which order the items have committed.
pub fn reports_tell_their_orders()
    ensures told { (spots : List Spot) → AreNumberedFromZero spots → (bytes : List ℕ) (order other : List Item) → ReportsOrder spots bytes order → ReportsOrder spots bytes other → order ≡ other }
    // The points that were read are numbered so.
    ensures of_files { (bytes : List ℕ) (spots : List Spot) → IsReadable bytes spots → AreNumberedFromZero spots }
{}
