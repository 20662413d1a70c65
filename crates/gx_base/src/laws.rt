//! Laws of calls and tables, over their definitions alone. A caller of one of these empty functions
//! may use what it ensures.

ghost use Rattle.std.specs.Prelude.{◌≡◌, ◌≤◌, ◌%◌, ℕ, true, false, length, Option, Some, None, List, [], ◌∷◌, ◌++◌};
ghost use Rattle.gx_base.specs.declared.acts.Act.TheVariants as acts;
ghost use Rattle.gx_base.specs.declared.acts.Step.{Step};
ghost use Rattle.gx_base.specs.declared.calls.Call.{Call};
ghost use Rattle.gx_base.specs.declared.calls.Made.{Made};
ghost use Rattle.gx_base.specs.declared.calls.Reply.{Reply};
ghost use Rattle.gx_base.specs.declared.items.Item.{Item};
ghost use Rattle.gx_base.specs.States.{State};
ghost use Rattle.gx_base.specs.Steps.{next_state, reply_to, inverse, IsState, IsCall};
ghost use Rattle.gx_base.specs.Tables.{Rows, IsValid};
ghost use Rattle.gx_base.specs.Below.{AreBelow};
ghost use Rattle.gx_base.specs.declared.kinds.Kind.{Kind};
ghost use Rattle.gx_base.specs.Kinds.{kind_number};
ghost use Rattle.gx_base.specs.Methods.{most_methods, words_of, is_method};
ghost use Rattle.gx_base.specs.ForeignMethods.{ChangesNothing};
ghost use Rattle.gx_base.specs.Plans.{Plan, Done, Operator, Follows};
ghost use Rattle.gx_base.specs.Outcomes.{WholeCommit, outcomes_of, journal};
ghost use Rattle.gx_base.specs.RoomViews.{RoomView, room_view_code};
ghost use Rattle.gx_base.specs.Replays.{after, Legal, start_of, AreCalls, part, Replays};
ghost use Rattle.gx_base.specs.BodyRuns.{then_step, RunsTo};
ghost use Rattle.gx_base.specs.SerialIterations.{body, Ended, serial, then_serial};
ghost use Rattle.gx_base.specs.SerialRuns.{IsSerialRun, IsLeastFirst, IsSerialRunInTwo, AreInTurn, AreRunsOf};

/// The inverse of a call gives the state before it.
pub fn inverse_undoes()
    ensures { (s : State) (c : Call) → IsState s → IsCall c → inverse (next_state s c) c (reply_to s c) ≡ s }
{}

/// A call leaves a state that an object may have, of the kind that it had.
pub fn calls_keep_states()
    ensures state { (s : State) (c : Call) → IsState s → IsCall c → IsState (next_state s c) }
    ensures kind { (s : State) (c : Call) → (next_state s c).kind ≡ s.kind }
{}

/// A method that is none of the kind's leaves the state, replies four zeros, and has nothing to undo.
pub fn foreign_methods_change_nothing()
    ensures { (s : State) (c : Call) → is_method s.kind c.method ≡ false → ChangesNothing s c }
{}

/// A table below a valid one is valid.
pub fn below_valid_is_valid()
    ensures { (kind : ℕ) (lower upper : Rows) → AreBelow lower upper → IsValid kind upper → IsValid kind lower }
{}

/// The steps of a body are legal from the states that it begins in, and lead to those that it ends in.
pub fn bodies_replay()
    ensures { (plan : Plan) (states : ℕ → State) → Replays states (body plan states).outcome.steps (body plan states).states }
{}

/// Calls that replay determine the end from the start, and the start from the end.
pub fn replays_determine_both_ends()
    ensures end { (s t : State) (mades : List Made) → Legal s mades t → after s mades ≡ t }
    ensures start { (s t : State) (mades : List Made) → IsState s → AreCalls mades → Legal s mades t → start_of t mades ≡ s }
    ensures of_rooms { (states ends others : ℕ → State) (steps : List Step) → Replays states steps ends → Replays states steps others → ends ≡ others }
{}

/// Rooms are independent: steps replay exactly where the part of them in each room does.
pub fn rooms_replay_apart()
    ensures apart { (states ends : ℕ → State) (steps : List Step) → Replays states steps ends → (room : ℕ) → Legal (states room) (part room steps) (ends room) }
    ensures merged { (states ends : ℕ → State) (steps : List Step) → ((room : ℕ) → Legal (states room) (part room steps) (ends room)) → Replays states steps ends }
{}

/// A replay splits at each prefix, and two replays join where the first ends.
pub fn replays_split_and_join()
    ensures split { (states ends : ℕ → State) (xs ys : List Step) → Replays states (xs ++ ys) ends → (between : ℕ → State) × Replays states xs between × Replays between ys ends }
    ensures joined { (states between ends : ℕ → State) (xs ys : List Step) → Replays states xs between → Replays between ys ends → Replays states (xs ++ ys) ends }
    ensures parts { (room : ℕ) (xs ys : List Step) → part room (xs ++ ys) ≡ part room xs ++ part room ys }
    ensures split_calls { (s t : State) (xs ys : List Made) → Legal s (xs ++ ys) t → Legal s xs (after s xs) × Legal (after s xs) ys t }
    ensures joined_calls { (s between t : State) (xs ys : List Made) → Legal s xs between → Legal between ys t → Legal s (xs ++ ys) t }
{}

/// A run of a plan by replies to its end, whose steps replay from some states, is the body on these states.
pub fn runs_that_replay_are_bodies()
    ensures { (plan : Plan) (steps : List Step) (pushes : List Item) (states ends : ℕ → State) → RunsTo plan steps pushes Done → Replays states steps ends → body plan states ≡ record { outcome = record { steps = steps; pushes = pushes; withdrawn = [] }; states = ends } }
{}

/// The body of a plan, on any states, is a run of the plan by replies.
pub fn bodies_are_runs()
    ensures { (plan : Plan) (states : ℕ → State) → RunsTo plan (body plan states).outcome.steps (body plan states).outcome.pushes Done }
{}

/// A run of a plan by replies goes on by each act that follows: by a call, whatever the reply to it, and by a push. Where the
/// end follows, it is whole.
pub fn runs_go_on_by_what_follows()
    ensures calls { (plan rest : Plan) (left : Option Reply → Plan) (steps : List Step) (pushes : List Item) (room : ℕ) (call : Call) (reply : Reply) → RunsTo plan steps pushes rest → Follows rest (acts.Call room call) left → RunsTo plan (then_step steps room call reply) pushes (left (Some reply)) }
    ensures pushes { (plan rest : Plan) (left : Option Reply → Plan) (steps : List Step) (pushes : List Item) (item : Item) → RunsTo plan steps pushes rest → Follows rest (acts.Push item) left → RunsTo plan steps (pushes ++ item ∷ []) (left None) }
    ensures ends { (plan rest : Plan) (left : Option Reply → Plan) (steps : List Step) (pushes : List Item) → RunsTo plan steps pushes rest → Follows rest acts.Done left → RunsTo plan steps pushes Done }
{}

/// A serial iteration of an order is that of any prefix of it, and then of the rest from where that ended.
pub fn serial_iteration_splits()
    ensures { (op : Operator) (states : ℕ → State) (ready xs ys : List Item) → serial op states ready (xs ++ ys) ≡ then_serial op ys (serial op states ready xs) }
{}

/// A serial run is one of any prefix of its commits, and then one of the others from where that ended.
pub fn serial_runs_split_and_join()
    ensures split { (op : Operator) (states : ℕ → State) (ready : List Item) (front rear : List WholeCommit) (ended : Ended) → IsSerialRun op states ready (front ++ rear) ended → IsSerialRunInTwo op states ready front rear ended }
    ensures joined { (op : Operator) (states : ℕ → State) (ready : List Item) (front rear : List WholeCommit) (ended : Ended) → IsSerialRunInTwo op states ready front rear ended → IsSerialRun op states ready (front ++ rear) ended }
{}

/// The journal of a serial run replays from its start to its end.
pub fn journals_replay()
    ensures { (op : Operator) (states : ℕ → State) (ready : List Item) (commits : List WholeCommit) (ended : Ended) → IsSerialRun op states ready commits ended → Replays states (journal commits) ended.states }
{}

/// Commits in turn, each of a run of its body by replies, are a serial run where their journal replays.
pub fn runs_in_turn_are_serial()
    ensures { (op : Operator) (states ends : ℕ → State) (ready left : List Item) (commits : List WholeCommit) → AreInTurn op.ordered ready commits left → AreRunsOf op commits → Replays states (journal commits) ends → IsSerialRun op states ready commits (record { states = ends; ready = left; outcomes = outcomes_of commits }) }
{}

/// Commits of which each was the least ready one at its turn, with what their bodies did, are a serial run, ordered or not.
pub fn least_first_runs_are_serial()
    ensures { (op : Operator) (states : ℕ → State) (ready : List Item) (commits : List WholeCommit) (ended : Ended) → IsLeastFirst op states ready commits ended → outcomes_of commits ≡ ended.outcomes → IsSerialRun op states ready commits ended }
{}

/// What rooms tell of their values is stored by codes that tell any two of them apart.
pub fn codes_tell_room_views_apart()
    ensures { (view other : RoomView) → room_view_code.code view ≡ room_view_code.code other → view ≡ other }
{}

/// A kind has no more methods than a kind may have, and no two of them leave the same rest by that number.
pub fn kinds_have_few_methods()
    ensures few { (kind : Kind) → length (words_of (kind_number kind)) ≤ most_methods }
    ensures apart { (kind : Kind) (method other : ℕ) → is_method (kind_number kind) method ≡ true → is_method (kind_number kind) other ≡ true
        → method % most_methods ≡ other % most_methods → method ≡ other }
{}
