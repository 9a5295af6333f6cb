//! Laws of actions and runs.

ghost use Rattle.std.specs.Prelude.{◌≡◌, ℕ, ◌<◌, Bool, List, None, true};
ghost use Rattle.chi_flit.specs.Config.{Sizes, are_in_limits};
ghost use Rattle.chi_flit.specs.declared.action.Action.{Action};
ghost use Rattle.chi_flit.specs.declared.action.Effect.{Effect};
ghost use Rattle.chi_line.specs.Step.{effect_of};
ghost use Rattle.chi_slice.specs.Protocol.{LeavesOne, SliceStep, refused, refused_with};
ghost use Rattle.chi_slice.specs.Slice.{SliceKept, SliceState, action_refusal, is_line_in_range, line, opening_slice, refused_under, slice_after};
ghost use Rattle.chi_slice.specs.Run.{AreAlike, AreElsewhere, IsDone, IsRun, IsSameRoom};

/// Only the journal's limit and a slot in use let one line refuse another's action: with any credits, slices
/// that are alike for an action, its line as the protocol has it, refuse it alike; and a run of actions on
/// other lines leaves its refusal, where the journal is full, and the slot that it names in use, as before the
/// run.
/// Source: `docs/PROTOCOL.md`, "The actions".
pub fn only_room_and_slots_join_lines()
    ensures alike { (credits : List Bool) (s t : SliceState) (action : Action) → AreAlike s t action
        → refused_with credits t action ≡ refused_with credits s action }
    ensures run { (credits : List Bool) (old new : SliceState) (actions : List Action) (done : ℕ)
        (action : Action) → IsRun old actions done new → AreElsewhere actions action
        → IsSameRoom old new action
        → refused_with credits new action ≡ refused_with credits old action }
{}

/// By the protocol an action leaves one slice of what its line was: one effect, one journal, and one line up
/// to the order of its flits.
/// Source: `docs/PROTOCOL.md`, "The actions".
pub fn an_action_leaves_one_slice()
    ensures { (old new other : SliceState) (action : Action) (effect own : Effect) → SliceKept old
        → is_line_in_range old action.line.0 ≡ true → SliceStep old action effect new
        → SliceStep old action own other
        → LeavesOne old action effect own new other }
{}

/// What is computed of an action is the protocol's. Why it is refused, by the slice alone or with the credits of a
/// requester, is why the protocol refuses it. And on a slice that keeps what a slice keeps, an action that nothing
/// refuses is done by its row, with the effect `effect_of` of its line, and leaves `slice_after`. What is left keeps
/// that again, and so does a new slice: it is kept wherever actions alone lead.
/// Source: `docs/PROTOCOL.md`, "The actions" and "Refusals".
#[tactic(auto, using(crate::proofs::Computed::done_by_row))]
pub fn what_is_computed_is_by_the_protocol()
    ensures alone { (s : SliceState) (action : Action) → action_refusal s action ≡ refused s action }
    ensures credits { (credits : List Bool) (s : SliceState) (action : Action)
        → refused_under credits s action ≡ refused_with credits s action }
    ensures done { (s : SliceState) (action : Action) → SliceKept s → refused s action ≡ None
        → IsDone s action (effect_of (line s action.line.0) action) (slice_after s action) }
    ensures kept { (s : SliceState) (action : Action) → SliceKept s → refused s action ≡ None
        → SliceKept (slice_after s action) }
    ensures new { (config : Sizes) (index : ℕ) → are_in_limits config ≡ true → index < config.slices
        → SliceKept (opening_slice config index) }
{}
