//! The laws of the time policies.

ghost use Rattle.std.specs.Prelude.{◌≡◌, ◌↔◌, IsTrue, List};
ghost use Rattle.event_value.specs.declared.value.Value.{Value};
ghost use Rattle.time_policy.specs.Laws.{IsKeptFromWatermark, NeverFalls};
ghost use Rattle.time_policy.specs.Substreams.{is_same_substream};
ghost use Rattle.time_policy.specs.declared.rules.Rules.{Rules};

/// A record is kept at a time of at least the lane's watermark before it.
pub fn no_record_is_kept_below_the_watermark()
    ensures { (r : Rules) → IsKeptFromWatermark r }
{}

/// No further entries make a lane's watermark fall.
pub fn the_watermark_never_falls()
    ensures { (r : Rules) → NeverFalls r }
{}

/// Two records belong to one substream exactly where their keys are equal.
pub fn substreams_are_equal_keys()
    ensures { (a b : List Value) → IsTrue (is_same_substream a b) ↔ (a ≡ b) }
{}
