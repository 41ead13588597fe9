//! The law of plans.

ghost use Rattle.query_meaning.specs.declared.ready.ReadyPlan.{ReadyPlan};
ghost use Rattle.query_meaning.specs.Laws.{PlanLaws};

/// Streams in order of time give outputs in order of time, and later rows of the streams change no
/// row of an output that is earlier than they are.
pub fn plans_keep_to_the_past()
    ensures { (plan : ReadyPlan) → PlanLaws plan }
{}
