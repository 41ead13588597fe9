//! The laws of cores.

ghost use Rattle.std.specs.Prelude.{ℕ, List};
ghost use Rattle.query_meaning.specs.declared.ready.ReadyPlan.{ReadyPlan};
ghost use Rattle.event_value.specs.declared.policy.Policy.{Policy};
ghost use Rattle.job_core.specs.Apart.{StandsApart};
ghost use Rattle.job_core.specs.Schedule.{AnySchedule};

/// Over every list of feeds and cuts, the rows of the batches behind each other are the rows of the
/// whole meaning below the last watermark, and what is heard later changes none of them.
pub fn any_schedule()
    ensures { (plan : ReadyPlan) (policy : Policy) (counts : List ℕ) → AnySchedule plan policy counts }
{}

/// Lanes that are taken out of a core, hear further entries each for itself, and are put back, make
/// a core that stands for all that they have heard.
pub fn lanes_are_fed_apart()
    ensures { StandsApart }
{}
