//! The laws of a lane that hears further entries.

ghost use Rattle.std.specs.Prelude.{List};
ghost use Rattle.arrival_log.specs.Kept.{Judge};
ghost use Rattle.arrival_log.specs.Laws.{AddsItsOwn, AreSettled};
ghost use Rattle.arrival_log.specs.Log.{LaneEntry};

/// One entry more adds its event, its dropped record and its place, and changes none of those before it.
pub fn each_entry_adds_its_own()
    ensures { (j : Judge) (front : List LaneEntry) (e : LaneEntry) → AddsItsOwn j front e }
{}

/// Whatever a lane hears further, its events below its watermark stay as they are.
pub fn events_below_the_watermark_are_settled()
    ensures { (j : Judge) → AreSettled j }
{}
