//! The laws of sliding windows and sessions.

ghost use Rattle.std.specs.Prelude.{◌≡◌, ℕ, ◌+◌, ◌<◌, List, filter};
ghost use Rattle.event_value.specs.declared.record.Stamped.{Stamped};
ghost use Rattle.event_value.specs.declared.value.Value.{Value};
ghost use Rattle.window_flow.specs.Laws.{AreByTimeAndPart, AreOnlySessions, AreSlides};
ghost use Rattle.window_flow.specs.Laws.{IsLeastMultiple};
ghost use Rattle.window_flow.specs.Parts.{Parting};
ghost use Rattle.window_flow.specs.Sessions.{latest_end, sessions};
ghost use Rattle.window_flow.specs.Sliding.{is_filled, moments, size_of};
ghost use Rattle.window_flow.specs.declared.sliding.SlidingSpec.{SlidingSpec};

/// The rows of all parts are in order of time, and at one time in order of the parts.
pub fn rows_are_by_time_and_part()
    ensures { (p : Parting) (rows : List Stamped) → AreByTimeAndPart p rows }
{}

/// For a key there is a row at a moment exactly where a row enters or leaves the window then, and
/// the window holds some; the moments rise.
pub fn slides_are_at_entries_and_exits()
    ensures { (spec : SlidingSpec) (key : List Value) (rows : List Stamped) → AreSlides spec key rows
        (filter (is_filled (size_of spec) rows) (moments (size_of spec) rows)) }
{}

/// The first session is the longest front of the rows in which each row comes at most the timeout
/// after the one before and no later than the latest end; the rows behind it have the further
/// sessions in the same way; and there are no other sessions.
pub fn sessions_are_longest_fronts()
    ensures { (timeout most : ℕ) (rows : List Stamped)
        → AreOnlySessions timeout most rows (sessions timeout most rows) }
{}

/// The latest end of a session is the least multiple of the maximum that is at least its start plus
/// the maximum.
pub fn latest_end_is_the_least_multiple()
    ensures { (most start : ℕ) → 0 < most
        → IsLeastMultiple most (start + most) (latest_end most start) }
{}
