//! Laws of dates and of moments' texts.

ghost use Rattle.std.specs.Prelude.{◌≡◌, ℕ, ◌<◌, List, Some, pos};
ghost use Rattle.tick_time.specs.Moment.{limit_ticks, moment_below_limit};
ghost use Rattle.tick_time.specs.Calendar.{date_number, date_of_number};
ghost use Rattle.tick_time.specs.MomentText.{moment_text};
ghost use Rattle.tick_time.specs.MomentReading.{moment_of};
ghost use Rattle.tick_time.specs.MomentForms.{Form, IsForm, IsFormText, form_text, form_ticks};

/// The date that stands n days after 1970-01-01 has the number n by the lengths of years and
/// months.
pub fn dates_have_their_numbers()
    ensures { (n : ℕ) → date_number (date_of_number n) ≡ Some (pos n) }
{}

/// What `write_moment` writes of a moment below `LIMIT` is read as that moment.
pub fn written_moments_are_read()
    ensures { (n : ℕ) → n < limit_ticks → moment_of (moment_text n) ≡ Some n }
{}

/// Each form of the grammar is read as the ticks that it names, and nothing else is read.
pub fn reading_is_the_grammar()
    ensures forms { (f : Form) → IsForm f
        → moment_of (form_text f) ≡ moment_below_limit (form_ticks f) }
    ensures nothing_else { (text : List ℕ) (n : ℕ) → moment_of text ≡ Some n → IsFormText text }
{}
