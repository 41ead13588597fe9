//! The moment that a text names: a date, and behind it nothing, or a time.

ghost use Rattle.std.specs.Prelude.{◌≡◌, ◌<◌, ◌≤◌, None, Some, IfSome, MatchOption};
ghost use Rattle.tick_time.specs.Calendar.{HasDigits};
ghost use Rattle.tick_time.specs.MomentReading.{moment_of, date_at_front};

use crate::civil_date::CivilDate;
use crate::digits::{is_pair_below, pair_value};
use crate::moment::Moment;
use crate::read_time::read_time;
use crate::ticks::DAY;

// YYYY-MM-DD: the date that it names, and what stands behind it.
#[tactic(auto, unfolding(crate::specs::MomentReading::date_at_front))]
fn read_date(text: &[u8]) -> Option<(CivilDate, &[u8])>
    ensures value { MatchOption result (date_at_front text.now ≡ None)
        (λ r. date_at_front text.now ≡ Some (r.0, r.1.now)) }
    ensures digits { IfSome result (λ r. HasDigits r.0) }
{
    match text {
        [a, b, c, d, p, e, f, q, g, h, rest @ ..] => {
            if is_pair_below(100, *a, *b)
                && is_pair_below(100, *c, *d)
                && *p == b'-'
                && is_pair_below(100, *e, *f)
                && *q == b'-'
                && is_pair_below(100, *g, *h)
            {
                let date = CivilDate {
                    year: pair_value(*a, *b) as u16 * 100 + pair_value(*c, *d) as u16,
                    month: pair_value(*e, *f) as u8,
                    day: pair_value(*g, *h) as u8,
                };
                Some((date, rest))
            } else {
                None
            }
        }
        _ => None,
    }
}

/// The moment that a text names; `None` exactly where it names none from 0 to below `LIMIT`.
#[tactic(auto, unfolding(crate::specs::MomentReading::moment_of))]
pub fn read_moment(text: &[u8]) -> Option<Moment>
    ensures { result ≡ moment_of text.now }
{
    let (date, rest) = read_date(text)?;
    let number = date.number()?;
    let time = read_time(rest)?;
    Moment::below_limit(number * DAY as i64 + time)
}
