//! The words of units and parts, and the lengths of so many units.

use tick_time::{Part, Span, Unit, part_of, span_of, unit_of};

const UNITS: [(&str, Unit); 16] = [
    ("day", Unit::Day),
    ("dd", Unit::Day),
    ("D", Unit::Day),
    ("hour", Unit::Hour),
    ("HH", Unit::Hour),
    ("Minute", Unit::Minute),
    ("mi", Unit::Minute),
    ("MI", Unit::Minute),
    ("n", Unit::Minute),
    ("SeCoNd", Unit::Second),
    ("ss", Unit::Second),
    ("s", Unit::Second),
    ("millisecond", Unit::Millisecond),
    ("ms", Unit::Millisecond),
    ("MICROSECOND", Unit::Microsecond),
    ("mcs", Unit::Microsecond),
];

const PARTS: [(&str, Part); 12] = [
    ("year", Part::Year),
    ("yyyy", Part::Year),
    ("YY", Part::Year),
    ("month", Part::Month),
    ("mm", Part::Month),
    ("M", Part::Month),
    ("d", Part::Day),
    ("hh", Part::Hour),
    ("Mi", Part::Minute),
    ("ss", Part::Second),
    ("ms", Part::Millisecond),
    ("mcs", Part::Microsecond),
];

const NO_NAMES: [&str; 11] = [
    "", "days", "da", "h", "min", "sec", "us", "week", "y", "yyy", " day",
];

const LENGTHS: [(Unit, i64, Option<i64>); 16] = [
    (Unit::Day, 0, Some(0)),
    (Unit::Day, 7, Some(6_048_000_000_000)),
    (Unit::Day, 8, None),
    (Unit::Day, -7, Some(-6_048_000_000_000)),
    (Unit::Day, -8, None),
    (Unit::Day, i64::MAX, None),
    (Unit::Day, i64::MIN, None),
    (Unit::Hour, 168, Some(6_048_000_000_000)),
    (Unit::Hour, 169, None),
    (Unit::Minute, -10_080, Some(-6_048_000_000_000)),
    (Unit::Minute, -10_081, None),
    (Unit::Second, 5, Some(50_000_000)),
    (Unit::Second, 604_801, None),
    (Unit::Millisecond, 604_800_000, Some(6_048_000_000_000)),
    (Unit::Microsecond, 604_800_000_000, Some(6_048_000_000_000)),
    (Unit::Microsecond, 604_800_000_001, None),
];

#[test]
fn words_name_units_and_parts(rt: HostRuntime) {
    for (word, unit) in &UNITS {
        assert!(rt; unit_of(word.as_bytes()) == Some(*unit), "{word}");
    }
    for (word, part) in &PARTS {
        assert!(rt; part_of(word.as_bytes()) == Some(*part), "{word}");
    }
}

#[test]
fn other_words_name_nothing(rt: HostRuntime) {
    for word in &NO_NAMES {
        assert!(rt; part_of(word.as_bytes()).is_none(), "{word}");
    }
    for word in &["year", "yyyy", "yy", "month", "mm", "m"] {
        assert!(rt; unit_of(word.as_bytes()).is_none(), "{word}");
    }
}

#[test]
fn lengths_are_within_seven_days(rt: HostRuntime) {
    for (unit, n, ticks) in &LENGTHS {
        assert!(rt; span_of(*unit, *n).map(Span::ticks) == *ticks, "{n}");
    }
}
