//! Rules, positions, dropped records, marks of substreams and rows with their times as fields.

ghost use Rattle.std.specs.Prelude.{◌≡◌, refl};
ghost use Rattle.field_forms.specs.RecordLaws.{IsForm-dropped_form, IsForm-key_mark_form, IsForm-position_form, IsForm-rule_form, IsForm-stamped_form};
ghost use Rattle.field_forms.specs.Records.{dropped_form, key_mark_form, position_form, rule_form, rule_number, rule_of, stamped_form};

use crate::{Field, Unread, Unreadable};
use event_value::{Dropped, KeyMark, Memory, Position, Rule, Seq, Stamped};
use std::alloc::Global;
use tick_time::Moment;

// The number of a rule.
fn number_of(rule: Rule) -> u8
    ensures { result ≡ rule_number rule }
{
    match rule {
        Rule::Syntax => 1,
        Rule::Enqueued => 2,
        Rule::Number => 3,
        Rule::Field => 4,
        Rule::Long => 5,
        Rule::Damaged => 6,
        Rule::SegmentTooLong => 7,
        Rule::NoTime => 8,
        Rule::Early => 9,
        Rule::Late => 10,
        Rule::Disorder => 11,
    }
}

// The rule of a number.
fn rule_at(number: u8) -> Rule
    ensures { result ≡ rule_of number }
{
    match number {
        1 => Rule::Syntax,
        2 => Rule::Enqueued,
        3 => Rule::Number,
        4 => Rule::Field,
        5 => Rule::Long,
        6 => Rule::Damaged,
        7 => Rule::SegmentTooLong,
        8 => Rule::NoTime,
        9 => Rule::Early,
        10 => Rule::Late,
        _ => Rule::Disorder,
    }
}

impl Field for Rule {
    ghost form = { rule_form };

    fn append(&self, out: &mut Seq<u8>) -> Result<(), Memory> {
        out.push(number_of(*self))
    }

    fn take(alloc: Global, unread: &mut Unread<'_>) -> Result<Self, Unreadable> {
        let number = u8::take(alloc, unread)?;
        if 1 <= number && number <= 11 {
            Ok(rule_at(number))
        } else {
            Err(Unreadable::Malformed)
        }
    }

    ghost sound = { IsForm-rule_form };

    ghost needs_bytes = { refl };
}

impl Field for Position {
    ghost form = { position_form };

    fn append(&self, out: &mut Seq<u8>) -> Result<(), Memory> {
        self.segment.append(out)?;
        self.index.append(out)
    }

    fn take(alloc: Global, unread: &mut Unread<'_>) -> Result<Self, Unreadable> {
        let segment = u32::take(alloc, unread)?;
        let index = u32::take(alloc, unread)?;
        Ok(Position { segment, index })
    }

    ghost sound = { IsForm-position_form };

    ghost needs_bytes = { refl };
}

impl Field for Dropped {
    ghost form = { dropped_form };

    fn append(&self, out: &mut Seq<u8>) -> Result<(), Memory> {
        self.stream.append(out)?;
        self.partition.append(out)?;
        self.segment.append(out)?;
        self.index.append(out)?;
        self.rule.append(out)
    }

    fn take(alloc: Global, unread: &mut Unread<'_>) -> Result<Self, Unreadable> {
        let stream = u16::take(alloc, unread)?;
        let partition = u16::take(alloc, unread)?;
        let segment = u32::take(alloc, unread)?;
        let index = u32::take(alloc, unread)?;
        let rule = Rule::take(alloc, unread)?;
        Ok(Dropped {
            stream,
            partition,
            segment,
            index,
            rule,
        })
    }

    ghost sound = { IsForm-dropped_form };

    ghost needs_bytes = { refl };
}

impl Field for KeyMark {
    ghost form = { key_mark_form };

    fn append(&self, out: &mut Seq<u8>) -> Result<(), Memory> {
        self.key.append(out)?;
        self.mark.append(out)
    }

    fn take(alloc: Global, unread: &mut Unread<'_>) -> Result<Self, Unreadable> {
        let key = Seq::take(alloc, unread)?;
        let mark = Moment::take(alloc, unread)?;
        Ok(KeyMark { key, mark })
    }

    ghost sound = { IsForm-key_mark_form };

    ghost needs_bytes = { refl };
}

impl Field for Stamped {
    ghost form = { stamped_form };

    fn append(&self, out: &mut Seq<u8>) -> Result<(), Memory> {
        self.time.append(out)?;
        self.values.append(out)
    }

    fn take(alloc: Global, unread: &mut Unread<'_>) -> Result<Self, Unreadable> {
        let time = Moment::take(alloc, unread)?;
        let values = Seq::take(alloc, unread)?;
        Ok(Stamped { time, values })
    }

    ghost sound = { IsForm-stamped_form };

    ghost needs_bytes = { refl };
}
