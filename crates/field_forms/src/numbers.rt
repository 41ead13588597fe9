//! Numbers, moments and bits as fields.

ghost use Rattle.std.specs.Prelude.{refl};
ghost use Rattle.field_forms.specs.FieldLaws.{IsForm-bit_form};
ghost use Rattle.field_forms.specs.Fields.{bit_form};
ghost use Rattle.field_forms.specs.NumberLaws.{IsForm-i128_form, IsForm-i64_form, IsForm-moment_form, IsForm-u16_form, IsForm-u32_form, IsForm-u64_form, IsForm-u8_form};
ghost use Rattle.field_forms.specs.Numbers.{i128_form, i64_form, moment_form, u16_form, u32_form, u64_form, u8_form};

use crate::{Field, Unread, Unreadable, put_i64, put_i128, put_u8, put_u16, put_u32, put_u64};
use event_value::{Memory, Seq};
use std::alloc::Global;
use tick_time::Moment;

impl Field for u8 {
    ghost form = { u8_form };

    fn append(&self, out: &mut Seq<u8>) -> Result<(), Memory> {
        put_u8(out, *self)
    }

    fn take(_: Global, unread: &mut Unread<'_>) -> Result<Self, Unreadable> {
        unread.u8().ok_or(Unreadable::Malformed)
    }

    ghost sound = { IsForm-u8_form };

    ghost needs_bytes = { refl };
}

impl Field for u16 {
    ghost form = { u16_form };

    fn append(&self, out: &mut Seq<u8>) -> Result<(), Memory> {
        put_u16(out, *self)
    }

    fn take(_: Global, unread: &mut Unread<'_>) -> Result<Self, Unreadable> {
        unread.u16().ok_or(Unreadable::Malformed)
    }

    ghost sound = { IsForm-u16_form };

    ghost needs_bytes = { refl };
}

impl Field for u32 {
    ghost form = { u32_form };

    fn append(&self, out: &mut Seq<u8>) -> Result<(), Memory> {
        put_u32(out, *self)
    }

    fn take(_: Global, unread: &mut Unread<'_>) -> Result<Self, Unreadable> {
        unread.u32().ok_or(Unreadable::Malformed)
    }

    ghost sound = { IsForm-u32_form };

    ghost needs_bytes = { refl };
}

impl Field for u64 {
    ghost form = { u64_form };

    fn append(&self, out: &mut Seq<u8>) -> Result<(), Memory> {
        put_u64(out, *self)
    }

    fn take(_: Global, unread: &mut Unread<'_>) -> Result<Self, Unreadable> {
        unread.u64().ok_or(Unreadable::Malformed)
    }

    ghost sound = { IsForm-u64_form };

    ghost needs_bytes = { refl };
}

impl Field for i64 {
    ghost form = { i64_form };

    fn append(&self, out: &mut Seq<u8>) -> Result<(), Memory> {
        put_i64(out, *self)
    }

    fn take(_: Global, unread: &mut Unread<'_>) -> Result<Self, Unreadable> {
        unread.i64().ok_or(Unreadable::Malformed)
    }

    ghost sound = { IsForm-i64_form };

    ghost needs_bytes = { refl };
}

impl Field for i128 {
    ghost form = { i128_form };

    fn append(&self, out: &mut Seq<u8>) -> Result<(), Memory> {
        put_i128(out, *self)
    }

    fn take(_: Global, unread: &mut Unread<'_>) -> Result<Self, Unreadable> {
        unread.i128().ok_or(Unreadable::Malformed)
    }

    ghost sound = { IsForm-i128_form };

    ghost needs_bytes = { refl };
}

impl Field for Moment {
    ghost form = { moment_form };

    fn append(&self, out: &mut Seq<u8>) -> Result<(), Memory> {
        put_u64(out, self.count())
    }

    fn take(_: Global, unread: &mut Unread<'_>) -> Result<Self, Unreadable> {
        unread.moment().ok_or(Unreadable::Malformed)
    }

    ghost sound = { IsForm-moment_form };

    ghost needs_bytes = { refl };
}

impl Field for bool {
    ghost form = { bit_form };

    fn append(&self, out: &mut Seq<u8>) -> Result<(), Memory> {
        out.push(if *self { 1 } else { 0 })
    }

    fn take(_: Global, unread: &mut Unread<'_>) -> Result<Self, Unreadable> {
        unread.bit().ok_or(Unreadable::Malformed)
    }

    ghost sound = { IsForm-bit_form };

    ghost needs_bytes = { refl };
}
