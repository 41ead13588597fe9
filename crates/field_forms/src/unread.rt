//! `Unread`, the bytes that are still to be read, and how numbers and runs are taken off them.

ghost use Rattle.std.specs.Prelude.{◌≡◌, ◌+◌, ◌*◌, ◌^◌, ◌<◌, length, nat_le, MatchOption};
ghost use Rattle.std.specs.Prelude as List;
ghost use Rattle.field_forms.specs.Fields.{bit_form, text_form};
ghost use Rattle.field_forms.specs.Numbers.{i128_form, i64_form, moment_form, u128_form, u16_form, u32_form, u64_form, u8_form};
ghost use Rattle.field_forms.specs.Readings.{IsChunk, IsCut, IsTaken};
ghost use Rattle.field_forms.specs.Spellings.{is_nil};

use std::marker::Model;
use tick_time::Moment;

/// The bytes that are still to be read. Contracts see the list of them.
#[derive(Drop)]
pub struct Unread<'a> {
    bytes: &'a [u8],
}

impl<'a> Model for Unread<'a> {
    ghost use Rattle.std.specs.Prelude.{List, ℕ};

    ghost Value = { List ℕ };

    ghost view = { λ u. u.bytes.now };
}

impl<'a> Unread<'a> {
    /// All of these bytes.
    pub fn of(bytes: &'a [u8]) -> Self
        ensures { result ≡ bytes.now }
    {
        Unread { bytes }
    }

    /// The bytes.
    pub fn bytes(&self) -> &'a [u8]
        ensures { result.now ≡ self.now }
    {
        self.bytes
    }

    /// Whether at least so many bytes are left.
    pub fn has(&self, count: u32) -> bool
        ensures { result ≡ nat_le count (length self.now) }
    {
        count as usize <= self.bytes.len()
    }

    /// Whether none is left.
    pub fn is_empty(&self) -> bool
        ensures { result ≡ is_nil self.now }
    {
        self.bytes.is_empty()
    }

    /// Takes a byte.
    pub fn u8(&mut self) -> Option<u8>
        ensures { IsTaken (u8_form.reading self.old) result self.new }
    {
        match self.bytes {
            [byte, left @ ..] => {
                self.bytes = left;
                Some(*byte)
            }
            [] => None,
        }
    }

    /// Takes a number of two bytes.
    pub fn u16(&mut self) -> Option<u16>
        ensures { IsTaken (u16_form.reading self.old) result self.new }
    {
        let bytes = self.chunk::<2>()?;
        Some(u16::from_le_bytes(bytes))
    }

    /// Takes a number of four bytes.
    pub fn u32(&mut self) -> Option<u32>
        ensures { IsTaken (u32_form.reading self.old) result self.new }
    {
        let bytes = self.chunk::<4>()?;
        Some(u32::from_le_bytes(bytes))
    }

    /// Takes a number of eight bytes.
    #[tactic(auto, using(crate::proofs::NumberLemmas::halves_8))]
    pub fn u64(&mut self) -> Option<u64>
        ensures { IsTaken (u64_form.reading self.old) result self.new }
    {
        let low = self.u32()?;
        let high = self.u32()?;
        Some(number_of_u32s(low, high))
    }

    /// Takes a number of sixteen bytes.
    #[tactic(auto, using(crate::proofs::NumberLemmas::halves_16))]
    pub fn u128(&mut self) -> Option<u128>
        ensures { IsTaken (u128_form.reading self.old) result self.new }
    {
        let low = self.u64()?;
        let high = self.u64()?;
        Some(number_of_u64s(low, high))
    }

    /// Takes a signed number of eight bytes.
    pub fn i64(&mut self) -> Option<i64>
        ensures { IsTaken (i64_form.reading self.old) result self.new }
    {
        let number = self.u64()?;
        Some(number.cast_signed())
    }

    /// Takes a signed number of sixteen bytes.
    pub fn i128(&mut self) -> Option<i128>
        ensures { IsTaken (i128_form.reading self.old) result self.new }
    {
        let number = self.u128()?;
        Some(number.cast_signed())
    }

    /// Takes a moment.
    pub fn moment(&mut self) -> Option<Moment>
        ensures { IsTaken (moment_form.reading self.old) result self.new }
    {
        let ticks = self.u64()?;
        if ticks <= END {
            Some(Moment::of_count(ticks))
        } else {
            None
        }
    }

    /// Takes a bit.
    pub fn bit(&mut self) -> Option<bool>
        ensures { IsTaken (bit_form.reading self.old) result self.new }
    {
        match self.u8()? {
            0 => Some(false),
            1 => Some(true),
            _ => None,
        }
    }

    // Takes so many bytes.
    fn chunk<const N: usize>(&mut self) -> Option<[u8; N]>
        ensures { IsChunk N self.old result self.new }
    {
        let (chunk, left) = self.bytes.split_first_chunk::<N>()?;
        self.bytes = left;
        Some(*chunk)
    }

    /// Takes as many bytes as the number in front of them says.
    pub fn part(&mut self) -> Option<&'a [u8]>
        ensures { MatchOption result (text_form.reading self.old ≡ List.None)
            (λ part. text_form.reading self.old ≡ List.Some (part.now, self.new)) }
    {
        let count = self.u32()?;
        self.front(count)
    }

    // Takes so many bytes, where there are as many.
    fn front(&mut self, count: u32) -> Option<&'a [u8]>
        ensures { MatchOption result (length self.old < count)
            (λ part. IsCut count self.old part.now self.new) }
    {
        let (part, left) = self.bytes.split_at_checked(count as usize)?;
        self.bytes = left;
        Some(part)
    }
}

// The last moment.
const END: u64 = tick_time::END as u64;

// The number of two halves.
fn number_of_u32s(low: u32, high: u32) -> u64
    ensures { result ≡ low + 2 ^ 32 * high }
{
    u64::from(low) + 4_294_967_296 * u64::from(high)
}

// The number of two halves.
fn number_of_u64s(low: u64, high: u64) -> u128
    ensures { result ≡ low + 2 ^ 64 * high }
{
    u128::from(low) + 18_446_744_073_709_551_616 * u128::from(high)
}
