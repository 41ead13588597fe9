//! The bytes of single fields, and what is read at a place.

use event_value::{Memory, Seq, Text, Value};
use field_forms::{
    get_i64, get_i128, get_moment, get_text, get_u8, get_u16, get_u32, get_u64, get_value, put_i64,
    put_i128, put_moment, put_text, put_u8, put_u16, put_u32, put_u64, put_value,
};
use std::alloc::Global;
use std::test::Fail;
use tick_time::Moment;

/// Nine fields of all kinds, one behind the other.
const FIELDS: [u8; 62] = [
    0x07, //
    0x02, 0x01, //
    0x01, 0x00, 0x00, 0x00, //
    0x01, 0x00, 0x00, 0x00, 0x00, 0x00, 0x00, 0x00, //
    0xff, 0xff, 0xff, 0xff, 0xff, 0xff, 0xff, 0xff, //
    0xff, 0xff, 0xff, 0xff, 0xff, 0xff, 0xff, 0xff, //
    0xff, 0xff, 0xff, 0xff, 0xff, 0xff, 0xff, 0xff, //
    0x01, 0x00, 0x00, 0x00, 0x00, 0x00, 0x00, 0x00, //
    0x02, 0x00, 0x00, 0x00, 0x61, 0x62, //
    0x02, 0xff, 0xff, 0xff, 0xff, 0xff, 0xff, 0xff, 0xff, //
];

/// The moment of a number of ticks.
fn moment(ticks: i64) -> Result<Moment, Memory> {
    Moment::of_ticks(ticks).ok_or(Memory)
}

/// The bytes of the nine fields.
fn written(alloc: Global) -> Result<Seq<u8>, Memory> {
    let mut out = Seq::empty(alloc);
    put_u8(&mut out, 7)?;
    put_u16(&mut out, 258)?;
    put_u32(&mut out, 1)?;
    put_u64(&mut out, 1)?;
    put_i64(&mut out, -1)?;
    put_i128(&mut out, -1)?;
    put_moment(&mut out, moment(1)?)?;
    put_text(&mut out, &Text::of(alloc, b"ab")?)?;
    put_value(&mut out, &Value::Big(-1))?;
    Ok(out)
}

#[test]
fn each_put_adds_its_bytes(rt: HostRuntime) -> Result<(), Fail> {
    let out = written(rt.alloc())?;
    assert!(rt; out.items() == FIELDS.as_slice());
    Ok(())
}

#[test]
fn each_get_gives_the_number_and_the_place_behind_it(rt: HostRuntime) -> Result<(), Fail> {
    assert!(rt; get_u8(&FIELDS, 0) == Some((7, 1)));
    assert!(rt; get_u16(&FIELDS, 1) == Some((258, 3)));
    assert!(rt; get_u32(&FIELDS, 3) == Some((1, 7)));
    assert!(rt; get_u64(&FIELDS, 7) == Some((1, 15)));
    assert!(rt; get_i64(&FIELDS, 15) == Some((-1, 23)));
    assert!(rt; get_i128(&FIELDS, 23) == Some((-1, 39)));
    assert!(rt; get_moment(&FIELDS, 39) == Some((moment(1)?, 47)));
    Ok(())
}

/// Whether this text is read at this place, and this is the place behind it.
fn is_text_at(alloc: Global, at: u32, text: &[u8], behind: u32) -> Result<bool, Memory> {
    match get_text(alloc, &FIELDS, at)? {
        None => Ok(false),
        Some((found, place)) => Ok(found.items() == text && place == behind),
    }
}

/// Whether this value is read at this place, and this is the place behind it.
fn is_value_at(alloc: Global, at: u32, value: &Value, behind: u32) -> Result<bool, Memory> {
    match get_value(alloc, &FIELDS, at)? {
        None => Ok(false),
        Some((found, place)) => Ok(found == *value && place == behind),
    }
}

#[test]
fn texts_and_values_are_read_with_the_place_behind_them(rt: HostRuntime) -> Result<(), Fail> {
    let alloc = rt.alloc();
    assert!(rt; is_text_at(alloc, 47, b"ab", 53)?);
    assert!(rt; is_value_at(alloc, 53, &Value::Big(-1), 62)?);
    assert!(rt; !is_text_at(alloc, 53, b"ab", 59)?);
    assert!(rt; !is_value_at(alloc, 0, &Value::Null, 1)?);
    Ok(())
}

#[test]
fn nothing_is_read_behind_the_end_or_of_a_part(rt: HostRuntime) -> Result<(), Fail> {
    assert!(rt; get_u8(&FIELDS, 62).is_none());
    assert!(rt; get_u8(&FIELDS, 4_294_967_295).is_none());
    assert!(rt; get_u16(&FIELDS, 61).is_none());
    assert!(rt; get_u64(&FIELDS, 55).is_none());
    assert!(rt; get_moment(&FIELDS, 15).is_none());
    Ok(())
}
