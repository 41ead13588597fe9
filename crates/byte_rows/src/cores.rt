//! Cores, one without anything and one with a lane that has two marks and two waiting events.

use checkpoint_bytes::{
    CoreForm, KeyMark, LaneForm, Waiting, decode_core, encode_core, is_core_in_order,
};
use event_value::{Memory, Seq, Text, Value};
use std::alloc::Global;
use std::test::Fail;
use tick_time::Moment;

/// The core of `rich`.
const RICH: [u8; 146] = [
    0x01, 0x00, 0x00, 0x00, //
    0x80, 0xf0, 0xfa, 0x02, 0x00, 0x00, 0x00, 0x00, //
    0x00, 0x5a, 0x62, 0x02, 0x00, 0x00, 0x00, 0x00, //
    0x02, 0x00, 0x00, 0x00, //
    0x01, 0x00, 0x00, 0x00, //
    0x04, 0x01, 0x00, 0x00, 0x00, 0x61, //
    0x00, 0x5a, 0x62, 0x02, 0x00, 0x00, 0x00, 0x00, //
    0x01, 0x00, 0x00, 0x00, //
    0x04, 0x01, 0x00, 0x00, 0x00, 0x62, //
    0x00, 0x00, 0x00, 0x00, 0x00, 0x00, 0x00, 0x00, //
    0x02, 0x00, 0x00, 0x00, //
    0x80, 0xf0, 0xfa, 0x02, 0x00, 0x00, 0x00, 0x00, //
    0x00, 0x00, 0x00, 0x00, //
    0x01, 0x00, 0x00, 0x00, //
    0x02, 0x00, 0x00, 0x00, //
    0x00, //
    0x01, 0x01, //
    0x80, 0xf0, 0xfa, 0x02, 0x00, 0x00, 0x00, 0x00, //
    0x00, 0x00, 0x00, 0x00, //
    0x02, 0x00, 0x00, 0x00, //
    0x02, 0x00, 0x00, 0x00, //
    0x03, 0xff, 0xff, 0xff, 0xff, 0xff, 0xff, 0xff, 0xff, //
    0x05, 0x00, 0x5a, 0x62, 0x02, 0x00, 0x00, 0x00, 0x00, //
    0x02, 0x00, 0x00, 0x00, //
    0x00, 0x00, 0x00, 0x00, //
    0x01, 0x00, 0x00, 0x00, 0x09, //
    0x00, 0x5a, 0x62, 0x02, 0x00, 0x00, 0x00, 0x00, //
];

/// The place of the byte that the keys of the two marks differ in, for each.
const KEYS: [usize; 2] = [33, 51];

/// The place of the lowest byte of the index of the two waiting events, for each.
const INDEXES: [usize; 2] = [76, 99];

/// The moment of a number of ticks.
fn moment(ticks: i64) -> Result<Moment, Memory> {
    Moment::of_ticks(ticks).ok_or(Memory)
}

/// A mark of the substream of one text.
fn mark(alloc: Global, key: &[u8], ticks: i64) -> Result<KeyMark, Memory> {
    let mut values = Seq::empty(alloc);
    values.push(Value::Text(Text::of(alloc, key)?))?;
    Ok(KeyMark {
        key: values,
        mark: moment(ticks)?,
    })
}

/// A waiting event of two values.
fn waiting(alloc: Global, index: u32, first: Value, second: Value) -> Result<Waiting, Memory> {
    let mut values = Seq::empty(alloc);
    values.push(first)?;
    values.push(second)?;
    Ok(Waiting {
        time: moment(50_000_000)?,
        segment: 0,
        index,
        values,
    })
}

/// A lane with two marks and two waiting events.
fn lane(alloc: Global) -> Result<LaneForm, Memory> {
    let mut marks = Seq::empty(alloc);
    marks.push(mark(alloc, b"a", 40_000_000)?)?;
    marks.push(mark(alloc, b"b", 0)?)?;
    let mut events = Seq::empty(alloc);
    events.push(waiting(alloc, 1, Value::Null, Value::Bit(true))?)?;
    let last = Value::Moment(moment(40_000_000)?);
    events.push(waiting(alloc, 2, Value::Fixed(-1), last)?)?;
    Ok(LaneForm {
        arrival: moment(50_000_000)?,
        watermark: moment(40_000_000)?,
        marks,
        waiting: events,
    })
}

/// A core of that lane and two steps, of which one keeps nothing.
fn rich(alloc: Global) -> Result<CoreForm, Memory> {
    let mut lanes = Seq::empty(alloc);
    lanes.push(lane(alloc)?)?;
    let mut steps = Seq::empty(alloc);
    steps.push(Seq::empty(alloc))?;
    steps.push(Seq::of(alloc, &[9])?)?;
    Ok(CoreForm {
        lanes,
        steps,
        upto: moment(40_000_000)?,
    })
}

/// The bytes of a core, and none where its lists aren't in order.
fn written(alloc: Global, core: &CoreForm) -> Result<Option<Seq<u8>>, Memory> {
    if is_core_in_order(core) {
        Ok(Some(encode_core(alloc, core)?))
    } else {
        Ok(None)
    }
}

#[test]
fn a_core_has_its_bytes(rt: HostRuntime) -> Result<(), Fail> {
    let alloc = rt.alloc();
    let bytes = written(alloc, &rich(alloc)?)?;
    assert!(rt; matches!(&bytes, Some(bytes) if bytes.items() == RICH.as_slice()));
    Ok(())
}

/// The bytes of the core that these bytes are read as, and none where they are no core's.
fn written_again(alloc: Global, bytes: &[u8]) -> Result<Option<Seq<u8>>, Memory> {
    match decode_core(alloc, bytes)? {
        None => Ok(None),
        Some(core) => written(alloc, &core),
    }
}

/// Whether these bytes are no core's, or those of the core that they are read as.
fn is_none_or_the_same(alloc: Global, bytes: &[u8]) -> Result<bool, Memory> {
    match written_again(alloc, bytes)? {
        None => Ok(true),
        Some(again) => Ok(again.items() == bytes),
    }
}

#[test]
fn a_core_that_is_cut_or_longer_is_none(rt: HostRuntime) -> Result<(), Fail> {
    let alloc = rt.alloc();
    let mut longer = Seq::of(alloc, &RICH)?;
    longer.push(0)?;
    assert!(rt; decode_core(alloc, longer.items())?.is_none());
    assert!(rt; written_again(alloc, &RICH)?.is_some());
    for cut in 0..RICH.len() {
        assert!(rt; decode_core(alloc, &RICH[..cut])?.is_none());
    }
    Ok(())
}

const BITS: [u8; 8] = [1, 2, 4, 8, 16, 32, 64, 128];

/// The bytes of the rich core with bits of one byte turned.
fn with_bits_turned(alloc: Global, at: usize, bits: u8) -> Result<Seq<u8>, Memory> {
    let mut turned = Seq::empty(alloc);
    for (place, byte) in RICH.iter().enumerate() {
        turned.push(if place == at { *byte ^ bits } else { *byte })?;
    }
    Ok(turned)
}

#[test]
fn a_core_with_a_bit_turned_is_none_or_another(rt: HostRuntime) -> Result<(), Fail> {
    let alloc = rt.alloc();
    for at in 0..RICH.len() {
        for bit in &BITS {
            let turned = with_bits_turned(alloc, at, *bit)?;
            assert!(rt; is_none_or_the_same(alloc, turned.items())?);
        }
    }
    Ok(())
}

/// Whether the rich core is none with the bytes at these two places made equal, by turning bits of
/// the second, and with the first made the greater.
fn are_to_rise(alloc: Global, places: &[usize; 2], bits: u8) -> Result<bool, Memory> {
    let equal = with_bits_turned(alloc, places[1], bits)?;
    let falling = with_bits_turned(alloc, places[0], 4)?;
    Ok(
        decode_core(alloc, equal.items())?.is_none()
            && decode_core(alloc, falling.items())?.is_none(),
    )
}

#[test]
fn lists_out_of_order_are_none(rt: HostRuntime) -> Result<(), Fail> {
    let alloc = rt.alloc();
    assert!(rt; are_to_rise(alloc, &KEYS, 3)?);
    assert!(rt; are_to_rise(alloc, &INDEXES, 3)?);
    Ok(())
}
