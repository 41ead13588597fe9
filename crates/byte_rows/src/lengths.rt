//! Lengths that no list and no text of these bytes has.

use checkpoint_bytes::{decode_batch, decode_core};
use event_value::{Memory, Seq};
use field_forms::{get_text, get_value};
use std::alloc::Global;
use std::test::Fail;

/// Four bytes of the greatest length, and behind them three more.
const LONG: [u8; 7] = [0xff, 0xff, 0xff, 0xff, 0x61, 0x62, 0x63];

/// A batch without anything, by the bytes behind its form and its moment.
const NOTHING: [u8; 16] = [0; 16];

/// The bytes of a batch without anything, but for the list of this place, of the greatest length.
fn batch_with_length(alloc: Global, list: usize) -> Result<Seq<u8>, Memory> {
    let mut bytes = Seq::empty(alloc);
    bytes.push(2)?;
    bytes.extend(&[0; 8])?;
    for place in 0..3 {
        bytes.extend(if place == list { &[0xff; 4] } else { &[0; 4] })?;
    }
    bytes.push(0)?;
    Ok(bytes)
}

#[test]
fn a_text_longer_than_its_bytes_is_none(rt: HostRuntime) -> Result<(), Fail> {
    let alloc = rt.alloc();
    assert!(rt; get_text(alloc, &LONG, 0)?.is_none());
    let mut value = Seq::empty(alloc);
    value.push(4)?;
    value.extend(&LONG)?;
    let short = value.items();
    assert!(rt; short.len() < 4_294_967_296 && get_value(alloc, short, 0)?.is_none());
    Ok(())
}

#[test]
fn lists_longer_than_their_bytes_are_none(rt: HostRuntime) -> Result<(), Fail> {
    let alloc = rt.alloc();
    for list in 0..3 {
        let bytes = batch_with_length(alloc, list)?;
        assert!(rt; decode_batch(alloc, bytes.items())?.is_none());
    }
    assert!(rt; decode_batch(alloc, batch_with_length(alloc, 3)?.items())?.is_some());
    assert!(rt; decode_core(alloc, &LONG)?.is_none());
    assert!(rt; decode_core(alloc, &NOTHING)?.is_some());
    Ok(())
}
