//! Batches, one without anything and the one of docs/FORMATS.

use checkpoint_bytes::{decode_batch, encode_batch};
use checkpoint_form::{Batch, Row};
use event_value::{Dropped, Memory, Position, Rule, Seq, Text};
use std::alloc::Global;
use std::test::Fail;
use tick_time::Moment;

/// The batch of docs/FORMATS.
const WORKED: [u8; 85] = [
    0x02, //
    0x80, 0xf0, 0xfa, 0x02, 0x00, 0x00, 0x00, 0x00, //
    0x02, 0x00, 0x00, 0x00, //
    0x01, 0x00, 0x00, 0x00, //
    0x00, 0x5a, 0x62, 0x02, 0x00, 0x00, 0x00, 0x00, //
    0x07, 0x00, 0x00, 0x00, //
    0x7b, 0x22, 0x6e, 0x22, 0x3a, 0x32, 0x7d, //
    0x00, 0x00, 0x00, 0x00, //
    0x01, 0x00, 0x00, 0x00, //
    0x00, 0x00, //
    0x01, 0x00, //
    0x02, 0x00, 0x00, 0x00, //
    0x02, 0x01, 0x00, 0x00, //
    0x0a, //
    0x02, 0x00, 0x00, 0x00, //
    0x03, 0x00, 0x00, 0x00, 0x00, 0x00, 0x00, 0x00, //
    0x02, 0x00, 0x00, 0x00, 0x2c, 0x01, 0x00, 0x00, //
    0x01, //
    0x03, 0x00, 0x00, 0x00, //
    0x0a, 0x0b, 0x0c, //
];

/// A batch of one output without rows and one position at the start, in form 1; form 2 differs in
/// the first byte alone.
const EMPTY: [u8; 34] = [
    0x01, //
    0x00, 0x00, 0x00, 0x00, 0x00, 0x00, 0x00, 0x00, //
    0x01, 0x00, 0x00, 0x00, //
    0x00, 0x00, 0x00, 0x00, //
    0x00, 0x00, 0x00, 0x00, //
    0x01, 0x00, 0x00, 0x00, //
    0x00, 0x00, 0x00, 0x00, 0x00, 0x00, 0x00, 0x00, //
    0x00, //
];

/// The moment of a number of ticks.
fn moment(ticks: i64) -> Result<Moment, Memory> {
    Moment::of_ticks(ticks).ok_or(Memory)
}

/// The rows of the two outputs of the batch of docs/FORMATS.
fn worked_outputs(alloc: Global) -> Result<Seq<Seq<Row>>, Memory> {
    let mut rows = Seq::empty(alloc);
    rows.push(Row {
        time: moment(40_000_000)?,
        text: Text::of(alloc, b"{\"n\":2}")?,
    })?;
    let mut outputs = Seq::empty(alloc);
    outputs.push(rows)?;
    outputs.push(Seq::empty(alloc))?;
    Ok(outputs)
}

/// The batch of docs/FORMATS.
fn worked(alloc: Global) -> Result<Batch, Memory> {
    let drops = Seq::of(
        alloc,
        &[Dropped {
            stream: 0,
            partition: 1,
            segment: 2,
            index: 258,
            rule: Rule::Late,
        }],
    )?;
    let positions = Seq::of(
        alloc,
        &[
            Position {
                segment: 3,
                index: 0,
            },
            Position {
                segment: 2,
                index: 300,
            },
        ],
    )?;
    Ok(Batch {
        outputs: worked_outputs(alloc)?,
        drops,
        positions,
        upto: moment(50_000_000)?,
        core: Some(Seq::of(alloc, &[10, 11, 12])?),
    })
}

/// These bytes with another first one.
fn with_form(alloc: Global, form: u8, bytes: &[u8]) -> Result<Seq<u8>, Memory> {
    let mut changed = Seq::empty(alloc);
    changed.push(form)?;
    if let [_, rest @ ..] = bytes {
        changed.extend(rest)?;
    }
    Ok(changed)
}

/// The bytes of the batch that these bytes are read as, and none where they are no batch's.
fn written_again(alloc: Global, bytes: &[u8]) -> Result<Option<Seq<u8>>, Memory> {
    match decode_batch(alloc, bytes)? {
        None => Ok(None),
        Some(batch) => Ok(Some(encode_batch(alloc, &batch)?)),
    }
}

/// Whether these bytes are read as a batch whose bytes are those.
fn is_read_as(alloc: Global, bytes: &[u8], wanted: &[u8]) -> Result<bool, Memory> {
    match written_again(alloc, bytes)? {
        None => Ok(false),
        Some(again) => Ok(again.items() == wanted),
    }
}

#[test]
fn the_batch_of_the_document_has_its_bytes(rt: HostRuntime) -> Result<(), Fail> {
    let alloc = rt.alloc();
    let bytes = encode_batch(alloc, &worked(alloc)?)?;
    assert!(rt; bytes.items() == WORKED.as_slice());
    assert!(rt; is_read_as(alloc, &WORKED, &WORKED)?);
    Ok(())
}

#[test]
fn form_1_is_read_without_its_core_and_written_in_form_2(rt: HostRuntime) -> Result<(), Fail> {
    let alloc = rt.alloc();
    let empty = with_form(alloc, 2, &EMPTY)?;
    assert!(rt; is_read_as(alloc, &EMPTY, empty.items())?);
    assert!(rt; is_read_as(alloc, empty.items(), empty.items())?);
    let first = with_form(alloc, 1, &WORKED)?;
    let mut coreless = Seq::of(alloc, &WORKED[..77])?;
    coreless.push(0)?;
    assert!(rt; is_read_as(alloc, first.items(), coreless.items())?);
    Ok(())
}

/// Whether these bytes, which are a batch's, are none with a byte more, with another form's number,
/// or cut anywhere.
fn is_none_cut_or_longer(alloc: Global, bytes: &[u8]) -> Result<bool, Memory> {
    let mut longer = Seq::of(alloc, bytes)?;
    longer.push(0)?;
    let mut none = decode_batch(alloc, longer.items())?.is_none();
    none = none && decode_batch(alloc, with_form(alloc, 0, bytes)?.items())?.is_none();
    none = none && decode_batch(alloc, with_form(alloc, 3, bytes)?.items())?.is_none();
    for cut in 0..bytes.len() {
        none = none && decode_batch(alloc, &bytes[..cut])?.is_none();
    }
    Ok(none)
}

#[test]
fn a_batch_that_is_cut_or_longer_is_none(rt: HostRuntime) -> Result<(), Fail> {
    let alloc = rt.alloc();
    assert!(rt; is_none_cut_or_longer(alloc, &EMPTY)?);
    assert!(rt; is_none_cut_or_longer(alloc, with_form(alloc, 2, &EMPTY)?.items())?);
    assert!(rt; is_none_cut_or_longer(alloc, &WORKED)?);
    Ok(())
}

const BITS: [u8; 8] = [1, 2, 4, 8, 16, 32, 64, 128];

/// These bytes with a bit turned.
fn with_bit_turned(alloc: Global, bytes: &[u8], at: usize, bit: u8) -> Result<Seq<u8>, Memory> {
    let mut turned = Seq::empty(alloc);
    for (place, byte) in bytes.iter().enumerate() {
        turned.push(if place == at { *byte ^ bit } else { *byte })?;
    }
    Ok(turned)
}

/// Whether these bytes are no batch's, or those of the batch that they are read as.
fn is_none_or_the_same(alloc: Global, bytes: &[u8]) -> Result<bool, Memory> {
    match written_again(alloc, bytes)? {
        None => Ok(true),
        Some(again) => Ok(again.items() == bytes),
    }
}

#[test]
fn a_batch_with_a_bit_turned_is_none_or_another(rt: HostRuntime) -> Result<(), Fail> {
    let alloc = rt.alloc();
    for at in 0..WORKED.len() {
        for bit in &BITS {
            let turned = with_bit_turned(alloc, &WORKED, at, *bit)?;
            assert!(rt; is_none_or_the_same(alloc, turned.items())?);
        }
    }
    Ok(())
}
