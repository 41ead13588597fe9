//! Refusals with their keys.

ghost use Rattle.std.specs.Prelude.{◌≡◌, ◌⊎◌, IfOk, IfErr, Ok};
ghost use Rattle.input_book.specs.Key.{key_text};
ghost use Rattle.input_book.specs.Readers.{ranged};
ghost use Rattle.input_book.specs.Refusals.{IsRefusal, key_inside, refusal_inside, read_inside};

use crate::InputErr;
use crate::key::Key;
use event_value::{Memory, Text};
use std::alloc::Global;

// The refusal that is made of the text of a key.
pub fn refused<F: FnOnce(Text) -> InputErr>(alloc: Global, make: F, key: Key<'_>) -> InputErr
    requires { F.IsAlwaysCallable make }
    ensures { (result ≡ InputErr.Memory) ⊎ F.post make (key_text key.entry) result }
{
    match key.text(alloc) {
        Ok(text) => make(text),
        Err(memory) => memory.into(),
    }
}

// What was found within a range, or else the refusal of the value.
pub fn ranged<T>(alloc: Global, key: Key<'_>, found: Option<T>) -> Result<T, InputErr>
    ensures ok { IfOk result (λ value. ranged (key_text key.entry) found ≡ Ok value) }
    ensures err { IfErr result (IsRefusal (ranged (key_text key.entry) found)) }
{
    match found {
        Some(value) => Ok(value),
        None => Err(refused(alloc, InputErr::Range, key)),
    }
}

fn key_inside(alloc: Global, table: Key<'_>, key: &Text) -> Result<Text, Memory>
    ensures { IfOk result (λ whole. whole ≡ key_inside (key_text table.entry) key.now) }
{
    let mut whole = table.text(alloc)?;
    whole.push(b'.')?;
    whole.extend(key.items())?;
    Ok(whole)
}

// A refusal within the table at a key.
fn refusal_inside(alloc: Global, table: Key<'_>, refusal: InputErr) -> Result<InputErr, Memory>
    ensures { IfOk result (λ told. told ≡ refusal_inside (key_text table.entry) refusal) }
{
    Ok(match refusal {
        InputErr::Missing(key) => InputErr::Missing(key_inside(alloc, table, &key)?),
        InputErr::Unknown(key) => InputErr::Unknown(key_inside(alloc, table, &key)?),
        InputErr::Shape(key) => InputErr::Shape(key_inside(alloc, table, &key)?),
        InputErr::Range(key) => InputErr::Range(key_inside(alloc, table, &key)?),
        InputErr::ThroughOrder(key) => InputErr::ThroughOrder(key_inside(alloc, table, &key)?),
        InputErr::EffectiveOrder(key) => InputErr::EffectiveOrder(key_inside(alloc, table, &key)?),
        InputErr::TooMany(key) => InputErr::TooMany(key_inside(alloc, table, &key)?),
        other => other,
    })
}

// What was read within the table at a key.
pub fn read_inside<T>(
    alloc: Global,
    table: Key<'_>,
    read: Result<T, InputErr>,
) -> Result<T, InputErr>
    ensures ok { IfOk result (λ value. read ≡ Ok value) }
    ensures err { IfErr result (IsRefusal (read_inside (key_text table.entry) read)) }
{
    match read {
        Ok(value) => Ok(value),
        Err(refusal) => Err(refusal_inside(alloc, table, refusal)?),
    }
}
