//! Names, numbers, and what is made of names alone.

ghost use Rattle.std.specs.Prelude.{◌≡◌, IfOk};

use event_value::{Copies, Memory, Text};

/// A name without its brackets, and the place of its first byte.
#[derive(Drop)]
pub struct Name {
    pub place: u32,
    pub text: Text,
}

/// A whole number, or a decimal one in millionths.
#[derive(Clone, Copy, PartialEq, Eq)]
pub enum Number {
    Whole(i64),
    Decimal(i64),
}

/// `name ["." name]`, also where the grammar has `column`.
#[derive(Drop)]
pub struct Path {
    pub place: u32,
    pub first: Name,
    pub second: Option<Name>,
}

/// `word ["(" word ")"]`
#[derive(Drop)]
pub struct TypeName {
    pub place: u32,
    pub word: Name,
    pub size: Option<Name>,
}

impl Copies for Name {
    fn copy(&self) -> Result<Self, Memory> {
        Ok(Name {
            place: self.place,
            text: self.text.copy()?,
        })
    }
}

impl Copies for Number {
    fn copy(&self) -> Result<Self, Memory> {
        Ok(*self)
    }
}

impl Copies for Path {
    fn copy(&self) -> Result<Self, Memory> {
        Ok(Path {
            place: self.place,
            first: self.first.copy()?,
            second: copied(&self.second)?,
        })
    }
}

impl Copies for TypeName {
    fn copy(&self) -> Result<Self, Memory> {
        Ok(TypeName {
            place: self.place,
            word: self.word.copy()?,
            size: copied(&self.size)?,
        })
    }
}

fn copied(name: &Option<Name>) -> Result<Option<Name>, Memory>
    ensures { IfOk result (λ copied. copied ≡ name.now) }
{
    match name {
        None => Ok(None),
        Some(name) => Ok(Some(name.copy()?)),
    }
}
