//! `Copies` and `CopiesIn`, for types whose values can be made again.

ghost use Rattle.std.specs.Prelude.{◌≡◌, Ok, IfOk};

use crate::Seq;
use std::alloc::Global;
use tick_time::{Memory, Moment};

/// A type whose values can be copied where there is memory for it.
pub trait Copies: Drop {
    /// A value that equals this one.
    ///
    /// # Errors
    /// `Memory` where there was none for the copy.
    fn copy(&self) -> Result<Self, Memory>
        ensures { IfOk result (λ copied. copied ≡ self.now) };
}

/// A type whose values keep no allocator, and can be copied where there is memory for it.
pub trait CopiesIn: Drop {
    /// A value that equals this one.
    ///
    /// # Errors
    /// `Memory` where there was none for the copy.
    fn copy_in(&self, alloc: Global) -> Result<Self, Memory>
        ensures { IfOk result (λ copied. copied ≡ self.now) };
}

/// The list of copies of these items.
///
/// # Errors
/// `Memory` where there was none for a copy.
pub fn copies_in<T: CopiesIn>(alloc: Global, items: &[T]) -> Result<Seq<T>, Memory>
    ensures { IfOk result (λ copied. copied ≡ items.now) }
{
    let mut copied = Seq::empty(alloc);
    for item in items {
        copied.push(item.copy_in(alloc)?)?;
    }
    Ok(copied)
}

/// A copy of the item, where there is one.
///
/// # Errors
/// `Memory` where there was none for the copy.
pub fn copy_of_option<T: CopiesIn>(alloc: Global, item: &Option<T>) -> Result<Option<T>, Memory>
    ensures { IfOk result (λ copied. copied ≡ item.now) }
{
    match item {
        None => Ok(None),
        Some(item) => Ok(Some(item.copy_in(alloc)?)),
    }
}

/// Both values, where there was memory for both: so a function that makes two has one way out.
///
/// # Errors
/// `Memory` where there was none for one of them.
pub fn both<A: Drop, B: Drop>(
    first: Result<A, Memory>,
    second: Result<B, Memory>,
) -> Result<(A, B), Memory>
    ensures { IfOk result (λ pair. (first ≡ Ok pair.0) × (second ≡ Ok pair.1)) }
{
    Ok((first?, second?))
}

impl Copies for u8 {
    fn copy(&self) -> Result<Self, Memory> {
        Ok(*self)
    }
}

impl Copies for u16 {
    fn copy(&self) -> Result<Self, Memory> {
        Ok(*self)
    }
}

impl Copies for u32 {
    fn copy(&self) -> Result<Self, Memory> {
        Ok(*self)
    }
}

impl Copies for i64 {
    fn copy(&self) -> Result<Self, Memory> {
        Ok(*self)
    }
}

impl Copies for bool {
    fn copy(&self) -> Result<Self, Memory> {
        Ok(*self)
    }
}

impl Copies for Moment {
    fn copy(&self) -> Result<Self, Memory> {
        Ok(*self)
    }
}
