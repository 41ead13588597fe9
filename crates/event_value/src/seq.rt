//! `Seq`, a list that grows at its end.

ghost use Rattle.std.specs.Prelude.{◌≡◌, [], ◌∷◌, ◌++◌, IfOk, OnOk, OnErr};
ghost use Rattle.std.specs.Cmp.Lexicographic.{pointwise, slice_cmp, slice_partial_cmp};
ghost use Rattle.std.specs.Cmp.Lexicographic.{lists_per, lists_equiv, lists_po};
ghost use Rattle.std.specs.Cmp.Lexicographic.{lists_total, lists_agrees, lists_ties};

use crate::Copies;
use std::alloc::Global;
use std::cmp::Ordering;
use std::marker::Model;
use tick_time::Memory;

/// A list that grows at its end. Contracts see it as the list of its items.
#[derive(Drop)]
pub struct Seq<T> {
    items: Vec<T>,
}

impl<T> Model for Seq<T> {
    ghost use Rattle.std.specs.Prelude.{List};
    ghost use Rattle.std.specs.Coded.{coded_list};

    ghost Value = { List T };

    ghost coded = { coded_list T.code };

    ghost view = { λ s. s.items.items };
}

impl<T> Seq<T> {
    /// The list with no items. It takes no memory.
    pub fn empty(alloc: Global) -> Self
        ensures { result ≡ [] }
    {
        Seq {
            items: Vec::new(alloc),
        }
    }

    /// The list of a vector's items. It takes no memory.
    pub fn from_vec(items: Vec<T>) -> Self
        ensures { result ≡ items.items }
    {
        Seq { items }
    }

    /// The vector of the list's items. It takes no memory.
    pub fn into_vec(self) -> Vec<T>
        ensures { result.items ≡ self }
    {
        let Seq { items } = self;
        items
    }

    /// The allocator that the list keeps.
    pub fn allocator(&self) -> Global {
        *self.items.allocator()
    }

    /// The items in order. It takes no memory.
    pub fn items(&self) -> &[T]
        ensures { result.now ≡ self.now }
    {
        self.items.as_slice()
    }
}

impl<T: Drop> Seq<T> {
    /// Adds an item at the end.
    ///
    /// # Errors
    /// `Memory` where the list could not grow; the list is then as before.
    pub fn push(&mut self, item: T) -> Result<(), Memory>
        ensures ok { OnOk result (self.new ≡ self.old ++ item ∷ []) }
        ensures err { OnErr result (self.new ≡ self.old) }
    {
        self.items.push(item)?;
        Ok(())
    }
}

impl Seq<u8> {
    /// Adds bytes at the end.
    ///
    /// # Errors
    /// `Memory` where the list could not grow; the list is then as before.
    pub fn extend(&mut self, items: &[u8]) -> Result<(), Memory>
        ensures ok { OnOk result (self.new ≡ self.old ++ items.now) }
        ensures err { OnErr result (self.new ≡ self.old) }
    {
        self.items.extend_from_slice(items)?;
        Ok(())
    }
}

impl<T: Copies> Seq<T> {
    /// The list of copies of these items.
    ///
    /// # Errors
    /// `Memory` where there was none for a copy.
    pub fn of(alloc: Global, items: &[T]) -> Result<Self, Memory>
        ensures { IfOk result (λ list. list ≡ items.now) }
    {
        Ok(Seq {
            items: copies_of(alloc, items)?,
        })
    }
}

impl<T: Copies> Copies for Seq<T> {
    fn copy(&self) -> Result<Self, Memory> {
        Ok(Seq {
            items: copies_of(self.allocator(), &self.items)?,
        })
    }
}

fn copies_of<T: Copies>(alloc: Global, items: &[T]) -> Result<Vec<T>, Memory>
    ensures { IfOk result (λ list. list.items ≡ items.now) }
{
    let mut list = Vec::new(alloc);
    for item in items {
        list.push(item.copy()?)?;
    }
    Ok(list)
}

impl<T: PartialEq> PartialEq for Seq<T> {
    ghost eq = { λ v w. pointwise T.eq v w };

    ghost laws = { lists_per T.laws };

    fn eq(&self, other: &Self) -> bool {
        self.items() == other.items()
    }
}

impl<T: Eq> Eq for Seq<T> {
    ghost laws = { lists_equiv T.Eq.laws };
}

impl<T: PartialOrd> PartialOrd for Seq<T> {
    ghost partial_cmp = { λ v w. slice_partial_cmp T.partial_cmp v w };

    ghost laws = { lists_po T.PartialOrd.laws };

    fn partial_cmp(&self, other: &Self) -> Option<Ordering> {
        self.items().partial_cmp(&other.items())
    }
}

/// Lists are ordered by the first items that differ, and a front comes before what goes on.
impl<T: Ord> Ord for Seq<T> {
    ghost cmp = { λ v w. slice_cmp T.cmp v w };

    ghost total = { lists_total T.total };

    ghost matches_partial_cmp = { λ v w. lists_agrees T.matches_partial_cmp v w };

    ghost matches_eq = { λ v w. lists_ties T.cmp T.matches_eq v w };

    fn cmp(&self, other: &Self) -> Ordering {
        self.items().cmp(&other.items())
    }
}
