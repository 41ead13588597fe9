//! `CopyTree`, what the nodes of a query's tree offer: a copy.

ghost use Rattle.std.specs.Prelude.{◌≡◌, IfOk};

use event_value::{Memory, Seq};
use std::alloc::Global;

/// A node that can be copied with all that stands below it.
///
/// A copy calls itself as deep as the tree is nested: in a tree that was read from a text, as deep
/// as the limit of openings that may be open at once lets it be.
pub trait CopyTree: Drop {
    /// A node that equals this one, with the places of all its parts.
    ///
    /// # Errors
    /// `Memory` where there was none for the copy.
    fn copy(&self, alloc: Global) -> Result<Self, Memory>
        ensures { IfOk result (λ copied. copied ≡ self.now) };
}

/// The list of copies of these nodes.
pub fn copies_of<N: CopyTree>(alloc: Global, nodes: &[N]) -> Result<Seq<N>, Memory>
    ensures { IfOk result (λ copied. copied ≡ nodes.now) }
{
    let mut copied = Seq::empty(alloc);
    for node in nodes {
        copied.push(node.copy(alloc)?)?;
    }
    Ok(copied)
}

/// A copy of the node, where there is one.
pub fn copy_of_option<N: CopyTree>(alloc: Global, node: &Option<N>) -> Result<Option<N>, Memory>
    ensures { IfOk result (λ copied. copied ≡ node.now) }
{
    match node {
        None => Ok(None),
        Some(node) => Ok(Some(node.copy(alloc)?)),
    }
}
