//! `both` and `boxed`, by which the copies of a node's parts are put together.

ghost use Rattle.std.specs.Prelude.{◌≡◌, Ok, IfOk};

use event_value::Memory;
use sqlite_items::Boxed;
use std::alloc::Global;

/// Both copies, where there was memory for both. The parts of a node wait for each other here, so
/// that the function of the node has one way out.
pub fn both<A: Drop, B: Drop>(
    first: Result<A, Memory>,
    second: Result<B, Memory>,
) -> Result<(A, B), Memory>
    ensures { IfOk result (λ pair. (first ≡ Ok pair.0) × (second ≡ Ok pair.1)) }
{
    Ok((first?, second?))
}

/// The copy in a box, where there was memory for both.
pub fn boxed<N: Drop>(alloc: Global, copied: Result<N, Memory>) -> Result<Boxed<N>, Memory>
    ensures { IfOk result (λ boxed. copied ≡ Ok boxed) }
{
    Ok(Boxed::new(alloc, copied?)?)
}
