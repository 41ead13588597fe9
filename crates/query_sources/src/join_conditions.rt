//! What a join asks of a pair of rows, and whether rows without a match come alone.

ghost use Rattle.std.specs.Prelude.{◌≡◌, IfOk};
ghost use Rattle.query_sources.specs.Joins as spec;

use crate::conditions::condition_of;
use event_value::{Memory, Value};
use query_forms::Checked;
use query_plan::{Cond, Expr, Rel};
use query_readings::{Reading, Scope};
use query_senses::{read_and_without, read_expr};
use query_tree as tree;
use query_tree::Side;
use std::alloc::Global;

/// Whether rows without a match come alone.
pub fn is_outer(side: &Option<Side>) -> bool
    ensures { result ≡ spec.is_outer side.now }
{
    match side {
        None => false,
        Some(Side::Inner(_)) => false,
        Some(Side::Left(_, _)) => true,
    }
}

// What holds of each pair of rows.
fn always() -> Cond
    ensures { result ≡ spec.always }
{
    Cond::Compare(Rel::Eq, Expr::Lit(Value::Big(0)), Expr::Lit(Value::Big(0)))
}

/// The condition of a join with a reference.
pub fn condition_on(alloc: Global, scope: &Scope, on: &tree::Expr) -> Result<Checked<Cond>, Memory>
    ensures { IfOk result (λ checked. checked ≡ spec.condition_on scope.now on.now) }
{
    let reading = read_expr(alloc, scope, on)?;
    condition_of(alloc, on.place, reading.rows)
}

fn condition_left(
    alloc: Global,
    place: u32,
    reading: Option<Reading>,
) -> Result<Checked<Cond>, Memory>
    ensures { IfOk result (λ checked. checked ≡ spec.condition_left place reading) }
{
    match reading {
        None => Ok(Ok(always())),
        Some(reading) => condition_of(alloc, place, reading.rows),
    }
}

/// The condition of a join beside its bound, which is the part at this place.
#[tactic(auto, unfolding(crate::specs::Joins::condition_beside))]
pub fn condition_beside(
    alloc: Global,
    scope: &Scope,
    part: usize,
    on: &tree::Expr,
) -> Result<Checked<Cond>, Memory>
    ensures { IfOk result (λ checked. checked ≡ spec.condition_beside scope.now part on.now) }
{
    let reading = read_and_without(alloc, scope, &on.first, part)?;
    condition_left(alloc, on.place, reading)
}
