//! `Scope`, what the names in an expression can mean.

use event_value::{Kind, Seq, Text};
use query_plan::Expr;

/// A column that an expression may name.
#[derive(Drop)]
pub struct ScopeColumn {
    /// Its name.
    pub name: Text,
    /// The kind of its values; none where they rest on NULL alone.
    pub kind: Option<Kind>,
    /// Its place in a row.
    pub column: u16,
}

/// A source that an expression may name.
#[derive(Drop)]
pub struct ScopeSource {
    /// Its alias, or else its own name.
    pub name: Text,
    /// Whether there is such a source.
    pub known: bool,
    /// Its columns, in order.
    pub columns: Seq<ScopeColumn>,
}

/// A group expression, and the column of the groups that has its values.
#[derive(Drop)]
pub struct GroupKey {
    /// The expression over the rows.
    pub expr: Expr,
    /// The kind of its values.
    pub kind: Option<Kind>,
    /// The column of the groups.
    pub column: u16,
}

/// The column of the groups that has the values of the aggregate call at a place.
#[derive(Clone, Copy)]
pub struct AggregateColumn {
    /// The place of the call.
    pub place: u32,
    /// The column of the groups.
    pub column: u16,
}

/// What the names in an expression can mean.
#[derive(Drop)]
pub struct Scope {
    /// The sources, in order.
    pub sources: Seq<ScopeSource>,
    /// Whether the time of a row may be named.
    pub timed: bool,
    /// The group expressions, in order.
    pub keys: Seq<GroupKey>,
    /// The aggregate calls, in order of place.
    pub aggregates: Seq<AggregateColumn>,
}
