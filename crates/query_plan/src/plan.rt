//! The plan of a script as data: the streams and references that it uses, its steps and its outputs.

use crate::{Cond, Expr};
use event_value::{Aggregate, Seq, Text};
use tick_time::Span;

/// A plan. Each step names only earlier steps.
#[derive(Drop)]
pub struct Plan {
    /// The streams that it uses, in the order of the inputs document.
    pub streams: Seq<StreamUse>,
    /// The places of the references that it uses among those of the inputs document.
    pub references: Seq<u16>,
    /// The steps.
    pub steps: Seq<Step>,
    /// The outputs, in the order of the script.
    pub outputs: Seq<Output>,
}

/// A stream that a plan uses.
#[derive(Drop)]
pub struct StreamUse {
    /// The place of the stream among those of the inputs document.
    pub stream: u16,
    /// The moment of a record, where it isn't that of its arrival.
    pub stamp: Option<Expr>,
    /// The columns whose values part the stream for its watermarks.
    pub over: Seq<u16>,
}

/// An output of a plan.
#[derive(Drop)]
pub struct Output {
    /// Its name.
    pub name: Text,
    /// The step whose rows it has.
    pub step: u16,
    /// The names of its columns.
    pub names: Seq<Text>,
}

/// A step of a plan: it makes rows from those of earlier steps.
#[derive(Drop)]
pub enum Step {
    /// The rows of a stream, by its place in `streams`.
    Source {
        index: u16,
    },
    /// The rows where the condition is true.
    Filter {
        from: u16,
        cond: Cond,
    },
    /// A row of the values of these expressions for each row.
    Project {
        from: u16,
        exprs: Seq<Expr>,
    },
    /// The rows of both steps.
    Union {
        first: u16,
        second: u16,
    },
    /// A row per window of a grid and content of the keys.
    Grid {
        from: u16,
        size: Span,
        hop: Span,
        offset: Span,
        keys: u16,
        aggs: Seq<Aggregate>,
    },
    /// A row per moment and content of the keys.
    Snapshot {
        from: u16,
        keys: u16,
        aggs: Seq<Aggregate>,
    },
    /// A row per change of the content of a window that ends at each moment.
    Sliding {
        from: u16,
        size: Span,
        keys: u16,
        aggs: Seq<Aggregate>,
    },
    /// A row per session and content of the keys.
    Session {
        from: u16,
        timeout: Span,
        most: Span,
        parts: u16,
        keys: u16,
        aggs: Seq<Aggregate>,
    },
    /// A row per pair of rows whose times lie within the bound and where the condition is true.
    Join {
        left: u16,
        right: u16,
        low: Span,
        high: Span,
        cond: Cond,
        outer: bool,
    },
    /// A row per row and row of a reference where the condition is true.
    Lookup {
        left: u16,
        reference: u16,
        cond: Cond,
        outer: bool,
    },
}
