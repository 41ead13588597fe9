//! Readings of small trees, worked out by hand.

use event_value::{Kind, Memory, Seq, Text, Value};
use query_forms::{Cause, Sense};
use query_plan::Expr;
use query_readings::{Reading, Scope, ScopeColumn, ScopeSource};
use query_senses::read_expr;
use query_tree as tree;
use query_tree::{And, Name, Not, Path, Pred, Primary, Prod, Sum, Unary};
use sqlite_items::Items;
use std::alloc::Global;
use std::test::Fail;

// The tree of a part that stands alone at place 7.
fn alone(alloc: Global, primary: Primary) -> tree::Expr {
    let prod = Prod {
        place: 7,
        first: Unary::Primary(primary),
        more: Items::new(alloc),
    };
    let sum = Sum {
        place: 7,
        first: prod,
        more: Items::new(alloc),
    };
    let pred = Pred {
        place: 7,
        sum,
        rest: None,
    };
    let and = And {
        place: 7,
        first: Not::Pred(pred),
        more: Items::new(alloc),
    };
    tree::Expr {
        place: 7,
        first: and,
        more: Items::new(alloc),
    }
}

/// The tree of a column.
fn column(alloc: Global, name: &str) -> Result<tree::Expr, Memory> {
    let first = Name {
        place: 7,
        text: Text::of(alloc, name.as_bytes())?,
    };
    let path = Path {
        place: 7,
        first,
        second: None,
    };
    Ok(alone(alloc, Primary::Column(path)))
}

// A scope with one source that has a column `a` of whole numbers at place 3.
fn scope(alloc: Global) -> Result<Scope, Memory> {
    let mut columns = Seq::empty(alloc);
    columns.push(ScopeColumn {
        name: Text::of(alloc, b"a")?,
        kind: Some(Kind::Big),
        column: 3,
    })?;
    let mut sources = Seq::empty(alloc);
    sources.push(ScopeSource {
        name: Text::of(alloc, b"src")?,
        known: true,
        columns,
    })?;
    Ok(Scope {
        sources,
        timed: true,
        keys: Seq::empty(alloc),
        aggregates: Seq::empty(alloc),
    })
}

/// Whether a reading is the whole numbers of a column.
fn is_column(reading: &Reading, number: u16) -> bool {
    match &reading.rows {
        Ok(Sense::Value(value)) => {
            value.kind == Some(Kind::Big) && matches!(&value.expr, Expr::Col(n) if *n == number)
        }
        _ => false,
    }
}

/// Whether a reading has one fault, of this rule at this place.
fn is_refused(reading: &Reading, place: u32, cause: Cause) -> bool {
    match &reading.rows {
        Err(faults) => match faults.items() {
            [fault] => fault.place == place && fault.cause == cause,
            _ => false,
        },
        _ => false,
    }
}

/// Whether a reading is NULL.
fn is_null(reading: &Reading) -> bool {
    match &reading.rows {
        Ok(Sense::Value(value)) => {
            value.kind == None && matches!(&value.expr, Expr::Lit(Value::Null))
        }
        _ => false,
    }
}

#[test]
fn a_column_is_found_by_its_name(rt: HostRuntime) -> Result<(), Fail> {
    let alloc = rt.alloc();
    let scope = scope(alloc)?;
    assert!(rt; is_column(&read_expr(alloc, &scope, &column(alloc, "a")?)?, 3));
    let missing = read_expr(alloc, &scope, &column(alloc, "z")?)?;
    assert!(rt; is_refused(&missing, 7, Cause::UnknownColumn));
    assert!(rt; is_null(&read_expr(alloc, &scope, &alone(alloc, Primary::Null(7)))?));
    Ok(())
}
