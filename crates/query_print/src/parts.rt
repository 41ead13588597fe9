//! The words of the parts that may be absent in expressions.

ghost use Rattle.std.specs.Prelude.{◌≡◌, OnOk};
ghost use Rattle.std.specs.Option.{option_map};
ghost use Rattle.query_tree.specs.declared.expr.Case.{out-Case};
ghost use Rattle.query_tree.specs.declared.expr.Pred.{out-Pred};
ghost use Rattle.query_print.specs.Words.{with_words};
ghost use Rattle.query_print.specs.Expressions.{if_there, else_part, expr_words, rest_words};

use crate::expressions::{write_expr, write_rest};
use crate::writer::Writer;
use event_value::Memory;
use query_tokens::Symbol;
use query_tree::{Case, Pred};

/// What stands behind the first sum.
#[cycle(writing)]
pub fn write_pred_rest(out: &mut Writer, pred: &Pred) -> Result<(), Memory>
    ensures { OnOk result (
        out.new ≡ with_words out.old (if_there (option_map rest_words (out-Pred pred.now).rest))) }
{
    match &pred.rest {
        None => Ok(()),
        Some(rest) => write_rest(out, rest),
    }
}

/// The expression right behind CASE.
#[cycle(writing)]
pub fn write_subject(out: &mut Writer, case: &Case) -> Result<(), Memory>
    ensures { OnOk result (
        out.new ≡ with_words out.old (if_there (option_map expr_words (out-Case case.now).subject))) }
{
    match &case.subject {
        None => Ok(()),
        Some(inner) => write_expr(out, inner.get()),
    }
}

/// ELSE and the expression behind it.
#[cycle(writing)]
pub fn write_otherwise(out: &mut Writer, case: &Case) -> Result<(), Memory>
    ensures { OnOk result (
        out.new ≡ with_words out.old (else_part (option_map expr_words (out-Case case.now).otherwise))) }
{
    match &case.otherwise {
        None => Ok(()),
        Some(inner) => {
            out.fixed(Symbol::Else)?;
            write_expr(out, inner.get())
        }
    }
}
