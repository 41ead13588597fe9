//! The words of expressions, one function for each node.

ghost use Rattle.std.specs.Prelude.{◌≡◌, OnOk};
ghost use Rattle.query_print.specs.Words.{with_words};
ghost use Rattle.query_print.specs.Expressions.{expr_words, and_words, not_words, pred_words, rest_words, sum_words, sum_more_words, prod_words, prod_more_words, unary_words, primary_words, call_words, args_words, case_words, when_words, nested_words};

use crate::names::{write_path, write_type};
use crate::parts::{write_otherwise, write_pred_rest, write_subject};
use crate::symbols::{cast_symbol, prod_symbol, rel_symbol, sum_symbol};
use crate::writer::Writer;
use event_value::Memory;
use query_tokens::Symbol;
use query_tree::{
    And, Args, Call, Case, Expr, Not, Pred, PredRest, Primary, Prod, ProdMore, Sum, SumMore, Unary,
    When,
};

#[cycle(writing)]
#[tactic(auto, using(crate::proofs::PartLemmas::written_expr), unfolding(crate::specs::Writing::each_written))]
pub fn write_expr(out: &mut Writer, expr: &Expr) -> Result<(), Memory>
    ensures { OnOk result (out.new ≡ with_words out.old (expr_words expr.now)) }
{
    write_and(out, &expr.first)?;
    for part in expr.more.as_slice() {
        out.fixed(Symbol::Or)?;
        write_and(out, part)?;
    }
    Ok(())
}

#[cycle(writing)]
#[tactic(auto, using(crate::proofs::PartLemmas::written_and), unfolding(crate::specs::Writing::each_written))]
fn write_and(out: &mut Writer, and: &And) -> Result<(), Memory>
    ensures { OnOk result (out.new ≡ with_words out.old (and_words and.now)) }
{
    write_not(out, &and.first)?;
    for part in and.more.as_slice() {
        out.fixed(Symbol::And)?;
        write_not(out, part)?;
    }
    Ok(())
}

#[cycle(writing)]
fn write_not(out: &mut Writer, not: &Not) -> Result<(), Memory>
    ensures { OnOk result (out.new ≡ with_words out.old (not_words not.now)) }
{
    match not {
        Not::Negation(_, inner) => {
            out.fixed(Symbol::Not)?;
            write_not(out, inner.get())
        }
        Not::Pred(pred) => write_pred(out, pred),
    }
}

#[cycle(writing)]
#[tactic(auto, using(crate::proofs::PartLemmas::written_pred))]
fn write_pred(out: &mut Writer, pred: &Pred) -> Result<(), Memory>
    ensures { OnOk result (out.new ≡ with_words out.old (pred_words pred.now)) }
{
    write_sum(out, &pred.sum)?;
    write_pred_rest(out, pred)
}

#[cycle(writing)]
#[tactic(auto, using(crate::proofs::PartLemmas::written_between, crate::proofs::PartLemmas::written_in, crate::proofs::PartLemmas::written_like), unfolding(crate::specs::Writing::each_written))]
pub fn write_rest(out: &mut Writer, rest: &PredRest) -> Result<(), Memory>
    ensures { OnOk result (out.new ≡ with_words out.old (rest_words rest.now)) }
{
    match rest {
        PredRest::Compare(_, rel, sum) => {
            out.fixed(rel_symbol(*rel))?;
            write_sum(out, sum)
        }
        PredRest::Between(_, not, low, high) => {
            out.flag(Symbol::Not, *not)?;
            out.fixed(Symbol::Between)?;
            write_sum(out, low)?;
            out.fixed(Symbol::And)?;
            write_sum(out, high)
        }
        PredRest::In(_, not, first, more) => {
            out.flag(Symbol::Not, *not)?;
            out.fixed(Symbol::In)?;
            out.fixed(Symbol::Open)?;
            write_expr(out, first.get())?;
            for part in more.as_slice() {
                out.fixed(Symbol::Comma)?;
                write_expr(out, part)?;
            }
            out.fixed(Symbol::Close)
        }
        PredRest::Like(_, not, sum) => {
            out.flag(Symbol::Not, *not)?;
            out.fixed(Symbol::Like)?;
            write_sum(out, sum)
        }
        PredRest::IsNull(_, not) => {
            out.fixed(Symbol::Is)?;
            out.flag(Symbol::Not, *not)?;
            out.fixed(Symbol::Null)
        }
    }
}

#[cycle(writing)]
#[tactic(auto, using(crate::proofs::PartLemmas::written_sum), unfolding(crate::specs::Writing::all_written))]
fn write_sum(out: &mut Writer, sum: &Sum) -> Result<(), Memory>
    ensures { OnOk result (out.new ≡ with_words out.old (sum_words sum.now)) }
{
    write_prod(out, &sum.first)?;
    for part in sum.more.as_slice() {
        write_sum_more(out, part)?;
    }
    Ok(())
}

#[cycle(writing)]
fn write_sum_more(out: &mut Writer, more: &SumMore) -> Result<(), Memory>
    ensures { OnOk result (out.new ≡ with_words out.old (sum_more_words more.now)) }
{
    out.fixed(sum_symbol(more.sign))?;
    write_prod(out, &more.prod)
}

#[cycle(writing)]
#[tactic(auto, using(crate::proofs::PartLemmas::written_prod), unfolding(crate::specs::Writing::all_written))]
fn write_prod(out: &mut Writer, prod: &Prod) -> Result<(), Memory>
    ensures { OnOk result (out.new ≡ with_words out.old (prod_words prod.now)) }
{
    write_unary(out, &prod.first)?;
    for part in prod.more.as_slice() {
        write_prod_more(out, part)?;
    }
    Ok(())
}

#[cycle(writing)]
fn write_prod_more(out: &mut Writer, more: &ProdMore) -> Result<(), Memory>
    ensures { OnOk result (out.new ≡ with_words out.old (prod_more_words more.now)) }
{
    out.fixed(prod_symbol(more.sign))?;
    write_unary(out, &more.unary)
}

#[cycle(writing)]
fn write_unary(out: &mut Writer, unary: &Unary) -> Result<(), Memory>
    ensures { OnOk result (out.new ≡ with_words out.old (unary_words unary.now)) }
{
    match unary {
        Unary::Minus(_, inner) => {
            out.fixed(Symbol::Minus)?;
            write_unary(out, inner.get())
        }
        Unary::Primary(primary) => write_primary(out, primary),
    }
}

#[cycle(writing)]
fn write_primary(out: &mut Writer, primary: &Primary) -> Result<(), Memory>
    ensures { OnOk result (out.new ≡ with_words out.old (primary_words primary.now)) }
{
    match primary {
        Primary::Number(_, number) => out.number(*number),
        Primary::Text(_, text) => out.quoted(text.items()),
        Primary::Null(_) => out.fixed(Symbol::Null),
        Primary::Column(path) => write_path(out, path),
        Primary::Call(call) => write_call(out, call),
        Primary::Case(case) => write_case(out, case),
        Primary::Nested(_, inner) => write_nested(out, inner.get()),
    }
}

/// An expression in parentheses.
#[cycle(writing)]
#[tactic(auto, using(crate::proofs::WrittenLemmas::with_words_append))]
fn write_nested(out: &mut Writer, inner: &Expr) -> Result<(), Memory>
    ensures { OnOk result (out.new ≡ with_words out.old (nested_words (expr_words inner.now))) }
{
    out.fixed(Symbol::Open)?;
    write_expr(out, inner)?;
    out.fixed(Symbol::Close)
}

#[cycle(writing)]
#[tactic(auto, using(crate::proofs::PartLemmas::written_cast, crate::proofs::PartLemmas::written_function, crate::proofs::PartLemmas::written_no_arguments))]
fn write_call(out: &mut Writer, call: &Call) -> Result<(), Memory>
    ensures { OnOk result (out.new ≡ with_words out.old (call_words call.now)) }
{
    match call {
        Call::Cast(_, word, inner, kind) => {
            out.fixed(cast_symbol(*word))?;
            out.fixed(Symbol::Open)?;
            write_expr(out, inner.get())?;
            out.fixed(Symbol::As)?;
            write_type(out, kind)?;
            out.fixed(Symbol::Close)
        }
        Call::Function(_, path, args) => {
            write_path(out, path)?;
            out.fixed(Symbol::Open)?;
            match args {
                None => out.fixed(Symbol::Close),
                Some(args) => {
                    write_args(out, args)?;
                    out.fixed(Symbol::Close)
                }
            }
        }
    }
}

#[cycle(writing)]
#[tactic(auto, using(crate::proofs::PartLemmas::written_listed), unfolding(crate::specs::Writing::each_written))]
fn write_args(out: &mut Writer, args: &Args) -> Result<(), Memory>
    ensures { OnOk result (out.new ≡ with_words out.old (args_words args.now)) }
{
    match args {
        Args::Star(_) => out.fixed(Symbol::Star),
        Args::Listed(_, distinct, first, more) => {
            out.flag(Symbol::Distinct, *distinct)?;
            write_expr(out, first.get())?;
            for part in more.as_slice() {
                out.fixed(Symbol::Comma)?;
                write_expr(out, part)?;
            }
            Ok(())
        }
    }
}

#[cycle(writing)]
#[tactic(auto, using(crate::proofs::PartLemmas::written_case), unfolding(crate::specs::Writing::all_written))]
fn write_case(out: &mut Writer, case: &Case) -> Result<(), Memory>
    ensures { OnOk result (out.new ≡ with_words out.old (case_words case.now)) }
{
    out.fixed(Symbol::Case)?;
    write_subject(out, case)?;
    write_when(out, &case.first)?;
    for part in case.more.as_slice() {
        write_when(out, part)?;
    }
    write_otherwise(out, case)?;
    out.fixed(Symbol::End)
}

#[cycle(writing)]
#[tactic(auto, using(crate::proofs::PartLemmas::written_when))]
fn write_when(out: &mut Writer, when: &When) -> Result<(), Memory>
    ensures { OnOk result (out.new ≡ with_words out.old (when_words when.now)) }
{
    out.fixed(Symbol::When)?;
    write_expr(out, when.when.get())?;
    out.fixed(Symbol::Then)?;
    write_expr(out, when.then.get())
}
