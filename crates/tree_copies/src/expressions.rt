//! Copies of expressions, one function for each node. They call each other as the lines of the
//! grammar do; the calls of the trait stand in nodes.rt.

ghost use Rattle.std.specs.Prelude.{◌≡◌, IfOk};
ghost use Rattle.query_tree.specs.declared.expr.Case.{out-Case};

use crate::parts::{both, boxed};
use event_value::{Copies, Memory};
use query_tree::{
    And, Args, Call, Case, Expr, Not, Pred, PredRest, Primary, Prod, ProdMore, Sum, SumMore, Unary,
    When,
};
use sqlite_items::{Boxed, Items};
use std::alloc::Global;

#[cycle(copies)]
pub fn copy_of_expr(alloc: Global, expr: &Expr) -> Result<Expr, Memory>
    ensures { IfOk result (λ copied. copied ≡ expr.now) }
{
    let more = copies_of_ands(alloc, expr.more.as_slice());
    let (first, more) = both(copy_of_and(alloc, &expr.first), more)?;
    Ok(Expr {
        place: expr.place,
        first,
        more,
    })
}

#[cycle(copies)]
fn copies_of_ands(alloc: Global, parts: &[And]) -> Result<Items<And>, Memory>
    ensures { IfOk result (λ copied. copied ≡ parts.now) }
{
    let mut copied = Items::new(alloc);
    for part in parts {
        copied.push(copy_of_and(alloc, part)?)?;
    }
    Ok(copied)
}

#[cycle(copies)]
pub fn copy_of_and(alloc: Global, and: &And) -> Result<And, Memory>
    ensures { IfOk result (λ copied. copied ≡ and.now) }
{
    let more = copies_of_nots(alloc, and.more.as_slice());
    let (first, more) = both(copy_of_not(alloc, &and.first), more)?;
    Ok(And {
        place: and.place,
        first,
        more,
    })
}

#[cycle(copies)]
fn copies_of_nots(alloc: Global, parts: &[Not]) -> Result<Items<Not>, Memory>
    ensures { IfOk result (λ copied. copied ≡ parts.now) }
{
    let mut copied = Items::new(alloc);
    for part in parts {
        copied.push(copy_of_not(alloc, part)?)?;
    }
    Ok(copied)
}

#[cycle(copies)]
pub fn copy_of_not(alloc: Global, not: &Not) -> Result<Not, Memory>
    ensures { IfOk result (λ copied. copied ≡ not.now) }
{
    match not {
        Not::Negation(place, inner) => {
            let inner = boxed(alloc, copy_of_not(alloc, inner.get()))?;
            Ok(Not::Negation(*place, inner))
        }
        Not::Pred(pred) => Ok(Not::Pred(copy_of_pred(alloc, pred)?)),
    }
}

#[cycle(copies)]
pub fn copy_of_pred(alloc: Global, pred: &Pred) -> Result<Pred, Memory>
    ensures { IfOk result (λ copied. copied ≡ pred.now) }
{
    match &pred.rest {
        None => Ok(Pred {
            place: pred.place,
            sum: copy_of_sum(alloc, &pred.sum)?,
            rest: None,
        }),
        Some(rest) => {
            let (sum, rest) = both(copy_of_sum(alloc, &pred.sum), copy_of_rest(alloc, rest))?;
            Ok(Pred {
                place: pred.place,
                sum,
                rest: Some(rest),
            })
        }
    }
}

#[cycle(copies)]
pub fn copy_of_rest(alloc: Global, rest: &PredRest) -> Result<PredRest, Memory>
    ensures { IfOk result (λ copied. copied ≡ rest.now) }
{
    match rest {
        PredRest::Compare(place, rel, sum) => {
            Ok(PredRest::Compare(*place, *rel, copy_of_sum(alloc, sum)?))
        }
        PredRest::Between(place, not, low, high) => {
            let (low, high) = both(copy_of_sum(alloc, low), copy_of_sum(alloc, high))?;
            Ok(PredRest::Between(*place, *not, low, high))
        }
        PredRest::In(place, not, first, more) => {
            let first = boxed(alloc, copy_of_expr(alloc, first.get()));
            let (first, more) = both(first, copies_of_exprs(alloc, more.as_slice()))?;
            Ok(PredRest::In(*place, *not, first, more))
        }
        PredRest::Like(place, not, sum) => {
            Ok(PredRest::Like(*place, *not, copy_of_sum(alloc, sum)?))
        }
        PredRest::IsNull(place, not) => Ok(PredRest::IsNull(*place, *not)),
    }
}

#[cycle(copies)]
pub fn copy_of_sum(alloc: Global, sum: &Sum) -> Result<Sum, Memory>
    ensures { IfOk result (λ copied. copied ≡ sum.now) }
{
    let more = copies_of_sums(alloc, sum.more.as_slice());
    let (first, more) = both(copy_of_prod(alloc, &sum.first), more)?;
    Ok(Sum {
        place: sum.place,
        first,
        more,
    })
}

#[cycle(copies)]
fn copies_of_sums(alloc: Global, parts: &[SumMore]) -> Result<Items<SumMore>, Memory>
    ensures { IfOk result (λ copied. copied ≡ parts.now) }
{
    let mut copied = Items::new(alloc);
    for part in parts {
        copied.push(copy_of_sum_more(alloc, part)?)?;
    }
    Ok(copied)
}

#[cycle(copies)]
pub fn copy_of_sum_more(alloc: Global, more: &SumMore) -> Result<SumMore, Memory>
    ensures { IfOk result (λ copied. copied ≡ more.now) }
{
    Ok(SumMore {
        place: more.place,
        sign: more.sign,
        prod: copy_of_prod(alloc, &more.prod)?,
    })
}

#[cycle(copies)]
pub fn copy_of_prod(alloc: Global, prod: &Prod) -> Result<Prod, Memory>
    ensures { IfOk result (λ copied. copied ≡ prod.now) }
{
    let more = copies_of_prods(alloc, prod.more.as_slice());
    let (first, more) = both(copy_of_unary(alloc, &prod.first), more)?;
    Ok(Prod {
        place: prod.place,
        first,
        more,
    })
}

#[cycle(copies)]
fn copies_of_prods(alloc: Global, parts: &[ProdMore]) -> Result<Items<ProdMore>, Memory>
    ensures { IfOk result (λ copied. copied ≡ parts.now) }
{
    let mut copied = Items::new(alloc);
    for part in parts {
        copied.push(copy_of_prod_more(alloc, part)?)?;
    }
    Ok(copied)
}

#[cycle(copies)]
pub fn copy_of_prod_more(alloc: Global, more: &ProdMore) -> Result<ProdMore, Memory>
    ensures { IfOk result (λ copied. copied ≡ more.now) }
{
    Ok(ProdMore {
        place: more.place,
        sign: more.sign,
        unary: copy_of_unary(alloc, &more.unary)?,
    })
}

#[cycle(copies)]
pub fn copy_of_unary(alloc: Global, unary: &Unary) -> Result<Unary, Memory>
    ensures { IfOk result (λ copied. copied ≡ unary.now) }
{
    match unary {
        Unary::Minus(place, inner) => {
            let inner = boxed(alloc, copy_of_unary(alloc, inner.get()))?;
            Ok(Unary::Minus(*place, inner))
        }
        Unary::Primary(primary) => Ok(Unary::Primary(copy_of_primary(alloc, primary)?)),
    }
}

#[cycle(copies)]
pub fn copy_of_primary(alloc: Global, primary: &Primary) -> Result<Primary, Memory>
    ensures { IfOk result (λ copied. copied ≡ primary.now) }
{
    match primary {
        Primary::Number(place, number) => Ok(Primary::Number(*place, *number)),
        Primary::Text(place, text) => Ok(Primary::Text(*place, text.copy()?)),
        Primary::Null(place) => Ok(Primary::Null(*place)),
        Primary::Column(path) => Ok(Primary::Column(path.copy()?)),
        Primary::Call(call) => Ok(Primary::Call(copy_of_call(alloc, call)?)),
        Primary::Case(case) => Ok(Primary::Case(copy_of_case(alloc, case)?)),
        Primary::Nested(place, inner) => {
            let inner = boxed(alloc, copy_of_expr(alloc, inner.get()))?;
            Ok(Primary::Nested(*place, inner))
        }
    }
}

#[cycle(copies)]
pub fn copy_of_call(alloc: Global, call: &Call) -> Result<Call, Memory>
    ensures { IfOk result (λ copied. copied ≡ call.now) }
{
    match call {
        Call::Cast(place, word, inner, kind) => {
            let inner = boxed(alloc, copy_of_expr(alloc, inner.get()));
            let (inner, kind) = both(inner, kind.copy())?;
            Ok(Call::Cast(*place, *word, inner, kind))
        }
        Call::Function(place, path, None) => Ok(Call::Function(*place, path.copy()?, None)),
        Call::Function(place, path, Some(args)) => {
            let (path, args) = both(path.copy(), copy_of_args(alloc, args))?;
            Ok(Call::Function(*place, path, Some(args)))
        }
    }
}

#[cycle(copies)]
pub fn copy_of_args(alloc: Global, args: &Args) -> Result<Args, Memory>
    ensures { IfOk result (λ copied. copied ≡ args.now) }
{
    match args {
        Args::Star(place) => Ok(Args::Star(*place)),
        Args::Listed(place, distinct, first, more) => {
            let first = boxed(alloc, copy_of_expr(alloc, first.get()));
            let (first, more) = both(first, copies_of_exprs(alloc, more.as_slice()))?;
            Ok(Args::Listed(*place, *distinct, first, more))
        }
    }
}

#[cycle(copies)]
fn copies_of_exprs(alloc: Global, parts: &[Expr]) -> Result<Items<Expr>, Memory>
    ensures { IfOk result (λ copied. copied ≡ parts.now) }
{
    let mut copied = Items::new(alloc);
    for part in parts {
        copied.push(copy_of_expr(alloc, part)?)?;
    }
    Ok(copied)
}

#[cycle(copies)]
pub fn copy_of_case(alloc: Global, case: &Case) -> Result<Case, Memory>
    ensures { IfOk result (λ copied. copied ≡ case.now) }
{
    let first = both(
        copy_of_subject(alloc, case),
        copy_of_when(alloc, &case.first),
    );
    let more = copies_of_whens(alloc, case.more.as_slice());
    let more = both(more, copy_of_otherwise(alloc, case));
    let ((subject, first), (more, otherwise)) = both(first, more)?;
    Ok(Case {
        place: case.place,
        subject,
        first,
        more,
        otherwise,
    })
}

#[cycle(copies)]
fn copy_of_subject(alloc: Global, case: &Case) -> Result<Option<Boxed<Expr>>, Memory>
    ensures { IfOk result (λ copied. copied ≡ (out-Case case.now).subject) }
{
    match &case.subject {
        None => Ok(None),
        Some(inner) => Ok(Some(boxed(alloc, copy_of_expr(alloc, inner.get()))?)),
    }
}

#[cycle(copies)]
fn copy_of_otherwise(alloc: Global, case: &Case) -> Result<Option<Boxed<Expr>>, Memory>
    ensures { IfOk result (λ copied. copied ≡ (out-Case case.now).otherwise) }
{
    match &case.otherwise {
        None => Ok(None),
        Some(inner) => Ok(Some(boxed(alloc, copy_of_expr(alloc, inner.get()))?)),
    }
}

#[cycle(copies)]
fn copies_of_whens(alloc: Global, parts: &[When]) -> Result<Items<When>, Memory>
    ensures { IfOk result (λ copied. copied ≡ parts.now) }
{
    let mut copied = Items::new(alloc);
    for part in parts {
        copied.push(copy_of_when(alloc, part)?)?;
    }
    Ok(copied)
}

#[cycle(copies)]
pub fn copy_of_when(alloc: Global, when: &When) -> Result<When, Memory>
    ensures { IfOk result (λ copied. copied ≡ when.now) }
{
    let condition = boxed(alloc, copy_of_expr(alloc, when.when.get()));
    let then = boxed(alloc, copy_of_expr(alloc, when.then.get()));
    let (condition, then) = both(condition, then)?;
    Ok(When {
        place: when.place,
        when: condition,
        then,
    })
}
