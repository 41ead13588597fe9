//! `size_of_expr`, level by level down the tree of an expression.

ghost use Rattle.std.specs.Prelude.{◌≡◌, false};
ghost use Rattle.expression_size.specs.Sizes as spec;

use query_tree as tree;

/// The nodes that the plan of one expression may have.
pub const MAX_NODES: u32 = 65_536;

/// What stands behind a sum.
#[derive(Clone, Copy)]
pub struct RestSize {
    /// Whether the plan has the sum twice.
    pub doubles: bool,
    /// The nodes behind it.
    pub nodes: u32,
}

// Both counts together, or one past the limit.
#[tactic(auto, unfolding(crate::specs::Sizes::plus))]
fn plus(first: u32, second: u32) -> u32
    ensures { result ≡ spec.plus first second }
{
    let both = first as u64 + second as u64;
    if both <= MAX_NODES as u64 {
        both as u32
    } else {
        MAX_NODES + 1
    }
}

// The nodes of a NOT that is written.
fn negation(negated: bool) -> u32
    ensures { result ≡ spec.negation negated }
{
    if negated { 1 } else { 0 }
}

// What stands behind a sum that the plan has once.
fn behind(nodes: u32) -> RestSize
    ensures { result ≡ spec.behind false nodes }
{
    RestSize {
        doubles: false,
        nodes,
    }
}

/// The nodes that the plan of an expression has, but for casts that typing adds; one past the limit
/// where they are more. It takes no memory.
#[cycle(sizing)]
pub fn size_of_expr(expr: &tree::Expr) -> u32
    ensures { result ≡ spec.size expr.now }
{
    let mut nodes = size_of_and(&expr.first);
    for part in expr.more.as_slice() {
        nodes = plus(plus(nodes, size_of_and(part)), 1);
    }
    nodes
}

#[cycle(sizing)]
fn size_of_and(and: &tree::And) -> u32
    ensures { result ≡ spec.size_of_and and.now }
{
    let mut nodes = size_of_not(&and.first);
    for part in and.more.as_slice() {
        nodes = plus(plus(nodes, size_of_not(part)), 1);
    }
    nodes
}

#[cycle(sizing)]
fn size_of_not(not: &tree::Not) -> u32
    ensures { result ≡ spec.size_of_not not.now }
{
    match not {
        tree::Not::Negation(_, inner) => plus(size_of_not(inner.get()), 1),
        tree::Not::Pred(pred) => size_of_pred(pred),
    }
}

#[cycle(sizing)]
fn size_of_pred(pred: &tree::Pred) -> u32
    ensures { result ≡ spec.size_of_pred pred.now }
{
    let sum = size_of_sum(&pred.sum);
    match &pred.rest {
        None => sum,
        Some(rest) => {
            let rest = size_of_rest(rest);
            if rest.doubles {
                plus(plus(sum, sum), rest.nodes)
            } else {
                plus(sum, rest.nodes)
            }
        }
    }
}

#[cycle(sizing)]
fn size_of_rest(rest: &tree::PredRest) -> RestSize
    ensures { result ≡ spec.size_of_rest rest.now }
{
    match rest {
        tree::PredRest::Compare(_, _, right) => behind(plus(size_of_sum(right), 1)),
        tree::PredRest::Between(_, negated, low, high) => RestSize {
            doubles: true,
            nodes: plus(
                plus(size_of_sum(low), size_of_sum(high)),
                3 + negation(*negated),
            ),
        },
        tree::PredRest::In(_, negated, first, more) => {
            let mut nodes = size_of_expr(first.get());
            for item in more.as_slice() {
                nodes = plus(nodes, size_of_expr(item));
            }
            behind(plus(nodes, 1 + negation(*negated)))
        }
        tree::PredRest::Like(_, negated, pattern) => {
            behind(plus(size_of_sum(pattern), 1 + negation(*negated)))
        }
        tree::PredRest::IsNull(_, negated) => behind(1 + negation(*negated)),
    }
}

#[cycle(sizing)]
fn size_of_sum(sum: &tree::Sum) -> u32
    ensures { result ≡ spec.size_of_sum sum.now }
{
    let mut nodes = size_of_prod(&sum.first);
    for part in sum.more.as_slice() {
        nodes = plus(plus(nodes, size_of_prod(&part.prod)), 1);
    }
    nodes
}

#[cycle(sizing)]
fn size_of_prod(prod: &tree::Prod) -> u32
    ensures { result ≡ spec.size_of_prod prod.now }
{
    let mut nodes = size_of_unary(&prod.first);
    for part in prod.more.as_slice() {
        nodes = plus(plus(nodes, size_of_unary(&part.unary)), 1);
    }
    nodes
}

#[cycle(sizing)]
fn size_of_unary(unary: &tree::Unary) -> u32
    ensures { result ≡ spec.size_of_unary unary.now }
{
    match unary {
        tree::Unary::Minus(_, inner) => plus(size_of_unary(inner.get()), 1),
        tree::Unary::Primary(primary) => size_of_primary(primary),
    }
}

#[cycle(sizing)]
fn size_of_primary(primary: &tree::Primary) -> u32
    ensures { result ≡ spec.size_of_primary primary.now }
{
    match primary {
        tree::Primary::Number(_, _) => 1,
        tree::Primary::Text(_, _) => 1,
        tree::Primary::Null(_) => 1,
        tree::Primary::Column(_) => 1,
        tree::Primary::Call(call) => size_of_call(call),
        tree::Primary::Case(case) => size_of_case(case),
        tree::Primary::Nested(_, inner) => size_of_expr(inner.get()),
    }
}

#[cycle(sizing)]
fn size_of_call(call: &tree::Call) -> u32
    ensures { result ≡ spec.size_of_call call.now }
{
    match call {
        tree::Call::Cast(_, _, inner, _) => plus(size_of_expr(inner.get()), 1),
        tree::Call::Function(_, _, None) => plus(0, 1),
        tree::Call::Function(_, _, Some(args)) => plus(size_of_args(args), 1),
    }
}

#[cycle(sizing)]
fn size_of_args(args: &tree::Args) -> u32
    ensures { result ≡ spec.size_of_args args.now }
{
    match args {
        tree::Args::Star(_) => 0,
        tree::Args::Listed(_, _, first, more) => {
            let mut nodes = size_of_expr(first.get());
            for arg in more.as_slice() {
                nodes = plus(nodes, size_of_expr(arg));
            }
            nodes
        }
    }
}

#[cycle(sizing)]
fn size_of_case(case: &tree::Case) -> u32
    ensures { result ≡ spec.size_of_case case.now }
{
    let subject = size_of_subject(case);
    let mut nodes = plus(plus(size_of_otherwise(case), 1), subject);
    nodes = plus(nodes, size_of_when(&case.first));
    for when in case.more.as_slice() {
        nodes = plus(plus(nodes, subject), size_of_when(when));
    }
    nodes
}

#[cycle(sizing)]
fn size_of_subject(case: &tree::Case) -> u32
    ensures { result ≡ spec.size_of_subject case.now }
{
    match &case.subject {
        None => 0,
        Some(subject) => plus(size_of_expr(subject.get()), 1),
    }
}

#[cycle(sizing)]
fn size_of_otherwise(case: &tree::Case) -> u32
    ensures { result ≡ spec.size_of_otherwise case.now }
{
    match &case.otherwise {
        None => 0,
        Some(otherwise) => size_of_expr(otherwise.get()),
    }
}

#[cycle(sizing)]
fn size_of_when(when: &tree::When) -> u32
    ensures { result ≡ spec.size_of_when when.now }
{
    plus(size_of_expr(when.when.get()), size_of_expr(when.then.get()))
}
