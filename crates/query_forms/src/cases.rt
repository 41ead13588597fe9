//! CASE: parts that stand behind WHEN and THEN in turn, and perhaps one behind ELSE.

ghost use Rattle.std.specs.Prelude.{◌≡◌, ◌++◌, ◌∷◌, [], IfOk};
ghost use Rattle.std.specs.Option.{option_copied};
ghost use Rattle.query_forms.specs.Senses as spec;

use crate::conditions::compared;
use crate::kinds::mix;
use crate::operations::{expr_of, kind_of};
use crate::sense::{Sense, Valued};
use event_value::{Kind, Memory};
use query_plan::{Branch, Cond, Expr, Rel};
use sqlite_items::{Boxed, Items};
use std::alloc::Global;

#[tactic(auto, unfolding(crate::specs::Senses::choice_kind))]
fn choice_kind(common: Option<Kind>, parts: &[Sense]) -> Option<Option<Kind>>
    ensures { result ≡ spec.choice_kind common parts.now }
{
    match parts {
        [] => Some(common),
        [first, rest @ ..] => match rest {
            [] => mix(common, kind_of(first)?),
            [then, more @ ..] => choice_kind(mix(common, kind_of(then)?)?, more),
        },
    }
}

#[tactic(auto, unfolding(crate::specs::Senses::test_of))]
fn test_of(alloc: Global, subject: Option<&Sense>, when: &Sense) -> Result<Option<Cond>, Memory>
    ensures { IfOk result (λ test. test ≡ spec.test_of (option_copied subject.entry) when.now) }
{
    match subject {
        Some(subject) => compared(alloc, Rel::Eq, subject, when),
        None => match when {
            Sense::Condition(condition) => Ok(Some(condition.copy(alloc)?)),
            Sense::Value(_) => Ok(None),
        },
    }
}

#[tactic(auto, unfolding(crate::specs::Senses::branch_of))]
fn branch_of(
    alloc: Global,
    subject: Option<&Sense>,
    common: Option<Kind>,
    when: &Sense,
    then: &Sense,
) -> Result<Option<Branch>, Memory>
    ensures { IfOk result (λ branch.
        branch ≡ spec.branch_of (option_copied subject.entry) common when.now then.now) }
{
    match test_of(alloc, subject, when)? {
        None => Ok(None),
        Some(cond) => match expr_of(alloc, common, then)? {
            None => Ok(None),
            Some(value) => Ok(Some(Branch { cond, value })),
        },
    }
}

fn with_branch(so_far: Items<Branch>, branch: Branch) -> Result<Items<Branch>, Memory>
    ensures { IfOk result (λ branches. branches ≡ so_far ++ branch ∷ []) }
{
    let mut branches = so_far;
    branches.push(branch)?;
    Ok(branches)
}

#[tactic(auto, unfolding(crate::specs::Senses::choice_from))]
fn choice_from(
    alloc: Global,
    subject: Option<&Sense>,
    common: Option<Kind>,
    so_far: Items<Branch>,
    parts: &[Sense],
) -> Result<Option<(Items<Branch>, Option<Boxed<Expr>>)>, Memory>
    ensures { IfOk result (λ choice.
        choice ≡ spec.choice_from (option_copied subject.entry) common so_far parts.now) }
{
    match parts {
        [] => Ok(Some((so_far, None))),
        [first, rest @ ..] => match rest {
            [] => match expr_of(alloc, common, first)? {
                None => Ok(None),
                Some(expr) => Ok(Some((so_far, Some(Boxed::new(alloc, expr)?)))),
            },
            [then, more @ ..] => match branch_of(alloc, subject, common, first, then)? {
                None => Ok(None),
                Some(branch) => {
                    let branches = with_branch(so_far, branch)?;
                    choice_from(alloc, subject, common, branches, more)
                }
            },
        },
    }
}

/// The choice of a CASE whose WHENs are conditions, or are compared with a subject.
#[tactic(auto, unfolding(crate::specs::Senses::choice))]
pub fn choice(
    alloc: Global,
    subject: Option<&Sense>,
    parts: &[Sense],
) -> Result<Option<Sense>, Memory>
    ensures { IfOk result (λ sense. sense ≡ spec.choice (option_copied subject.entry) parts.now) }
{
    let Some(kind) = choice_kind(None, parts) else {
        return Ok(None);
    };
    match choice_from(alloc, subject, kind, Items::new(alloc), parts)? {
        None => Ok(None),
        Some((branches, otherwise)) => Ok(Some(Sense::Value(Valued {
            expr: Expr::Choose(branches, otherwise),
            kind,
        }))),
    }
}

/// The same where the first part is the subject.
pub fn choice_by_subject(alloc: Global, parts: &[Sense]) -> Result<Option<Sense>, Memory>
    ensures { IfOk result (λ sense. sense ≡ spec.choice_by_subject parts.now) }
{
    match parts {
        [] => Ok(None),
        [subject, rest @ ..] => choice(alloc, Some(subject), rest),
    }
}
