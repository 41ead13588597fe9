//! `Form`, what an expression makes of its parts.

ghost use Rattle.std.specs.Prelude.{◌≡◌};
ghost use Rattle.query_forms.specs.Forms as spec;

use event_value::Kind;
use query_plan::{Op, Rel};
use query_tree as tree;
use query_tree::{ProdSign, SumSign};

/// What an expression makes of its parts; a flag of a condition says whether NOT is written in it.
#[derive(Clone, Copy)]
pub enum Form {
    /// One of two conditions.
    Or,
    /// Both of two conditions.
    And,
    /// The opposite of a condition.
    Not,
    /// Two values in a relation.
    Compare(Rel),
    /// A value that is Null.
    IsNull(bool),
    /// A value within two others.
    Between(bool),
    /// A value among others.
    In(bool),
    /// A text that fits a pattern.
    Like(bool),
    /// A value as one of another kind.
    Cast(Kind),
    /// A choice; the flag says whether its first part is compared with those behind WHEN.
    Case(bool),
    /// An operation on values.
    Apply(Op),
    /// No parts fit it.
    Unfit,
    /// A call of a function that there isn't.
    Unknown,
}

/// The plan's relation.
pub fn rel_of(rel: tree::Rel) -> Rel
    ensures { result ≡ spec.rel_of rel }
{
    match rel {
        tree::Rel::Eq => Rel::Eq,
        tree::Rel::Ne => Rel::Ne,
        tree::Rel::Lt => Rel::Lt,
        tree::Rel::Le => Rel::Le,
        tree::Rel::Gt => Rel::Gt,
        tree::Rel::Ge => Rel::Ge,
    }
}

/// The form of a further part of a sum.
pub fn sum_form(sign: SumSign) -> Form
    ensures { result ≡ spec.sum_form sign }
{
    match sign {
        SumSign::Plus => Form::Apply(Op::Add),
        SumSign::Minus => Form::Apply(Op::Sub),
    }
}

/// The form of a further part of a product.
pub fn prod_form(sign: ProdSign) -> Form
    ensures { result ≡ spec.prod_form sign }
{
    match sign {
        ProdSign::Star => Form::Apply(Op::Mul),
        ProdSign::Slash => Form::Apply(Op::Div),
        ProdSign::Percent => Form::Apply(Op::Rem),
    }
}
