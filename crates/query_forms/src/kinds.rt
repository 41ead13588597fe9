//! Kinds that fit each other.

ghost use Rattle.std.specs.Prelude.{◌≡◌};
ghost use Rattle.query_forms.specs.Kinds as spec;

use event_value::Kind;

/// Whether it is the kind of numbers, or none.
pub fn is_number(kind: Option<Kind>) -> bool
    ensures { result ≡ spec.is_number kind }
{
    matches!(kind, None | Some(Kind::Big | Kind::Fixed))
}

/// Whether it is this kind, or none.
pub fn is_of(wanted: Kind, kind: Option<Kind>) -> bool
    ensures { result ≡ spec.is_of wanted kind }
{
    match kind {
        None => true,
        Some(kind) => is_same_kind(wanted, kind),
    }
}

/// Whether two kinds are equal.
pub fn is_same_kind(left: Kind, right: Kind) -> bool
    ensures { result ≡ spec.is_same_kind left right }
{
    match left {
        Kind::Big => matches!(right, Kind::Big),
        Kind::Fixed => matches!(right, Kind::Fixed),
        Kind::Text => matches!(right, Kind::Text),
        Kind::Moment => matches!(right, Kind::Moment),
        Kind::Bit => matches!(right, Kind::Bit),
    }
}

fn is_mixed(left: Kind, right: Kind) -> bool
    ensures { result ≡ spec.is_mixed left right }
{
    match left {
        Kind::Big => matches!(right, Kind::Fixed),
        Kind::Fixed => matches!(right, Kind::Big),
        _ => false,
    }
}

fn is_bit_with_big(left: Kind, right: Kind) -> bool
    ensures { result ≡ spec.is_bit_with_big left right }
{
    match left {
        Kind::Big => matches!(right, Kind::Bit),
        Kind::Bit => matches!(right, Kind::Big),
        _ => false,
    }
}

/// Whether values of these kinds can be compared.
pub fn is_comparable(left: Option<Kind>, right: Option<Kind>) -> bool
    ensures { result ≡ spec.is_comparable left right }
{
    match left {
        None => true,
        Some(left) => match right {
            None => true,
            Some(right) => {
                is_same_kind(left, right) || is_mixed(left, right) || is_bit_with_big(left, right)
            }
        },
    }
}

/// One kind for values of both, if there is one.
pub fn mix(left: Option<Kind>, right: Option<Kind>) -> Option<Option<Kind>>
    ensures { result ≡ spec.mix left right }
{
    match left {
        None => Some(right),
        Some(left) => match right {
            None => Some(Some(left)),
            Some(right) => mix_kinds(left, right),
        },
    }
}

fn mix_kinds(left: Kind, right: Kind) -> Option<Option<Kind>>
    ensures { result ≡ spec.mix_kinds left right }
{
    if is_same_kind(left, right) {
        Some(Some(left))
    } else if is_mixed(left, right) {
        Some(Some(Kind::Fixed))
    } else {
        None
    }
}

fn is_castable_from(from: Kind, to: Kind) -> bool
    ensures { result ≡ spec.is_castable_from from to }
{
    match from {
        Kind::Text => true,
        Kind::Big => matches!(to, Kind::Fixed | Kind::Bit),
        Kind::Fixed => matches!(to, Kind::Big),
        Kind::Bit => matches!(to, Kind::Big),
        Kind::Moment => false,
    }
}

/// Whether there is a cast of values of a kind.
pub fn is_castable(from: Option<Kind>, to: Kind) -> bool
    ensures { result ≡ spec.is_castable from to }
{
    match from {
        None => true,
        Some(from) => {
            is_same_kind(from, to) || is_same_kind(to, Kind::Text) || is_castable_from(from, to)
        }
    }
}
