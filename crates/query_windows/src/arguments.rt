//! What a window's arguments are written as.

ghost use Rattle.std.specs.Prelude.{◌≡◌, IfOk};
ghost use Rattle.query_windows.specs.Arguments as spec;

use event_value::{Memory, Seq};
use query_literals::{bare_primary, literal_in, unit_in, unit_of_path, whole_in, whole_of_number};
use query_tree::{Args, Call, Expr, Path, Primary};
use std::alloc::Global;
use tick_time::{Unit, is_name};

/// What a window's argument is written as.
#[derive(Clone, Copy)]
pub enum Argument {
    /// The word of a unit.
    Unit(Unit),
    /// A whole number.
    Count(i64),
    /// `Duration` of so many units.
    Duration(Unit, i64),
    /// `Hop` of so many units.
    Hop(Unit, i64),
    /// `Offset` of so many units, at this place.
    Offset(u32),
    /// Anything else.
    Other,
}

// `Duration` or `Hop` of a unit and a whole number, or `Offset` of a unit and a number.
#[tactic(auto, unfolding(crate::specs::Arguments::length_named))]
fn length_named(place: u32, word: &[u8], unit: Option<Unit>, number: &Expr) -> Argument
    ensures { result ≡ spec.length_named place word.now unit number.now }
{
    let Some(unit) = unit else {
        return Argument::Other;
    };
    if is_name(b"Offset", word) {
        if literal_in(number).is_some() {
            return Argument::Offset(place);
        }
        return Argument::Other;
    }
    let Some(whole) = whole_in(number) else {
        return Argument::Other;
    };
    if is_name(b"Duration", word) {
        Argument::Duration(unit, whole)
    } else if is_name(b"Hop", word) {
        Argument::Hop(unit, whole)
    } else {
        Argument::Other
    }
}

fn length_of_args(place: u32, word: &[u8], args: &Args) -> Argument
    ensures { result ≡ spec.length_of_args place word.now args.now }
{
    match args {
        Args::Star(_) => Argument::Other,
        Args::Listed(_, true, _, _) => Argument::Other,
        Args::Listed(_, false, first, more) => match more.as_slice() {
            [number] => length_named(place, word, unit_in(first.get()), number),
            _ => Argument::Other,
        },
    }
}

fn length_of_path(place: u32, path: &Path, args: &Args) -> Argument
    ensures { result ≡ spec.length_of_path place path.now args.now }
{
    match path.second {
        Some(_) => Argument::Other,
        None => length_of_args(place, path.first.text.items(), args),
    }
}

fn argument_of_call(call: &Call) -> Argument
    ensures { result ≡ spec.argument_of_call call.now }
{
    match call {
        Call::Cast(_, _, _, _) => Argument::Other,
        Call::Function(_, _, None) => Argument::Other,
        Call::Function(place, path, Some(args)) => length_of_path(*place, path, args),
    }
}

fn argument_of_primary(primary: &Primary) -> Argument
    ensures { result ≡ spec.argument_of_primary primary.now }
{
    match primary {
        Primary::Number(_, number) => match whole_of_number(*number) {
            None => Argument::Other,
            Some(whole) => Argument::Count(whole),
        },
        Primary::Column(path) => match unit_of_path(path) {
            None => Argument::Other,
            Some(unit) => Argument::Unit(unit),
        },
        Primary::Call(call) => argument_of_call(call),
        _ => Argument::Other,
    }
}

#[tactic(auto, unfolding(crate::specs::Arguments::argument_in))]
fn argument_in(expr: &Expr) -> Argument
    ensures { result ≡ spec.argument_in expr.now }
{
    match bare_primary(expr) {
        None => Argument::Other,
        Some(primary) => argument_of_primary(primary),
    }
}

/// What a window's arguments are written as; with `*` or DISTINCT they are no arguments of a window.
pub fn arguments_in(alloc: Global, args: &Option<Args>) -> Result<Option<Seq<Argument>>, Memory>
    ensures { IfOk result (λ found. found ≡ spec.arguments_in args.now) }
{
    let mut found = Seq::empty(alloc);
    match args {
        None => Ok(Some(found)),
        Some(Args::Star(_)) => Ok(None),
        Some(Args::Listed(_, true, _, _)) => Ok(None),
        Some(Args::Listed(_, false, first, more)) => {
            found.push(argument_in(first.get()))?;
            for arg in more.as_slice() {
                found.push(argument_in(arg))?;
            }
            Ok(Some(found))
        }
    }
}
