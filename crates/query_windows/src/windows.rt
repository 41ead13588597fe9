//! Windows: calls that stand as groups, with their lengths.

ghost use Rattle.std.specs.Prelude.{◌≡◌, IfOk};
ghost use Rattle.query_windows.specs.Windows as spec;

use crate::arguments::{Argument, arguments_in};
use crate::lengths::{
    Length, Lengths, SessionLengths, hopping_of, session_of, sliding_of, tumbling_of,
};
use event_value::Memory;
use query_forms::{Cause, Checked, refuse};
use query_tree::Args;
use std::alloc::Global;
use tick_time::{Span, is_name, span_of};

// How many hops a window may hold.
const MAX_HOPS: i64 = 1_000;

/// A window that can run.
#[derive(Clone, Copy)]
pub enum Window {
    /// Windows of a size, one at each hop.
    Grid(Span, Span),
    /// The rows of one moment.
    Snapshot,
    /// The last rows, within a size.
    Sliding(Span),
    /// Rows that follow each other within a timeout, up to a maximum.
    Session(Span, Span),
}

/// The name of a window.
#[derive(Clone, Copy)]
pub enum WindowName {
    Tumbling,
    Hopping,
    Sliding,
    Session,
    Snapshot,
}

/// The window that a name names.
#[tactic(auto, unfolding(crate::specs::Windows::window_named))]
pub fn window_named(word: &[u8]) -> Option<WindowName>
    ensures { result ≡ spec.window_named word.now }
{
    if is_name(b"TumblingWindow", word) {
        Some(WindowName::Tumbling)
    } else if is_name(b"HoppingWindow", word) {
        Some(WindowName::Hopping)
    } else if is_name(b"SlidingWindow", word) {
        Some(WindowName::Sliding)
    } else if is_name(b"SessionWindow", word) {
        Some(WindowName::Session)
    } else if is_name(b"SnapshotWindow", word) {
        Some(WindowName::Snapshot)
    } else {
        None
    }
}

// Whether a size and a hop are above 0, and the hop is at most the size and no too small part of it.
fn is_grid(size: i64, hop: i64) -> bool
    ensures { result ≡ spec.is_grid size hop }
{
    0 < size && 0 < hop && hop <= size && size as i128 <= MAX_HOPS as i128 * hop as i128
}

fn grid_of_spans(
    alloc: Global,
    place: u32,
    size: Span,
    hop: Span,
    offset: Option<u32>,
) -> Result<Checked<Window>, Memory>
    ensures { IfOk result (λ window. window ≡ spec.grid_of_spans place size hop offset) }
{
    if !is_grid(size.ticks(), hop.ticks()) {
        return refuse(alloc, place, Cause::Window);
    }
    match offset {
        Some(at) => refuse(alloc, at, Cause::Unsupported),
        None => Ok(Ok(Window::Grid(size, hop))),
    }
}

fn grid_of_lengths(
    alloc: Global,
    place: u32,
    size: Length,
    hop: Length,
    offset: Option<u32>,
) -> Result<Checked<Window>, Memory>
    ensures { IfOk result (λ window.
        window ≡ spec.grid_with place (spec.span_of_length size) (spec.span_of_length hop) offset) }
{
    match span_of(size.unit, size.count) {
        None => refuse(alloc, place, Cause::Window),
        Some(size) => match span_of(hop.unit, hop.count) {
            None => refuse(alloc, place, Cause::Window),
            Some(hop) => grid_of_spans(alloc, place, size, hop, offset),
        },
    }
}

fn grid_of(alloc: Global, place: u32, lengths: Option<Lengths>) -> Result<Checked<Window>, Memory>
    ensures { IfOk result (λ window. window ≡ spec.grid_of place lengths) }
{
    match lengths {
        None => refuse(alloc, place, Cause::Window),
        Some(lengths) => {
            grid_of_lengths(alloc, place, lengths.size, lengths.hop, lengths.offset)
        }
    }
}

fn snapshot_of(alloc: Global, place: u32, arguments: &[Argument]) -> Result<Checked<Window>, Memory>
    ensures { IfOk result (λ window. window ≡ spec.snapshot_of place arguments.now) }
{
    match arguments {
        [] => Ok(Ok(Window::Snapshot)),
        [_, ..] => refuse(alloc, place, Cause::Window),
    }
}

// A length above 0, within what a length may be.
fn span_above_zero(length: Length) -> Option<Span>
    ensures { result ≡ spec.above_zero (spec.span_of_length length) }
{
    match span_of(length.unit, length.count) {
        None => None,
        Some(span) => { if 0 < span.ticks() { Some(span) } else { None } }
    }
}

fn sliding_window(
    alloc: Global,
    place: u32,
    length: Option<Length>,
) -> Result<Checked<Window>, Memory>
    ensures { IfOk result (λ window. window ≡ spec.sliding_of_length place length) }
{
    match length {
        None => refuse(alloc, place, Cause::Window),
        Some(length) => match span_above_zero(length) {
            None => refuse(alloc, place, Cause::Window),
            Some(size) => Ok(Ok(Window::Sliding(size))),
        },
    }
}

fn session_window(
    alloc: Global,
    place: u32,
    lengths: Option<SessionLengths>,
) -> Result<Checked<Window>, Memory>
    ensures { IfOk result (λ window. window ≡ spec.session_of_lengths place lengths) }
{
    match lengths {
        None => refuse(alloc, place, Cause::Window),
        Some(lengths) => match span_above_zero(lengths.timeout) {
            None => refuse(alloc, place, Cause::Window),
            Some(timeout) => match span_above_zero(lengths.most) {
                None => refuse(alloc, place, Cause::Window),
                Some(most) => Ok(Ok(Window::Session(timeout, most))),
            },
        },
    }
}

fn window_with_arguments(
    alloc: Global,
    place: u32,
    name: WindowName,
    arguments: &[Argument],
) -> Result<Checked<Window>, Memory>
    ensures { IfOk result (λ window.
        window ≡ spec.window_with place name (Some arguments.now)) }
{
    match name {
        WindowName::Tumbling => grid_of(alloc, place, tumbling_of(arguments)),
        WindowName::Hopping => grid_of(alloc, place, hopping_of(arguments)),
        WindowName::Snapshot => snapshot_of(alloc, place, arguments),
        WindowName::Sliding => sliding_window(alloc, place, sliding_of(arguments)),
        WindowName::Session => session_window(alloc, place, session_of(arguments)),
    }
}

fn window_without_arguments(
    alloc: Global,
    place: u32,
    name: WindowName,
) -> Result<Checked<Window>, Memory>
    ensures { IfOk result (λ window. window ≡ spec.window_with place name None) }
{
    match name {
        WindowName::Tumbling => refuse(alloc, place, Cause::Window),
        WindowName::Hopping => refuse(alloc, place, Cause::Window),
        WindowName::Snapshot => refuse(alloc, place, Cause::Window),
        WindowName::Sliding => refuse(alloc, place, Cause::Window),
        WindowName::Session => refuse(alloc, place, Cause::Window),
    }
}

/// The window of a name with these arguments, or what is refused in it.
#[tactic(auto, unfolding(crate::specs::Windows::window_of))]
pub fn window_of(
    alloc: Global,
    place: u32,
    name: WindowName,
    args: &Option<Args>,
) -> Result<Checked<Window>, Memory>
    ensures { IfOk result (λ window. window ≡ spec.window_of place name args.now) }
{
    match arguments_in(alloc, args)? {
        Some(arguments) => window_with_arguments(alloc, place, name, arguments.items()),
        None => window_without_arguments(alloc, place, name),
    }
}
