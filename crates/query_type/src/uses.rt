//! The uses of streams in a plan: the time of their records, as their mentions say.

ghost use Rattle.std.specs.Prelude.{◌≡◌, IfOk};
ghost use Rattle.query_type.specs.Plans as spec;

use event_value::{Copies, Memory, Seq};
use query_plan::StreamUse;
use query_sources::{Mention, Stamping};
use std::alloc::Global;

fn use_of_stamping(stream: u16, stamping: &Stamping, alloc: Global) -> Result<StreamUse, Memory>
    ensures { IfOk result (λ made. made ≡ spec.use_of_stamping stream stamping.now) }
{
    match stamping {
        Stamping::By(expr, columns) => Ok(StreamUse {
            stream,
            stamp: Some(expr.copy(alloc)?),
            over: columns.copy()?,
        }),
        Stamping::Arrival => Ok(unstamped(alloc, stream)),
        Stamping::Refused => Ok(unstamped(alloc, stream)),
    }
}

fn unstamped(alloc: Global, stream: u16) -> StreamUse
    ensures { result ≡ spec.unstamped stream }
{
    StreamUse {
        stream,
        stamp: None,
        over: Seq::empty(alloc),
    }
}

// The use of a stream, as its first mention says.
fn use_of(alloc: Global, mentions: &[Mention], stream: u16) -> Result<StreamUse, Memory>
    ensures { IfOk result (λ made. made ≡ spec.use_of mentions.now stream) }
{
    for mention in mentions {
        if mention.stream == stream {
            return use_of_stamping(stream, &mention.stamping, alloc);
        }
    }
    Ok(unstamped(alloc, stream))
}

/// The uses of these streams.
pub fn uses_of(alloc: Global, mentions: &[Mention], used: &[u16]) -> Result<Seq<StreamUse>, Memory>
    ensures { IfOk result (λ uses. uses ≡ spec.uses_of mentions.now used.now) }
{
    let mut uses = Seq::empty(alloc);
    for stream in used {
        uses.push(use_of(alloc, mentions, *stream)?)?;
    }
    Ok(uses)
}
