//! `read_batch`, which reads the log of the streams that a plan uses and gives all its rows.

ghost use Rattle.std.specs.Prelude.{◌≡◌, ◌≤◌, IfOk, IfSome};
ghost use Rattle.input_book.specs.Laws.{IsWellFormed};
ghost use Rattle.query_meaning.specs.Ready.{ready_plan};
ghost use Rattle.log_reading.specs.Asking.{AsksUntil, IsCaused};
ghost use Rattle.log_reading.specs.Batch.{IsWholeBatch};
ghost use Rattle.log_reading.specs.Core.{FeedsCore, IsFreshCore};
ghost use Rattle.log_reading.specs.Log.{log_files, log_in};

use crate::NamedReadErr;
use crate::ended::ended_inputs;
use crate::lanes::feed_lanes;
use checkpoint_form::Batch;
use event_value::Seq;
use input_types::Inputs;
use job_core::Core;
use outside::Files;
use query_plan::Plan;
use std::alloc::Global;
use stream_joins::Versions;
use tick_time::Moment;

/// The batch of a plan over the whole log of its streams, each partition counted as ended, with the
/// snapshots of each reference that the plan names: a core is fed all that the files hold, and cut
/// once.
///
/// # Errors
/// `Fault` with the name of a file only where the files' count of faults has risen in this call;
/// `Memory`.
pub fn read_batch<F: Files>(
    alloc: Global,
    files: &mut F,
    plan: &Plan,
    inputs: &Inputs,
    versions: Seq<Versions>,
) -> Result<Batch, NamedReadErr>
    requires { IsWellFormed inputs.now }
    ensures batch { IfOk result (λ batch. IfSome (F.known files.old) (λ known.
        IsWholeBatch (ready_plan plan.now inputs.now versions) inputs.now.policy
        (log_in known inputs.now.streams plan.now.streams) batch)) }
    ensures asked { AsksUntil (log_files inputs.now.streams plan.now.streams) result
        (F.known files.old) (F.known files.new) }
    ensures never_falls { F.faults files.old ≤ F.faults files.new }
    ensures cause { IsCaused result (F.faults files.old) (F.faults files.new) }
{
    let ended = ended_inputs(alloc, inputs)?;
    let core = Core::fresh(alloc, plan, &ended, versions, Moment::zero())?;
    let fed = feed_core(alloc, files, &ended, core)?;
    let (rest, batch) = fed.cut(alloc, 1)?;
    Ok(batch)
}

// The core behind all segments of its lanes.
fn feed_core<F: Files>(
    alloc: Global,
    files: &mut F,
    inputs: &Inputs,
    core: Core,
) -> Result<Core, NamedReadErr>
    requires { IsFreshCore inputs.now core }
    ensures fed { IfOk result (λ new. FeedsCore (F.known files.old) inputs.now core new) }
    ensures asked { AsksUntil (log_files inputs.now.streams core.plan.streams) result
        (F.known files.old) (F.known files.new) }
    ensures never_falls { F.faults files.old ≤ F.faults files.new }
    ensures cause { IsCaused result (F.faults files.old) (F.faults files.new) }
{
    let (rest, lanes) = core.take_lanes();
    let fed = feed_lanes(alloc, files, inputs, lanes)?;
    Ok(rest.put_lanes(fed))
}
