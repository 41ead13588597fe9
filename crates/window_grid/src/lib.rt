//! Windows that end at moments of their own: grids of equal windows, tumbling and hopping, and
//! snapshots of the rows at each time.
//! `Grid` and `Snapshot` are operators on streams of rows. They keep the windows that are still to
//! come with running aggregates, and no rows.
//! What matters: their meaning in specs/Grid.antt and specs/Snapshot.antt, over specs/Windows.antt,
//! which filters the whole list of rows for each window; and the laws of src/laws.rt, which say of
//! each end and key whether there is a row and which it is.
//! What an aggregate is stands in row_groups, what an operator owes in stream_op.
#![tactic(auto)]

mod grid;
mod laws;
mod pane;
mod panes;
mod snapshot;
mod windowed;

pub use grid::{Grid, GridSpec};
pub use laws::{grid_is_its_windows, snapshot_is_its_times};
pub use pane::Pane;
pub use snapshot::{Snapshot, SnapshotSpec};
pub use windowed::{Windowed, Windows};
