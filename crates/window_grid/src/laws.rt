//! The laws of grids and snapshots.

ghost use Rattle.std.specs.Prelude.{◌≡◌, List, true};
ghost use Rattle.event_value.specs.declared.record.Stamped.{Stamped};
ghost use Rattle.window_grid.specs.Grid.{grid_fits};
ghost use Rattle.window_grid.specs.Laws.{AreGridRows, AreSnapshotRows};
ghost use Rattle.window_grid.specs.declared.grid.GridSpec.{GridSpec};
ghost use Rattle.window_grid.specs.declared.snapshot.SnapshotSpec.{SnapshotSpec};

/// For each multiple of the hop and each key a grid has a row exactly where the window that ends
/// there holds rows of that key; it has no other rows, and they rise by end and key.
pub fn grid_is_its_windows()
    ensures { (spec : GridSpec) (rows : List Stamped) → grid_fits spec ≡ true
        → AreGridRows spec rows }
{}

/// For each time and each key a snapshot has a row exactly where there are rows of both; it has no
/// other rows, and they rise by time and key.
pub fn snapshot_is_its_times()
    ensures { (spec : SnapshotSpec) (rows : List Stamped) → AreSnapshotRows spec rows }
{}
