//! The rows that a canvas released, which only proofs read.

ghost use Rattle.std.specs.Prelude.{◌≡◌, ℕ, ◌+◌, ◌-◌, [], length, nat_lt, slice_index_or};
ghost use Rattle.std.specs.Prelude.{if◌then◌else◌};
ghost use Rattle.sixel_canvas.specs.inside.ReleasedRows.{row_bytes};

use crate::final_rows::FinalRows;
use sixel_base::ghost_list::GhostList;
use std::marker::Model;
use std::snapshot::Snapshot;

/// A released row. Contracts see its bytes.
#[derive(Drop)]
pub struct ReleasedRow {
    rows: Snapshot<FinalRows>,
    row: usize,
}

impl Model for ReleasedRow {
    ghost use Rattle.std.specs.Prelude.{List, ℕ};

    ghost Value = { List ℕ };

    ghost use Rattle.sixel_canvas.specs.inside.ReleasedRows.{row_bytes};

    ghost view = { λ released. row_bytes released.rows.value released.row };
}

/// Appends `count` rows from the top of these, which are empty below the last.
pub fn append_rows(gone: &mut GhostList<ReleasedRow>, rows: &FinalRows, count: usize)
    ensures len { length gone.new ≡ length gone.old + count }
    ensures rows { (row : ℕ) → slice_index_or gone.new row []
        ≡ (if nat_lt row (length gone.old) then slice_index_or gone.old row []
        else if nat_lt row (length gone.old + count)
        then row_bytes rows.now (row - length gone.old) else []) }
{
    'rows: for row in 0..count {
        gone.push(ReleasedRow {
            rows: Snapshot::of(rows),
            row,
        });
    }
}
