//! Laws on what a replay leaves, as the contracts of functions with empty bodies.
ghost use Rattle.std.specs.Prelude.{◌≡◌, ℕ, List, All, length};
ghost use Rattle.gf_rows.specs.declared.operation.Op.{Op};
ghost use Rattle.gf_rows.specs.Matrix.{Grid};
ghost use Rattle.gf_rows.specs.Operation.{FitsRows};
ghost use Rattle.gf_rows.specs.Plan.{plan_on_rows};
ghost use Rattle.bats_stripes.specs.Columns.{IsReplayed};

/// Two replays of one plan on the same rows leave the same, whatever the numbers of workers, the stripes and the gates.
pub fn one_replay()
    ensures { (plan : List Op) (before one other : Grid) → IsReplayed plan before one → IsReplayed plan before other → one ≡ other }
{}

/// A replay leaves the rows that the plan makes of whole rows.
pub fn whole_rows_are_replayed()
    ensures { (plan : List Op) (before after : Grid) → All (λ row. length row ≡ before.cols) before.rows
        → All (FitsRows (length before.rows)) plan → IsReplayed plan before after
        → after ≡ record { cols = before.cols; rows = plan_on_rows plan before.rows } }
{}
