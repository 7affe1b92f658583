//! A law on the reduced form, as the contract of a function with an empty body.
ghost use Rattle.std.specs.Prelude.{ℕ, ◌↔◌, List};
ghost use Rattle.gf_rows.specs.Equations.{Solves};
ghost use Rattle.bats_dense.specs.declared.dense.Dense.{Dense};
ghost use Rattle.bats_dense.specs.Reduced.{IsReduced};
ghost use Rattle.bats_dense.specs.Completed.{IsCompleted};

/// Values solve reduced equations exactly where the column is 0 at each zero row, and the value at each pivot column is
/// what its row makes of those at the free columns. So where the zero rows are 0, each choice of those has one solution.
pub fn completed_values_solve()
    ensures { (eqs others column : List ℕ) (dense : Dense) (values : ℕ → ℕ) → IsReduced eqs others dense
        → Solves dense.matrix column eqs values ↔ IsCompleted dense column values }
{}
