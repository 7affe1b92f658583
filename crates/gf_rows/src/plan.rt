ghost use Rattle.std.specs.Prelude.{◌≡◌, ◌<◌, ◌++◌, ◌∷◌, [], ◌↔◌, All, IsTrue, OnOk, OnErr, length, slice_get};
ghost use Rattle.gf_rows.specs.Operation.{IsRowOperation, HasByteFactor, FitsRows};
ghost use Rattle.gf_rows.specs.Plan.{IsPlan};

use crate::operation::Op;
use std::alloc::{AllocError, Global};
use std::marker::Model;

/// A list of operations on rows. In each sum the two rows differ, and in each scaling the factor isn't 0.
#[derive(Debug, Drop)]
pub struct Plan {
    operations: Vec<Op>,
}

impl Model for Plan {
    ghost use Rattle.std.specs.Prelude.{List};
    ghost use Rattle.gf_rows.specs.declared.operation.Op.{Op};
    ghost use Rattle.gf_rows.specs.Plan.{IsPlan};

    ghost Value = { List Op };

    ghost view = { λ plan. plan.operations.items };

    ghost invariant = { λ plan. IsPlan plan.operations.items };
}

impl Plan {
    /// A plan with no operation.
    pub fn new(alloc: Global) -> Plan
        ensures { result ≡ [] }
    {
        Plan {
            operations: Vec::new(alloc),
        }
    }

    /// The number of operations.
    pub fn len(&self) -> usize
        ensures count { result ≡ length self.now }
        ensures plan { IsPlan self.now }
    {
        self.operations.len()
    }

    /// Whether there is no operation.
    pub fn is_empty(&self) -> bool
        ensures { IsTrue result ↔ (self.now ≡ []) }
    {
        self.operations.is_empty()
    }

    /// The operation at a place below the length.
    pub fn get(&self, i: usize) -> Op
        requires { i < length self.now }
        ensures value { slice_get self.now i ≡ Some result }
        ensures rule { IsRowOperation result }
    {
        self.operations[i]
    }

    /// Appends an operation that keeps its rule.
    pub fn push(&mut self, op: Op) -> Result<(), AllocError>
        requires { IsRowOperation op }
        ensures ok { OnOk result (self.new ≡ self.old ++ op ∷ []) }
        ensures err { OnErr result (self.new ≡ self.old) }
        ensures byte { HasByteFactor op }
    {
        self.operations.push(op)?;
        Ok(())
    }

    /// Whether every row number of the plan is below a number of rows.
    pub fn fits(&self, rows: u32) -> bool
        ensures { IsTrue result ↔ All (FitsRows rows) self.now }
    {
        self.operations.iter().all(|op| op.fits(rows))
    }
}
