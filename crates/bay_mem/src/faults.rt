// The calls in memory that are to fail, and the growths that were refused.
ghost use Rattle.std.specs.Prelude.{◌≡◌, ◌≤◌, OnOk, OnErr};
ghost use Rattle.bay_mem.specs.Failing.{unfailing, is_due, called_once, with_due, refused_once};

use crate::mem_world::raise;
use std::alloc::{AllocError, Global};
use std::marker::Model;

#[derive(Drop)]
pub struct Faults {
    calls: u64,
    due: Vec<u64>,
    refused: u64,
}

impl Model for Faults {
    ghost use Rattle.bay_mem.specs.Failing.{Failing};
    ghost use Rattle.std.specs.Coded.{codes};

    ghost Value = { Failing };

    ghost coded = { Prim.hlevel codes };

    ghost view = { λ f. record { calls = f.calls; due = f.due.items; refused = f.refused } };
}

impl Faults {
    pub fn new(alloc: Global) -> Faults
        ensures { result ≡ unfailing }
    {
        Faults {
            calls: 0,
            due: Vec::new(alloc),
            refused: 0,
        }
    }

    // The n-th call from now is to fail.
    pub fn set(&mut self, n: u64) -> Result<(), AllocError>
        ensures ok { OnOk result (self.new ≡ with_due self.old n) }
        ensures err { OnErr result (self.new ≡ self.old) }
    {
        self.due.push(self.calls.saturating_add(n))?;
        Ok(())
    }

    // Counts a call, and says whether it is to fail.
    pub fn strikes(&mut self) -> bool
        ensures due { result ≡ is_due self.old }
        ensures counted { self.new ≡ called_once self.old }
    {
        raise(&mut self.calls);
        self.due.contains(&self.calls)
    }

    // Counts a growth that was refused.
    pub fn counted<T>(&mut self, outcome: Result<T, AllocError>) -> Result<T, AllocError>
        ensures same { result ≡ outcome }
        ensures ok { OnOk result (self.new ≡ self.old) }
        ensures err { OnErr result (self.new ≡ refused_once self.old) }
        ensures later { self.old.refused ≤ self.new.refused }
    {
        if outcome.is_err() {
            raise(&mut self.refused);
        }
        outcome
    }

    pub fn refused(&self) -> u64
        ensures { result ≡ self.now.refused }
    {
        self.refused
    }
}
