ghost use Rattle.std.specs.Prelude.{◌≡◌, ◌≤◌, ◌↔◌, IsErr, OnOk, OnErr};
ghost use Rattle.svc_io.specs.Calls.{NextFails, first_calls, made_one, failed_one, fault_more};
ghost use Rattle.svc_io.specs.Faults.{HasCause};

use crate::Failed;
use crate::traits::fault;
use std::marker::Model;

// The calls of an object in memory: which are to fail, and how many were made and have failed.
#[derive(Drop)]
pub struct Calls {
    failing: Vec<u64>,
    made: u64,
    faults: u64,
}

impl Model for Calls {
    ghost use Rattle.svc_io.specs.Calls.{CallsState};

    ghost Value = { CallsState };

    ghost view = { λ c. record { failing = c.failing.items; made = c.made; faults = c.faults } };
}

impl Calls {
    pub fn new(failing: Vec<u64>) -> Calls
        ensures { result ≡ first_calls failing.items }
    {
        Calls {
            failing,
            made: 0,
            faults: 0,
        }
    }

    // Counts a call, which fails where it is listed.
    pub fn make(&mut self) -> Result<(), Failed>
        ensures fails { IsErr result ↔ NextFails self.old }
        ensures ok { OnOk result (self.new ≡ made_one self.old) }
        ensures err { OnErr result (self.new ≡ failed_one self.old) }
        ensures cause { HasCause self.old.faults self.new.faults result }
    {
        self.made = self.made.saturating_add(1);
        if self.failing.contains(&self.made) {
            return Err(fault(&mut self.faults));
        }
        Ok(())
    }

    // Counts a fault of the call that was counted last.
    pub fn fail(&mut self) -> Failed
        ensures fault { self.new ≡ fault_more self.old }
        ensures later { self.old.faults ≤ self.new.faults }
    {
        fault(&mut self.faults)
    }
}
