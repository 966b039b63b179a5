ghost use Rattle.std.specs.Prelude.{◌≡◌, ◌↔◌, IsTrue};
ghost use Rattle.mdp_edge.specs.{Faults.{one_more}, Plan.{plan_of, IsCounted, FailsNext, after_call}};

use std::marker::Model;

/// Which calls are to fail, how many there were, and how many failed.
#[derive(Drop)]
pub struct FaultPlan {
    fails: Vec<u64>,
    calls: u64,
    faults: u64,
}

impl Model for FaultPlan {
    ghost use Rattle.std.specs.Prelude.{◌≤◌};
    ghost use Rattle.mdp_edge.specs.{Faults.{last_count}, Plan.{Plan}};

    ghost Value = { Plan };

    ghost view = { λ p. record { fails = p.fails.items; calls = p.calls; faults = p.faults } };

    ghost invariant = { λ p. (p.calls ≤ last_count) × (p.faults ≤ last_count) };
}

impl FaultPlan {
    pub fn new(fails: Vec<u64>) -> FaultPlan
        ensures { result ≡ plan_of fails.items }
    {
        FaultPlan {
            fails,
            calls: 0,
            faults: 0,
        }
    }

    /// Gives the next call its number, and says whether that call is to fail.
    pub fn next_fails(&mut self) -> bool
        ensures fails { IsTrue result ↔ FailsNext self.old }
        ensures counted { IsCounted self.old }
        ensures called { self.new ≡ after_call self.old }
    {
        let number = self.calls;
        self.calls = number.saturating_add(1);
        number < u64::MAX && self.fails.contains(&number)
    }

    pub fn count_fault(&mut self)
        ensures { self.new ≡ record self.old { faults = one_more self.old.faults } }
    {
        self.faults = self.faults.saturating_add(1);
    }
}
