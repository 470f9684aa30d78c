// The search's state: its counts (DPhyp), and what is read from and written to the lent lists.
#![tactic(auto)]

mod estimates;
mod lent;
mod memo;
mod sets;

ghost use Rattle.std.specs.Prelude.{◌≡◌, None};
ghost use Rattle.store.specs.Counts.{counts, visit_of, number_of};

pub use estimates::estimate_at;
pub use lent::{Input, Lists};
pub use memo::kept_plan;
pub use sets::find;

// Why the search stopped before its end: a plan was due and the plan store was full, a set was new and the memo was full, or the next
// visit would pass the limit; or by another number, with which no function here stops it and which a caller's counts may hold all the same.
#[derive(Clone, Copy, Debug, PartialEq, Eq)]
pub enum Stop {
    PlansFull,
    MemoFull,
    VisitsSpent,
    Other(u32),
}

impl Stop {
    // The answer's number for it.
    // kept: a method; `u32::from(stop)` would not say that the number is document 01's.
    pub fn number(self) -> u32
        ensures { result ≡ number_of self }
    {
        match self {
            Stop::PlansFull => 12,
            Stop::MemoFull => 13,
            Stop::VisitsSpent => 14,
            Stop::Other(n) => n,
        }
    }
}

// The search's counts: plans and memo entries written, and visits made; and what stopped it, if anything did.
#[derive(Clone, Copy)]
pub struct DPhyp {
    pub plans: u32,
    pub memo: u32,
    pub visits: u32,
    pub stop: Option<Stop>,
}

impl DPhyp {
    // The search before its first visit, with a plan and a memo entry for each of n leaves.
    pub fn new(n: u32) -> Self
        ensures { result ≡ counts n n 0 None }
    {
        Self {
            plans: n,
            memo: n,
            visits: 0,
            stop: None,
        }
    }

    // One visit more, or the stop at the limit.
    #[tactic(auto, unfolding(crate::specs::Counts::visit_of))]
    pub fn visit(self, limit: u32) -> Self
        ensures { result ≡ visit_of limit self }
    {
        if self.stop.is_some() {
            return self;
        }
        if self.visits < limit {
            return Self {
                visits: self.visits + 1,
                ..self
            };
        }
        Self {
            stop: Some(Stop::VisitsSpent),
            ..self
        }
    }
}
