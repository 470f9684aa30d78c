// The second pass of the search: the candidates that the first pass listed are costed, in order. Where a candidate's plan is to stand the first
// pass left three positions in the memo: in pleft that of its left set, in pright that of its right set, in plead that of their union.
#![tactic(auto)]

ghost use Rattle.std.specs.Prelude.{◌≡◌, ◌-◌, ◌<◌};
ghost use Rattle.cost.specs.View.{estimate_of};
ghost use Rattle.candidate.specs.Lent.{given_of, lists_of, SameLists};
ghost use Rattle.costing.specs.Steps.{costs, place_for, candidate_in, step_in, steps_in};

use candidate::{Candidate, Place};
use cost::Estimate;
use nodeset::PlanId;
use store::{Input, Lists};

// The entry at position u for plan n with the estimate e, where the memo has m entries: it is to name the new plan if the entry is new or the
// plan strictly cheaper, else the old one.
#[tactic(auto, unfolding(crate::specs::Steps::place_for))]
fn find_place(l: &Lists<'_>, m: u32, n: u32, u: u32, e: Estimate) -> Place
    requires { m < 4294967295 }
    ensures { result ≡ place_for (lists_of l.now) m n u (estimate_of e) }
{
    if u == m {
        return Place {
            position: u,
            best: PlanId(n),
            entries: m + 1,
        };
    }
    let old = PlanId(places::at(l.mplan, u, 0));
    let best = if cost::cheaper(e, store::estimate_at(l.prows, l.pcost, old)) {
        PlanId(n)
    } else {
        old
    };
    Place {
        position: u,
        best,
        entries: m,
    }
}

// The candidate that is to be plan n, with the plans that the memo, which has m entries, names for its two sets now: reads only. None where no
// edge connects the two sets; the first pass lists no such candidate.
#[tactic(auto, unfolding(crate::specs::Steps::candidate_over))]
fn decide(g: &Input<'_>, l: &Lists<'_>, m: u32, n: u32) -> Option<Candidate>
    requires { m < 4294967295 }
    ensures { result ≡ candidate_in (given_of g.now) (lists_of l.now) m n }
{
    let i = places::at(l.pleft, n, 0);
    let j = places::at(l.pright, n, 0);
    let a = places::at(l.mset, i, 0);
    let b = places::at(l.mset, j, 0);
    let left = PlanId(places::at(l.mplan, i, 0));
    let right = PlanId(places::at(l.mplan, j, 0));
    let x = store::estimate_at(l.prows, l.pcost, left);
    let y = store::estimate_at(l.prows, l.pcost, right);
    let product = cost::product(x, y);
    let c = cost::connect(&g.edges, g.kinds, g.selectivities, a, b, product)?;
    let e = cost::candidate_estimate(c.kind, x, y, c.rows);
    let place = find_place(l, m, n, places::at(l.plead, n, 0), e);
    Some(Candidate {
        set: a | b,
        left,
        right,
        lead: c.lead,
        kind: c.kind,
        estimate: e,
        place,
    })
}

// Costs the candidate that is to be plan n. How many entries the memo has then.
#[tactic(auto, using(crate::proofs::StepLaws::step_none, crate::proofs::StepLaws::step_some))]
fn cost_candidate(g: &Input<'_>, l: &mut Lists<'_>, m: u32, n: u32) -> u32
    requires { m < 4294967295 }
    ensures same { SameLists l.old l.new }
    ensures value { costs (lists_of l.new) result ≡ step_in (given_of g.now) n (costs (lists_of l.old) m) }
{
    let Some(c) = decide(g, l, m, n) else {
        return m;
    };
    let entries = c.place.entries;
    candidate::write(l, n, c);
    entries
}

// Costs the candidates that are to be the plans from number leaves on, below number plans. The memo begins with an entry for each leaf.
pub fn cost_candidates(g: &Input<'_>, l: &mut Lists<'_>, leaves: u32, plans: u32)
    ensures same { SameLists l.old l.new }
    ensures value { lists_of l.new ≡ (steps_in (given_of g.now) (plans - leaves) leaves (costs (lists_of l.old) leaves)).held }
{
    let mut m = leaves;
    for n in leaves..plans {
        m = cost_candidate(g, l, m, n);
    }
}
