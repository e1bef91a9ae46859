// A plan that is handed in: its cost by counts, and the tests of its counts against the rack and the loads.
#![tactic(auto)]

ghost use Rattle.std.specs.Prelude.{◌≡◌};
ghost use Rattle.card.specs.Shows.{show_of};
ghost use Rattle.model.specs.Plans.{plan_in_rack, plan_serves};
ghost use Rattle.model.specs.Thesis.{slot_cost, counts_cost};
ghost use Rattle.counts.specs.Serving.{Served};
ghost use Rattle.plans.specs.PlanRequires.{PlanSized, PlanReady};

use card::Card;

// The cost of a slot by counts, where prev modules were active before it: the operating cost, and the switching price for each
// module that goes on.
fn slot_cost(card: &Card, prev: u64, n: u64, l: u64) -> u64
    requires { Served card.now n l }
    ensures { result ≡ slot_cost (show_of card.now) prev n l }
{
    let operating = counts::operating_cost(card, n, l);
    let price = card.header.power_up + card.header.power_down;
    operating + price * n.saturating_sub(prev)
}

// The cost of a plan by its counts.
pub fn plan_cost(card: &Card, plan: &[u8]) -> u64
    requires { PlanReady card.now plan.now }
    ensures { result ≡ counts_cost (show_of card.now) 0 plan.now }
{
    let mut cost: u64 = 0;
    let mut prev: u64 = 0;
    for (t, &count) in plan.iter().enumerate() {
        let n = u64::from(count);
        cost += slot_cost(card, prev, n, card.load(t as u64));
        prev = n;
    }
    cost
}

// Each count of the plan is at most m.
pub fn plan_in_rack(card: &Card, plan: &[u8]) -> bool
    requires { PlanSized card.now plan.now }
    ensures { result ≡ plan_in_rack (show_of card.now) plan.now }
{
    plan.iter().all(|&n| u64::from(n) <= card.header.modules)
}

// Each count of the plan can serve its slot's load.
pub fn plan_serves(card: &Card, plan: &[u8]) -> bool
    requires { PlanSized card.now plan.now }
    ensures { result ≡ plan_serves (show_of card.now) plan.now }
{
    for (t, &n) in plan.iter().enumerate() {
        let most = u64::from(n) * card.header.top_step;
        if most < card.load(t as u64) {
            return false;
        }
    }
    true
}
