// The planners (document 01, 'The plans'; 02 §8): one search, over the counts that are allowed the planner, and one call, which answers every
// input. What the planners differ in stands in a trait, with the exact and the coarse one here and one over a list of counts in count_lists.
#![tactic(auto)]

ghost use Rattle.std.specs.Prelude.{◌≡◌, Ok, length, replicate};
ghost use Rattle.basics.specs.Lists.{written_over};
ghost use Rattle.model.specs.Plans.{least_plan, least_cost};
ghost use Rattle.model.specs.Planners.{Planner, exact, coarse, allowed_counts, work_bytes, planned_by, planned_cost};
ghost use Rattle.model.specs.Specs.{first_of, list_tests};
ghost use Rattle.model.specs.Calls.{plan_show, answer, plan_at_exit, work_at_exit};
ghost use Rattle.card.specs.Shows.{show_of};
ghost use Rattle.planners.specs.PlannerRequires.{RulesKept, PlannerReady, CountsRoom, CountsReady, either_short, short_for};

use card::Card;
use model::{Answer, Refusal};
use search::Allowed;

// What the planners differ in.
pub trait PlannerKind {
    // The planner that the kind stands for.
    ghost planner: { Self → Planner };

    // Refusal 18, where its list of counts and the ratio, if it has them, do not keep the rules.
    fn check_list(&self, card: &Card) -> Answer
        ensures { result ≡ first_of (list_tests (planner self.now) (show_of card.now)) (Ok 0) };

    // Its allowed counts for the card's rack. Returns how many they are.
    fn fill_counts(&self, card: &Card, counts: &mut [u64]) -> usize
        requires { CountsRoom (planner self.now) card.now counts.old }
        ensures value { result ≡ length (allowed_counts (planner self.now) (show_of card.now).modules) }
        ensures counts_after { counts.new ≡ written_over (allowed_counts (planner self.now) (show_of card.now).modules) counts.old };

    // The work bytes that it asks for.
    fn work_bytes(&self, card: &Card) -> usize
        requires { RulesKept (planner self.now) card.now }
        ensures { result ≡ work_bytes (planner self.now) (show_of card.now) };
}

// The exact planner, whose cost is the least.
#[derive(Clone, Copy)]
pub struct Exact;

impl PlannerKind for Exact {
    ghost planner = { λ _. exact };

    #[tactic(auto, unfolding(model::specs::Specs::first_of))]
    fn check_list(&self, _card: &Card) -> Answer {
        Ok(0)
    }

    fn fill_counts(&self, card: &Card, counts: &mut [u64]) -> usize {
        counts::fill_all(counts, card.header.modules)
    }

    fn work_bytes(&self, card: &Card) -> usize {
        ((card.header.modules + 1) * card.header.slots) as usize
    }
}

// The coarse planner, over 0, the powers of two up to m, and m.
#[derive(Clone, Copy)]
pub struct Coarse;

impl PlannerKind for Coarse {
    ghost planner = { λ _. coarse };

    fn check_list(&self, card: &Card) -> Answer {
        Exact.check_list(card)
    }

    fn fill_counts(&self, card: &Card, counts: &mut [u64]) -> usize {
        counts::fill_coarse(counts, card.header.modules)
    }

    fn work_bytes(&self, card: &Card) -> usize {
        (10 * card.header.slots) as usize
    }
}

// The least plan over a list of allowed counts, at the front of the plan buffer, and its cost; the work bytes asked for are cleared.
pub fn plan_over(card: &Card, counts: &[u64], asked: usize, plan: &mut [u8], work: &mut [u8]) -> u64
    requires { CountsReady card.now counts.now asked plan.old work.old }
    ensures value { result ≡ least_cost (show_of card.now) counts.now }
    ensures plan_after { plan.new ≡ written_over (least_plan (show_of card.now) counts.now) plan.old }
    ensures work_after { work.new ≡ written_over (replicate asked 0) work.old }
{
    let slots = card.header.slots as usize;
    let allowed = Allowed { card, counts };
    search::search(&allowed, &mut plan[..slots], &mut work[..asked]);
    plans::plan_cost(card, &plan[..slots])
}

// A planner's plan, of least cost over the counts that are allowed it, at the front of the plan buffer, and its cost; the work bytes that the
// planner asks for are cleared. C lends the two areas apart, and one struct of two `&mut` would put two clauses more on each function. The counts
// stand in fixed memory, and are sliced where they are handed on.
pub fn plan_by<P: PlannerKind>(kind: &P, card: &Card, plan: &mut [u8], work: &mut [u8]) -> u64
    requires { PlannerReady (P.planner kind.now) card.now plan.old work.old }
    ensures value { result ≡ planned_cost (P.planner kind.now) (show_of card.now) }
    ensures plan_after { plan.new ≡ written_over (planned_by (P.planner kind.now) (show_of card.now)) plan.old }
    ensures work_after { work.new ≡ written_over (replicate (work_bytes (P.planner kind.now) (show_of card.now)) 0) work.old }
{
    let mut counts = [0u64; 201];
    let width = kind.fill_counts(card, &mut counts);
    let asked = kind.work_bytes(card);
    plan_over(card, &counts[..width], asked, plan, work)
}

// Whether one of two buffers of these lengths is too short for a byte for each slot and the work bytes asked for.
pub fn either_short(card: &Card, asked: usize, plan: usize, work: usize) -> bool
    ensures { result ≡ either_short asked (show_of card.now) plan work }
{
    plan < card.header.slots as usize || work < asked
}

// Whether one of two buffers of these lengths is too short for a planner.
pub fn short_for<P: PlannerKind>(kind: &P, card: &Card, plan: usize, work: usize) -> bool
    requires { RulesKept (P.planner kind.now) card.now }
    ensures { result ≡ short_for (P.planner kind.now) (show_of card.now) plan work }
{
    either_short(card, kind.work_bytes(card), plan, work)
}

// A planner on an accepted card: refusals 18 and 10, in this order.
pub fn plan_show_on<P: PlannerKind>(
    kind: &P,
    card: &Card,
    plan: &mut [u8],
    work: &mut [u8],
) -> Answer
    ensures value { result ≡ answer (plan_show (P.planner kind.now) card.now.bytes.now plan.old work.old) }
    ensures plan_after { plan.new ≡ plan_at_exit (plan_show (P.planner kind.now) card.now.bytes.now plan.old work.old) }
    ensures work_after { work.new ≡ work_at_exit (plan_show (P.planner kind.now) card.now.bytes.now plan.old work.old) }
{
    kind.check_list(card)?;
    if short_for(kind, card, plan.len(), work.len()) {
        return Err(Refusal::BufferTooShort);
    }
    Ok(plan_by(kind, card, plan, work))
}

// A planner: refusals 1 to 8, and then those on an accepted card.
pub fn plan_show<P: PlannerKind>(kind: &P, card: &[u8], plan: &mut [u8], work: &mut [u8]) -> Answer
    ensures value { result ≡ answer (plan_show (P.planner kind.now) card.now plan.old work.old) }
    ensures plan_after { plan.new ≡ plan_at_exit (plan_show (P.planner kind.now) card.now plan.old work.old) }
    ensures work_after { work.new ≡ work_at_exit (plan_show (P.planner kind.now) card.now plan.old work.old) }
{
    let card = card::check(card)?;
    plan_show_on(kind, &card, plan, work)
}
