// The search over a list of allowed counts (thesis 4.2, 5.1), by thresholds: a round forward and backward through the slots for each binary
// digit of the places. A place is an index of the list, and level j lies between place j and place j + 1.
#![tactic(auto)]

ghost use Rattle.std.specs.Prelude.{◌≡◌, length, replicate};
ghost use Rattle.card.specs.Shows.{show_of};
ghost use Rattle.counts.specs.AllowedCounts.{powers_up_to};
ghost use Rattle.thresholds.specs.Places.{last_place};
ghost use Rattle.thresholds.specs.Thresholds.{weighed, level_price, carried, judge as judged, raised_place};
ghost use Rattle.thresholds.specs.Thresholds.{forward as sides_found, backward as places_raised, rounds as places_found, threshold_plan};
ghost use Rattle.search.specs.Written.{verdict_of, counts_at};
ghost use Rattle.search.specs.SearchRequires.{Weighable, LevelReady, Raisable, RoundReady, BackReady, RoundsReady, Placed, Searchable};

mod allowed;

pub use allowed::Allowed;

// What a slot says of a level: how much dearer the slots up to it make the place above the level than the place below it; and the side of the
// level on which the least plan is in the slot, 2 above, 0 below, 1 where it is in the next slot. The side is a number, as in the definition
// `forward`: it lies in the lent work area beside the plan and is added as votes.
#[derive(Clone, Copy)]
struct Verdict {
    lead: u64,
    side: u8,
}

// The verdict where the place above a level costs upper and the place below it lower, and rising over the level costs price.
#[tactic(auto, unfolding(thresholds::specs::Thresholds::is_less))]
fn weigh(price: u64, upper: u64, lower: u64) -> Verdict
    requires { Weighable price lower }
    ensures { verdict_of result ≡ weighed price upper lower }
{
    let side = u8::from(upper < lower) + u8::from(upper < lower + price);
    let lead = price.min(upper.saturating_sub(lower));
    Verdict { lead, side }
}

// The price of rising over a level, 0 beyond the list.
fn level_price(allowed: &Allowed, level: usize) -> u64
    ensures { result ≡ level_price (show_of allowed.now.card.now) allowed.now.counts.now level }
{
    let Allowed { card, counts } = *allowed;
    if counts.len() - 1 <= level {
        return 0;
    }
    (card.header.power_up + card.header.power_down) * (counts[level + 1] - counts[level])
}

// The verdict of a slot with load l on a level with its price, by the lead before it. No plan is above a level beyond the list, and every plan is above one
// whose place below cannot serve.
#[tactic(auto, using(crate::proofs::LevelPrices::low_top, crate::proofs::LevelPrices::cannot_serve, thresholds::specs::ThresholdLaws::judge_forced))]
fn judge(allowed: &Allowed, level: usize, price: u64, l: u64, lead: u64) -> Verdict
    requires { LevelReady allowed.now level price lead }
    ensures { verdict_of result ≡ judged (show_of allowed.now.card.now) allowed.now.counts.now level l lead }
{
    let Allowed { card, counts } = *allowed;
    if counts.len() - 1 <= level {
        return Verdict { lead: 0, side: 0 };
    }
    let low = counts[level];
    let high = counts[level + 1];
    if low * card.header.top_step < l {
        return Verdict { lead: 0, side: 2 };
    }
    let upper = lead + counts::operating_cost(card, high, l);
    let lower = counts::operating_cost(card, low, l);
    weigh(price, upper, lower)
}

// The lead of a level, where the place so far is before in the slot before and place in this one. If they are equal, the slot before has the
// same level, and its lead; if not, it is above the level, or below it.
#[tactic(auto, unfolding(thresholds::specs::Thresholds::carried))]
fn carry(price: u64, before: usize, place: usize, lead: u64) -> u64
    ensures { result ≡ carried price before place lead }
{
    if place == before {
        return lead;
    }
    if place < before { 0 } else { price }
}

// Forward through the slots: each slot's side of the level in the middle of the places that are left to it. Before the first slot the place is 0.
fn forward(allowed: &Allowed, width: usize, plan: &[u8], sides: &mut [u8])
    requires { RoundReady allowed.now width plan.now sides.old }
    ensures { sides.new ≡ sides_found (show_of allowed.now.card.now) allowed.now.counts.now 0 width plan.now }
{
    let reach = width - 1;
    let mut before = 0;
    let mut lead = level_price(allowed, reach);
    for (t, &place) in plan.iter().enumerate() {
        let place = usize::from(place);
        let level = place + reach;
        let price = level_price(allowed, level);
        let carried = carry(price, before, place, lead);
        let verdict = judge(allowed, level, price, allowed.card.load(t as u64), carried);
        sides[t] = verdict.side;
        lead = verdict.lead;
        before = place;
    }
}

// The place after a round, by the side found and the next slot's place after the round.
#[tactic(auto, unfolding(thresholds::specs::Thresholds::is_less, thresholds::specs::Thresholds::raised_place))]
fn raise(width: usize, place: usize, side: u8, next: usize) -> usize
    requires { Raisable width place side }
    ensures { result ≡ raised_place width place side next }
{
    let level = place + width - 1;
    let votes = side + u8::from(level < next);
    if votes < 2 { place } else { place + width }
}

// Backward through the slots: each slot's place after the round. After the last slot the place is 0.
fn backward(width: usize, plan: &mut [u8], sides: &[u8])
    requires { BackReady width plan.old sides.now }
    ensures { plan.new ≡ places_raised (length plan.old) width plan.old sides.now }
{
    let mut next = 0;
    for t in (0..plan.len()).rev() {
        next = raise(width, usize::from(plan[t]), sides[t], next);
        plan[t] = next as u8;
    }
}

// The rounds, one for each digit from the highest down.
fn rounds(allowed: &Allowed, digits: usize, plan: &mut [u8], sides: &mut [u8])
    requires { RoundsReady allowed.now digits plan.old sides.old }
    ensures { plan.new ≡ places_found (show_of allowed.now.card.now) allowed.now.counts.now 0 digits plan.old }
{
    for e in (0..digits).rev() {
        let width = counts::power(e) as usize;
        forward(allowed, width, plan, sides);
        backward(width, plan, sides);
    }
}

// Each place of the plan becomes its count.
fn to_counts(counts: &[u64], plan: &mut [u8])
    requires { Placed counts.now plan.old }
    ensures { plan.new ≡ counts_at counts.now plan.old }
{
    for place in plan.iter_mut() {
        *place = counts[usize::from(*place)] as u8;
    }
}

// The least plan over a list of allowed counts. The work bytes are 0 afterwards.
pub fn search(allowed: &Allowed, plan: &mut [u8], work: &mut [u8])
    requires { Searchable allowed.now plan.old work.old }
    ensures plan { plan.new ≡
        threshold_plan (show_of allowed.now.card.now) allowed.now.counts.now 0 (powers_up_to (last_place allowed.now.counts.now)) }
    ensures work { work.new ≡ replicate (length work.old) 0 }
{
    let slots = plan.len();
    let last = allowed.counts.len() - 1;
    let digits = counts::powers_up_to(last as u64);
    buffers::fill(plan, 0);
    rounds(allowed, digits, plan, &mut work[..slots]);
    to_counts(allowed.counts, plan);
    buffers::fill(work, 0);
}
