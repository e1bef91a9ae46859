// Counts of active modules: the planners' lists of allowed counts, the rounded count, and the operating cost of a count.
#![tactic(auto)]

ghost use Rattle.std.specs.Prelude.{◌≡◌, ◌^◌, ◌≤◌, length};
ghost use Rattle.basics.specs.Lists.{written_over};
ghost use Rattle.card.specs.Shows.{show_of};
ghost use Rattle.model.specs.Counts.{operating_cost, all_counts, coarse_counts, rounded_count, printed_cases, case_value};
ghost use Rattle.counts.specs.Serving.{Served};
ghost use Rattle.counts.specs.AllowedCounts.{AllRoom, CoarseRoom, RackCount, PowerListed, numbers_below, first_powers, powers_up_to};

use card::Card;

// The powers of two among the coarse counts of the largest rack.
const POWERS: [u16; 8] = [1, 2, 4, 8, 16, 32, 64, 128];

// Two to the power of k.
pub fn power(k: usize) -> u64
    requires { PowerListed k }
    ensures { result ≡ 2 ^ k }
{
    u64::from(POWERS[k])
}

// How many powers of two are at most n, which is the number of n's binary digits.
pub fn powers_up_to(n: u64) -> usize
    ensures { result ≡ powers_up_to n }
{
    (u64::BITS - n.leading_zeros()) as usize
}

// The part is filled with the first powers of two. This and `fill_places` differ in a function alone; one fill by a closure would need quantified
// clauses for a loop of three lines.
#[tactic(auto, using(basics::specs::Filling::upto_all), unfolding(crate::specs::AllowedCounts::first_powers))]
fn fill_powers(part: &mut [u64])
    requires { length part.old ≤ 8 }
    ensures { part.new ≡ first_powers (length part.old) }
{
    for (k, place) in part.iter_mut().enumerate() {
        *place = power(k);
    }
}

// The coarse planner's allowed counts for a rack of m: 0, each power of two up to m, and m. Returns how many they are.
#[tactic(auto, using(crate::proofs::CountsWritten::filled))]
pub fn fill_coarse(counts: &mut [u64], m: u64) -> usize
    requires { CoarseRoom counts.old m }
    ensures value { result ≡ length (coarse_counts m) }
    ensures counts_after { counts.new ≡ written_over (coarse_counts m) counts.old }
{
    let powers = powers_up_to(m);
    let end = powers + 1;
    counts[0] = 0;
    fill_powers(&mut counts[1..end]);
    if counts[powers] == m {
        return end;
    }
    counts[end] = m;
    end + 1
}

// Each number of the part is its place: 0, 1, 2, and so on.
#[tactic(auto, using(basics::specs::Filling::upto_all), unfolding(crate::specs::AllowedCounts::numbers_below))]
fn fill_places(part: &mut [u64])
    ensures { part.new ≡ numbers_below (length part.old) }
{
    for (k, place) in part.iter_mut().enumerate() {
        *place = k as u64;
    }
}

// The exact planner's allowed counts for a rack of m: all from 0 to m. Returns how many they are.
#[tactic(auto, using(crate::proofs::CountsWritten::all_written))]
pub fn fill_all(counts: &mut [u64], m: u64) -> usize
    requires { AllRoom counts.old m }
    ensures value { result ≡ length (all_counts m) }
    ensures counts_after { counts.new ≡ written_over (all_counts m) counts.old }
{
    let end = m as usize + 1;
    fill_places(&mut counts[..end]);
    end
}

// The value of the count's case in the course book's list (02 §6): the case's last count. A count above 200 is in no case and gets 0.
#[tactic(auto, unfolding(model::specs::Counts::case_value, model::specs::Counts::printed_cases))]
fn case_value(count: u64) -> u64
    ensures { result ≡ case_value printed_cases count }
{
    match count {
        0 => 0,
        1 => 1,
        2 => 2,
        3..=4 => 4,
        5..=8 => 8,
        9..=16 => 16,
        17..=32 => 32,
        33..=64 => 64,
        65..=128 => 128,
        129..=200 => 200,
        _ => 0,
    }
}

// Rounded count: the smallest coarse count of the rack that is not below the count. It is decided by the list, as the smaller of the case's
// value and the number of modules.
#[tactic(auto, using(laws::specs::RoundedCounts::rounded_by_cases_lem), unfolding(model::specs::Counts::rounded_by_cases))]
pub fn rounded(count: u64, modules: u64) -> u64
    requires { RackCount count modules }
    ensures { result ≡ rounded_count modules count }
{
    case_value(count).min(modules)
}

// The operating cost of a count (01: 'running cost'): (n - r)G(q) + rG(q + 1) with q = l / n and r = l % n. Below the lowest step both
// are F of that step, and from there on G is F; F(q + 1) is read only if r is not 0.
#[tactic(auto, using(crate::proofs::Shares::cost_steps))]
pub fn operating_cost(card: &Card, n: u64, l: u64) -> u64
    requires { Served card.now n l }
    ensures { result ≡ operating_cost (show_of card.now) n l }
{
    if n == 0 {
        return 0;
    }
    let step = l / n;
    let rest = l % n;
    let lowest = card.lowest_step;
    if step < lowest {
        return n * card.entry(lowest);
    }
    if rest == 0 {
        return n * card.entry(step);
    }
    let others = n - rest;
    let next = step + 1;
    let low = others * card.entry(step);
    low + rest * card.entry(next)
}
