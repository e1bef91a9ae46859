// The rules for a list of allowed counts and its ratio (document 02, §8).
#![tactic(auto)]

ghost use Rattle.std.specs.Prelude.{◌-◌, ◌*◌, ◌≤◌, ◌≡◌, true, leb};
ghost use Rattle.model.specs.CountRules.{strictly_ascends, gaps_grow_by, ends_at, ratio_in_range, keeps_rules};
ghost use Rattle.count_rules.specs.RuleRequires.{Rising};

// Each entry is below the next one.
fn strictly_ascends(list: &[u16]) -> bool
    ensures { result ≡ strictly_ascends list.now }
{
    list.is_sorted_by(|low, high| low < high)
}

// Of three entries that rise the second gap is at most the ratio times the first one.
fn gap_grows(low: u16, middle: u16, high: u16, ratio: u64) -> bool
    requires { Rising low middle high ratio }
    ensures { result ≡ leb (high - middle) (ratio * (middle - low)) }
{
    let gap = u64::from(high - middle);
    let before = u64::from(middle - low);
    gap <= ratio * before
}

// Each gap is at most the ratio times the gap before it.
fn gaps_grow(list: &[u16], ratio: u64) -> bool
    requires list_value { strictly_ascends list.now ≡ true }
    requires ratio_bound { ratio ≤ 200 }
    ensures { result ≡ gaps_grow_by ratio list.now }
{
    for window in list.windows(3) {
        if !gap_grows(window[0], window[1], window[2], ratio) {
            return false;
        }
    }
    true
}

// The list has two to 201 entries, and is from 0 to the rack's modules.
#[tactic(auto, unfolding(model::specs::CountRules::ends_at))]
fn ends_at(list: &[u16], modules: u64) -> bool
    ensures { result ≡ ends_at list.now modules }
{
    let entries = list.len();
    (2..=201).contains(&entries) && list[0] == 0 && u64::from(list[entries - 1]) == modules
}

// The ratio is from 1 to 200.
#[tactic(auto, unfolding(model::specs::CountRules::ratio_in_range))]
fn ratio_in_range(ratio: u64) -> bool
    ensures { result ≡ ratio_in_range ratio }
{
    (1..=200).contains(&ratio)
}

// A list of allowed counts and its ratio keep the rules in a rack.
#[tactic(auto, using(crate::proofs::Rules::ends_two, crate::proofs::Rules::ratio_most), unfolding(model::specs::CountRules::keeps_rules))]
pub fn keeps_rules(list: &[u16], ratio: u64, modules: u64) -> bool
    ensures { result ≡ keeps_rules list.now ratio modules }
{
    ends_at(list, modules)
        && strictly_ascends(list)
        && ratio_in_range(ratio)
        && u64::from(list[1]) <= ratio
        && gaps_grow(list, ratio)
}
