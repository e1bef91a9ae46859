// A list of allowed counts for the rack of an accepted card.
#![tactic(auto)]

ghost use Rattle.model.specs.Instance.{instance_of};
ghost use Rattle.thresholds.specs.Places.{Ascending};

use card::Card;

// An accepted card and a list of counts that are allowed for its rack.
#[derive(Clone, Copy)]
pub struct Allowed<'a> {
    pub card: &'a Card<'a>,
    pub counts: &'a [u64],
    ghost ascending: { Ascending counts.now (instance_of card.now.bytes.now).modules },
}
