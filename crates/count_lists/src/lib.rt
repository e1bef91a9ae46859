// The planner over a list of allowed counts with a ratio (document 02, §8): what it differs in from the other planners.
#![tactic(auto)]

ghost use Rattle.std.specs.Prelude.{◌≡◌, length};
ghost use Rattle.model.specs.Planners.{listed};

use card::Card;
use model::{Answer, Refusal};
use planners::PlannerKind;

// The entries of a list as numbers of eight bytes.
fn widen(list: &[u16], counts: &mut [u64])
    requires { length counts.old ≡ length list.now }
    ensures { counts.new ≡ list.now }
{
    for (k, &entry) in list.iter().enumerate() {
        counts[k] = u64::from(entry);
    }
}

// A list of allowed counts, and its ratio.
#[derive(Clone, Copy)]
pub struct Listed<'a> {
    pub list: &'a [u16],
    pub ratio: u64,
}

impl PlannerKind for Listed<'_> {
    ghost planner = { λ l. listed l.list.now l.ratio };

    fn check_list(&self, card: &Card) -> Answer {
        if !count_rules::keeps_rules(self.list, self.ratio, card.header.modules) {
            return Err(Refusal::CountList);
        }
        Ok(0)
    }

    fn fill_counts(&self, _card: &Card, counts: &mut [u64]) -> usize {
        let entries = self.list.len();
        widen(self.list, &mut counts[..entries]);
        entries
    }

    fn work_bytes(&self, card: &Card) -> usize {
        self.list.len() * card.header.slots as usize
    }
}
