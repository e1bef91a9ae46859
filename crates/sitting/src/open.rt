// Opening a sitting: refusals 1 to 8, 10, 15 and 17, and then as the exact planner.
ghost use Rattle.std.specs.Prelude.{◌≡◌, []};
ghost use Rattle.model.specs.Acts.{open_sitting, allowance_in_range};
ghost use Rattle.model.specs.Calls.{act_in, answer, plan_at_exit, work_at_exit};
ghost use Rattle.sitting.specs.Seen.{opening_of};

use crate::{OpenOutcome, Request};
use model::{Answer, Refusal, Sitting};
use planners::Exact;

// Whether an allowance is from 1 to 1,000.
fn allowance_in_range(allowance: u64) -> bool
    ensures { result ≡ allowance_in_range allowance }
{
    (1..=1000).contains(&allowance)
}

impl Request {
    // The answer to an opening: refusals 1 to 8, 10, 15 and 17, and then as the exact planner.
    fn answer_opening(self, allowance: u64, card: &[u8], plan: &mut [u8], work: &mut [u8]) -> Answer
        ensures value { result ≡ answer (act_in self.sitting [] (open_sitting self.caller allowance card.now plan.old work.old)) }
        ensures plan_after { plan.new ≡ plan_at_exit (act_in self.sitting [] (open_sitting self.caller allowance card.now plan.old work.old)) }
        ensures work_after { work.new ≡ work_at_exit (act_in self.sitting [] (open_sitting self.caller allowance card.now plan.old work.old)) }
    {
        let card = card::check(card)?;
        if planners::short_for(&Exact, &card, plan.len(), work.len()) {
            return Err(Refusal::BufferTooShort);
        }
        if self.caller != 0 {
            return Err(Refusal::NotPermitted);
        }
        if !allowance_in_range(allowance) {
            return Err(Refusal::AllowanceSpent);
        }
        Ok(planners::plan_by(&Exact, &card, plan, work))
    }

    // Opens a sitting: the plan and the work area are left as the exact planner leaves them, and the records to empty are the seats.
    pub fn opening(
        self,
        allowance: u64,
        card: &[u8],
        plan: &mut [u8],
        work: &mut [u8],
    ) -> OpenOutcome
        ensures value { result ≡ opening_of self.sitting (open_sitting self.caller allowance card.now plan.old work.old) }
        ensures plan_after { plan.new ≡ plan_at_exit (act_in self.sitting [] (open_sitting self.caller allowance card.now plan.old work.old)) }
        ensures work_after { work.new ≡ work_at_exit (act_in self.sitting [] (open_sitting self.caller allowance card.now plan.old work.old)) }
    {
        match self.answer_opening(allowance, card, plan, work) {
            Err(x) => OpenOutcome {
                emptied: 0,
                reply: crate::reply_giving(Err(x), 0, self.sitting),
            },
            Ok(cost) => {
                let opened = Sitting {
                    state: 1,
                    allowance,
                    submissions: 0,
                    least: cost,
                };
                OpenOutcome {
                    emptied: 32,
                    reply: crate::reply_giving(Ok(cost), 0, opened),
                }
            }
        }
    }
}
