// Submitting a sheet: refusals 1 to 8, 15 to 17, and then as marking.
ghost use Rattle.std.specs.Prelude.{◌≡◌, MatchResult};
ghost use Rattle.model.specs.Acts.{submit_sheet};
ghost use Rattle.model.specs.SittingState.{marked_record};
ghost use Rattle.sitting.specs.Seen.{outcome_of, Admitted, Barred};

use crate::{Outcome, Phase, Request};
use card::Card;
use model::{Refusal, Seat, Sitting};
use seats::Found;

// A record once a sheet of its candidate is marked with a cost.
fn lowered(s: Seat, cost: u64) -> Seat
    ensures { result ≡ marked_record cost s }
{
    let lowest = match s.marked {
        0 => cost,
        _ => s.lowest.min(cost),
    };
    Seat {
        lowest,
        marked: 1,
        ..s
    }
}

impl Request {
    // The accepted card and the caller's record for a submission that counts, by what is found for the caller: refusals 1 to 8, 15, 16 and 17, by
    // which a submission does not count.
    fn admitted(self, v: Option<Found>, card: &[u8]) -> Result<(Card<'_>, Found), Refusal>
        ensures { MatchResult result (λ r. Admitted self.sitting v self.caller card.now r.0.bytes.now r.1) (λ x. Barred self.sitting v self.caller card.now x) }
    {
        let card = card::check(card)?;
        if self.caller == 0 {
            return Err(Refusal::NotPermitted);
        }
        let Phase::Open = self.phase() else {
            return Err(Refusal::NotPermitted);
        };
        let record = v.ok_or(Refusal::SeatUnavailable)?;
        if self.sitting.allowance <= self.sitting.submissions {
            return Err(Refusal::AllowanceSpent);
        }
        Ok((card, record))
    }

    // Marks a sheet of a candidate, by what is found for the caller.
    pub fn submitting(self, v: Option<Found>, card: &[u8], sheet: &[u8]) -> Outcome
        ensures { result ≡ outcome_of self.sitting v v (submit_sheet self.caller card.now sheet.now) }
    {
        let (card, record) = match self.admitted(v, card) {
            Err(x) => return crate::unchanged(x, self.sitting),
            Ok(given) => given,
        };
        let submissions = self.sitting.submissions + 1;
        let counted = Sitting {
            submissions,
            ..self.sitting
        };
        match calls::mark_sheet_on(&card, sheet) {
            Err(x) => crate::unchanged(x, counted),
            Ok(cost) => {
                let seat = lowered(record.seat, cost);
                Outcome {
                    change: Some(Found { seat, ..record }),
                    reply: crate::reply_giving(Ok(cost), 0, counted),
                }
            }
        }
    }
}
