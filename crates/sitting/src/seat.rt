// Seating a candidate: refusals 15 and 16.
ghost use Rattle.std.specs.Prelude.{◌≡◌, MatchResult};
ghost use Rattle.model.specs.Acts.{seat_candidate};
ghost use Rattle.model.specs.Sittings.{answer_to};
ghost use Rattle.sitting.specs.Seen.{seen, outcome_of};

use crate::{Outcome, Phase, Request};
use model::{Refusal, Seat};
use seats::{EMPTY_SEAT, Found};

impl Request {
    // The empty record that a candidate is seated in, by what is found for this candidate and for an empty record: refusals 15 and 16.
    fn record_for(
        self,
        candidate: u16,
        v: Option<Found>,
        empty: Option<Found>,
    ) -> Result<Found, Refusal>
        ensures { MatchResult result (λ r. (empty ≡ Some r) × (answer_to (seen self.sitting v empty) (seat_candidate self.caller candidate) ≡ Ok 0)) (λ x. answer_to (seen self.sitting v empty) (seat_candidate self.caller candidate) ≡ Err x) }
    {
        if self.caller != 0 {
            return Err(Refusal::NotPermitted);
        }
        let Phase::Open = self.phase() else {
            return Err(Refusal::NotPermitted);
        };
        if candidate == 0 || v.is_some() {
            return Err(Refusal::SeatUnavailable);
        }
        empty.ok_or(Refusal::SeatUnavailable)
    }

    // Seats a candidate, by what is found for this candidate and for an empty record.
    pub fn seating(self, candidate: u16, v: Option<Found>, empty: Option<Found>) -> Outcome
        ensures { result ≡ outcome_of self.sitting v empty (seat_candidate self.caller candidate) }
    {
        match self.record_for(candidate, v, empty) {
            Err(x) => crate::unchanged(x, self.sitting),
            Ok(record) => {
                let seat = Seat {
                    candidate,
                    ..EMPTY_SEAT
                };
                Outcome {
                    change: Some(Found { seat, ..record }),
                    reply: crate::reply_giving(Ok(0), 0, self.sitting),
                }
            }
        }
    }
}
