// Closing a sitting: refusal 15.
ghost use Rattle.std.specs.Prelude.{◌≡◌, []};
ghost use Rattle.model.specs.Acts.{close_sitting};
ghost use Rattle.model.specs.SittingState.{facts_of, state_of};
ghost use Rattle.model.specs.Sittings.{answer_to, reply_of};

use crate::{Phase, Request};
use model::{Answer, Refusal, Reply, Sitting};

impl Request {
    // The answer to closing: refusal 15.
    fn answer_closing(self) -> Answer
        ensures { result ≡ answer_to (facts_of (state_of self.sitting [])) (close_sitting self.caller) }
    {
        if self.caller != 0 {
            return Err(Refusal::NotPermitted);
        }
        match self.phase() {
            Phase::Open => Ok(0),
            _ => Err(Refusal::NotPermitted),
        }
    }

    // Closes a sitting.
    pub fn closing(self) -> Reply
        ensures { result ≡ reply_of self.sitting [] (close_sitting self.caller) }
    {
        match self.answer_closing() {
            Err(x) => crate::reply_giving(Err(x), 0, self.sitting),
            Ok(cost) => crate::reply_giving(
                Ok(cost),
                0,
                Sitting {
                    state: 2,
                    ..self.sitting
                },
            ),
        }
    }
}
