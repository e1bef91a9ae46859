// Reading the least cost, a lowest cost and the submissions used: refusals 15 and 16.
ghost use Rattle.std.specs.Prelude.{◌≡◌, []};
ghost use Rattle.model.specs.Acts.{read_least, read_lowest, read_used, reads_lowest};
ghost use Rattle.model.specs.SittingState.{facts_of, state_of};
ghost use Rattle.model.specs.Sittings.{answer_to, reply_of};
ghost use Rattle.sitting.specs.Seen.{seen, reply_seen};

use crate::{Phase, Request};
use model::{Answer, Refusal, Reply};
use seats::Found;

impl Request {
    // The answer to reading the least cost, by what is found for the caller: refusals 15 and 16.
    fn answer_least(self, v: Option<Found>) -> Answer
        ensures { result ≡ answer_to (seen self.sitting v v) (read_least self.caller) }
    {
        match self.phase() {
            Phase::Unopened => Err(Refusal::NotPermitted),
            _ if self.caller == 0 => Ok(self.sitting.least),
            Phase::Open => Err(Refusal::NotPermitted),
            Phase::Closed if v.is_none() => Err(Refusal::SeatUnavailable),
            Phase::Closed => Ok(self.sitting.least),
        }
    }

    // Reads the least cost, by what is found for the caller.
    pub fn reading_least(self, v: Option<Found>) -> Reply
        ensures { result ≡ reply_seen self.sitting v v (read_least self.caller) }
    {
        crate::reply_giving(self.answer_least(v), 0, self.sitting)
    }

    // Whether the caller may read a candidate's lowest cost.
    fn may_read_lowest(self, candidate: u16) -> bool
        ensures { result ≡ reads_lowest (facts_of (state_of self.sitting [])) self.caller candidate }
    {
        match self.phase() {
            Phase::Unopened => false,
            _ => self.caller == 0 || self.caller == candidate,
        }
    }

    // Reads a candidate's lowest cost, by what is found for this candidate: refusals 15 and 16.
    pub fn reading_lowest(self, candidate: u16, v: Option<Found>) -> Reply
        ensures { result ≡ reply_seen self.sitting v v (read_lowest self.caller candidate) }
    {
        if !self.may_read_lowest(candidate) {
            return crate::reply_giving(Err(Refusal::NotPermitted), 0, self.sitting);
        }
        if candidate == 0 {
            return crate::reply_giving(Err(Refusal::SeatUnavailable), 0, self.sitting);
        }
        let Some(record) = v else {
            return crate::reply_giving(Err(Refusal::SeatUnavailable), 0, self.sitting);
        };
        let seat = record.seat;
        if seat.marked == 0 {
            return crate::reply_giving(Ok(0), 0, self.sitting);
        }
        crate::reply_giving(Ok(seat.lowest), 1, self.sitting)
    }

    // The answer to reading the submissions used: refusal 15.
    fn answer_used(self) -> Answer
        ensures { result ≡ answer_to (facts_of (state_of self.sitting [])) (read_used self.caller) }
    {
        if self.caller != 0 {
            return Err(Refusal::NotPermitted);
        }
        match self.phase() {
            Phase::Unopened => Err(Refusal::NotPermitted),
            _ => Ok(self.sitting.submissions),
        }
    }

    // Reads the submissions used.
    pub fn reading_used(self) -> Reply
        ensures { result ≡ reply_of self.sitting [] (read_used self.caller) }
    {
        crate::reply_giving(self.answer_used(), 0, self.sitting)
    }
}
