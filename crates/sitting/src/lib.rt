// The rules of a sitting (document 02, §4), decided on plain numbers: what each act answers, which record of the list of seats it changes
// and how, and the sitting that it gives back. The list itself is lent to the crates around this one.
#![tactic(auto)]

ghost use Rattle.std.specs.Prelude.{◌≡◌};
ghost use Rattle.model.specs.SittingState.{phase_of};
ghost use Rattle.sitting.specs.Phases.{phase_meant};
ghost use Rattle.sitting.specs.Seen.{reply_giving, unchanged_of};

use model::{Answer, Refusal, Reply, Sitting};
use seats::Found;

mod close;
mod open;
mod read;
mod seat;
mod submit;

// An act that is asked for: the sitting, and who asks.
#[derive(Clone, Copy)]
pub struct Request {
    pub sitting: Sitting,
    pub caller: u16,
}

// What an act that may change the list of seats does: a record as it becomes, at its place, where one changes, and the reply.
#[derive(Clone, Copy)]
pub struct Outcome {
    pub change: Option<Found>,
    pub reply: Reply,
}

// What an opening does: how many records are emptied, which may be none, and the reply.
#[derive(Clone, Copy)]
pub struct OpenOutcome {
    pub emptied: usize,
    pub reply: Reply,
}

// What a sitting's field `state` stands for.
#[derive(Clone, Copy)]
enum Phase {
    Unopened,
    Open,
    Closed,
}

impl Request {
    // The phase of the sitting.
    fn phase(self) -> Phase
        ensures { phase_meant result ≡ phase_of self.sitting.state }
    {
        match self.sitting.state {
            1 => Phase::Open,
            2 => Phase::Closed,
            _ => Phase::Unopened,
        }
    }
}

// The reply with an answer.
fn reply_giving(answer: Answer, marked: u64, sitting: Sitting) -> Reply
    ensures { result ≡ reply_giving answer marked sitting }
{
    match answer {
        Ok(cost) => Reply {
            number: 0,
            cost,
            marked,
            sitting,
        },
        Err(x) => Reply {
            number: u64::from(x),
            cost: 0,
            marked: 0,
            sitting,
        },
    }
}

// A refused act: it changes no record, and gives back the sitting that is given here.
fn unchanged(x: Refusal, sitting: Sitting) -> Outcome
    ensures { result ≡ unchanged_of x sitting }
{
    Outcome {
        change: None,
        reply: reply_giving(Err(x), 0, sitting),
    }
}
