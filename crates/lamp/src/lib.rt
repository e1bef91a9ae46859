// The public calls: numbers and byte slices over the C boundary. Each answers every input, with the answer of the call below it.
#![tactic(auto)]

ghost use Rattle.std.specs.Prelude.{◌≡◌, []};
ghost use Rattle.model.specs.Planners.{exact, coarse, listed};
ghost use Rattle.model.specs.Calls.{NumbersOf, Gives, check_card, running_cost, plan_show, make_sheet, mark_sheet, round_count, practice_card, catalogue_table};
ghost use Rattle.model.specs.Calls.{plan_at_exit, work_at_exit, sheet_at_exit, card_at_exit, table_at_exit, act_in, explain_sheet};
ghost use Rattle.model.specs.ExplainedPoints.{explained_work, points_of};
ghost use Rattle.model.specs.Acts.{open_sitting, seat_candidate, close_sitting, submit_sheet, read_least, read_lowest, read_used};
ghost use Rattle.model.specs.Sittings.{reply_of, seats_at_exit};
ghost use Rattle.model.specs.Promises.{OwnSheet, AtMostTimes, MarkedAlike, AcceptsExactly, WritesAccepted, AlwaysEnough, HiddenTillClosed, WritesTable};
ghost use Rattle.model.specs.Promises.{LeastWithin, ExplainsMarked, NoneNegative, AboveLeast, ZeroExactly};

use count_lists::Listed;
use model::{Answer, Points, Reply, Seat, Sitting};
use planners::{Coarse, Exact};
use sitting::Request;

// What every call but the explanation and the acts of a sitting returns: a refusal's number and cost 0, or number 0 and the cost. C has no Result
// and no Option, so in this record and in those of model a number says which, with the values beside it.
#[repr(C)]
#[derive(Clone, Copy)]
pub struct LampAnswer {
    pub number: u64,
    pub cost: u64,
}

// The two numbers of an answer.
impl From<Answer> for LampAnswer {
    ghost from_gives = { λ a r. NumbersOf a r.number r.cost };

    fn from(a: Answer) -> LampAnswer {
        match a {
            Ok(cost) => LampAnswer { number: 0, cost },
            Err(x) => LampAnswer {
                number: u64::from(x),
                cost: 0,
            },
        }
    }
}

// Checks a card: refusals 1 to 8, else number 0 and cost 0.
#[unsafe(no_mangle)]
pub extern "C" fn lamp_check_card(card: &[u8]) -> LampAnswer
    ensures outcome { Gives (check_card card.now) result.number result.cost }
{
    LampAnswer::from(calls::check_card(card))
}

// The running cost of a count and a load: refusals 1 to 8, 12, 13.
#[unsafe(no_mangle)]
pub extern "C" fn lamp_running_cost(card: &[u8], count: u64, load: u64) -> LampAnswer
    ensures outcome { Gives (running_cost card.now count load) result.number result.cost }
{
    LampAnswer::from(calls::running_cost(card, count, load))
}

// The smallest allowed count not below the count, in the cost's place: refusals 3 and 12.
#[unsafe(no_mangle)]
pub extern "C" fn lamp_rounded_count(count: u64, modules: u64) -> LampAnswer
    ensures outcome { Gives (round_count count modules) result.number result.cost }
{
    LampAnswer::from(calls::rounded_count(count, modules))
}

// The sheet of a handed-in plan: refusals 1 to 8, 10 to 13.
#[unsafe(no_mangle)]
pub extern "C" fn lamp_sheet(card: &[u8], plan: &[u8], sheet: &mut [u8]) -> LampAnswer
    ensures outcome { Gives (make_sheet card.now plan.now sheet.old) result.number result.cost }
    ensures sheet_bytes { sheet.new ≡ sheet_at_exit (make_sheet card.now plan.now sheet.old) }
    ensures marked_alike { MarkedAlike card.now sheet.new result.number result.cost }
{
    LampAnswer::from(calls::make_sheet(card, plan, sheet))
}

// The cost of a handed-in sheet, module by module: refusals 1 to 8, 11 to 13.
#[unsafe(no_mangle)]
pub extern "C" fn lamp_mark(card: &[u8], sheet: &[u8]) -> LampAnswer
    ensures outcome { Gives (mark_sheet card.now sheet.now) result.number result.cost }
    ensures accepts { AcceptsExactly card.now sheet.now result.number }
{
    LampAnswer::from(calls::mark_sheet(card, sheet))
}

// Where the points of a handed-in sheet went (document 02, §7): refusals 1 to 8, 10 to 13.
#[unsafe(no_mangle)]
pub extern "C" fn lamp_explain(card: &[u8], sheet: &[u8], work: &mut [u8]) -> Points
    ensures outcome { result ≡ points_of card.now sheet.now work.old }
    ensures work_bytes { work.new ≡ explained_work (explain_sheet card.now sheet.now work.old) }
    ensures marked { ExplainsMarked card.now sheet.now work.old result.number }
    ensures none_negative { NoneNegative card.now sheet.now result }
    ensures above_least { AboveLeast card.now sheet.now result }
    ensures zero_exactly { ZeroExactly card.now sheet.now result }
{
    explanation::explain(card, sheet, work)
}

// The plan of least cost over all sheets: refusals 1 to 8, 10. An export has no type parameter, so each planner has its own.
#[unsafe(no_mangle)]
pub extern "C" fn lamp_plan_exact(card: &[u8], plan: &mut [u8], work: &mut [u8]) -> LampAnswer
    ensures outcome { Gives (plan_show exact card.now plan.old work.old) result.number result.cost }
    ensures plan_bytes { plan.new ≡ plan_at_exit (plan_show exact card.now plan.old work.old) }
    ensures work_bytes { work.new ≡ work_at_exit (plan_show exact card.now plan.old work.old) }
    ensures own_sheet { OwnSheet card.now plan.new result.number result.cost }
    ensures least { AtMostTimes 1 card.now result.number result.cost }
{
    LampAnswer::from(planners::plan_show(&Exact, card, plan, work))
}

// The least plan with counts 0, the powers of two up to m, and m: refusals 1 to 8, 10.
#[unsafe(no_mangle)]
pub extern "C" fn lamp_plan_coarse(card: &[u8], plan: &mut [u8], work: &mut [u8]) -> LampAnswer
    ensures outcome { Gives (plan_show coarse card.now plan.old work.old) result.number result.cost }
    ensures plan_bytes { plan.new ≡ plan_at_exit (plan_show coarse card.now plan.old work.old) }
    ensures work_bytes { work.new ≡ work_at_exit (plan_show coarse card.now plan.old work.old) }
    ensures own_sheet { OwnSheet card.now plan.new result.number result.cost }
    ensures twice { AtMostTimes 2 card.now result.number result.cost }
{
    LampAnswer::from(planners::plan_show(&Coarse, card, plan, work))
}

// The least plan limited to a list of counts with a ratio (document 02, §8): refusals 1 to 8, 18 and 10, in this order.
#[unsafe(no_mangle)]
pub extern "C" fn lamp_plan_groups(
    card: &[u8],
    list: &[u16],
    ratio: u64,
    plan: &mut [u8],
    work: &mut [u8],
) -> LampAnswer
    ensures outcome { Gives (plan_show (listed list.now ratio) card.now plan.old work.old) result.number result.cost }
    ensures plan_bytes { plan.new ≡ plan_at_exit (plan_show (listed list.now ratio) card.now plan.old work.old) }
    ensures work_bytes { work.new ≡ work_at_exit (plan_show (listed list.now ratio) card.now plan.old work.old) }
    ensures own_sheet { OwnSheet card.now plan.new result.number result.cost }
    ensures at_most { AtMostTimes ratio card.now result.number result.cost }
    ensures least_within { LeastWithin list.now card.now result.number result.cost }
{
    LampAnswer::from(planners::plan_show(&Listed { list, ratio }, card, plan, work))
}

// The practice card of a start (document 02, §1): refusals 14 and 10, in this order.
#[unsafe(no_mangle)]
pub extern "C" fn lamp_practice_card(start: u32, card: &mut [u8]) -> LampAnswer
    ensures outcome { Gives (practice_card start card.old) result.number result.cost }
    ensures card_bytes { card.new ≡ card_at_exit (practice_card start card.old) }
    ensures accepted { WritesAccepted card.new result.number }
    ensures enough { AlwaysEnough start card.old result.number }
{
    LampAnswer::from(practice::practice_card(start, card))
}

// F(0) to F(top) of the catalogue module as a card's fields (document 02, §5): refusals 3 and 10.
#[unsafe(no_mangle)]
pub extern "C" fn lamp_catalogue_table(top: u64, table: &mut [u8]) -> LampAnswer
    ensures outcome { Gives (catalogue_table top table.old) result.number result.cost }
    ensures table_bytes { table.new ≡ table_at_exit (catalogue_table top table.old) }
    ensures in_cards { WritesTable top table.new result.number }
{
    LampAnswer::from(catalogue::catalogue_table(top, table))
}

// Opens a sitting (document 02, §4) on a card, in place of any other: refusals 1 to 8, 10, 15 and 17, in this order.
#[unsafe(no_mangle)]
pub extern "C" fn lamp_sitting_open(
    sitting: Sitting,
    caller: u16,
    allowance: u64,
    card: &[u8],
    plan: &mut [u8],
    work: &mut [u8],
    seats: &mut [Seat],
) -> Reply
    ensures outcome { result ≡ reply_of sitting seats.old (open_sitting caller allowance card.now plan.old work.old) }
    ensures seats { seats.new ≡ seats_at_exit sitting seats.old (open_sitting caller allowance card.now plan.old work.old) }
    ensures plan_bytes { plan.new ≡ plan_at_exit (act_in sitting seats.old (open_sitting caller allowance card.now plan.old work.old)) }
    ensures work_bytes { work.new ≡ work_at_exit (act_in sitting seats.old (open_sitting caller allowance card.now plan.old work.old)) }
    ensures own_sheet { OwnSheet card.now plan.new result.number result.cost }
    ensures least { AtMostTimes 1 card.now result.number result.cost }
{
    let outcome = Request { sitting, caller }.opening(allowance, card, plan, work);
    seats::empty_first(seats, outcome.emptied);
    outcome.reply
}

// Seats a candidate in the first empty record: refusals 15 and 16.
#[unsafe(no_mangle)]
pub extern "C" fn lamp_sitting_seat(
    sitting: Sitting,
    caller: u16,
    candidate: u16,
    seats: &mut [Seat],
) -> Reply
    ensures outcome { result ≡ reply_of sitting seats.old (seat_candidate caller candidate) }
    ensures seats { seats.new ≡ seats_at_exit sitting seats.old (seat_candidate caller candidate) }
{
    let found = seats::find(seats, candidate);
    let empty = seats::find(seats, 0);
    let outcome = Request { sitting, caller }.seating(candidate, found, empty);
    seats::put(seats, outcome.change);
    outcome.reply
}

// Closes a sitting: refusal 15.
#[unsafe(no_mangle)]
pub extern "C" fn lamp_sitting_close(sitting: Sitting, caller: u16) -> Reply
    ensures outcome { result ≡ reply_of sitting [] (close_sitting caller) }
{
    Request { sitting, caller }.closing()
}

// Marks a sheet that the caller submits: refusals 1 to 8, 15, 16, 17, and then 11 to 13.
#[unsafe(no_mangle)]
pub extern "C" fn lamp_sitting_submit(
    sitting: Sitting,
    caller: u16,
    card: &[u8],
    sheet: &[u8],
    seats: &mut [Seat],
) -> Reply
    ensures outcome { result ≡ reply_of sitting seats.old (submit_sheet caller card.now sheet.now) }
    ensures seats { seats.new ≡ seats_at_exit sitting seats.old (submit_sheet caller card.now sheet.now) }
{
    let found = seats::find(seats, caller);
    let outcome = Request { sitting, caller }.submitting(found, card, sheet);
    seats::put(seats, outcome.change);
    outcome.reply
}

// The least cost of the sitting's card: refusals 15 and 16.
#[unsafe(no_mangle)]
pub extern "C" fn lamp_sitting_least(sitting: Sitting, caller: u16, seats: &[Seat]) -> Reply
    ensures outcome { result ≡ reply_of sitting seats.now (read_least caller) }
    ensures hidden { HiddenTillClosed sitting caller result }
{
    let found = seats::find(seats, caller);
    Request { sitting, caller }.reading_least(found)
}

// A candidate's lowest cost so far, or none: refusals 15 and 16.
#[unsafe(no_mangle)]
pub extern "C" fn lamp_sitting_lowest(
    sitting: Sitting,
    caller: u16,
    candidate: u16,
    seats: &[Seat],
) -> Reply
    ensures outcome { result ≡ reply_of sitting seats.now (read_lowest caller candidate) }
{
    let found = seats::find(seats, candidate);
    Request { sitting, caller }.reading_lowest(candidate, found)
}

// The submissions used: refusal 15.
#[unsafe(no_mangle)]
pub extern "C" fn lamp_sitting_used(sitting: Sitting, caller: u16) -> Reply
    ensures outcome { result ≡ reply_of sitting [] (read_used caller) }
{
    Request { sitting, caller }.reading_used()
}
