// Where the points of a sheet went (document 02, §7): the counts of a sheet, the modules that go on without need, and the explanation, which
// answers every input.
#![tactic(auto)]

ghost use Rattle.std.specs.Prelude.{◌≡◌, ◌-◌, ◌≤◌, Ok, length, replicate};
ghost use Rattle.basics.specs.Lists.{written_over};
ghost use Rattle.card.specs.Shows.{show_of};
ghost use Rattle.model.specs.Sheets.{active_of, counts_of};
ghost use Rattle.model.specs.Planners.{exact, work_bytes};
ghost use Rattle.model.specs.Calls.{explain_sheet};
ghost use Rattle.model.specs.ExplainedPoints.{no_points, points_with, points_of, explained_work};
ghost use Rattle.sheets.specs.SheetRequires.{RowShort};
ghost use Rattle.explanation.specs.Exchanges.{start_of, row_active, row_starts, exchanged};
ghost use Rattle.explanation.specs.ExplainedAs.{points_from};
ghost use Rattle.explanation.specs.ExplanationRequires.{CountsRoom, CountsKnown, Marked, WorkRoom, PointsRoom};

use card::Card;
use model::{Points, Refusal};
use planners::{Exact, PlannerKind};

// 1 for the byte of an active module, 0 for off.
fn active_of(b: u8) -> u8
    ensures { result ≡ active_of b }
{
    if b == 255 {
        return 0;
    }
    1
}

// 1 for the byte of an active module that was off before, else 0.
fn start_of(before: u8, b: u8) -> u8
    ensures { result ≡ start_of before b }
{
    if before == 255 {
        return active_of(b);
    }
    0
}

// How many modules of a row are active: at most 200.
fn row_active(row: &[u8]) -> u8
    requires { RowShort row.now }
    ensures { result ≡ row_active row.now }
{
    row.iter().map(|&b| active_of(b)).sum()
}

// How many modules go on from the row before to a row: at most 200.
fn row_starts(before: &[u8], row: &[u8]) -> u8
    requires row_short { RowShort row.now }
    requires before_len { length before.now ≡ length row.now }
    ensures { result ≡ row_starts before.now row.now }
{
    row.iter()
        .zip(before)
        .map(|(&b, &was)| start_of(was, b))
        .sum()
}

// Writes the counts of a sheet, slot by slot.
fn write_counts(card: &Card, sheet: &[u8], counts: &mut [u8])
    requires { CountsRoom card.now sheet.now counts.old }
    ensures { counts.new ≡ counts_of (show_of card.now) sheet.now }
{
    let modules = card.header.modules as usize;
    for (t, row) in sheet.chunks_exact(modules).enumerate() {
        counts[t] = row_active(row);
    }
}

// How many of the modules that go on do so beyond the rise of the count.
fn beyond_rise(starts: u8, was: u8, n: u8) -> u64
    requires { n - was ≤ starts }
    ensures { result ≡ starts - (n - was) }
{
    u64::from(starts - n.saturating_sub(was))
}

// How many modules go on beyond the rises of the counts, from each slot to the next. Into the first slot none does. Each row is met with
// the next one, so both are cut by their bounds.
fn exchanged_modules(card: &Card, sheet: &[u8], counts: &[u8]) -> u64
    requires { CountsKnown card.now sheet.now counts.now }
    ensures { result ≡ exchanged (show_of card.now) sheet.now }
{
    let modules = card.header.modules as usize;
    let mut total: u64 = 0;
    for t in 0..counts.len().saturating_sub(1) {
        let start = t * modules;
        let next = start + modules;
        let end = next + modules;
        let starts = row_starts(&sheet[start..next], &sheet[next..end]);
        total += beyond_rise(starts, counts[t], counts[t + 1]);
    }
    total
}

// The three numbers of a sheet that serves, with its cost and with room for one count for each slot, where first the sheet's counts stand and
// then the exact planner's.
fn points_over(card: &Card, sheet: &[u8], cost: u64, counts: &mut [u8], work: &mut [u8]) -> Points
    requires marked { Marked card.now sheet.now cost }
    requires points_room { PointsRoom card.now counts.old work.old }
    ensures value { result ≡ points_with (Ok 0) (show_of card.now) sheet.now }
    ensures work_after { work.new ≡ written_over (replicate (work_bytes exact (show_of card.now)) 0) work.old }
{
    write_counts(card, sheet, counts);
    let exchanged = exchanged_modules(card, sheet, counts);
    let swaps = exchanged * (card.header.power_up + card.header.power_down);
    let planned = plans::plan_cost(card, counts);
    let least = planners::plan_by(&Exact, card, counts, work);
    Points {
        number: 0,
        spread: cost - planned - swaps,
        swaps,
        counts: planned - least,
    }
}

// The three numbers of a sheet that serves, with its cost.
fn points_of(card: &Card, sheet: &[u8], cost: u64, work: &mut [u8]) -> Points
    requires marked { Marked card.now sheet.now cost }
    requires work_room { WorkRoom card.now work.old }
    ensures value { result ≡ points_with (Ok 0) (show_of card.now) sheet.now }
    ensures work_after { work.new ≡ written_over (replicate (work_bytes exact (show_of card.now)) 0) work.old }
{
    let mut counts = [0u8; 1024];
    let slots = card.header.slots as usize;
    points_over(card, sheet, cost, &mut counts[..slots], work)
}

// A refusal's number and no points.
fn refused(x: Refusal) -> Points
    ensures { result ≡ no_points x }
{
    Points {
        number: u64::from(x),
        spread: 0,
        swaps: 0,
        counts: 0,
    }
}

// The explanation of a sheet, or its refusal: refusals 1 to 8, 10, then marking's, then the three numbers.
fn try_explain(card: &[u8], sheet: &[u8], work: &mut [u8]) -> Result<Points, Refusal>
    ensures value { points_from result ≡ points_of card.now sheet.now work.old }
    ensures work_after { work.new ≡ explained_work (explain_sheet card.now sheet.now work.old) }
{
    let card = card::check(card)?;
    if work.len() < Exact.work_bytes(&card) {
        return Err(Refusal::BufferTooShort);
    }
    let cost = calls::mark_sheet_on(&card, sheet)?;
    Ok(points_of(&card, sheet, cost, work))
}

// The explanation of a sheet: refusals 1 to 8, 10 to 13.
pub fn explain(card: &[u8], sheet: &[u8], work: &mut [u8]) -> Points
    ensures value { result ≡ points_of card.now sheet.now work.old }
    ensures work_after { work.new ≡ explained_work (explain_sheet card.now sheet.now work.old) }
{
    match try_explain(card, sheet, work) {
        Ok(points) => points,
        Err(x) => refused(x),
    }
}
