// The calls of document 01 but the planners', each answering every input: the refusals in their order, then what the crates below work
// out. On an accepted card the work is done by a function that takes the `Card`.
#![tactic(auto)]

ghost use Rattle.std.specs.Prelude.{◌≡◌};
ghost use Rattle.model.specs.Calls.{answer, check_card, running_cost, make_sheet, mark_sheet, round_count, sheet_at_exit};

use card::Card;
use model::{Answer, Refusal};

// Checks a card: refusals 1 to 8, else cost 0.
pub fn check_card(card: &[u8]) -> Answer
    ensures { result ≡ answer (check_card card.now) }
{
    card::check(card)?;
    Ok(0)
}

// The running cost of a count and a load: refusals 1 to 8, 12, 13.
pub fn running_cost(card: &[u8], count: u64, load: u64) -> Answer
    ensures { result ≡ answer (running_cost card.now count load) }
{
    let card = card::check(card)?;
    if card.header.modules < count {
        return Err(Refusal::EntryRange);
    }
    if count * card.header.top_step < load {
        return Err(Refusal::LoadNotServed);
    }
    Ok(counts::operating_cost(&card, count, load))
}

// The smallest allowed count not below the count, in the cost's place: refusals 3 and 12.
pub fn rounded_count(count: u64, modules: u64) -> Answer
    ensures { result ≡ answer (round_count count modules) }
{
    if !card::rack_number(modules) {
        return Err(Refusal::RackSize);
    }
    if modules < count {
        return Err(Refusal::EntryRange);
    }
    Ok(counts::rounded(count, modules))
}

// Refusals 10 to 13 of the sheet call on an accepted card, or the plan's cost.
fn check_plan(card: &Card, plan: &[u8], sheet: &[u8]) -> Answer
    ensures { result ≡ answer (make_sheet card.now.bytes.now plan.now sheet.now) }
{
    let size = (card.header.modules * card.header.slots) as usize;
    if sheet.len() < size {
        return Err(Refusal::BufferTooShort);
    }
    let slots = card.header.slots as usize;
    if plan.len() != slots {
        return Err(Refusal::WrongLength);
    }
    if !plans::plan_in_rack(card, plan) {
        return Err(Refusal::EntryRange);
    }
    if !plans::plan_serves(card, plan) {
        return Err(Refusal::LoadNotServed);
    }
    Ok(plans::plan_cost(card, plan))
}

// The sheet of a plan on an accepted card: the plan is checked whole before the first byte is written.
pub fn make_sheet_on(card: &Card, plan: &[u8], sheet: &mut [u8]) -> Answer
    ensures value { result ≡ answer (make_sheet card.now.bytes.now plan.now sheet.old) }
    ensures sheet_after { sheet.new ≡ sheet_at_exit (make_sheet card.now.bytes.now plan.now sheet.old) }
{
    let cost = check_plan(card, plan, sheet)?;
    sheets::write_sheet(card, plan, sheet);
    Ok(cost)
}

// The sheet of a handed-in plan: refusals 1 to 8, 10 to 13.
pub fn make_sheet(card: &[u8], plan: &[u8], sheet: &mut [u8]) -> Answer
    ensures value { result ≡ answer (make_sheet card.now plan.now sheet.old) }
    ensures sheet_after { sheet.new ≡ sheet_at_exit (make_sheet card.now plan.now sheet.old) }
{
    let card = card::check(card)?;
    make_sheet_on(&card, plan, sheet)
}

// Marking on an accepted card.
pub fn mark_sheet_on(card: &Card, sheet: &[u8]) -> Answer
    ensures { result ≡ answer (mark_sheet card.now.bytes.now sheet.now) }
{
    let size = (card.header.modules * card.header.slots) as usize;
    if sheet.len() != size {
        return Err(Refusal::WrongLength);
    }
    if !sheets::sheet_entries(card, sheet) {
        return Err(Refusal::EntryRange);
    }
    if !sheets::sheet_light(card, sheet) {
        return Err(Refusal::LoadNotServed);
    }
    Ok(sheets::sheet_cost(card, sheet))
}

// The cost of a handed-in sheet, module by module: refusals 1 to 8, 11 to 13.
pub fn mark_sheet(card: &[u8], sheet: &[u8]) -> Answer
    ensures { result ≡ answer (mark_sheet card.now sheet.now) }
{
    let card = card::check(card)?;
    mark_sheet_on(&card, sheet)
}
