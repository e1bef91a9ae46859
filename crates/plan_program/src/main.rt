// The program: reads a card from standard input, and prints its exact plan or its refusal.
#![tactic(auto)]

ghost use Rattle.std.specs.Prelude.{◌≡◌, length, MatchResult};
ghost use Rattle.basics.specs.Lists.{written_over};
ghost use Rattle.model.specs.Answers.{refusal_number};
ghost use Rattle.model.specs.Listing.{exact_listing, printed, refused_line};
ghost use Rattle.plan_program.specs.Program.{TextArea, PlannedText};

use card::Card;
use model::Refusal;
use planners::Exact;
use std::io::{self, Read};

// An area for a plan, for work bytes, for a sheet, or for the text.
fn area<const N: usize>() -> [u8; N]
    ensures { length result ≡ N }
{
    [0; N]
}

// The listing of an accepted card's exact plan, which stands in the plan area.
fn print_plan(card: &Card, plan: &[u8], cost: u64, out: &mut [u8]) -> usize
    requires { PlannedText card.now plan.now out.old }
    ensures size { result ≡ length (exact_listing card.now.bytes.now cost) }
    ensures bytes { out.new ≡ written_over (exact_listing card.now.bytes.now cost) out.old }
{
    let modules = card.header.modules;
    let slots = card.header.slots as usize;
    let entries = modules as usize * slots;
    let mut sheet = area::<65536>();
    // The planner's own plan is never refused.
    let _ = calls::make_sheet_on(card, &plan[..slots], &mut sheet);
    listing::write_listing(out, modules, cost, &plan[..slots], &sheet[..entries])
}

// The text for a card that is planned, or the refusal that is to be printed.
fn print_planned(card: &[u8], out: &mut [u8]) -> Result<usize, Refusal>
    requires { TextArea out.old }
    ensures { MatchResult result
        (λ size. (size ≡ length (printed card.now)) × (out.new ≡ written_over (printed card.now) out.old))
        (λ x. (refused_line (refusal_number x) ≡ printed card.now) × (out.new ≡ out.old)) }
{
    let card = card::check(card)?;
    let mut plan = area::<1024>();
    let mut work = area::<65536>();
    let cost = planners::plan_show_on(&Exact, &card, &mut plan, &mut work)?;
    Ok(print_plan(&card, &plan, cost, out))
}

// The text for a card.
fn print_card(card: &[u8], out: &mut [u8]) -> usize
    requires { TextArea out.old }
    ensures size { result ≡ length (printed card.now) }
    ensures bytes { out.new ≡ written_over (printed card.now) out.old }
{
    match print_planned(card, out) {
        Ok(size) => size,
        Err(x) => listing::write_refusal(out, u64::from(x)),
    }
}

// Reads until 2,870 bytes are there, one more than the longest card has, or the input ends; a failed read counts as the end. The loop counts bytes
// that are read and no steps; `read_to_end` needs a heap, and `read_exact` fails where the card is shorter.
fn main(rt: HostRuntime) -> io::Result<()> {
    let mut card = [0u8; 2870];
    let mut input = rt.stdin();
    let mut n = 0;
    while n < card.len() {
        match input.read(&mut card[n..]) {
            Ok(0) | Err(_) => break,
            Ok(more) => n += more,
        }
    }
    let mut text = area::<300000>();
    let size = print_card(&card[..n], &mut text);
    rt.write_all(&text[..size])
}
