// Practice cards (document 02, §1): the generator, and the card of the show that it draws from a start.
#![tactic(auto)]

ghost use Rattle.std.specs.Prelude.{◌≡◌, ◌+◌};
ghost use Rattle.buffers.specs.Writers.{Wrote};
ghost use Rattle.model.specs.Instance.{table_bytes, load_bytes, card_bytes};
ghost use Rattle.model.specs.Practice.{draw, drawn, practice_show};
ghost use Rattle.model.specs.Calls.{answer, practice_card, card_at_exit};
ghost use Rattle.practice.specs.Drawing.{SmallDifference, next_difference, DrawnRoom, LoadsRoom};

mod draws;

use buffers::Writer;
use draws::FirstDraws;
use encoder::Fields;
use model::{Answer, Refusal};

// One draw: the new state of the generator.
#[tactic(auto, unfolding(model::specs::Practice::draw, model::specs::Practice::xor_left, model::specs::Practice::xor_right))]
fn xorshift(s: u32) -> u32
    ensures { result ≡ draw s }
{
    let a = s ^ (s << 13);
    let b = a ^ (a >> 17);
    b ^ (b << 5)
}

// The first six draws.
#[tactic(auto, unfolding(model::specs::Practice::drawn, model::specs::Practice::practice_entry, model::specs::Practice::practice_show))]
fn draw_first(start: u32) -> FirstDraws
    ensures start_value { result.start ≡ start }
{
    let modules = xorshift(start);
    let top = xorshift(modules);
    let slots = xorshift(top);
    let up = xorshift(slots);
    let down = xorshift(up);
    let entry = xorshift(down);
    let fields = Fields {
        modules: 1 + modules % 200,
        top_step: 1 + top % 200,
        slots: slots % 65,
        power_up: up % 1001,
        power_down: down % 1001,
    };
    FirstDraws {
        start,
        fields,
        first_entry: entry % 1001,
        state: entry,
    }
}

// The difference after the one given, from the state that is drawn for it: the first one, where k is 0, is the draw mod 11, and each next one
// is larger by the draw mod 4.
#[tactic(auto, unfolding(crate::specs::Drawing::next_difference))]
fn next_difference(k: u32, difference: u32, state: u32) -> u32
    requires { SmallDifference difference }
    ensures { result ≡ next_difference k difference state }
{
    if k == 0 {
        return state % 11;
    }
    difference + state % 4
}

// Draws and writes the table, and gives the state of the generator after its draws.
fn put_table(writer: &mut Writer, first: FirstDraws) -> u32
    requires { DrawnRoom table_bytes first writer.old }
    ensures written { Wrote (table_bytes (practice_show first.start)) writer.old writer.new }
    ensures state_value { result ≡ drawn first.start (6 + first.fields.top_step) }
{
    let mut state = first.state;
    let mut difference = 0;
    let mut entry = first.first_entry;
    for k in 0..first.fields.top_step {
        encoder::put_entry(writer, entry);
        state = xorshift(state);
        difference = next_difference(k, difference, state);
        entry += difference;
    }
    encoder::put_entry(writer, entry);
    state
}

// Draws and writes the loads.
#[tactic(auto, using(crate::proofs::LoadsLoop::full_range))]
fn put_loads(writer: &mut Writer, first: FirstDraws, mut state: u32)
    requires { LoadsRoom first state writer.old }
    ensures { Wrote (load_bytes (practice_show first.start)) writer.old writer.new }
{
    let bound = first.fields.modules * first.fields.top_step + 1;
    for _ in 0..first.fields.slots {
        state = xorshift(state);
        encoder::put_load(writer, state % bound);
    }
}

// Writes the card.
#[tactic(auto, unfolding(model::specs::Instance::card_bytes))]
fn put_card(writer: &mut Writer, first: FirstDraws)
    requires { DrawnRoom card_bytes first writer.old }
    ensures { Wrote (card_bytes (practice_show first.start)) writer.old writer.new }
{
    encoder::put_head(writer, first.fields);
    let state = put_table(writer, first);
    put_loads(writer, first, state);
}

// The practice card of a start: refusals 14 and 10, in this order, else cost 0.
#[tactic(auto, using(crate::proofs::PracticeAnswers::answers))]
pub fn practice_card(start: u32, card: &mut [u8]) -> Answer
    ensures value { result ≡ answer (practice_card start card.old) }
    ensures card_after { card.new ≡ card_at_exit (practice_card start card.old) }
{
    let first = draw_first(start);
    let size = encoder::card_length(first.fields);
    if start == 0 {
        return Err(Refusal::ZeroStart);
    }
    if card.len() < size {
        return Err(Refusal::BufferTooShort);
    }
    put_card(&mut Writer::new(card), first);
    Ok(0)
}
