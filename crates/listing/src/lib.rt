// The program's text: each function writes a part of it by a writer.
// Digits and lines are written by hand, since the clauses say every byte of a lent area, and there is no heap for a `String`.
#![tactic(auto)]

ghost use Rattle.std.specs.Prelude.{◌≡◌, ◌<◌, length};
ghost use Rattle.basics.specs.Lists.{written_over};
ghost use Rattle.basics.specs.Writing.{Room, Written};
ghost use Rattle.buffers.specs.Writers.{Fits, Wrote};
ghost use Rattle.model.specs.Listing.{decimal, plan_line, slot_line, listing, refused_line};
ghost use Rattle.listing.specs.Texts.{numbered_line, count_text, count_texts, module_text, module_texts, slot_number, sheet_lines};
ghost use Rattle.listing.specs.Texts.{InRows, Printable, LineRoom};

use buffers::Writer;

// Writes a number in decimal from a place on, and returns the place after it. The place is handed on by value: where a writer is lent to a function that
// calls itself, its place stands in memory, and each byte that is written anywhere waits for it there.
#[tactic(auto, using(crate::proofs::Digits::decimal_one, basics::specs::Writing::written_one))]
fn put_digits(out: &mut [u8], at: usize, n: u64) -> usize
    requires { Room (decimal n) at out.old }
    ensures { Written (decimal n) at out.old out.new result }
{
    if n < 10 {
        out[at] = b'0' + n as u8;
        return at + 1;
    }
    let last = put_digits(out, at, n / 10);
    out[last] = b'0' + (n % 10) as u8;
    last + 1
}

// Writes a number in decimal.
pub fn put_number(writer: &mut Writer, n: u64)
    requires { Fits (decimal n) writer.old }
    ensures { Wrote (decimal n) writer.old writer.new }
{
    writer.at = put_digits(writer.out, writer.at, n);
}

// Writes a blank and a count.
fn put_count(writer: &mut Writer, count: u8)
    requires { Fits (count_text count) writer.old }
    ensures { Wrote (count_text count) writer.old writer.new }
{
    writer.put(b' ');
    put_number(writer, u64::from(count));
}

// Writes a blank and a module's step, or `-` for off: two bytes one by one, since `put_bytes` first tests whether two parts overlap.
#[tactic(auto, using(crate::proofs::StepTexts::step_written), unfolding(model::specs::Listing::step_text))]
fn put_step(writer: &mut Writer, step: u8)
    requires { Fits (module_text step) writer.old }
    ensures { Wrote (module_text step) writer.old writer.new }
{
    if step == 255 {
        writer.put(b' ');
        return writer.put(b'-');
    }
    put_count(writer, step);
}

// Writes the counts of a plan, a blank before each. This and `put_steps` differ in what they write of a byte; one function over a closure would
// take a text as a ghost parameter, for two loops of three lines.
fn put_counts(writer: &mut Writer, plan: &[u8])
    requires { Fits (count_texts plan.now) writer.old }
    ensures { Wrote (count_texts plan.now) writer.old writer.new }
{
    for &count in plan {
        put_count(writer, count);
    }
}

// Writes the steps of a slot's modules, a blank before each.
fn put_steps(writer: &mut Writer, row: &[u8])
    requires { Fits (module_texts row.now) writer.old }
    ensures { Wrote (module_texts row.now) writer.old writer.new }
{
    for &step in row {
        put_step(writer, step);
    }
}

// Writes a line of a word and a number.
fn put_line(writer: &mut Writer, word: &[u8], n: u64)
    requires { Fits (numbered_line word.now n) writer.old }
    ensures { Wrote (numbered_line word.now n) writer.old writer.new }
{
    writer.put_bytes(word);
    put_number(writer, n);
    writer.put(b'\n');
}

// Writes the line of the plan.
#[tactic(auto, unfolding(model::specs::Listing::plan_line))]
fn put_plan(writer: &mut Writer, plan: &[u8])
    requires { Fits (plan_line plan.now) writer.old }
    ensures { Wrote (plan_line plan.now) writer.old writer.new }
{
    writer.put_bytes(b"plan");
    put_counts(writer, plan);
    writer.put(b'\n');
}

// Writes the word for a slot and its number: slot t (from 0) has the number t + 1.
fn put_slot_number(writer: &mut Writer, t: usize)
    requires t_bound { t < 1024 }
    requires room { Fits (slot_number t) writer.old }
    ensures { Wrote (slot_number t) writer.old writer.new }
{
    writer.put_bytes(b"slot ");
    put_number(writer, t as u64 + 1);
}

// Writes the line of slot t (from 0), of its row of the sheet.
#[tactic(auto, unfolding(model::specs::Listing::slot_line))]
fn put_slot(writer: &mut Writer, t: usize, row: &[u8])
    requires t_bound { t < 1024 }
    requires room { Fits (slot_line t row.now) writer.old }
    ensures { Wrote (slot_line t row.now) writer.old writer.new }
{
    put_slot_number(writer, t);
    writer.put(b':');
    put_steps(writer, row);
    writer.put(b'\n');
}

// Writes the lines of a sheet in rows of m bytes. The rows may have no bytes, for which `chunks_exact` has no rows at all.
fn put_sheet(writer: &mut Writer, m: usize, slots: usize, sheet: &[u8])
    requires in_rows { InRows m slots sheet.now }
    requires room { Fits (sheet_lines m slots sheet.now) writer.old }
    ensures { Wrote (sheet_lines m slots sheet.now) writer.old writer.new }
{
    for t in 0..slots {
        let start = t * m;
        put_slot(writer, t, &sheet[start..start + m]);
    }
}

// Writes the listing of a plan and its sheet, in rows of m bytes.
#[tactic(auto, unfolding(model::specs::Listing::listing, model::specs::Listing::cost_line))]
fn put_listing(writer: &mut Writer, m: u64, cost: u64, plan: &[u8], sheet: &[u8])
    requires in_rows { InRows m (length plan.now) sheet.now }
    requires room { Fits (listing m cost plan.now sheet.now) writer.old }
    ensures { Wrote (listing m cost plan.now sheet.now) writer.old writer.new }
{
    put_line(writer, b"cost ", cost);
    put_plan(writer, plan);
    put_sheet(writer, m as usize, plan.len(), sheet);
}

// Writes the listing of a plan and its sheet, in rows of m bytes, at the front of the area, and returns its length.
#[tactic(auto, using(crate::proofs::Lengths::listing_room))]
pub fn write_listing(out: &mut [u8], m: u64, cost: u64, plan: &[u8], sheet: &[u8]) -> usize
    requires { Printable m plan.now sheet.now out.old }
    ensures size { result ≡ length (listing m cost plan.now sheet.now) }
    ensures bytes { out.new ≡ written_over (listing m cost plan.now sheet.now) out.old }
{
    let mut writer = Writer::new(out);
    put_listing(&mut writer, m, cost, plan, sheet);
    writer.at
}

// Writes the line of a refusal at the front of the area, and returns its length.
#[tactic(auto, unfolding(model::specs::Listing::refused_line), using(crate::proofs::Lengths::refusal_room))]
pub fn write_refusal(out: &mut [u8], number: u64) -> usize
    requires { LineRoom out.old }
    ensures size { result ≡ length (refused_line number) }
    ensures bytes { out.new ≡ written_over (refused_line number) out.old }
{
    let mut writer = Writer::new(out);
    put_line(&mut writer, b"refused ", number);
    writer.at
}
