// The sheet of a plan, and the marking of a sheet that is handed in.
#![tactic(auto)]

ghost use Rattle.std.specs.Prelude.{◌≤◌, ◌≡◌, length};
ghost use Rattle.basics.specs.Lists.{tabulate, written_over};
ghost use Rattle.card.specs.Shows.{show_of};
ghost use Rattle.model.specs.Sheets.{is_entry, step_of, sheet_entries, sheet_light, sheet_cost};
ghost use Rattle.model.specs.Plans.{module_byte, sheet_of};
ghost use Rattle.sheets.specs.Marks.{slot_byte, row_light, byte_cost, bytes_cost, all_off, byte_at, stop_cost, row_stop_cost};
ghost use Rattle.sheets.specs.SheetRequires.{RowFits, SheetRoom, ByteReady, BytesReady, RowShort, RowPriced, SheetSized, SheetReady};

use card::Card;

// Fills a slot's row: the first modules are active, the first `rest` of these at the step high, the others at the step low, and the modules
// behind them are off.
fn fill_slot(active: usize, rest: usize, low: u8, high: u8, row: &mut [u8])
    requires rest_le_active { rest ≤ active }
    requires active_in_bounds { active ≤ length row.old }
    ensures { row.new ≡ tabulate (length row.old) (slot_byte active rest low high) }
{
    buffers::fill(&mut row[..rest], high);
    buffers::fill(&mut row[rest..active], low);
    buffers::fill(&mut row[active..], 255);
}

// Writes the row of a slot with count n and load l: l mod n modules are at the active step of l div n + 1, the others at that of l div n.
fn write_slot(card: &Card, n: u64, l: u64, row: &mut [u8])
    requires { RowFits card.now n l row.old }
    ensures { row.new ≡ tabulate (length row.old) (module_byte (show_of card.now) n l) }
{
    if n == 0 {
        buffers::fill(row, 255);
        return;
    }
    let rest = (l % n) as usize;
    let step = l / n;
    let low = card.active_step(step) as u8;
    let high = card.active_step(step + 1) as u8;
    fill_slot(n as usize, rest, low, high, row);
}

// Writes the sheet of a plan. Each slot's part is lent to `write_slot`, and by it to the slot filler, which sees that slot alone.
pub fn write_sheet(card: &Card, plan: &[u8], sheet: &mut [u8])
    requires { SheetRoom card.now plan.now sheet.old }
    ensures { sheet.new ≡ written_over (sheet_of (show_of card.now) plan.now) sheet.old }
{
    let modules = card.header.modules as usize;
    for (t, &count) in plan.iter().enumerate() {
        let l = card.load(t as u64);
        let start = t * modules;
        let end = start + modules;
        write_slot(card, u64::from(count), l, &mut sheet[start..end]);
    }
}

// The byte is a step up to top, or off.
fn is_entry(top: u64, b: u8) -> bool
    ensures { result ≡ is_entry top b }
{
    u64::from(b) <= top || b == 255
}

// Each byte of the sheet is a step of the table, or off. In a trial build `all` took one instruction more for each byte.
pub fn sheet_entries(card: &Card, sheet: &[u8]) -> bool
    ensures { result ≡ sheet_entries (show_of card.now) sheet.now }
{
    let top = card.header.top_step;
    for &b in sheet {
        if !is_entry(top, b) {
            return false;
        }
    }
    true
}

// The step of a byte, 0 for off.
fn step_of(b: u8) -> u16
    ensures { result ≡ step_of b }
{
    if b == 255 {
        return 0;
    }
    u16::from(b)
}

// The steps of a row's active modules, summed: at most 200 × 255. A row is a part of a sheet, and its bound is asked where it is summed.
fn slot_light(row: &[u8]) -> u64
    requires { RowShort row.now }
    ensures { result ≡ row_light row.now }
{
    let light: u16 = row.iter().map(|&b| step_of(b)).sum();
    u64::from(light)
}

// In every slot the steps of the active modules sum to the load or more.
pub fn sheet_light(card: &Card, sheet: &[u8]) -> bool
    requires { SheetSized card.now sheet.now }
    ensures { result ≡ sheet_light (show_of card.now) sheet.now }
{
    let modules = card.header.modules as usize;
    for (t, row) in sheet.chunks_exact(modules).enumerate() {
        let light = slot_light(row);
        if light < card.load(t as u64) {
            return false;
        }
    }
    true
}

// The price of a change to off.
fn stop_cost(down: u64, prev: u8) -> u64
    ensures { result ≡ stop_cost down prev }
{
    if prev == 255 {
        return 0;
    }
    down
}

// The cost of a byte's step, and of the change to it from the byte before it.
#[tactic(auto, using(crate::proofs::SheetBytes::cost_stopped))]
fn byte_cost(card: &Card, prev: u8, byte: u8) -> u64
    requires { ByteReady card.now byte }
    ensures { result ≡ byte_cost (show_of card.now) prev byte }
{
    if byte == 255 {
        return stop_cost(card.header.power_down, prev);
    }
    let operating = card.entry(u64::from(byte));
    if prev == 255 {
        return operating + card.header.power_up;
    }
    operating
}

// The cost of the first slot's row.
fn row_start_cost(card: &Card, row: &[u8]) -> u64
    requires { BytesReady card.now row.now }
    ensures { result ≡ bytes_cost (show_of card.now) all_off row.now }
{
    let mut cost: u64 = 0;
    for &b in row {
        cost += byte_cost(card, 255, b);
    }
    cost
}

// The cost of the later slots' rows, each byte with the change from the byte of the same module in the slot before. One index serves both
// parts, since a `zip` tests the length of each at every byte.
fn rows_cost(card: &Card, earlier: &[u8], later: &[u8]) -> u64
    requires bytes_ready { BytesReady card.now later.now }
    requires earlier_len { length earlier.now ≡ length later.now }
    ensures { result ≡ bytes_cost (show_of card.now) (byte_at earlier.now) later.now }
{
    let mut cost: u64 = 0;
    for x in 0..later.len() {
        cost += byte_cost(card, earlier[x], later[x]);
    }
    cost
}

// The price of all changes to off after a row.
fn row_stop_cost(down: u64, row: &[u8]) -> u64
    requires { RowPriced down row.now }
    ensures { result ≡ row_stop_cost down row.now }
{
    row.iter().map(|&b| stop_cost(down, b)).sum()
}

// Marking: the cost of a sheet, that of its first row, of the later rows, and of the changes to off after the last.
pub fn sheet_cost(card: &Card, sheet: &[u8]) -> u64
    requires { SheetReady card.now sheet.now }
    ensures { result ≡ sheet_cost (show_of card.now) sheet.now }
{
    if card.header.slots == 0 {
        return 0;
    }
    let second = card.header.modules as usize;
    let last = ((card.header.slots - 1) * card.header.modules) as usize;
    let start = row_start_cost(card, &sheet[..second]);
    let rest = rows_cost(card, &sheet[..last], &sheet[second..]);
    let stop = row_stop_cost(card.header.power_down, &sheet[last..]);
    start + rest + stop
}
