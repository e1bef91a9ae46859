// The encoder of show cards (document 01, 'The show card'): the length of a card and its head from plain fields, and the numbers of its table and
// of its loads, each written by a writer.
#![tactic(auto)]

ghost use Rattle.std.specs.Prelude.{◌≡◌};
ghost use Rattle.basics.specs.Bytes.{bytes_of};
ghost use Rattle.buffers.specs.Writers.{Fits, Wrote};
ghost use Rattle.model.specs.Instance.{load_place, front_bytes};
ghost use Rattle.encoder.specs.Heads.{sizes_of, prices_of, head_of};

use buffers::Writer;

// The fields of a show other than its table and its loads.
#[derive(Clone, Copy)]
pub struct Fields {
    pub modules: u32,
    pub top_step: u32,
    pub slots: u32,
    pub power_up: u32,
    pub power_down: u32,
}

// The length of a card.
pub fn card_length(fields: Fields) -> usize
    ensures { result ≡ load_place fields.top_step fields.slots }
{
    17 + 4 * (fields.top_step as usize + 1) + 2 * (fields.slots as usize)
}

// Writes the mark and the version.
fn put_front(writer: &mut Writer)
    requires { Fits front_bytes writer.old }
    ensures { Wrote front_bytes writer.old writer.new }
{
    writer.put_bytes(b"DLS");
    writer.put_number::<2>(1);
}

// Writes m, Q and T.
fn put_sizes(writer: &mut Writer, fields: Fields)
    requires { Fits (sizes_of fields) writer.old }
    ensures { Wrote (sizes_of fields) writer.old writer.new }
{
    writer.put_number::<1>(fields.modules);
    writer.put_number::<1>(fields.top_step);
    writer.put_number::<2>(fields.slots);
}

// Writes the two prices.
fn put_prices(writer: &mut Writer, fields: Fields)
    requires { Fits (prices_of fields) writer.old }
    ensures { Wrote (prices_of fields) writer.old writer.new }
{
    writer.put_number::<4>(fields.power_up);
    writer.put_number::<4>(fields.power_down);
}

// Writes the head of a card: the mark, the version, m, Q, T and the two prices.
pub fn put_head(writer: &mut Writer, fields: Fields)
    requires { Fits (head_of fields) writer.old }
    ensures { Wrote (head_of fields) writer.old writer.new }
{
    put_front(writer);
    put_sizes(writer, fields);
    put_prices(writer, fields);
}

// Writes an entry of the table. The width of an entry stands here, and that of a load below.
pub fn put_entry(writer: &mut Writer, entry: u32)
    requires { Fits (bytes_of 4 entry) writer.old }
    ensures { Wrote (bytes_of 4 entry) writer.old writer.new }
{
    writer.put_number::<4>(entry);
}

// Writes a load.
pub fn put_load(writer: &mut Writer, load: u32)
    requires { Fits (bytes_of 2 load) writer.old }
    ensures { Wrote (bytes_of 2 load) writer.old writer.new }
{
    writer.put_number::<2>(load);
}
