// The catalogue module's table (document 02, §5): a constant, and the call that writes its first entries as a card's fields.
#![tactic(auto)]

ghost use Rattle.std.specs.Prelude.{◌≡◌, take};
ghost use Rattle.basics.specs.Lists.{written_over};
ghost use Rattle.basics.specs.Rows.{element_bytes};
ghost use Rattle.model.specs.Answers.{number_of};
ghost use Rattle.model.specs.Catalogue.{TestedTable};
ghost use Rattle.model.specs.Calls.{answer, catalogue_table, table_at_exit};
ghost use Rattle.model.specs.Promises.{WritesTable};
ghost use Rattle.catalogue.specs.Entries.{EntriesRoom};

use buffers::Writer;
use model::{Answer, Refusal};

mod table;

// The table F(0) to F(200). That it follows the rule, is convex and never falls are three tests of the constant, each computed once over the
// whole of it.
fn whole_table() -> [u16; 201]
    ensures { TestedTable result }
{
    table::CATALOGUE
}

// Writes the first entries of a table, four bytes each, at the front of the area.
#[tactic(auto, using(crate::proofs::CatalogueAnswers::entries_room))]
fn put_entries(out: &mut [u8], entries: usize, table: [u16; 201])
    requires { EntriesRoom entries table out.old }
    ensures { out.new ≡ written_over (element_bytes 4 (take entries table)) out.old }
{
    Writer::new(out).put_numbers(&table[..entries]);
}

// F(0) to F(top) as a card's fields: refusals 3 and 10, else cost 0.
#[tactic(auto, using(crate::proofs::CatalogueAnswers::answers))]
pub fn catalogue_table(top: u64, table: &mut [u8]) -> Answer
    ensures value { result ≡ answer (catalogue_table top table.old) }
    ensures table_after { table.new ≡ table_at_exit (catalogue_table top table.old) }
    ensures writes_table { WritesTable top table.new (number_of result) }
{
    if !card::rack_number(top) {
        return Err(Refusal::RackSize);
    }
    let last = top as usize;
    let entries = last + 1;
    if table.len() < 4 * entries {
        return Err(Refusal::BufferTooShort);
    }
    put_entries(table, entries, whole_table());
    Ok(0)
}
