// The generator of the catalogue module's table (document 02, §5): prints F(0) to F(200), one a line. Its stored output, the file `stdout`
// beside src, is what the constant in crates/catalogue is made from.
#![tactic(auto)]

ghost use Rattle.std.specs.Prelude.{◌≡◌, ◌≤◌, length};
ghost use Rattle.basics.specs.Lists.{written_over};
ghost use Rattle.basics.specs.Writing.{Room};
ghost use Rattle.buffers.specs.Writers.{Fits, Wrote};
ghost use Rattle.model.specs.Catalogue.{catalogue_entry, catalogue_top};
ghost use Rattle.model.specs.Listing.{entry_line, catalogue_lines};

use buffers::Writer;
use std::io;

// F(k), by the rule.
#[tactic(auto, unfolding(model::specs::Catalogue::catalogue_entry))]
fn entry(k: u64) -> u64
    requires { k ≤ catalogue_top }
    ensures { result ≡ catalogue_entry k }
{
    400 + 3 * k + k * k.saturating_sub(1) / 2
}

// Writes the line of F(k).
fn put_entry(writer: &mut Writer, k: u64)
    requires k_le_catalogue_top { k ≤ catalogue_top }
    requires room { Fits (entry_line k) writer.old }
    ensures { Wrote (entry_line k) writer.old writer.new }
{
    listing::put_number(writer, entry(k));
    writer.put(b'\n');
}

// Writes all lines.
fn put_lines(writer: &mut Writer)
    requires { Fits catalogue_lines writer.old }
    ensures { Wrote catalogue_lines writer.old writer.new }
{
    for k in 0..201 {
        put_entry(writer, k);
    }
}

// Writes all lines at the front of the area, and returns their length.
fn write_lines(out: &mut [u8]) -> usize
    requires { Room catalogue_lines 0 out.old }
    ensures size { result ≡ length catalogue_lines }
    ensures bytes { out.new ≡ written_over catalogue_lines out.old }
{
    let mut writer = Writer::new(out);
    put_lines(&mut writer);
    writer.at
}

// All lines fit 4,096 bytes.
#[tactic(auto, using(crate::proofs::Lines::lines_size))]
fn main(rt: HostRuntime) -> io::Result<()> {
    let mut text = [0u8; 4096];
    let size = write_lines(&mut text);
    rt.write_all(&text[..size])
}
