//! The listing of a TEX0 block: its textures and palettes as lines of text, or why it is refused.

#![tactic(auto)]

ghost use Rattle.std.specs.Prelude.{◌≡◌, [], ◌∷◌, ◌<◌, ◌≤◌, length, IfOk};
ghost use Rattle.io.specs.Counts.{IsPrefixLen};
ghost use Rattle.util.specs.Outcome.{result as answered};
ghost use Rattle.output.specs.Output.{Writes};
ghost use Rattle.errors.specs.Refusal.{result_outcome, outcome_as};
ghost use Rattle.scripts.specs.Script.{run};
ghost use Rattle.reading.specs.Tex.{read_tex};
ghost use Rattle.reading.specs.Blocks.{layout_in};
ghost use Rattle.layout.specs.Positions.{count_of};
ghost use Rattle.text.specs.Text.{decimal, line};
ghost use Rattle.text.specs.Writer.{HasRoom, Adds};
ghost use Rattle.listing.specs.Listing as Listing;
ghost use Rattle.listing.specs.Lists as Lists;

use errors::{Kind, Refusal};
use lines::{put_palette, put_texture};
use nitro::tex::{palette_by, texture_by};
use reading::tex::Tex;
use refused::put_refused;
use text::{Writer, write};

/// The longest input that is read, in bytes.
pub const MAX_INPUT: usize = 65536;

// The number that document 01's table has for a longer one. It is a line of the text alone: no call is refused with it.
const LONG_INPUT: usize = 13;

/// No listing is longer than this, in bytes: 255 textures and 255 palettes, with names of 16 bytes and the longest numbers and words.
pub const MAX_LISTING: usize = 22211;

// The line of texture or palette n.
fn put_entry(writer: &mut Writer<'_>, tex: Tex, kind: Kind, n: usize)
    requires { (n < count_of kind tex.layout) × HasRoom (Lists.entry_line kind (run read_tex tex.block.now) n) writer.old }
    ensures { Adds (Lists.entry_line kind (run read_tex tex.entry.block.now) n) writer.old writer.new }
{
    match kind {
        Kind::Texture => put_texture(writer, n, texture_by(tex, n)),
        Kind::Palette => put_palette(writer, n, palette_by(tex, n)),
    }
}

// The word of a list.
#[tactic(auto, unfolding(text::specs::Text::ascii))]
fn list_word(kind: Kind) -> &'static [u8]
    ensures { result.now ≡ Lists.list_word kind }
{
    match kind {
        Kind::Texture => b"textures",
        Kind::Palette => b"palettes",
    }
}

// The line that a list opens with.
#[tactic(auto, using(text::proofs::Puts::puts), unfolding(text::specs::Text::line, text::specs::Text::ascii))]
fn put_heading(writer: &mut Writer<'_>, kind: Kind, count: usize)
    requires { HasRoom (line (Lists.list_word kind ∷ decimal count ∷ [])) writer.old }
    ensures { Adds (line (Lists.list_word kind ∷ decimal count ∷ [])) writer.old writer.new }
{
    writer.put_field(list_word(kind), b" ");
    writer.put_number(count, b"\n");
}

// The list of the block's textures or palettes. All lines are of one reading.
#[tactic(auto, using(crate::proofs::Lists::each_line), unfolding(crate::specs::Lists::list_of))]
fn put_list(writer: &mut Writer<'_>, tex: Tex, kind: Kind)
    requires { HasRoom (Lists.list_of kind (run read_tex tex.block.now) (count_of kind tex.layout)) writer.old }
    ensures { Adds (Lists.list_of kind (run read_tex tex.entry.block.now) (count_of kind tex.entry.layout)) writer.old writer.new }
{
    let count = tex.layout.count_of(kind);
    put_heading(writer, kind, count);
    for n in 0..count {
        put_entry(writer, tex, kind, n);
    }
}

// Writes the whole listing, and returns its length. The caller shows that there is room.
#[tactic(auto, using(text::proofs::Puts::puts, text::proofs::Puts::whole, crate::proofs::Listings::listing_read), unfolding(crate::specs::Lists::read_outcome))]
fn put_listing(input: &[u8], out: &mut [u8]) -> usize
    requires { length (Listing.listing_text input.now) ≤ length out.old }
    ensures { Writes (answered (Listing.listing_text input.now)) out.old (answered result) out.new }
{
    let mut writer = Writer::new(out);
    if MAX_INPUT < input.len() {
        put_refused(&mut writer, LONG_INPUT, 0);
        return writer.at;
    }
    match Tex::read(input) {
        Ok(tex) => {
            put_list(&mut writer, tex, Kind::Texture);
            put_list(&mut writer, tex, Kind::Palette);
        }
        Err(refusal) => put_refused(&mut writer, refusal.number(), refusal.returned()),
    }
    writer.at
}

/// Writes the listing of a block to an output that has room for every listing, and returns its length. A block that is refused is listed as one
/// line.
#[tactic(auto, using(text::proofs::Puts::whole, crate::proofs::Bounds::listing_fits))]
pub fn list_whole(input: &[u8], out: &mut [u8; MAX_LISTING]) -> usize
    ensures value { Writes (answered (Listing.listing_text input.now)) out.old (answered result) out.new }
    ensures in_bounds { IsPrefixLen result out.new }
{
    put_listing(input, out)
}

/// The same, to any output, which is not written where the listing is longer.
#[tactic(auto, using(text::proofs::Puts::whole, crate::proofs::Bounds::listing_fits))]
pub fn list(input: &[u8], out: &mut [u8]) -> Result<usize, Refusal>
    ensures { Writes (answered (Listing.listing_text input.now)) out.old (result_outcome result) out.new }
{
    if MAX_LISTING <= out.len() {
        return Ok(put_listing(input, out));
    }
    let mut text = [0; MAX_LISTING];
    let len = put_listing(input, &mut text);
    write(&text[..len], out)
}
