//! Rows of numbers that tell of all textures, or of all palettes, of a block at once.

#![tactic(auto)]

ghost use Rattle.std.specs.Prelude.{◌≡◌, ◌+◌, ◌*◌, ◌<◌, ◌≤◌, length};
ghost use Rattle.std.proofs.lemmas.List.Edits.{sets};
ghost use Rattle.errors.specs.Refusal.{result_outcome};
ghost use Rattle.util.specs.Outcome.{result as answered};
ghost use Rattle.output.specs.Output.{Writes};
ghost use Rattle.scripts.specs.Script.{run};
ghost use Rattle.info_block.specs.Lists.{listed};
ghost use Rattle.reading.specs.Tex.{read_tex};
ghost use Rattle.rows.specs.ByLayout as ByLayout;
ghost use Rattle.rows.specs.Rows as Rows;

use errors::{Kind, Refusal};
use info_block::name_list::{Entry, NameList};
use layout::{Header, off_at, params_at};
use places::places_of;
use reading::tex::Tex;

// How many numbers the row of an entry has.
fn row_len(kind: Kind) -> usize
    ensures { result ≡ ByLayout.row_length kind }
{
    match kind {
        Kind::Texture => 6,
        Kind::Palette => 2,
    }
}

// Where an entry's name begins in the block.
fn name_pos(header: Header, entry: Entry) -> usize
    ensures { result ≡ ByLayout.name_pos entry.entry.list.kind header entry.entry.list.count entry.entry.n }
{
    header.list_pos(entry.list.kind) + entry.name_pos()
}

// The row of a texture: where its name begins, its word, and the places of its data.
#[tactic(auto, unfolding(crate::specs::ByLayout::texture_row))]
fn texture_row(header: Header, texture: Entry) -> [usize; 6]
    ensures { result ≡ ByLayout.texture_row texture.entry.list.kind header (listed texture.entry.list) texture.entry.n }
{
    let places = places_of(header, params_at(texture), None);
    [
        name_pos(header, texture),
        places.params.0 as usize,
        places.data1.told().pos,
        places.data1.len,
        places.data2.told().pos,
        places.data2.len,
    ]
}

// The row of a palette: where its name begins, and its offset.
#[tactic(auto, unfolding(crate::specs::ByLayout::palette_row))]
fn palette_row(header: Header, palette: Entry) -> [usize; 2]
    ensures { result ≡ ByLayout.palette_row palette.entry.list.kind header (listed palette.entry.list) palette.entry.n }
{
    [name_pos(header, palette), off_at(palette) as usize]
}

// Puts a row.
#[tactic(auto, using(crate::proofs::Entries::row_copied))]
fn put_row<const N: usize>(rows: &mut [usize], at: usize, row: [usize; N])
    requires { at + N ≤ length rows.old }
    ensures { rows.new ≡ sets rows.old at row.entry }
{
    rows[at..at + N].copy_from_slice(&row);
}

// Puts the row of an entry.
#[tactic(auto, unfolding(crate::specs::ByLayout::texture_row, crate::specs::ByLayout::palette_row))]
fn put_entry(rows: &mut [usize], at: usize, header: Header, entry: Entry)
    requires { at + ByLayout.row_length entry.list.kind ≤ length rows.old }
    ensures { rows.new ≡ sets rows.old at (ByLayout.row entry.entry.list.kind header (listed entry.entry.list) entry.entry.n) }
{
    match entry.list.kind {
        Kind::Texture => put_row(rows, at, texture_row(header, entry)),
        Kind::Palette => put_row(rows, at, palette_row(header, entry)),
    }
}

// Puts the rows of all entries.
#[tactic(auto, using(crate::proofs::Entries::row_behind), unfolding(output::specs::Output::pieces))]
fn put_rows(rows: &mut [usize], header: Header, list: NameList)
    requires { list.count * ByLayout.row_length list.kind ≤ length rows.old }
    ensures { rows.new ≡ sets rows.old 0 (ByLayout.rows list.entry.kind header (listed list.entry)) }
{
    let len = row_len(list.kind);
    for n in 0..list.count {
        put_entry(rows, n * len, header, list.entry(n));
    }
}

// Writes the rows of a block that was read, and answers with how many numbers they have.
#[tactic(auto, using(crate::proofs::Entries::writes_rows))]
fn rows_by(tex: Tex, kind: Kind, out: &mut [usize]) -> Result<usize, Refusal>
    ensures { Writes (answered (ByLayout.rows_by kind tex.entry.block.now tex.entry.layout)) out.old (result_outcome result) out.new }
{
    let list = tex.list(kind);
    let len = list.count * row_len(kind);
    if out.len() < len {
        return Err(Refusal::Output);
    }
    put_rows(out, tex.layout.header, list);
    Ok(len)
}

/// Writes a row of numbers for each texture, or for each palette, and answers with how many numbers that are. All are of one reading. A
/// texture has six: where its name begins, its word, where its data begin and how long they are, and the same of its second data. A palette
/// has two: where its name begins, and its offset in bytes.
#[tactic(auto, using(crate::proofs::Entries::makes_rows), unfolding(output::specs::Output::write_outcome, output::specs::Output::write_output))]
pub fn rows(block: &[u8], kind: Kind, out: &mut [usize]) -> Result<usize, Refusal>
    ensures { Writes (Rows.rows_of kind block.now (run read_tex block.now)) out.old (result_outcome result) out.new }
{
    rows_by(Tex::read(block)?, kind, out)
}
