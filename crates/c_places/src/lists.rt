//! Rows for all textures and palettes.
ghost use Rattle.std.specs.Prelude.{◌≡◌};
ghost use Rattle.errors.specs.declared.Kind.TheVariants as kinds;
ghost use Rattle.output.specs.Output.{write_outcome, write_output};
ghost use Rattle.told.specs.Told as Told;

use errors::Kind;
use told::tell_count;

/// A row of six numbers for each texture: where its name begins, its word, where its data begin and how long they are, and the same of its second
/// data. An empty part begins at 0.
#[unsafe(no_mangle)]
pub extern "C" fn rasclanya_textures(
    block: &[u8],
    rows: &mut [usize],
    len: &mut usize,
    needed: &mut usize,
) -> u32
    ensures value { result ≡ Told.code_of (write_outcome (Told.rows kinds.Texture block.now) rows.old) }
    ensures rows_after { rows.new ≡ write_output (Told.rows kinds.Texture block.now) rows.old }
    ensures len_after { len.new ≡ Told.left len.old Told.itself (write_outcome (Told.rows kinds.Texture block.now) rows.old) }
    ensures needed_after { needed.new ≡ Told.needed_of (write_outcome (Told.rows kinds.Texture block.now) rows.old) }
{
    tell_count(rows::rows(block, Kind::Texture, rows), len, needed)
}

/// A row of two numbers for each palette: where its name begins, and its offset in bytes.
#[unsafe(no_mangle)]
pub extern "C" fn rasclanya_palettes(
    block: &[u8],
    rows: &mut [usize],
    len: &mut usize,
    needed: &mut usize,
) -> u32
    ensures value { result ≡ Told.code_of (write_outcome (Told.rows kinds.Palette block.now) rows.old) }
    ensures rows_after { rows.new ≡ write_output (Told.rows kinds.Palette block.now) rows.old }
    ensures len_after { len.new ≡ Told.left len.old Told.itself (write_outcome (Told.rows kinds.Palette block.now) rows.old) }
    ensures needed_after { needed.new ≡ Told.needed_of (write_outcome (Told.rows kinds.Palette block.now) rows.old) }
{
    tell_count(rows::rows(block, Kind::Palette, rows), len, needed)
}
