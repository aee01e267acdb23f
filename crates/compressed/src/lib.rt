//! Block-compressed textures: format 5.

#![tactic(auto)]

ghost use Rattle.std.specs.Prelude.{◌≡◌, ◌+◌, ◌*◌, ◌/◌, ◌%◌, ◌^◌, ◌≤◌, ◌<◌, length};
ghost use Rattle.std.proofs.lemmas.List.Edits.{sets};
ghost use Rattle.texels.specs.Texels as Texels;
ghost use Rattle.paint.specs.Paint as Paint;
ghost use Rattle.compressed.specs.Blocks as Blocks;

use modes::block_color;
use paint::put_texels;
use texels::Palette;
use util::unsigned::Unsigned;

// The four texels that a block's texels are chosen from.
fn block_colors(palette: Palette, extra: u16) -> [[u8; 4]; 4]
    ensures { Paint.TexelTable (Texels.block_color palette.entry.block.now palette.entry.off extra) 4 result }
{
    [
        block_color(palette, extra, 0),
        block_color(palette, extra, 1),
        block_color(palette, extra, 2),
        block_color(palette, extra, 3),
    ]
}

// Writes a row of a block at texel n: the four texels that the row's byte chooses.
#[tactic(auto, using(paint::proofs::Tables::two_bits))]
fn put_row(out: &mut [u8], n: usize, table: &[[u8; 4]; 4], row: u8)
    requires { 4 * n + 16 ≤ length out.old }
    ensures { (out.new ≡ sets out.old (4 * n) (Blocks.row_bytes table.now row)) × (length (Blocks.row_bytes table.now row) ≡ 16) }
{
    put_texels(
        &mut out[4 * n..],
        4,
        |c|
            requires { c < 4 }
            ensures { result ≡ Paint.pixel_at table.entry.now (row / 2 ^ (2 * c) % 2 ^ 2) }
        { table[usize::from((row >> (2 * c)) & 3)] },
    );
}

// Writes a block by the bytes of its rows. Its top left texel is texel x of the first row.
#[tactic(auto, using(crate::proofs::Rows::block_rows))]
fn put_block(out: &mut [u8], width: usize, x: usize, rows: &[u8], table: &[[u8; 4]; 4])
    requires { Blocks.BlockFits width x (length rows.now) (length out.old) }
    ensures { Blocks.BlockPut width x (λ i. Blocks.row_bytes table.now (Blocks.byte_of rows.now i)) out.old out.new }
{
    for (i, row) in rows.iter().enumerate() {
        put_row(out, i * width + x, table, *row);
    }
}

// Writes four rows of a block-compressed picture, those of a row of blocks.
#[tactic(auto, using(crate::proofs::Rows::pieces_none))]
fn put_blocks(
    out: &mut [u8],
    width: usize,
    row: usize,
    data1: &[u8],
    data2: &[u8],
    palette: Palette,
)
    requires { Blocks.BlocksFit width row (length data1.now) (length data2.now) (length out.old) }
    ensures { out.new ≡ Paint.painted (Blocks.rows_texel width data1.now data2.now palette.entry.block.now palette.entry.off row) (4 * width) out.old }
{
    let num_blocks_x = width / 4;
    for i in 0..num_blocks_x {
        let b = num_blocks_x * row + i;
        let table = block_colors(palette, u16::view(data2, 2 * b));
        put_block(out, width, 4 * i, &data1[4 * b..4 * b + 4], &table);
    }
}

/// Block-compressed texture.
#[tactic(auto, using(crate::proofs::Rows::band_below, crate::proofs::Rows::pieces_none, crate::proofs::Rows::band_more, crate::proofs::Rows::rows_all), unfolding(paint::specs::Paint::painted))]
pub fn decode_format5(
    out: &mut [u8],
    width: usize,
    height: usize,
    data1: &[u8],
    data2: &[u8],
    palette: Palette,
)
    requires { Blocks.PictureFits width height (length data1.now) (length data2.now) (length out.old) }
    ensures { out.new ≡ Paint.painted (Blocks.compressed_texel width data1.now data2.now palette.entry.block.now palette.entry.off) (width * height) out.old }
{
    let num_blocks_y = height / 4;
    for i in 0..num_blocks_y {
        let at = 16 * (width * i);
        put_blocks(&mut out[at..], width, i, data1, data2, palette);
    }
}
