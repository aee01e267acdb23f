//! Writes what the calls of `nitro` and `name` answer for each block of its standard input, a line a call. A block is preceded by its
//! length, in 4 bytes. Behind 1,000 blocks no more are shown.

#![tactic(auto)]

ghost use Rattle.std.specs.Prelude.{◌<◌, length, IfSome};

use block_report::{palettes, part, refused, textures};
use name_report::texts;
use nitro::tex;
use report::{STDIN_FILENO, number, text};
use rows_report::all_rows;

// Prints every answer for a block.
fn show(block: &[u8]) {
    text(b"block");
    number(block.len() as u64);
    text(b"\nreading");
    tex::read_tex(block).map_or_else(refused, |counts| {
        number(counts.textures as u64);
        number(counts.palettes as u64);
    });
    text(b"\npal_block");
    part(tex::pal_block(block));
    text(b"\n");
    for n in [0, 1, 2, usize::MAX] {
        textures(block, n);
    }
    for n in [0, 1, usize::MAX] {
        palettes(block, n);
    }
    all_rows(block);
    texts(tex::texture_or_blank(tex::texture(block, 0)).name);
}

// The input's first block, whose length stands before it, and what is behind it. None where there is no whole block.
fn first_block(input: &[u8]) -> Option<(&[u8], &[u8])>
    ensures { IfSome result (λ parts. length parts.1.now < length input.now) }
{
    let (len, behind) = input.split_first_chunk::<4>()?;
    behind.split_at_checked(u32::from_le_bytes(*len) as usize)
}

// The most blocks that are shown.
const MAX_BLOCKS: usize = 1000;

// Shows the blocks of the input.
fn show_all(input: &[u8]) {
    let mut rest = input;
    for _ in 0..MAX_BLOCKS {
        let Some((block, behind)) = first_block(rest) else {
            return;
        };
        show(block);
        rest = behind;
    }
}

// Reads the input, and shows its blocks.
fn main() {
    let mut buffer = io::large_buffer();
    let n = io::read_full(STDIN_FILENO, &mut buffer);
    show_all(&buffer[..n]);
}
