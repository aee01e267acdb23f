//! Direct decoding, and pictures from a block. Where has_palette is 0 there is no palette.
ghost use Rattle.std.specs.Prelude.{◌≡◌};
ghost use Rattle.output.specs.Output.{write_outcome, write_output};
ghost use Rattle.told.specs.Told as Told;

use decode::decode_texture::{Texture, decode_texture};
use decode::picture::picture;
use nds::texture_params::TextureParams;
use told::{choice_of, tell_count, tell_len};

/// Decodes a texture by its word and data, with the palette at palette_off of a palette block.
#[unsafe(no_mangle)]
pub extern "C" fn rasclanya_decode_texture(
    word: u32,
    data1: &[u8],
    data2: &[u8],
    has_palette: u32,
    palette_off: u32,
    pal: &[u8],
    out: &mut [u8],
    len: &mut usize,
) -> u32
    ensures value { result ≡ Told.code_of (write_outcome (Told.decoding word data1.now data2.now has_palette palette_off pal.now) out.old) }
    ensures out_after { out.new ≡ write_output (Told.decoding word data1.now data2.now has_palette palette_off pal.now) out.old }
    ensures len_after { len.new ≡ Told.left len.old Told.itself (write_outcome (Told.decoding word data1.now data2.now has_palette palette_off pal.now) out.old) }
{
    let texture = Texture {
        params: TextureParams(word),
        data1,
        data2,
        palette: choice_of(has_palette, palette_off),
        pal_block: pal,
    };
    tell_len(decode_texture(texture, out), len)
}

/// Reads the block and decodes its texture n, with a palette by its number.
#[unsafe(no_mangle)]
pub extern "C" fn rasclanya_picture(
    block: &[u8],
    n: usize,
    has_palette: u32,
    palette: usize,
    out: &mut [u8],
    len: &mut usize,
    needed: &mut usize,
) -> u32
    ensures value { result ≡ Told.code_of (write_outcome (Told.picture block.now n has_palette palette) out.old) }
    ensures out_after { out.new ≡ write_output (Told.picture block.now n has_palette palette) out.old }
    ensures len_after { len.new ≡ Told.left len.old Told.itself (write_outcome (Told.picture block.now n has_palette palette) out.old) }
    ensures needed_after { needed.new ≡ Told.needed_of (write_outcome (Told.picture block.now n has_palette palette) out.old) }
{
    tell_count(
        picture(block, n, choice_of(has_palette, palette), out),
        len,
        needed,
    )
}
