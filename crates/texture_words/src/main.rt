//! Writes what the readers say of each word of a list, a line a word.

#![tactic(auto)]

use nds::texture_params::TextureParams;
use report::{STDOUT_FILENO, decimal, text};

// Document 01's words, each single bit, each format with and without bit 29, each set of repeat and mirror bits, and some of no
// particular kind.
const WORDS: [u32; 78] = [
    0x1ff0_ffff,
    0x2c01_0000,
    0x0000_0000,
    0xffff_ffff,
    0x0000_0001,
    0x0000_0002,
    0x0000_0004,
    0x0000_0008,
    0x0000_0010,
    0x0000_0020,
    0x0000_0040,
    0x0000_0080,
    0x0000_0100,
    0x0000_0200,
    0x0000_0400,
    0x0000_0800,
    0x0000_1000,
    0x0000_2000,
    0x0000_4000,
    0x0000_8000,
    0x0001_0000,
    0x0002_0000,
    0x0004_0000,
    0x0008_0000,
    0x0010_0000,
    0x0020_0000,
    0x0040_0000,
    0x0080_0000,
    0x0100_0000,
    0x0200_0000,
    0x0400_0000,
    0x0800_0000,
    0x1000_0000,
    0x2000_0000,
    0x4000_0000,
    0x8000_0000,
    0x2081_0000,
    0x0595_1234,
    0x2616_1234,
    0x0b2a_2468,
    0x2bab_2468,
    0x0cbf_369c,
    0x2d30_369c,
    0x1244_48d0,
    0x32c5_48d0,
    0x17d9_5b04,
    0x345a_5b04,
    0x196e_6d38,
    0x39ef_6d38,
    0x1ef3_7f6c,
    0x3f74_7f6c,
    0x0c01_0000,
    0x0c02_0000,
    0x0c03_0000,
    0x0c04_0000,
    0x0c05_0000,
    0x0c06_0000,
    0x0c07_0000,
    0x0c08_0000,
    0x0c09_0000,
    0x0c0a_0000,
    0x0c0b_0000,
    0x0c0c_0000,
    0x0c0d_0000,
    0x0c0e_0000,
    0x0c0f_0000,
    0x2265_b1f5,
    0x91b7_584a,
    0xd8f1_6adf,
    0xcd61_3e30,
    0xc386_bbc4,
    0x1027_c4d1,
    0x414c_343c,
    0x1e2f_eb89,
    0x7ed4_d57b,
    0xc2ce_6f44,
    0x7311_d8a3,
    0x78e5_1061,
];

// Writes a label and a number.
fn number(label: &[u8], n: impl Into<u64>) {
    text(label);
    decimal(n.into());
}

// Writes a label and a word.
fn word(label: &[u8], w: &[u8]) {
    text(label);
    text(w);
}

// Writes the line of a texture word.
fn show(params: TextureParams) {
    io::print_hex(STDOUT_FILENO, u64::from(params.0), 8);
    number(b" offset ", params.offset());
    number(b" repeat ", params.repeat_s());
    number(b" ", params.repeat_t());
    number(b" mirror ", params.mirror_s());
    number(b" ", params.mirror_t());
    word(b" wrap ", params.wrap_s().word());
    word(b" ", params.wrap_t().word());
    number(b" size ", params.width());
    number(b" ", params.height());
    let format = params.format();
    number(b" format ", format.number());
    number(b" color0 ", params.is_color0_transparent());
    number(b" transform ", params.texcoord_transform_mode());
    let desc = format.desc();
    number(b" bits ", desc.bpp);
    number(b" palette ", desc.requires_palette);
    number(b" data ", params.byte_len() as u64);
    number(b" ", params.byte_len2() as u64);
    word(b" alpha ", params.alpha_type().word());
    text(b"\n");
}

// Writes the line of each word.
fn main() {
    for n in WORDS {
        show(TextureParams(n));
    }
}
