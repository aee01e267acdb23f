//! The colours of a block of format 5: opaque colours, mixes, and the colour of a texel by the block's mode and extra.

#![tactic(auto)]

ghost use Rattle.std.specs.Prelude.{◌≡◌, ◌+◌, ◌≤◌, ◌<◌, ◌^◌};
ghost use Rattle.texels.specs.Texels as Texels;

use texels::{Level, Palette, blue, extend_5bit_to_8bit, green, red, rgb555a5};

// A palette colour with full alpha.
#[tactic(auto, unfolding(texels::specs::Texels::opaque))]
fn opaque(palette: Palette, i: u16) -> [u8; 4]
    ensures { result ≡ Texels.opaque palette.entry.block.now palette.entry.off 0 i }
{
    rgb555a5(palette.color(i), Level::OPAQUE)
}

// (a * v1 + b * v2) / (a + b) of two levels, widened.
fn mix_level(a: u32, b: u32, v1: Level, v2: Level) -> u8
    requires { (0 < a) × (a + b ≤ 8) }
    ensures { result ≡ Texels.mix_channel a b (Texels.widen v1.bits) (Texels.widen v2.bits) }
{
    let sum = a * u32::from(extend_5bit_to_8bit(v1)) + b * u32::from(extend_5bit_to_8bit(v2));
    (sum / (a + b)) as u8
}

// (a * c1 + b * c2) / (a + b) of two palette colours.
#[tactic(auto, unfolding(texels::specs::Texels::mix, texels::specs::Texels::pixel))]
fn mix(a: u32, b: u32, c1: u16, c2: u16) -> [u8; 4]
    requires { (0 < a) × (a + b ≤ 8) }
    ensures { result ≡ Texels.mix a b (Texels.pixel c1 31) (Texels.pixel c2 31) }
{
    [
        mix_level(a, b, red(c1), red(c2)),
        mix_level(a, b, green(c1), green(c2)),
        mix_level(a, b, blue(c1), blue(c2)),
        mix_level(a, b, Level::OPAQUE, Level::OPAQUE),
    ]
}

// A texel of a block by the block's mode: colours of the palette from the first on, mixes of two of them, and clear.
#[tactic(auto, using(crate::proofs::Modes::mode0_plain, crate::proofs::Modes::mode1_plain, crate::proofs::Modes::mode2_plain, crate::proofs::Modes::mode3_plain, crate::proofs::Modes::mode1_mixed, crate::proofs::Modes::mode3_mixed, crate::proofs::Modes::mode3_turned), unfolding(texels::specs::Texels::mode_color))]
fn mode_color(palette: Palette, first: u16, mode: u8, texel: u8) -> [u8; 4]
    requires { (first < 2 ^ 15) × (mode < 4) × (texel < 4) }
    ensures { result ≡ Texels.mode_color palette.entry.block.now palette.entry.off first mode texel }
{
    match (mode, texel) {
        (0 | 1, 3) => [0; 4],
        (1, 2) => mix(1, 1, palette.color(first), palette.color(first + 1)),
        (3, 2) => mix(3, 5, palette.color(first + 1), palette.color(first)),
        (3, 3) => mix(3, 5, palette.color(first), palette.color(first + 1)),
        _ => opaque(palette, first + u16::from(texel)),
    }
}

/// A texel of a block by the block's extra.
#[tactic(auto, using(crate::proofs::Modes::mode_same), unfolding(texels::specs::Texels::block_color))]
pub fn block_color(palette: Palette, extra: u16, texel: u8) -> [u8; 4]
    requires { texel < 4 }
    ensures { result ≡ Texels.block_color palette.entry.block.now palette.entry.off extra texel }
{
    let first = (extra & 0x3fff) << 1;
    let mode = (extra >> 14) as u8;
    mode_color(palette, first, mode, texel)
}
