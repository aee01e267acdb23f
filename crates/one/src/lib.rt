//! One texel of each format, by the data and the texel's place.

#![tactic(auto)]

ghost use Rattle.std.specs.Prelude.{◌≡◌, ◌+◌, ◌*◌, ◌≤◌, ◌<◌, ◌^◌, length};
ghost use Rattle.texels.specs.Texels as Texels;
ghost use Rattle.texels.specs.Index as Index;
ghost use Rattle.one.specs.One as One;

use modes::block_color;
use texels::{Colors, Level, Palette, a3_to_a5, direct, index_at, rgb555a5};
use util::unsigned::Unsigned;

/// Texel n of format 1.
#[tactic(auto, unfolding(texels::specs::Texels::format1))]
pub fn texel1(data1: &[u8], palette: Palette, n: usize) -> [u8; 4]
    requires { n < length data1.now }
    ensures { result ≡ Texels.format1 data1.now palette.entry.block.now palette.entry.off n }
{
    let x = data1[n];
    rgb555a5(palette.color(u16::from(x & 31)), a3_to_a5(x >> 5))
}

/// Texel n of formats 2 to 4, where a texel has 1 to 8 bits.
#[tactic(auto, unfolding(texels::specs::Texels::formats2to4))]
pub fn texel2to4(data1: &[u8], bits: usize, colors: Colors, n: usize) -> [u8; 4]
    requires { Index.IndexThere bits n (length data1.now) }
    ensures { result ≡ Texels.formats2to4 bits colors.entry.clear0 data1.now colors.entry.palette.block.now colors.entry.palette.off n }
{
    colors.texel(index_at(data1, bits, n))
}

/// Texel n of format 6.
#[tactic(auto, unfolding(texels::specs::Texels::format6))]
pub fn texel6(data1: &[u8], palette: Palette, n: usize) -> [u8; 4]
    requires { n < length data1.now }
    ensures { result ≡ Texels.format6 data1.now palette.entry.block.now palette.entry.off n }
{
    let x = data1[n];
    rgb555a5(palette.color(u16::from(x & 7)), Level { bits: x >> 3 })
}

/// Texel n of format 7.
#[tactic(auto, unfolding(texels::specs::Texels::format7))]
pub fn texel7(data1: &[u8], n: usize) -> [u8; 4]
    requires { 2 * n + 2 ≤ length data1.now }
    ensures { result ≡ Texels.format7 data1.now n }
{
    direct(u16::view(data1, 2 * n))
}

/// The texel of format 5 in column x and row y.
#[tactic(auto, unfolding(texels::specs::Texels::format5))]
pub fn texel5(
    data1: &[u8],
    data2: &[u8],
    width: usize,
    palette: Palette,
    x: usize,
    y: usize,
) -> [u8; 4]
    requires { One.BlockThere width x y (length data1.now) (length data2.now) }
    ensures { result ≡ Texels.format5 width data1.now data2.now palette.entry.block.now palette.entry.off x y }
{
    let block = width / 4 * (y / 4) + x / 4;
    let place = 4 * (y % 4) + x % 4;
    let texel = ((u32::view(data1, 4 * block) >> (2 * place)) & 3) as u8;
    let extra = u16::view(data2, 2 * block);
    block_color(palette, extra, texel)
}
