//! What a texel is made of: levels, alphas, palette colours, colour indices; and the texels of formats 2 to 4 and of format 7.

#![tactic(auto)]

ghost use Rattle.std.specs.Prelude.{◌≡◌, ◌<◌, length};
ghost use Rattle.texels.specs.Texels as Texels;
ghost use Rattle.texels.specs.Index as Index;

use cursor::nth_u16;

/// A level or an alpha of five bits.
#[derive(Clone, Copy, Debug, PartialEq, Eq)]
pub struct Level {
    pub bits: u8,
    pub ghost below: { bits < 32 },
}

impl Level {
    pub const CLEAR: Level = Level { bits: 0 };

    pub const OPAQUE: Level = Level { bits: 31 };
}

/// A colour's red level.
pub fn red(rgb555: u16) -> Level
    ensures { result.bits ≡ Texels.red rgb555 }
{
    Level {
        bits: (rgb555 & 31) as u8,
    }
}

/// A colour's green level.
pub fn green(rgb555: u16) -> Level
    ensures { result.bits ≡ Texels.green rgb555 }
{
    Level {
        bits: ((rgb555 >> 5) & 31) as u8,
    }
}

/// A colour's blue level.
pub fn blue(rgb555: u16) -> Level
    ensures { result.bits ≡ Texels.blue rgb555 }
{
    Level {
        bits: ((rgb555 >> 10) & 31) as u8,
    }
}

/// Widens a level to eight bits.
pub fn extend_5bit_to_8bit(x: Level) -> u8
    ensures { result ≡ Texels.widen x.bits }
{
    (x.bits << 3) | (x.bits >> 2)
}

/// Widens a three-bit alpha to five bits.
pub fn a3_to_a5(x: u8) -> Level
    requires { x < 8 }
    ensures { result.bits ≡ Texels.alpha3 x }
{
    Level {
        bits: (x << 2) | (x >> 1),
    }
}

/// The RGBA bytes of a colour and an alpha.
#[tactic(auto, unfolding(crate::specs::Texels::pixel))]
pub fn rgb555a5(rgb555: u16, a5: Level) -> [u8; 4]
    ensures { result ≡ Texels.pixel rgb555 a5.bits }
{
    [
        extend_5bit_to_8bit(red(rgb555)),
        extend_5bit_to_8bit(green(rgb555)),
        extend_5bit_to_8bit(blue(rgb555)),
        extend_5bit_to_8bit(a5),
    ]
}

/// A palette: the block that it is in, and its offset there.
#[derive(Clone, Copy)]
pub struct Palette<'a> {
    pub block: &'a [u8],
    pub off: u32,
}

impl<'a> Palette<'a> {
    /// Colour i, or 0 where it is not wholly inside the palette block.
    #[tactic(auto, using(util::proofs::Takes::took, util::proofs::Takes::lacked), unfolding(crate::specs::Texels::palette_color))]
    pub fn color(self, i: u16) -> u16
        ensures { result ≡ Texels.palette_color self.entry.block.now self.entry.off i }
    {
        nth_u16(self.block, self.off as usize, u32::from(i)).unwrap_or(0)
    }
}

/// The colours of formats 2 to 4: a palette, and whether its colour 0 is clear.
#[derive(Clone, Copy)]
pub struct Colors<'a> {
    pub palette: Palette<'a>,
    pub clear0: bool,
}

impl<'a> Colors<'a> {
    // The alpha of colour i.
    fn alpha(self, i: u8) -> Level
        ensures { result.bits ≡ Texels.index_alpha self.entry.clear0 i }
    {
        if self.clear0 && i == 0 {
            Level::CLEAR
        } else {
            Level::OPAQUE
        }
    }

    /// A texel whose colour index is i.
    #[tactic(auto, unfolding(crate::specs::Texels::indexed))]
    pub fn texel(self, i: u8) -> [u8; 4]
        ensures { result ≡ Texels.indexed self.entry.clear0 self.entry.palette.block.now self.entry.palette.off i }
    {
        rgb555a5(self.palette.color(u16::from(i)), self.alpha(i))
    }
}

/// The colour index of texel n, where a texel has 1 to 8 bits.
pub fn index_at(data1: &[u8], bits: usize, n: usize) -> u8
    requires { Index.IndexThere bits n (length data1.now) }
    ensures { result ≡ Texels.texel_bits bits data1.now n }
{
    let at = n * bits;
    (data1[at >> 3] >> (at & 7)) & (u8::MAX >> (8 - bits))
}

// The alpha of a texel of format 7, by bit 15 of its colour.
fn direct_alpha(rgb555: u16) -> Level
    ensures { result.bits ≡ Texels.direct_alpha rgb555 }
{
    if rgb555 >> 15 == 0 {
        Level::CLEAR
    } else {
        Level::OPAQUE
    }
}

/// A texel of format 7 by its colour.
pub fn direct(rgb555: u16) -> [u8; 4]
    ensures { result ≡ Texels.direct rgb555 }
{
    rgb555a5(rgb555, direct_alpha(rgb555))
}
