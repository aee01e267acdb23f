//! The texture word: a texture's size, format and addressing in 32 bits, and what they say of its data and alphas.
ghost use Rattle.std.specs.Prelude.{◌≡◌, ◌<◌};
ghost use Rattle.nds.specs.Formats as Formats;
ghost use Rattle.nds.specs.Params as Params;
ghost use Rattle.nds.specs.Wrap.{wrap_of};

use crate::texture_formats::{Alpha, AlphaDesc, TextureFormat};
use crate::wrap::{Wrap, wrap_axis};
use util::bits::bits;

#[derive(Clone, Copy, Debug, PartialEq, Eq)]
pub struct TextureParams(pub u32);

// Whether the bit of number k is set.
fn bit(x: u32, k: u32) -> bool
    requires { k < 32 }
    ensures { result ≡ Params.has_bit k x }
{
    bits(x, k, k + 1) != 0
}

impl TextureParams {
    /// In bytes.
    pub fn offset(self) -> u32
        ensures { result ≡ Params.offset self.0 }
    {
        bits(self.0, 0, 16) << 3
    }

    pub fn repeat_s(self) -> bool
        ensures { result ≡ Params.repeat_s self.0 }
    {
        bit(self.0, 16)
    }

    pub fn repeat_t(self) -> bool
        ensures { result ≡ Params.repeat_t self.0 }
    {
        bit(self.0, 17)
    }

    pub fn mirror_s(self) -> bool
        ensures { result ≡ Params.mirror_s self.0 }
    {
        bit(self.0, 18)
    }

    pub fn mirror_t(self) -> bool
        ensures { result ≡ Params.mirror_t self.0 }
    {
        bit(self.0, 19)
    }

    /// In texels.
    #[tactic(auto, using(crate::proofs::Sizes::size_fits), unfolding(crate::specs::Params::width))]
    pub fn width(self) -> u32
        ensures { result ≡ Params.width self.0 }
    {
        8 << bits(self.0, 20, 23)
    }

    /// In texels.
    #[tactic(auto, using(crate::proofs::Sizes::size_fits), unfolding(crate::specs::Params::height))]
    pub fn height(self) -> u32
        ensures { result ≡ Params.height self.0 }
    {
        8 << bits(self.0, 23, 26)
    }

    pub fn format(self) -> TextureFormat
        ensures { Formats.number_of result ≡ Params.format self.0 }
    {
        match bits(self.0, 26, 29) {
            0 => TextureFormat::NoTexture,
            1 => TextureFormat::A3I5,
            2 => TextureFormat::Palette4,
            3 => TextureFormat::Palette16,
            4 => TextureFormat::Palette256,
            5 => TextureFormat::Compressed,
            6 => TextureFormat::A5I3,
            7 => TextureFormat::Direct,
            _ => unreachable!(),
        }
    }

    pub fn is_color0_transparent(self) -> bool
        ensures { result ≡ Params.color0_transparent self.0 }
    {
        bit(self.0, 29)
    }

    pub fn texcoord_transform_mode(self) -> u8
        ensures { result ≡ Params.transform_mode self.0 }
    {
        bits(self.0, 30, 32) as u8
    }

    pub fn wrap_s(self) -> Wrap
        ensures { result ≡ wrap_of (Params.repeat_s self.0) (Params.mirror_s self.0) }
    {
        wrap_axis(self.repeat_s(), self.mirror_s())
    }

    pub fn wrap_t(self) -> Wrap
        ensures { result ≡ wrap_of (Params.repeat_t self.0) (Params.mirror_t self.0) }
    {
        wrap_axis(self.repeat_t(), self.mirror_t())
    }

    /// The length of the texture's data, of a block-compressed texture's first data, in bytes.
    #[tactic(auto, using(crate::proofs::Sizes::areas), unfolding(crate::specs::Formats::data_length, crate::specs::Formats::desc))]
    pub fn byte_len(self) -> usize
        ensures { result ≡ Formats.data_length self.0 }
    {
        let data_bits = self.width() * self.height() * u32::from(self.format().desc().bpp);
        data_bits as usize / 8
    }

    /// The length of a block-compressed texture's second data, in bytes. Other textures have none.
    #[tactic(auto, unfolding(crate::specs::Formats::second_length))]
    pub fn byte_len2(self) -> usize
        ensures { result ≡ Formats.second_length self.0 }
    {
        if self.format() == TextureFormat::Compressed {
            self.byte_len() / 2
        } else {
            0
        }
    }

    /// Which alphas the texture's texels can have.
    #[tactic(auto, unfolding(crate::specs::Formats::alpha, crate::specs::Formats::desc))]
    pub fn alpha_type(self) -> Alpha
        ensures { result ≡ Formats.alpha self.0 }
    {
        match self.format().desc().alpha_desc {
            AlphaDesc::Always(alpha) => alpha,
            AlphaDesc::TransparentDependingOnParams => {
                if self.is_color0_transparent() {
                    Alpha::Transparent
                } else {
                    Alpha::Opaque
                }
            }
        }
    }
}
