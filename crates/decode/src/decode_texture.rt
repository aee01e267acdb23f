//! Decodes textures to RGBA, eight bits a channel.
ghost use Rattle.std.specs.Prelude.{◌≡◌, ◌≤◌, ◌<◌, ◌^◌, length};
ghost use Rattle.errors.specs.Refusal.{result_outcome};
ghost use Rattle.nds.specs.Formats as Formats;
ghost use Rattle.output.specs.Output.{Writes};
ghost use Rattle.paint.specs.Paint as Paint;
ghost use Rattle.decode.specs.Pictures as Pictures;
ghost use Rattle.decode.specs.Checks as Checks;

use compressed::decode_format5;
use direct::decode_format7;
use errors::Refusal;
use nds::texture_formats::TextureFormat;
use nds::texture_params::TextureParams;
use paint::first_data::FirstData;
use paint::{decode_format1, decode_format2, decode_format3, decode_format4, decode_format6};
use texels::{Colors, Palette};

// The number of texels of a picture.
#[tactic(auto, using(nds::proofs::Sizes::area_lt, nds::proofs::Sizes::width_le, nds::proofs::Sizes::height_le))]
fn num_texels(params: TextureParams) -> usize
    ensures { (result ≡ Pictures.texel_count params.0) × (result < 2 ^ 32) }
{
    (params.width() * params.height()) as usize
}

/// A texture to decode: its word and data, the offset of the palette that was chosen for it, if one was, and the palette block.
#[derive(Clone, Copy)]
pub struct Texture<'a> {
    pub params: TextureParams,
    pub data1: &'a [u8],
    pub data2: &'a [u8],
    pub palette: Option<u32>,
    pub pal_block: &'a [u8],
}

impl<'a> Texture<'a> {
    // Whether the texture's format needs a palette that was not chosen.
    #[tactic(auto, unfolding(nds::specs::Formats::desc))]
    fn lacks_palette(self) -> bool
        ensures { result ≡ Pictures.lacks_palette self.entry.params.0 self.entry.palette }
    {
        self.palette.is_none() && self.params.format().desc().requires_palette
    }

    // Whether the data are shorter than the texture's word says.
    fn lacks_data(self) -> bool
        ensures { result ≡ Pictures.lacks_data self.entry.params.0 (length self.entry.data1.now) (length self.entry.data2.now) }
    {
        self.data1.len() < self.params.byte_len() || self.data2.len() < self.params.byte_len2()
    }

    // The picture's length in bytes.
    fn picture_len(self) -> usize
        ensures { result ≡ Pictures.picture_length self.entry.params.0 }
    {
        4 * num_texels(self.params)
    }

    // Whether an output of room bytes is shorter than the picture.
    fn lacks_room(self, room: usize) -> bool
        ensures { result ≡ Checks.lacks_room self.entry.params.0 room }
    {
        room < self.picture_len()
    }

    // Whether the texture can be decoded, to an output of room bytes.
    #[tactic(auto, using(crate::proofs::Pictures::checks))]
    fn check(self, room: usize) -> Result<(), Refusal>
        ensures { result_outcome result ≡ Checks.checked self.entry.params.0 (length self.entry.data1.now) (length self.entry.data2.now) self.entry.palette room }
    {
        if self.lacks_palette() {
            return Err(Refusal::NoPalette);
        }
        if self.params.format() == TextureFormat::NoTexture {
            return Err(Refusal::NoTexels);
        }
        if self.lacks_data() {
            return Err(Refusal::ShortData);
        }
        if self.lacks_room(room) {
            return Err(Refusal::Output);
        }
        Ok(())
    }

    // Writes all texels, by the texture's format. It is not inlined behind the checks: the compiler would take the loops over the texels for
    // seldom run there, and not align them, which makes some of them a third slower.
    #[inline(never)]
    #[tactic(auto, using(crate::proofs::Pictures::formats))]
    fn decode_format(self, out: &mut [u8])
        requires { Checks.Decodable self.params.0 (length self.data1.now) (length self.data2.now) (length out.old) }
        ensures { out.new ≡ Paint.painted (Pictures.texel (Pictures.sources self.entry.params.0 self.entry.data1.now self.entry.data2.now self.entry.palette self.entry.pal_block.now)) (Pictures.texel_count self.entry.params.0) out.old }
    {
        let params = self.params;
        let bytes = self.data1;
        let palette = Palette {
            block: self.pal_block,
            off: self.palette.unwrap_or(0),
        };
        let colors = Colors {
            palette,
            clear0: params.is_color0_transparent(),
        };
        let num_texels = num_texels(params);
        match params.format() {
            TextureFormat::NoTexture => unreachable!(),
            TextureFormat::A3I5 => decode_format1(out, FirstData { bytes, num_texels }, palette),
            TextureFormat::Palette4 => decode_format2(out, FirstData { bytes, num_texels }, colors),
            TextureFormat::Palette16 => decode_format3(
                out,
                FirstData { bytes, num_texels },
                colors,
            ),
            TextureFormat::Palette256 => decode_format4(
                out,
                FirstData { bytes, num_texels },
                colors,
            ),
            TextureFormat::Compressed => {
                let width = params.width() as usize;
                let height = params.height() as usize;
                decode_format5(out, width, height, self.data1, self.data2, palette)
            }
            TextureFormat::A5I3 => decode_format6(out, FirstData { bytes, num_texels }, palette),
            TextureFormat::Direct => decode_format7(out, FirstData { bytes, num_texels }),
        }
    }
}

/// Decodes a texture, with a palette where its format needs one, and returns the picture's length in bytes.
#[tactic(auto, using(crate::proofs::Pictures::decodes))]
pub fn decode_texture(texture: Texture, out: &mut [u8]) -> Result<usize, Refusal>
    ensures { Writes (Pictures.decoded (Pictures.sources texture.entry.params.0 texture.entry.data1.now texture.entry.data2.now texture.entry.palette texture.entry.pal_block.now)) out.old (result_outcome result) out.new }
{
    texture.check(out.len())?;
    texture.decode_format(out);
    Ok(texture.picture_len())
}
