//! What a reading keeps of a block: its header, and how long its two lists are; and where, by these, data and lists stand.

#![tactic(auto)]

ghost use Rattle.std.specs.Prelude.{◌≡◌, ◌*◌, ◌<◌, ◌^◌};
ghost use Rattle.info_block.specs.InfoBlock.{entry_number};
ghost use Rattle.info_block.specs.Lists.{listed};
ghost use Rattle.layout.specs.Positions as Positions;

use cursor::part_at;
use errors::Kind;
use info_block::name_list::Entry;
use nds::texture_formats::TextureFormat;
use nds::texture_params::TextureParams;

#[derive(Clone, Copy, Debug, PartialEq, Eq)]
pub struct Header {
    pub texture_off: u16,
    pub tex_block_off: u32,
    pub compressed1_block_off: u32,
    pub compressed2_block_off: u32,
    /// The palette block's length in units of 8 bytes.
    pub pal_block_len_shr_3: u16,
    pub palette_off: u32,
    pub pal_block_off: u32,
}

/// Where a block's lists and data are, and how long the lists are.
#[derive(Clone, Copy, Debug, PartialEq, Eq)]
pub struct Layout {
    pub header: Header,
    pub textures: usize,
    pub palettes: usize,
}

/// A part of a block: len bytes at pos.
#[derive(Clone, Copy, Debug, PartialEq, Eq)]
pub struct Place {
    pub pos: usize,
    pub len: usize,
}

impl Place {
    /// The part of the block at the place, or the empty part where the block does not have it.
    pub fn part(self, block: &[u8]) -> &[u8]
        ensures { result.now ≡ Positions.part_at block.now self }
    {
        part_at(block, self.pos, self.len)
    }

    /// The place as it is told: one without bytes begins at 0.
    pub fn told(self) -> Place
        ensures { result ≡ Positions.told self }
    {
        Place {
            pos: if self.len == 0 { 0 } else { self.pos },
            ..self
        }
    }
}

impl Header {
    /// The palette block.
    pub fn pal_block(self) -> Place
        ensures value { result ≡ Positions.pal_place_at self }
        ensures upper_bound { (result.pos < 2 ^ 32) × (result.len < 2 ^ 19) }
    {
        Place {
            pos: self.pal_block_off as usize,
            len: 8 * usize::from(self.pal_block_len_shr_3),
        }
    }

    /// A texture's data, or a block-compressed texture's first data.
    #[tactic(auto, using(nds::proofs::Sizes::data_length_lt), unfolding(crate::specs::Positions::data_at))]
    pub fn data1(self, params: TextureParams) -> Place
        ensures value { result ≡ Positions.data1_at self params.0 }
        ensures upper_bound { (result.pos < 2 ^ 33) × (result.len < 2 ^ 32) }
    {
        let start = if params.format() == TextureFormat::Compressed {
            self.compressed1_block_off
        } else {
            self.tex_block_off
        };
        Place {
            pos: start as usize + params.offset() as usize,
            len: params.byte_len(),
        }
    }

    /// A block-compressed texture's second data. Other textures have none.
    #[tactic(auto, using(nds::proofs::Sizes::second_length_lt), unfolding(crate::specs::Positions::second_at))]
    pub fn data2(self, params: TextureParams) -> Place
        ensures value { result ≡ Positions.data2_at self params.0 }
        ensures upper_bound { (result.pos < 2 ^ 33) × (result.len < 2 ^ 32) }
    {
        let offset = params.offset() as usize;
        Place {
            pos: self.compressed2_block_off as usize + offset / 2,
            len: params.byte_len2(),
        }
    }

    /// Where the list of the kind begins.
    pub fn list_pos(self, kind: Kind) -> usize
        ensures { (result ≡ Positions.list_pos kind self) × (result < 2 ^ 32) }
    {
        match kind {
            Kind::Texture => usize::from(self.texture_off),
            Kind::Palette => self.palette_off as usize,
        }
    }
}

impl Layout {
    /// The length of the list of the kind.
    pub fn count_of(self, kind: Kind) -> usize
        ensures { result ≡ Positions.count_of kind self }
    {
        match kind {
            Kind::Texture => self.textures,
            Kind::Palette => self.palettes,
        }
    }
}

/// The word of a texture, by its entry.
pub fn params_at(texture: Entry) -> TextureParams
    ensures { result.0 ≡ entry_number texture.entry.list.kind 4 (listed texture.entry.list) texture.entry.n }
{
    TextureParams(texture.number())
}

/// The offset of a palette, by its entry, in bytes.
pub fn off_at(palette: Entry) -> u32
    ensures { result ≡ 8 * entry_number palette.entry.list.kind 2 (listed palette.entry.list) palette.entry.n }
{
    8 * u32::from(palette.number::<u16>())
}
