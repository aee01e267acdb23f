//! TEX0 blocks: what a reading found, as counts, records and parts of the block.
//!
//! Each call reads the block, and then picks what it was asked for. `texture_by` and `palette_by` are handed a block that was read, so that one
//! reading serves for many records.
ghost use Rattle.std.specs.Prelude.{◌≡◌, ◌*◌, ◌<◌};
ghost use Rattle.util.specs.Outcome.{result as answered};
ghost use Rattle.scripts.specs.Script.{run};
ghost use Rattle.reading.specs.Tex.{read_tex as reading};
ghost use Rattle.info_block.specs.InfoBlock.{entry_name, entry_number};
ghost use Rattle.info_block.specs.Lists.{listed};
ghost use Rattle.errors.specs.Refusal.{result_outcome, outcome_as};
ghost use Rattle.nitro.specs.Calls as Calls;

use errors::{Kind, Refusal};
use info_block::name_list::Entry;
use layout::{off_at, params_at};
use name::Name;
use nds::texture_formats::Alpha;
use nds::texture_params::TextureParams;
use nds::wrap::Wrap;
use reading::tex::Tex;

/// How many textures and palettes a block has.
#[derive(Clone, Copy, Debug, PartialEq, Eq)]
pub struct Counts {
    pub textures: usize,
    pub palettes: usize,
}

#[derive(Clone, Copy, Debug, PartialEq, Eq)]
pub struct TextureRecord {
    pub name: Name,
    pub params: TextureParams,
    pub wrap_s: Wrap,
    pub wrap_t: Wrap,
    pub alpha: Alpha,
}

#[derive(Clone, Copy, Debug, PartialEq, Eq)]
pub struct PaletteRecord {
    pub name: Name,
    /// In bytes, from the palette block's start.
    pub off: u32,
}

// The record of a texture by its name and its word.
fn texture_record(name: Name, params: TextureParams) -> TextureRecord
    ensures { result ≡ Calls.texture_record name.0 params.0 }
{
    TextureRecord {
        name,
        params,
        wrap_s: params.wrap_s(),
        wrap_t: params.wrap_t(),
        alpha: params.alpha_type(),
    }
}

/// What stands for the record of a texture that a block does not have: a name of zeros, and the word 0.
pub fn no_texture() -> TextureRecord
    ensures { result ≡ Calls.no_texture }
{
    texture_record(Name([0; 16]), TextureParams(0))
}

/// What stands for the record of a palette that a block does not have: a name of zeros, and the offset 0.
pub fn no_palette() -> PaletteRecord
    ensures { result ≡ Calls.no_palette }
{
    PaletteRecord {
        name: Name([0; 16]),
        off: 0,
    }
}

/// The record of an answer, or where it is refused the one that stands for it, `no_texture`.
#[tactic(auto, unfolding(crate::specs::Calls::value_or))]
pub fn texture_or_blank(answer: Result<TextureRecord, Refusal>) -> TextureRecord
    ensures { result ≡ Calls.value_or Calls.no_texture (result_outcome answer) }
{
    answer.unwrap_or(no_texture())
}

/// The same of a palette's, by `no_palette`.
#[tactic(auto, unfolding(crate::specs::Calls::value_or))]
pub fn palette_or_blank(answer: Result<PaletteRecord, Refusal>) -> PaletteRecord
    ensures { result ≡ Calls.value_or Calls.no_palette (result_outcome answer) }
{
    answer.unwrap_or(no_palette())
}

/// Reads the block: how many textures and palettes it has.
#[tactic(auto, using(crate::proofs::Answers::answers))]
pub fn read_tex(block: &[u8]) -> Result<Counts, Refusal>
    ensures { result_outcome result ≡ Calls.reading_of (run reading block.now) }
{
    let layout = Tex::read(block)?.layout;
    Ok(Counts {
        textures: layout.textures,
        palettes: layout.palettes,
    })
}

// The record of a texture by its entry.
fn texture_at(texture: Entry) -> TextureRecord
    ensures { result ≡ Calls.texture_record (entry_name texture.entry.list.kind (listed texture.entry.list) texture.entry.n) (entry_number texture.entry.list.kind 4 (listed texture.entry.list) texture.entry.n) }
{
    texture_record(texture.name(), params_at(texture))
}

/// The record of texture n of a block that was read.
#[tactic(auto, using(crate::proofs::Answers::answers))]
pub fn texture_by(tex: Tex, n: usize) -> TextureRecord
    requires { n < tex.layout.textures }
    ensures { answered result ≡ Calls.texture_of n (run reading tex.entry.block.now) }
{
    texture_at(tex.list(Kind::Texture).entry(n))
}

/// The record of texture n.
#[tactic(auto, using(crate::proofs::Answers::answers))]
pub fn texture(block: &[u8], n: usize) -> Result<TextureRecord, Refusal>
    ensures { result_outcome result ≡ Calls.texture_of n (run reading block.now) }
{
    Ok(texture_at(Tex::read(block)?.entry(Kind::Texture, n)?))
}

// The record of a palette by its entry.
fn palette_at(palette: Entry) -> PaletteRecord
    ensures { result ≡ Calls.palette_record (entry_name palette.entry.list.kind (listed palette.entry.list) palette.entry.n) (8 * entry_number palette.entry.list.kind 2 (listed palette.entry.list) palette.entry.n) }
{
    PaletteRecord {
        name: palette.name(),
        off: off_at(palette),
    }
}

/// The record of palette n of a block that was read.
#[tactic(auto, using(crate::proofs::Answers::answers))]
pub fn palette_by(tex: Tex, n: usize) -> PaletteRecord
    requires { n < tex.layout.palettes }
    ensures { answered result ≡ Calls.palette_of n (run reading tex.entry.block.now) }
{
    palette_at(tex.list(Kind::Palette).entry(n))
}

/// The record of palette n.
#[tactic(auto, using(crate::proofs::Answers::answers))]
pub fn palette(block: &[u8], n: usize) -> Result<PaletteRecord, Refusal>
    ensures { result_outcome result ≡ Calls.palette_of n (run reading block.now) }
{
    Ok(palette_at(Tex::read(block)?.entry(Kind::Palette, n)?))
}

// The data of texture n, or the first data of a block-compressed texture, where the block has such a texture.
#[tactic(auto, using(crate::proofs::Answers::answers))]
fn data1_found(block: &[u8], n: usize) -> Result<&[u8], Refusal>
    ensures { outcome_as (λ part. part.now) result ≡ Calls.texture_entry (λ texture. texture.parts.data1) n (run reading block.now) }
{
    let tex = Tex::read(block)?;
    let params = params_at(tex.entry(Kind::Texture, n)?);
    Ok(tex.layout.header.data1(params).part(block))
}

/// The data of texture n, or the first data of a block-compressed texture.
#[tactic(auto, unfolding(crate::specs::Calls::data1_of))]
pub fn texture_data1(block: &[u8], n: usize) -> &[u8]
    ensures { result.now ≡ Calls.data1_of n (run reading block.now) }
{
    data1_found(block, n).unwrap_or(&[])
}

// The second data of texture n, where the block has such a texture.
#[tactic(auto, using(crate::proofs::Answers::answers))]
fn data2_found(block: &[u8], n: usize) -> Result<&[u8], Refusal>
    ensures { outcome_as (λ part. part.now) result ≡ Calls.texture_entry (λ texture. texture.parts.data2) n (run reading block.now) }
{
    let tex = Tex::read(block)?;
    let params = params_at(tex.entry(Kind::Texture, n)?);
    Ok(tex.layout.header.data2(params).part(block))
}

/// The second data of texture n. Only a block-compressed texture has any.
#[tactic(auto, unfolding(crate::specs::Calls::data2_of))]
pub fn texture_data2(block: &[u8], n: usize) -> &[u8]
    ensures { result.now ≡ Calls.data2_of n (run reading block.now) }
{
    data2_found(block, n).unwrap_or(&[])
}

/// The palette block, which all palettes share.
#[tactic(auto, using(crate::proofs::Answers::answers))]
pub fn pal_block(block: &[u8]) -> &[u8]
    ensures { result.now ≡ Calls.pal_block_of (run reading block.now) }
{
    Tex::read(block).map_or(&[], |tex| tex.layout.header.pal_block().part(block))
}
