//! The reading of a TEX0 block: its header, its two lists, and whether all of their data are there.
//!
//! A reading keeps nothing but positions and counts.

#![tactic(auto)]

ghost use Rattle.std.specs.Prelude.{◌≡◌, ◌+◌, ◌<◌, ◌^◌};
ghost use Rattle.util.specs.Outcome.{result as answered};
ghost use Rattle.errors.specs.Refusal.{result_outcome, outcome_as};
ghost use Rattle.errors.specs.declared.Kind.TheVariants as kinds;
ghost use Rattle.scripts.specs.Script.{bytes_at, run, outcome_of, passing};
ghost use Rattle.info_block.specs.Lists.{listed};
ghost use Rattle.reading.specs.Tex as Tex;
ghost use Rattle.reading.specs.Layouts as Layouts;

pub mod tex;

use errors::{Kind, Refusal};
use info_block::name_list::NameList;
use layout::{Header, Layout, Place, params_at};
use nds::texture_formats::TextureFormat;
use nds::texture_params::TextureParams;
use scripts::take;
use util::unsigned::Unsigned;

// Whether a block's first bytes begin with TEX0.
#[tactic(auto, using(crate::proofs::Readings::stamp_starts))]
fn has_stamp(head: &[u8; 60]) -> bool
    ensures { result ≡ Tex.has_stamp head.now }
{
    head.starts_with(b"TEX0")
}

// The header's fields.
#[tactic(auto, unfolding(crate::specs::Tex::header_of))]
fn header_of(head: &[u8; 60]) -> Header
    ensures { result ≡ Tex.header_of head.now }
{
    Header {
        texture_off: u16::view(head, 14),
        tex_block_off: u32::view(head, 20),
        compressed1_block_off: u32::view(head, 36),
        compressed2_block_off: u32::view(head, 40),
        pal_block_len_shr_3: u16::view(head, 48),
        palette_off: u32::view(head, 52),
        pal_block_off: u32::view(head, 56),
    }
}

// Reads the header, and then checks its stamp.
#[tactic(auto, using(crate::proofs::Readings::reads))]
fn read_header(block: &[u8]) -> Result<Header, Refusal>
    ensures { result_outcome result ≡ outcome_of (run Tex.read_header block.now) answered }
{
    let head: &[u8; 60] = take(block, 0, 60)?.try_into().unwrap();
    if has_stamp(head) {
        Ok(header_of(head))
    } else {
        Err(Refusal::Stamp)
    }
}

// Takes the bytes of a place.
fn take_place(block: &[u8], place: Place) -> Result<&[u8], Refusal>
    requires { place.pos + place.len < 2 ^ 64 }
    ensures { outcome_as (λ part. part.now) result ≡ outcome_of (run (bytes_at place.pos place.len) block.now) answered }
{
    take(block, place.pos, place.len)
}

// Takes the palette block.
#[tactic(auto, unfolding(crate::specs::Tex::read_pal_block))]
fn take_pal_block(block: &[u8], header: Header) -> Result<&[u8], Refusal>
    ensures { outcome_as (λ part. part.now) result ≡ outcome_of (run (Tex.read_pal_block header) block.now) answered }
{
    take_place(block, header.pal_block())
}

// Takes the second data, which a texture of format 5 alone has.
#[tactic(auto, using(crate::proofs::Readings::reads))]
fn take_data2(block: &[u8], header: Header, params: TextureParams) -> Result<&[u8], Refusal>
    ensures { outcome_as (λ part. part.now) result ≡ outcome_of (run (Tex.read_second header params.0) block.now) answered }
{
    if params.format() == TextureFormat::Compressed {
        take_place(block, header.data2(params))
    } else {
        Ok(&[])
    }
}

// Whether a texture's data are there, the first and then the second. A texture of format 0 has 0 bytes, and a position all the same.
#[tactic(auto, using(crate::proofs::Readings::reads))]
fn take_data(block: &[u8], header: Header, params: TextureParams) -> Result<(), Refusal>
    ensures { result_outcome result ≡ passing (Tex.read_data header params.0) block.now }
{
    take_place(block, header.data1(params))?;
    take_data2(block, header, params)?;
    Ok(())
}

// Whether the data of all textures of a list are there, in list order.
#[tactic(auto, using(crate::proofs::Readings::goes))]
fn take_all_data(block: &[u8], header: Header, list: NameList) -> Result<usize, Refusal>
    requires { list.kind ≡ kinds.Texture }
    ensures { result_outcome result ≡ Layouts.counting (Layouts.each_texture header list.entry.count (listed list.entry)) block.now }
{
    for i in 0..list.count {
        take_data(block, header, params_at(list.entry(i)))?;
    }
    Ok(list.count)
}

// Reads the texture list, and then each texture's data.
#[tactic(auto, using(crate::proofs::Readings::reads))]
fn read_textures(block: &[u8], header: Header) -> Result<usize, Refusal>
    ensures { result_outcome result ≡ Layouts.counting (Tex.read_textures header) block.now }
{
    let list = info_block::read(block, Kind::Texture, u32::from(header.texture_off))?;
    take_all_data(block, header, list)
}

// Reads the palette list.
#[tactic(auto, using(crate::proofs::Readings::reads))]
fn read_palettes(block: &[u8], header: Header) -> Result<usize, Refusal>
    ensures { result_outcome result ≡ Layouts.counting (Tex.read_palettes header) block.now }
{
    let list = info_block::read(block, Kind::Palette, header.palette_off)?;
    Ok(list.count)
}

/// Reads the block: header, palette block, textures, palettes.
#[tactic(auto, using(crate::proofs::Readings::lays))]
pub fn lay_out(block: &[u8]) -> Result<Layout, Refusal>
    ensures { result_outcome result ≡ Layouts.layout_answer block.now (run Tex.read_tex block.now) }
{
    let header = read_header(block)?;
    take_pal_block(block, header)?;
    let textures = read_textures(block, header)?;
    let palettes = read_palettes(block, header)?;
    Ok(Layout {
        header,
        textures,
        palettes,
    })
}
