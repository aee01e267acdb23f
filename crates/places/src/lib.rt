//! Where in a block all that a picture is made from is.

#![tactic(auto)]

ghost use Rattle.std.specs.Prelude.{◌≡◌};
ghost use Rattle.errors.specs.Refusal.{result_outcome};
ghost use Rattle.scripts.specs.Script.{run};
ghost use Rattle.reading.specs.Tex.{read_tex};
ghost use Rattle.places.specs.Sources as Sources;
ghost use Rattle.places.specs.ByLayout as ByLayout;

use errors::{Kind, Refusal};
pub use layout::Place;
use layout::{Header, off_at, params_at};
use nds::texture_params::TextureParams;
use reading::tex::Tex;

/// What a picture is made from, and where in the block it is.
#[derive(Clone, Copy, Debug, PartialEq, Eq)]
pub struct Places {
    pub params: TextureParams,
    pub data1: Place,
    pub data2: Place,
    /// The offset of the palette that the picture has, in bytes, from the palette block's start.
    pub palette: Option<u32>,
    pub pal_block: Place,
}

/// Where the palette block is.
#[tactic(auto, using(crate::proofs::Sources::finds))]
pub fn pal_place(block: &[u8]) -> Result<Place, Refusal>
    ensures { result_outcome result ≡ Sources.pal_place_of block.now (run read_tex block.now) }
{
    let tex = Tex::read(block)?;
    Ok(tex.layout.header.pal_block())
}

// The offset of the palette that is chosen, if one is.
#[tactic(auto, using(crate::proofs::Sources::finds), unfolding(crate::specs::ByLayout::chosen_by))]
fn chosen_off(tex: Tex, choice: Option<usize>) -> Result<Option<u32>, Refusal>
    ensures { result_outcome result ≡ ByLayout.chosen_by tex.entry.block.now tex.entry.layout choice }
{
    let Some(k) = choice else {
        return Ok(None);
    };
    Ok(Some(off_at(tex.entry(Kind::Palette, k)?)))
}

/// The places of a texture by its word, beside a palette's offset.
pub fn places_of(header: Header, params: TextureParams, palette: Option<u32>) -> Places
    ensures { result ≡ Sources.places_at header params.0 palette }
{
    Places {
        params,
        data1: header.data1(params),
        data2: header.data2(params),
        palette,
        pal_block: header.pal_block(),
    }
}

/// Where in a block that was read all that a picture of texture n with the chosen palette is made from is: one reading serves for many pictures.
#[tactic(auto, using(crate::proofs::Sources::finds), unfolding(crate::specs::ByLayout::places_by))]
pub fn locate_by(tex: Tex, n: usize, choice: Option<usize>) -> Result<Places, Refusal>
    ensures { result_outcome result ≡ Sources.places_of n choice tex.entry.block.now (run read_tex tex.entry.block.now) }
{
    let params = params_at(tex.entry(Kind::Texture, n)?);
    let palette = chosen_off(tex, choice)?;
    Ok(places_of(tex.layout.header, params, palette))
}

/// Where in the block all that a picture of texture n with the chosen palette is made from is.
#[tactic(auto, using(crate::proofs::Sources::finds))]
pub fn locate(block: &[u8], n: usize, choice: Option<usize>) -> Result<Places, Refusal>
    ensures { result_outcome result ≡ Sources.places_of n choice block.now (run read_tex block.now) }
{
    locate_by(Tex::read(block)?, n, choice)
}
