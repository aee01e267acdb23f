//! What the calls for other languages tell of an answer, in numbers.

#![tactic(auto)]

ghost use Rattle.std.specs.Prelude.{◌≡◌};
ghost use Rattle.errors.specs.Refusal.{result_outcome};
ghost use Rattle.told.specs.Told as Told;

use errors::Refusal;
use layout::Place;
use nds::texture_formats::Alpha;
use nds::wrap::Wrap;
use nitro::tex::Counts;

pub fn wrap_number(wrap: Wrap) -> u32
    ensures { result ≡ Told.wrap_number wrap }
{
    wrap as u32
}

pub fn alpha_number(alpha: Alpha) -> u32
    ensures { result ≡ Told.alpha_number alpha }
{
    alpha as u32
}

/// The palette that is chosen, by its number for a picture and by its offset for a direct decoding: none where has_palette is 0.
pub fn choice_of<T: Drop>(has_palette: u32, palette: T) -> Option<T>
    ensures { result ≡ Told.choice_of has_palette palette }
{
    (has_palette != 0).then_some(palette)
}

/// The number that a call returns: 0, or the refusal's.
pub fn code_of<T: Copy>(answer: Result<T, Refusal>) -> u32
    ensures { result ≡ Told.code_of (result_outcome answer) }
{
    answer.err().map_or(0, |refusal| refusal.number() as u32)
}

/// What is told of every answer: its number, and the length that a short block needs, which is 0 where the block is not short.
pub fn tell<T: Copy>(answer: Result<T, Refusal>, needed: &mut usize) -> u32
    ensures value { result ≡ Told.code_of (result_outcome answer) }
    ensures needed_after { needed.new ≡ Told.needed_of (result_outcome answer) }
{
    *needed = answer.err().map_or(0, Refusal::returned);
    code_of(answer)
}

/// An answer with a length, of a call that is never short.
pub fn tell_len(answer: Result<usize, Refusal>, len: &mut usize) -> u32
    ensures value { result ≡ Told.code_of (result_outcome answer) }
    ensures len_after { len.new ≡ Told.left len.old Told.itself (result_outcome answer) }
{
    if let Ok(written) = answer {
        *len = written;
    }
    code_of(answer)
}

/// An answer with a length.
pub fn tell_count(answer: Result<usize, Refusal>, len: &mut usize, needed: &mut usize) -> u32
    ensures value { result ≡ Told.code_of (result_outcome answer) }
    ensures len_after { len.new ≡ Told.left len.old Told.itself (result_outcome answer) }
    ensures needed_after { needed.new ≡ Told.needed_of (result_outcome answer) }
{
    tell_len(answer, len);
    tell(answer, needed)
}

/// A reading's answer.
pub fn tell_counts(
    answer: Result<Counts, Refusal>,
    textures: &mut usize,
    palettes: &mut usize,
    needed: &mut usize,
) -> u32
    ensures value { result ≡ Told.code_of (result_outcome answer) }
    ensures textures_after { textures.new ≡ Told.left textures.old Told.textures (result_outcome answer) }
    ensures palettes_after { palettes.new ≡ Told.left palettes.old Told.palettes (result_outcome answer) }
    ensures needed_after { needed.new ≡ Told.needed_of (result_outcome answer) }
{
    if let Ok(counts) = answer {
        *textures = counts.textures;
        *palettes = counts.palettes;
    }
    tell(answer, needed)
}

/// An answer with a part's place. A part without bytes begins at 0.
pub fn tell_part(
    answer: Result<Place, Refusal>,
    pos: &mut usize,
    len: &mut usize,
    needed: &mut usize,
) -> u32
    ensures value { result ≡ Told.code_of (result_outcome answer) }
    ensures pos_after { pos.new ≡ Told.left pos.old Told.told_pos (result_outcome answer) }
    ensures len_after { len.new ≡ Told.left len.old Told.len (result_outcome answer) }
    ensures needed_after { needed.new ≡ Told.needed_of (result_outcome answer) }
{
    if let Ok(place) = answer {
        *pos = place.told().pos;
        *len = place.len;
    }
    tell(answer, needed)
}
