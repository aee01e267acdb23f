//! Fetching runs: a reading or a picture of a whole block, and how many answers were short.
ghost use Rattle.std.specs.Prelude.{◌≡◌, ◌+◌, ◌*◌, ◌≤◌};
ghost use Rattle.output.specs.Output.{write_outcome, write_output};
ghost use Rattle.stream.specs.Fetch as Fetch;
ghost use Rattle.told.specs.Told as Told;

use stream::fetch_picture::fetch_picture;
use stream::fetch_tex::fetch_tex;
use told::{choice_of, tell_count, tell_counts};

/// Reads the block as far as each answer needs.
#[unsafe(no_mangle)]
pub extern "C" fn rasclanya_fetch_tex(
    block: &[u8],
    textures: &mut usize,
    palettes: &mut usize,
    short_answers: &mut usize,
    needed: &mut usize,
) -> u32
    ensures value { result ≡ Told.code_of (Told.reading block.now) }
    ensures textures_after { textures.new ≡ Told.left textures.old Told.textures (Told.reading block.now) }
    ensures palettes_after { palettes.new ≡ Told.left palettes.old Told.palettes (Told.reading block.now) }
    ensures short_answers_after { short_answers.new ≡ Fetch.short_answers block.now }
    ensures short_answers_bound { short_answers.new ≤ 6 + 2 * Fetch.texture_count block.now }
    ensures needed_after { needed.new ≡ Told.needed_of (Told.reading block.now) }
{
    let tex_run = fetch_tex(block);
    *short_answers = tex_run.short_answers;
    tell_counts(tex_run.answer, textures, palettes, needed)
}

/// Makes the picture of texture n, reading the block as far as each answer needs. Where has_palette is 0 there is no palette.
#[unsafe(no_mangle)]
pub extern "C" fn rasclanya_fetch_picture(
    block: &[u8],
    n: usize,
    has_palette: u32,
    palette: usize,
    out: &mut [u8],
    len: &mut usize,
    short_answers: &mut usize,
    needed: &mut usize,
) -> u32
    ensures value { result ≡ Told.code_of (write_outcome (Told.picture block.now n has_palette palette) out.old) }
    ensures out_after { out.new ≡ write_output (Told.picture block.now n has_palette palette) out.old }
    ensures len_after { len.new ≡ Told.left len.old Told.itself (write_outcome (Told.picture block.now n has_palette palette) out.old) }
    ensures short_answers_after { short_answers.new ≡ Fetch.short_answers block.now }
    ensures short_answers_bound { short_answers.new ≤ 6 + 2 * Fetch.texture_count block.now }
    ensures needed_after { needed.new ≡ Told.needed_of (write_outcome (Told.picture block.now n has_palette palette) out.old) }
{
    let picture_run = fetch_picture(block, n, choice_of(has_palette, palette), out);
    *short_answers = picture_run.short_answers;
    tell_count(picture_run.answer, len, needed)
}
