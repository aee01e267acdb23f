//! Readings and records.
ghost use Rattle.std.specs.Prelude.{◌≡◌, ◌++◌, ◌≤◌, length, drop};
ghost use Rattle.errors.specs.Refusal.{result_outcome};
ghost use Rattle.told.specs.Told as Told;

use errors::Refusal;
use name::Name;
use nitro::tex;
use told::{alpha_number, tell, tell_counts, wrap_number};

/// Reads the block: how many textures and palettes it has.
#[unsafe(no_mangle)]
pub extern "C" fn rasclanya_read_tex(
    block: &[u8],
    textures: &mut usize,
    palettes: &mut usize,
    needed: &mut usize,
) -> u32
    ensures value { result ≡ Told.code_of (Told.reading block.now) }
    ensures textures_after { textures.new ≡ Told.left textures.old Told.textures (Told.reading block.now) }
    ensures palettes_after { palettes.new ≡ Told.left palettes.old Told.palettes (Told.reading block.now) }
    ensures needed_after { needed.new ≡ Told.needed_of (Told.reading block.now) }
{
    tell_counts(tex::read_tex(block), textures, palettes, needed)
}

// A record whose name goes to an output: declined also where the output has no room for a name.
#[tactic(auto, using(crate::proofs::Named::named_there, crate::proofs::Named::named_short, crate::proofs::Named::named_refused))]
fn named<T: Copy>(output: &[u8], answer: Result<T, Refusal>) -> Result<T, Refusal>
    ensures { result_outcome result ≡ Told.named output.now (result_outcome answer) }
{
    let record = answer?;
    if output.len() < 16 {
        return Err(Refusal::Output);
    }
    Ok(record)
}

// Writes the 16 bytes of a name to the start of the output.
fn put_name(out: &mut [u8], name: Name)
    requires { 16 ≤ length out.old }
    ensures { out.new ≡ name.0 ++ drop 16 out.old }
{
    out[..16].copy_from_slice(&name.0);
}

/// The record of texture n. Its name goes to the first 16 bytes of an output.
#[tactic(auto, using(crate::proofs::Named::named_room))]
#[unsafe(no_mangle)]
pub extern "C" fn rasclanya_texture(
    block: &[u8],
    n: usize,
    name: &mut [u8],
    word: &mut u32,
    wrap_s: &mut u32,
    wrap_t: &mut u32,
    alpha: &mut u32,
    needed: &mut usize,
) -> u32
    ensures value { result ≡ Told.code_of (Told.texture block.now n name.old) }
    ensures name_after { name.new ≡ Told.left name.old (Told.texture_name name.old) (Told.texture block.now n name.old) }
    ensures word_after { word.new ≡ Told.left word.old Told.texture_word (Told.texture block.now n name.old) }
    ensures wrap_s_after { wrap_s.new ≡ Told.left wrap_s.old Told.texture_wrap_s (Told.texture block.now n name.old) }
    ensures wrap_t_after { wrap_t.new ≡ Told.left wrap_t.old Told.texture_wrap_t (Told.texture block.now n name.old) }
    ensures alpha_after { alpha.new ≡ Told.left alpha.old Told.texture_alpha (Told.texture block.now n name.old) }
    ensures needed_after { needed.new ≡ Told.needed_of (Told.texture block.now n name.old) }
{
    let record = named(name, tex::texture(block, n));
    if let Ok(texture) = record {
        put_name(name, texture.name);
        *word = texture.params.0;
        *wrap_s = wrap_number(texture.wrap_s);
        *wrap_t = wrap_number(texture.wrap_t);
        *alpha = alpha_number(texture.alpha);
    }
    tell(record, needed)
}

/// The record of palette n. Its name goes to the first 16 bytes of an output.
#[tactic(auto, using(crate::proofs::Named::named_room))]
#[unsafe(no_mangle)]
pub extern "C" fn rasclanya_palette(
    block: &[u8],
    n: usize,
    name: &mut [u8],
    off: &mut u32,
    needed: &mut usize,
) -> u32
    ensures value { result ≡ Told.code_of (Told.palette block.now n name.old) }
    ensures name_after { name.new ≡ Told.left name.old (Told.palette_name name.old) (Told.palette block.now n name.old) }
    ensures off_after { off.new ≡ Told.left off.old Told.palette_off (Told.palette block.now n name.old) }
    ensures needed_after { needed.new ≡ Told.needed_of (Told.palette block.now n name.old) }
{
    let record = named(name, tex::palette(block, n));
    if let Ok(palette) = record {
        put_name(name, palette.name);
        *off = palette.off;
    }
    tell(record, needed)
}
