//! The part of a block's answer that has its palettes: names and their texts, offsets, and the palette block. The program `replay` says what
//! stands there.

#![tactic(auto)]

ghost use Rattle.std.specs.Prelude.{◌≡◌};
ghost use Rattle.errors.specs.Refusal.{result_outcome};
ghost use Rattle.answer_bytes.specs.Answer.{extended};
ghost use Rattle.answer_palettes.specs.Palettes.{text_bytes, record_bytes, palette_bytes, palettes_bytes, pal_block_bytes};

use answer_bytes::Answer;
use errors::Refusal;
use name::Name;
use nitro::tex::{self, PaletteRecord};

// Puts a text behind its length.
#[tactic(auto, using(answer_bytes::proofs::Extended::extended_twice))]
fn put_text(answer: &mut Answer, text: &[u8])
    ensures { answer.new ≡ extended answer.old (text_bytes text.now) }
{
    answer.put_u8(text.len());
    answer.put_bytes(text);
}

/// What each record has: its name, its number, which is a texture's word or a palette's offset, and the name's safe text and its Display text,
/// which have at most 32 bytes.
#[tactic(auto, using(answer_bytes::proofs::Extended::extended_twice, crate::proofs::Records::records))]
pub fn put_record(answer: &mut Answer, name: Name, number: u32)
    ensures { answer.new ≡ extended answer.old (record_bytes name.0 number) }
{
    let mut safe = [0; 32];
    let mut display = [0; 32];
    let safe_len = name.print_safe(&mut safe).unwrap();
    let display_len = name.display(&mut display).unwrap();
    answer.put_bytes(&name.0);
    answer.put_u32(number as usize);
    put_text(answer, &safe[..safe_len]);
    put_text(answer, &display[..display_len]);
}

// Puts what the record call answers for a palette. A refusal is its class alone, which is shorter than any record.
fn put_palette(answer: &mut Answer, palette: Result<PaletteRecord, Refusal>)
    ensures { answer.new ≡ extended answer.old (palette_bytes (result_outcome palette)) }
{
    match palette {
        Ok(record) => put_record(answer, record.name, record.off),
        Err(refusal) => answer.put_class(refusal),
    }
}

/// Puts what the record call answers for each palette of the block.
#[tactic(auto, using(answer_bytes::proofs::Extended::extended_twice, answer_bytes::proofs::Extended::extended_none), unfolding(output::specs::Output::pieces))]
pub fn put_palettes(answer: &mut Answer, block: &[u8], palettes: usize)
    ensures { answer.new ≡ extended answer.old (palettes_bytes block.now palettes) }
{
    for n in 0..palettes {
        put_palette(answer, tex::palette(block, n));
    }
}

/// Puts the palette block, where there is any palette.
#[tactic(auto, using(answer_bytes::proofs::Extended::extended_none))]
pub fn put_pal_block(answer: &mut Answer, block: &[u8], palettes: usize)
    ensures { answer.new ≡ extended answer.old (pal_block_bytes block.now palettes) }
{
    if palettes != 0 {
        answer.put_part(tex::pal_block(block));
    }
}
