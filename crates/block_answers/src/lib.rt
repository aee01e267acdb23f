//! The answer to a block, as bytes, and whether it is the stored one. The program `replay` says what an answer has.

#![tactic(auto)]

ghost use Rattle.std.specs.Prelude.{◌≡◌, ◌↔◌, [], IsTrue};
ghost use Rattle.errors.specs.Refusal.{result_outcome};
ghost use Rattle.answer_bytes.specs.Answer.{extended};
ghost use Rattle.answer_pictures.specs.Pictures.{with_pictures};
ghost use Rattle.block_answers.specs.Block.{read_bytes, answer_by, answer_to};

use answer_bytes::Answer;
use answer_palettes::{put_pal_block, put_palettes};
use answer_pictures::put_pictures;
use answer_textures::put_textures;
use errors::Refusal;
use nitro::tex::{self, Counts};

// Puts all that is answered of a block that is read, behind class 0.
#[tactic(auto, using(answer_bytes::proofs::Extended::extended_twice))]
fn put_read(answer: &mut Answer, block: &[u8], counts: Counts)
    ensures { answer.new ≡ with_pictures block.now counts.palettes counts.textures (extended answer.old (read_bytes block.now counts.textures counts.palettes)) }
{
    answer.put_u8(0);
    answer.put_u8(counts.textures);
    answer.put_u8(counts.palettes);
    put_textures(answer, block, counts.textures);
    put_palettes(answer, block, counts.palettes);
    put_pal_block(answer, block, counts.palettes);
    put_pictures(answer, block, counts);
}

// Puts the answer to a block that is read so, where nothing is put yet. It is lent, since an answer's room is too large to be handed out each time.
fn put_answer(answer: &mut Answer, block: &[u8], reading: Result<Counts, Refusal>)
    requires { answer.old ≡ [] }
    ensures { answer.new ≡ answer_by block.now (result_outcome reading) }
{
    match reading {
        Ok(counts) => put_read(answer, block, counts),
        Err(refusal) => answer.put_class(refusal),
    }
}

/// Whether the block's answer is the stored one. It is not inlined, so that a direct decoding does not need the stack for a block's answer too.
#[inline(never)]
pub fn block_agrees(block: &[u8], stored: &[u8]) -> bool
    ensures { IsTrue result ↔ (answer_to block.now ≡ stored.now) }
{
    let mut answer = Answer::new();
    put_answer(&mut answer, block, tex::read_tex(block));
    answer.agrees(stored)
}
