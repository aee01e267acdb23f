//! The part of a block's answer that has the pictures of its textures. The program `replay` says what stands there.

#![tactic(auto)]

ghost use Rattle.std.specs.Prelude.{◌≡◌};
ghost use Rattle.answer_pictures.specs.Pictures.{with_one, with_both, with_pictures};

use answer_bytes::Answer;
use decode::picture::picture;
use nitro::tex::Counts;

// Puts the picture of texture n with the chosen palette.
#[tactic(auto, using(answer_bytes::proofs::Pictures::drawn_made, answer_bytes::proofs::Pictures::rest_kept))]
fn put_one(answer: &mut Answer, block: &[u8], n: usize, choice: Option<usize>)
    ensures { answer.new ≡ with_one block.now n choice answer.old }
{
    answer.put_picture_keeping(|out| picture(block, n, choice, out));
}

// Puts the pictures of texture n: without a palette, and, where there is any palette, with one.
#[tactic(auto, unfolding(crate::specs::Pictures::with_both))]
fn put_both(answer: &mut Answer, block: &[u8], n: usize, palettes: usize)
    ensures { answer.new ≡ with_both block.now palettes n answer.old }
{
    put_one(answer, block, n, None);
    if let Some(k) = n.checked_rem(palettes) {
        put_one(answer, block, n, Some(k));
    }
}

/// Puts the pictures of each texture.
#[tactic(auto, unfolding(crate::specs::Pictures::with_pictures))]
pub fn put_pictures(answer: &mut Answer, block: &[u8], counts: Counts)
    ensures { answer.new ≡ with_pictures block.now counts.palettes counts.textures answer.old }
{
    for n in 0..counts.textures {
        put_both(answer, block, n, counts.palettes);
    }
}
