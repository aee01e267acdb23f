//! The answer to a direct decoding, as bytes, and whether it is the stored one. The program `replay` says what an answer has.

#![tactic(auto)]

ghost use Rattle.std.specs.Prelude.{◌≡◌, ◌↔◌, [], IsTrue};
ghost use Rattle.decode.specs.Pictures.{decoded, sources};
ghost use Rattle.answer_bytes.specs.Answer.{with_picture};

use answer_bytes::Answer;
use decode::decode_texture::{Texture, decode_texture};

/// Whether the direct decoding's answer is the stored one.
#[tactic(auto, using(answer_bytes::proofs::Pictures::drawn_made))]
pub fn direct_agrees(texture: Texture, stored: &[u8]) -> bool
    ensures { IsTrue result ↔ (with_picture [] (decoded (sources texture.entry.params.0 texture.entry.data1.now texture.entry.data2.now texture.entry.palette texture.entry.pal_block.now)) ≡ stored.now) }
{
    let mut answer = Answer::new();
    // The closure captures the parts: with the texture in their place it proves, and what `put_picture` does with it does not.
    let Texture {
        params,
        data1,
        data2,
        palette,
        pal_block,
    } = texture;
    answer.put_picture(|out| {
        let texture = Texture {
            params,
            data1,
            data2,
            palette,
            pal_block,
        };
        decode_texture(texture, out)
    });
    answer.agrees(stored)
}
