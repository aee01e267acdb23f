//! The part of a block's answer that has its textures: names and their texts, words and data. The program `replay` says what stands there.

#![tactic(auto)]

ghost use Rattle.std.specs.Prelude.{◌≡◌};
ghost use Rattle.scripts.specs.Script.{run};
ghost use Rattle.reading.specs.Tex.{read_tex as reading};
ghost use Rattle.nitro.specs.Calls.{texture_of, data1_of, data2_of};
ghost use Rattle.answer_bytes.specs.Answer.{extended};
ghost use Rattle.answer_textures.specs.Textures.{texture_bytes, textures_bytes};

use answer_bytes::Answer;
use answer_palettes::put_record;
use nitro::tex;

// Puts what the record call answers for texture n, and the texture's data. A refusal is its class alone, which is shorter than any record.
#[tactic(auto, using(answer_bytes::proofs::Extended::extended_twice))]
fn put_texture(answer: &mut Answer, block: &[u8], n: usize)
    ensures { answer.new ≡ extended answer.old (texture_bytes (texture_of n (run reading block.now)) (data1_of n (run reading block.now)) (data2_of n (run reading block.now))) }
{
    match tex::texture(block, n) {
        Ok(record) => {
            put_record(answer, record.name, record.params.0);
            answer.put_part(tex::texture_data1(block, n));
            answer.put_part(tex::texture_data2(block, n));
        }
        Err(refusal) => answer.put_class(refusal),
    }
}

/// Puts each texture of the block.
#[tactic(auto, using(answer_bytes::proofs::Extended::extended_twice, answer_bytes::proofs::Extended::extended_none), unfolding(output::specs::Output::pieces))]
pub fn put_textures(answer: &mut Answer, block: &[u8], textures: usize)
    ensures { answer.new ≡ extended answer.old (textures_bytes block.now textures) }
{
    for n in 0..textures {
        put_texture(answer, block, n);
    }
}
