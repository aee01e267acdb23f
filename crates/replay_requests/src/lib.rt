//! Running a case of the program `replay` that is a direct decoding.

#![tactic(auto)]

ghost use Rattle.std.specs.Prelude.{◌+◌, ◌≤◌, IfOk};
ghost use Rattle.replay_cases.specs.declared.TheConstants.{MAX_PART};
ghost use Rattle.replay_requests.specs.declared.TheConstants.{HEAD};

use answer_bytes::MAX_ANSWER;
use decode::decode_texture::Texture;
use direct_answers::direct_agrees;
use nds::texture_params::TextureParams;
use replay_cases::{Broken, MAX_PART, next_bytes, next_part};
use util::unsigned::Unsigned;

// The length of what stands between a direct decoding's first byte and its first data.
const HEAD: usize = 21;

// The length that stands at a position of the head, or that the list is broken where it is over the limit of a part.
fn part_len(head: &[u8; HEAD], pos: usize) -> Result<usize, Broken>
    requires { pos + 4 ≤ HEAD }
    ensures { IfOk result (λ len. len ≤ MAX_PART) }
{
    let len = u32::view(head, pos) as usize;
    if len <= MAX_PART {
        Ok(len)
    } else {
        Err(Broken)
    }
}

/// Whether a case that is a direct decoding agrees. Its parts and the stored answer are read to the room that is lent for them, all three parts at
/// once.
pub fn run_direct(parts: &mut [u8], stored: &mut [u8]) -> Result<bool, Broken> {
    let mut head = [0; HEAD];
    next_bytes(&mut head, HEAD)?;
    // A length over its limit breaks the list before any part is read, for which a pipe might be waited.
    let data1_len = part_len(&head, 9)?;
    let data2_len = part_len(&head, 13)?;
    let pal_len = part_len(&head, 17)?;
    let parts = next_bytes(parts, data1_len + data2_len + pal_len)?;
    let texture = Texture {
        params: TextureParams(u32::view(&head, 0)),
        palette: (head[4] != 0).then_some(u32::view(&head, 5)),
        data1: &parts[..data1_len],
        data2: &parts[data1_len..data1_len + data2_len],
        pal_block: &parts[data1_len + data2_len..],
    };
    let most = stored.len().min(MAX_ANSWER);
    Ok(direct_agrees(texture, next_part(&mut stored[..most])?))
}
