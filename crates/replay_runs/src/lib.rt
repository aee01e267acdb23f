//! Running the next case of the list that the program `replay` reads.

#![tactic(auto)]

use answer_bytes::MAX_ANSWER;
use block_answers::block_agrees;
use replay_cases::{Broken, MAX_PART, next_part, next_u8};
use replay_requests::run_direct;

// Whether a case that is a block agrees.
fn run_block(parts: &mut [u8], stored: &mut [u8]) -> Result<bool, Broken> {
    let most = parts.len().min(MAX_PART);
    let block = next_part(&mut parts[..most])?;
    let most = stored.len().min(MAX_ANSWER);
    Ok(block_agrees(block, next_part(&mut stored[..most])?))
}

/// Whether the list's next case agrees, or None at the list's end. A case's first byte says what it is. Its parts and the stored answer are read to
/// the room that is lent for them.
pub fn run_case(parts: &mut [u8], stored: &mut [u8]) -> Result<Option<bool>, Broken> {
    let Ok(first) = next_u8() else {
        return Ok(None);
    };
    match first {
        b'B' => run_block(parts, stored).map(Some),
        b'D' => run_direct(parts, stored).map(Some),
        _ => Err(Broken),
    }
}
