//! How the program `picture_calls` prints the answer of a picture call: the answer, a checksum of the output, and some texels.

#![tactic(auto)]

use cursor::part_at;
use errors::Refusal;
use report::{number, text};

// The places of texels 0 to 3, 7, 8, 36 and 63, which every picture has.
const TEXELS: [usize; 8] = [0, 4, 8, 12, 28, 32, 144, 252];

// A sum that depends on each byte and its place.
fn checksum(out: &[u8]) -> u64 {
    out.iter()
        .fold(1, |sum, b| 31 * (sum % 4294967291) + u64::from(*b))
}

// Prints the four bytes of the texel at pos.
fn texel(out: &[u8], pos: usize) {
    text(b" |");
    for b in part_at(out, pos, 4) {
        number(u64::from(*b));
    }
}

/// Prints an answer, the output's checksum, and of a picture some texels.
pub fn written(answer: Result<usize, Refusal>, out: &[u8]) {
    match answer {
        Ok(n) => {
            text(b" ok");
            number(n as u64);
        }
        Err(refusal) => {
            text(b" refused");
            number(refusal.number() as u64);
            number(refusal.returned() as u64);
        }
    }
    number(checksum(out));
    if answer.is_ok() {
        for pos in TEXELS {
            texel(out, pos);
        }
    }
}
