//! What the call for all rows of a block answers, printed for the program `block_calls`.

#![tactic(auto)]

use block_report::counted;
use errors::Kind;
use report::{number, text};

// Prints what the call for all rows of a kind answers to an output, and all of the output.
fn rows<const N: usize>(block: &[u8], kind: Kind, mut out: [usize; N]) {
    text(b"rows");
    counted(rows::rows(block, kind, &mut out));
    text(b" of");
    for n in out {
        number(n as u64);
    }
    text(b"\n");
}

/// The rows of both kinds, in outputs that are long enough for three textures and two palettes, and in short ones.
pub fn all_rows(block: &[u8]) {
    rows(block, Kind::Texture, [7; 19]);
    rows(block, Kind::Texture, [7; 5]);
    rows(block, Kind::Palette, [7; 5]);
    rows(block, Kind::Palette, [7; 1]);
}
