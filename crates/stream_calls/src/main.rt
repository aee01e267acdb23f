//! Writes what readings, records, parts and pictures answer for blocks that are still arriving, and what the fetching calls of `stream` answer, for
//! each case of its standard input.
//!
//! An answer is `ok` with its values, or `no` with the refusal's number and what is returned with it. Each call that writes gets an output
//! filled with a pattern.
//!
//! A case of prefixes is a line for each number of bytes, from the least that the case names to the block's length: that number, and then,
//! from so many first bytes of the block alone, the answers of the reading, the texture's record, the palette's record, the picture, and the
//! picture to an output of 12 bytes; and a sum of all that stands beside the answers: the records, first data, second data, the palette
//! block, and both outputs whole.
//!
//! A case of fetching is one line: the answer of the reading and of the picture, each with the number of short answers, and a sum of the
//! whole output.
//!
//! The input begins with the number of cases. A case is 10 numbers; those in pairs are the position and the length of bytes that follow the
//! cases. The numbers have 4 bytes.
//!
//! | at | number |
//! |---|---|
//! | 0 | 0: prefixes. Else: fetching |
//! | 4, 8 | the title |
//! | 12, 16 | the block |
//! | 20 | the texture's number |
//! | 24 | 0: a picture without a palette. Else: with one |
//! | 28 | the palette's number |
//! | 32 | the output's length, at most 520 |
//! | 36 | of prefixes: the least number of bytes |

#![tactic(auto)]

use cases::{Case, each_case, filled};
use fetch_report::fetching;
use report::{STDIN_FILENO, text};
use stream_report::{ROOM, Request, prefixes};
use told::choice_of;

// The records and the picture that a case asks for.
fn request_of(case: Case) -> Request {
    let palette = case.field(28) as usize;
    Request {
        texture: case.field(20) as usize,
        palette,
        choice: choice_of(case.field(24), palette),
        room: case.field(32) as usize,
    }
}

// Shows a case. The output comes by value, so that each case gets one that is as it was filled.
fn show(case: Case, mut out: [u8; ROOM]) {
    text(case.named(4));
    let block = case.named(12);
    let request = request_of(case);
    match case.field(0) {
        0 => prefixes(block, case.field(36) as usize, request),
        _ => fetching(block, request, &mut out),
    }
}

// Reads the input, and shows its cases.
fn main() {
    let mut buffer = io::large_buffer();
    let out = filled::<ROOM>();
    let n = io::read_full(STDIN_FILENO, &mut buffer);
    each_case(&buffer[..n], 40, |case| show(case, out));
}
