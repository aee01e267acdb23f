//! Runs a stored list of cases, each with what the Rust answered, and compares what the port answers. It writes `case K differs` for each case
//! that it answers otherwise, where cases count from 0, and at the end `N of M agree`: N cases of M. Where the list is cut, or a case has another
//! first byte or a length over its limit, it writes `list broken at case K` and ends.
//!
//! The list is its standard input: cases up to the end. Numbers have 4 bytes where nothing else is said, and are little-endian.
//!
//! A case that begins with `B` is a block:
//!
//! - its length, at most 4,096, and the block;
//! - the answer's length, at most 16,384, and the answer.
//!
//! A case that begins with `D` is a direct decoding:
//!
//! - the texture word;
//! - 1 byte, 0: no palette. Else: one;
//! - the palette's offset;
//! - the lengths of first data, second data and palette block, each at most 4,096, and then the three;
//! - the answer's length, at most 16,384, and the answer.
//!
//! An answer begins with its class, in 1 byte:
//!
//! | class | refusals |
//! |---|---|
//! | 0 | none |
//! | 1, 2 | 1, 2 |
//! | 3 | 3 and 5, which are one error of the Rust's |
//! | 4 | 4 and 6, likewise |
//! | 9, 10 | 9, 10 |
//! | 255 | all others, which the Rust does not have |
//!
//! Behind class 0, the answer to a direct decoding has the picture's bytes, with no length. The answer to a block has:
//!
//! - the number of textures and the number of palettes, 1 byte each;
//! - for each texture its name in 16 bytes, its word, its safe text and its Display text, each behind its length in 1 byte, and its first and
//!   second data, each behind its length;
//! - for each palette its name, its offset and the two texts;
//! - where there is any palette, the palette block behind its length;
//! - for each texture the class and bytes of its picture without a palette, and, where there is any palette, the same with the palette whose
//!   number is the texture's modulo the number of palettes.

#![tactic(auto)]

use answer_bytes::MAX_ANSWER;
use replay_cases::MAX_PARTS;
use replay_runs::run_case;
use report::{decimal, text};

// Writes which case differs.
fn differs(case: u64) {
    text(b"case ");
    decimal(case);
    text(b" differs\n");
}

// Writes at which case the list is broken.
fn broken(case: u64) {
    text(b"list broken at case ");
    decimal(case);
    text(b"\n");
}

// Writes how many cases agree.
fn totals(agreeing: u64, cases: u64) {
    decimal(agreeing);
    text(b" of ");
    decimal(cases);
    text(b" agree\n");
}

// Runs case after case. A proved loop has to end, and nothing says that the input does, so there is a largest number of cases, which no list
// reaches. Each case is read over the one before it, so the room for one is made once.
fn replay() {
    let mut parts = [0; MAX_PARTS];
    let mut stored = [0; MAX_ANSWER];
    let mut agreeing = 0;
    for case in 0..u64::MAX {
        match run_case(&mut parts, &mut stored) {
            Ok(Some(true)) => agreeing += 1,
            Ok(Some(false)) => differs(case),
            Ok(None) => return totals(agreeing, case),
            Err(_) => return broken(case),
        }
    }
}

// Runs the list that is the standard input.
fn main() {
    replay();
}
