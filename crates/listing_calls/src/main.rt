//! Writes what `listing::list` answers for each case of its standard input, and the text that it wrote to its output.
//!
//! A case is a line, and behind it the text. The line has the title; the answer, which is `ok` with the number of bytes written, or `no`
//! with the refusal's number and what is returned with it; and a sum of the whole output as the call left it. Each call gets an output filled
//! with a pattern, so the sum tells whether bytes behind the text kept their content. A call that is declined has no text, and the sum tells
//! whether the output is as it was.
//!
//! The input begins with the number of cases. A case is 5 numbers; those in pairs are the position and the length of bytes that follow the
//! cases. The numbers have 4 bytes.
//!
//! | at | number |
//! |---|---|
//! | 0, 4 | the title |
//! | 8, 12 | what is listed |
//! | 16 | the output's length, at most 22,400 |

#![tactic(auto)]

use cases::{Case, each_case, filled};
use listing_report::listed_to;
use report::{STDIN_FILENO, text};

// The most bytes that an output has.
const ROOM: usize = 22400;

// Shows a case. The output comes by value, so that each case gets one that is as it was filled.
fn show(case: Case, mut out: [u8; ROOM]) {
    text(case.named(0));
    listed_to(case.named(8), &mut out, case.field(16) as usize);
}

// Reads the input, and shows its cases. Some of them have more than the 65,536 bytes that `io::large_buffer` has.
fn main() {
    let mut buffer = [0; 196608];
    let out = filled::<ROOM>();
    let n = io::read_full(STDIN_FILENO, &mut buffer);
    each_case(&buffer[..n], 20, |case| show(case, out));
}
