//! The line that the program `stream_calls` prints of fetching.

#![tactic(auto)]

use cases::Sum;
use report::{counted, number, text};
use stream::fetch_picture::fetch_picture;
use stream::fetch_tex::fetch_tex;
use stream_report::Request;
use stream_sums::reading;

// Prints how many answers were short.
fn short_answers(n: usize) {
    text(b" short");
    number(n as u64);
}

// Fetches a block up to its reading, and prints the answer.
fn fetched_tex(block: &[u8]) {
    let fetched = fetch_tex(block);
    reading(fetched.answer);
    short_answers(fetched.short_answers);
}

// Fetches a block up to a picture, and prints the answer and the sum of the whole output.
fn fetched_picture(block: &[u8], request: Request, out: &mut [u8]) {
    let fetched = fetch_picture(block, request.texture, request.choice, out);
    counted(fetched.answer);
    short_answers(fetched.short_answers);
    let mut sum = Sum::new();
    sum.add_all(out);
    text(b" |");
    number(sum.0);
    text(b"\n");
}

/// A line of fetching. The output is the first bytes of out, as many as the request says; where it says more than there are, no picture is fetched.
pub fn fetching(block: &[u8], request: Request, out: &mut [u8]) {
    fetched_tex(block);
    if let Some(out) = out.get_mut(..request.room) {
        fetched_picture(block, request, out);
    }
}
