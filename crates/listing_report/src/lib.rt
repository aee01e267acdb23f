//! How the program `listing_calls` prints what the listing call answers, with a sum of the output and the text.

#![tactic(auto)]

use cases::Sum;
use listing::list;
use report::{counted, number, text};

// Shows the call's answer, the sum of the output as the call left it, and the text, which is nothing where the call was declined.
#[tactic(auto, unfolding(output::specs::Output::write_outcome, output::specs::Output::write_output))]
fn listed(input: &[u8], out: &mut [u8]) {
    let answer = list(input, out);
    let mut sum = Sum::new();
    sum.add_all(out);
    counted(answer);
    text(b" |");
    number(sum.0);
    text(b"\n");
    text(&out[..answer.unwrap_or(0)]);
}

/// Shows the listing call's answer, a sum of the output, and the text, where the output is the first len bytes of out. A greater len than it has
/// shows nothing.
pub fn listed_to(input: &[u8], out: &mut [u8], len: usize) {
    if let Some(out) = out.get_mut(..len) {
        listed(input, out);
    }
}
