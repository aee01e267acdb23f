//! The lines that the program `stream_calls` prints of prefixes of a block, and what a case asks for.

#![tactic(auto)]

use cases::{Sum, filled};
use decode::picture::picture;
use nitro::tex;
use report::{counted, decimal, number, text};
use stream_sums::{add_parts, palette, reading, texture};

/// The most bytes that an output has.
pub const ROOM: usize = 520;

/// The records and the picture that a case asks for.
#[derive(Clone, Copy, Debug, PartialEq, Eq)]
pub struct Request {
    pub texture: usize,
    /// The palette whose record is asked for.
    pub palette: usize,
    /// The palette of the picture.
    pub choice: Option<usize>,
    /// The output's length.
    pub room: usize,
}

// Shows the picture call's answer for an output that is the first len bytes of out, and adds the whole output as the call left it. A greater len
// than the most shows nothing. The array comes by value, so that each call gets one that is as it was filled.
fn paint(sum: &mut Sum, block: &[u8], request: Request, mut out: [u8; ROOM], len: usize) {
    if let Some(out) = out.get_mut(..len) {
        counted(picture(block, request.texture, request.choice, out));
        sum.add_all(out);
    }
}

// A line of prefixes: the reading, both records, the parts and two pictures, on a block's first bytes alone. The pictures' outputs are as out is.
fn prefix(bytes: &[u8], request: Request, out: [u8; ROOM]) {
    let mut sum = Sum::new();
    decimal(bytes.len() as u64);
    reading(tex::read_tex(bytes));
    texture(&mut sum, bytes, request.texture);
    palette(&mut sum, bytes, request.palette);
    add_parts(&mut sum, bytes, request.texture);
    paint(&mut sum, bytes, request, out, request.room);
    paint(&mut sum, bytes, request, out, 12);
    text(b" |");
    number(sum.0);
    text(b"\n");
}

/// A line for each number of bytes from least to the block's length, and for all of them where least is beyond it.
pub fn prefixes(block: &[u8], least: usize, request: Request) {
    let out = filled::<ROOM>();
    text(b"\n");
    for n in least.min(block.len())..=block.len() {
        prefix(&block[..n], request, out);
    }
}
