//! Writes what the picture calls of `decode` answer for each case of its standard input, a line a case: the case's title, and then `ok`
//! with the picture's length, or `refused` with the refusal's number and what is returned with it; a checksum of the whole output; and of
//! a picture some texels.
//!
//! The input begins with the number of cases. A case is 13 numbers; those in pairs are the position and the length of bytes that follow
//! the cases. The numbers have 4 bytes.
//!
//! | at | number |
//! |---|---|
//! | 0 | 0: texels are decoded directly. Else: a picture from a block |
//! | 4, 8 | the title |
//! | 12 | the texture word, or the texture's number |
//! | 16 | 0: no palette. Else: one |
//! | 20 | its offset, or its number |
//! | 24 | the output's length, at most 65,536 |
//! | 28, 32 | first data, or the block |
//! | 36, 40 | second data |
//! | 44, 48 | the palette block |

#![tactic(auto)]

use cases::{Case, each_case, fill};
use decode::decode_texture::{Texture, decode_texture};
use decode::picture::picture;
use errors::Refusal;
use nds::texture_params::TextureParams;
use picture_report::written;
use report::{STDIN_FILENO, text};
use told::choice_of;

// The most bytes that an output has.
const ROOM: usize = 65536;

// What a case asks for.
enum Asked<'a> {
    Direct(Texture<'a>),
    FromBlock {
        block: &'a [u8],
        n: usize,
        choice: Option<usize>,
    },
}

impl<'a> Asked<'a> {
    // What the case asks for.
    fn of(case: Case<'a>) -> Asked<'a> {
        let palette = choice_of(case.field(16), case.field(20));
        if case.field(0) == 0 {
            Asked::Direct(Texture {
                params: TextureParams(case.field(12)),
                data1: case.named(28),
                data2: case.named(36),
                palette,
                pal_block: case.named(44),
            })
        } else {
            Asked::FromBlock {
                block: case.named(28),
                n: case.field(12) as usize,
                choice: palette.map(|n| n as usize),
            }
        }
    }

    // What the call that is asked for answers.
    fn answer(self, out: &mut [u8]) -> Result<usize, Refusal> {
        match self {
            Asked::Direct(texture) => decode_texture(texture, out),
            Asked::FromBlock { block, n, choice } => picture(block, n, choice, out),
        }
    }
}

// Runs the case with this output.
fn run(case: Case, out: &mut [u8]) {
    text(case.named(4));
    text(b":");
    written(Asked::of(case).answer(out), out);
    text(b"\n");
}

// Runs the case with the first bytes of the room as its output, as many as it asks for, which are filled. One that asks for more than the most
// is left out.
fn show(case: Case, room: &mut [u8; ROOM]) {
    if let Some(out) = room.get_mut(..case.field(24) as usize) {
        fill(out);
        run(case, out);
    }
}

// Reads the input, and runs its cases. They share the room, since most of them ask for little of it.
fn main() {
    let mut buffer = io::large_buffer();
    let mut room = [0; ROOM];
    let n = io::read_full(STDIN_FILENO, &mut buffer);
    each_case(&buffer[..n], 52, |case| show(case, &mut room));
}
