//! What the calls that read a block answer, printed, and the sum of all that stands beside the answers.

#![tactic(auto)]

use cases::Sum;
use errors::Refusal;
use nitro::tex::{self, Counts, TextureRecord};
use report::{number, refused, text};
use told::{alpha_number, wrap_number};

/// Prints the answer of a reading.
pub fn reading(answer: Result<Counts, Refusal>) {
    answer.map_or_else(refused, |counts| {
        text(b" | ok");
        number(counts.textures as u64);
        number(counts.palettes as u64);
    });
}

// Adds a part: its length, so that its bytes are told from the next part's, and its bytes.
fn add_part(sum: &mut Sum, bytes: &[u8]) {
    sum.add(bytes.len() as u64);
    sum.add_all(bytes);
}

// Adds a record: its name, its word, and a number for each wrap word and for the alpha kind.
fn add_record(sum: &mut Sum, record: TextureRecord) {
    sum.add_all(&record.name.0);
    for n in [
        record.params.0,
        wrap_number(record.wrap_s),
        wrap_number(record.wrap_t),
        alpha_number(record.alpha),
    ] {
        sum.add(u64::from(n));
    }
}

/// Shows the record call's answer, and adds the record that stands beside it.
pub fn texture(sum: &mut Sum, block: &[u8], n: usize) {
    let answer = tex::texture(block, n);
    answer.map_or_else(refused, |_| text(b" | ok"));
    add_record(sum, tex::texture_or_blank(answer));
}

/// The same for a palette.
pub fn palette(sum: &mut Sum, block: &[u8], n: usize) {
    let answer = tex::palette(block, n);
    answer.map_or_else(refused, |_| text(b" | ok"));
    let record = tex::palette_or_blank(answer);
    sum.add_all(&record.name.0);
    sum.add(u64::from(record.off));
}

/// Adds first data, second data and the palette block.
pub fn add_parts(sum: &mut Sum, block: &[u8], n: usize) {
    add_part(sum, tex::texture_data1(block, n));
    add_part(sum, tex::texture_data2(block, n));
    add_part(sum, tex::pal_block(block));
}
