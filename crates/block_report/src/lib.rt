//! How the program `block_calls` prints refusals and parts, and what the calls for one texture and one palette answer.

#![tactic(auto)]

use errors::Refusal;
use nitro::tex::{self, PaletteRecord, TextureRecord};
use report::{STDOUT_FILENO, number, text};

/// Prints a refusal's number, and for a short block what is returned beside it.
pub fn refused(refusal: Refusal) {
    text(b" refused");
    number(refusal.number() as u64);
    if let Some(needed) = refusal.needed() {
        number(needed as u64);
    }
}

/// Prints an answer that is a number or a refusal.
pub fn counted(answer: Result<usize, Refusal>) {
    answer.map_or_else(refused, |n| number(n as u64));
}

/// Prints a part's length, and its bytes in hex.
pub fn part(bytes: &[u8]) {
    number(bytes.len() as u64);
    text(b" ");
    for b in bytes {
        io::print_hex(STDOUT_FILENO, u64::from(*b), 2);
    }
}

// Prints what a record call answers, and by `fields` the record beside the answer.
fn record<T: Copy, F: FnOnce(T)>(answer: Result<T, Refusal>, beside: T, fields: F)
    requires { F.IsAlwaysCallable fields }
{
    answer.map_or_else(refused, |_| text(b" done"));
    fields(beside);
}

// Prints a texture's record.
fn texture(record: TextureRecord) {
    number(u64::from(record.params.0));
    for word in [
        record.wrap_s.word(),
        record.wrap_t.word(),
        record.alpha.word(),
    ] {
        text(b" ");
        text(word);
    }
    part(&record.name.0);
}

// Prints a palette's record.
fn palette(record: PaletteRecord) {
    number(u64::from(record.off));
    part(&record.name.0);
}

/// Prints the answers for the texture with this number: its record, and its first and second data.
pub fn textures(block: &[u8], n: usize) {
    text(b"texture");
    number(n as u64);
    let answer = tex::texture(block, n);
    record(answer, tex::texture_or_blank(answer), texture);
    text(b"\ndata1");
    part(tex::texture_data1(block, n));
    text(b"\ndata2");
    part(tex::texture_data2(block, n));
    text(b"\n");
}

/// Prints the answer for the palette with this number.
pub fn palettes(block: &[u8], n: usize) {
    text(b"palette");
    number(n as u64);
    let answer = tex::palette(block, n);
    record(answer, tex::palette_or_blank(answer), palette);
    text(b"\n");
}
