//! Direct colour textures: format 7.

#![tactic(auto)]

ghost use Rattle.std.specs.Prelude.{◌≡◌, ◌+◌, ◌*◌, ◌/◌, ◌≤◌, ◌<◌, length};
ghost use Rattle.texels.specs.Texels as Texels;
ghost use Rattle.paint.specs.Paint as Paint;
ghost use Rattle.direct.specs.Words as Words;

use one::texel7;
use paint::first_data::FirstData;
use paint::put_texels;
use std::array;
use texels::{Level, extend_5bit_to_8bit};

// Direct colour texture, each texel by itself.
fn decode_small_format7(out: &mut [u8], data1: FirstData<16>)
    requires { 4 * data1.num_texels ≤ length out.old }
    ensures { out.new ≡ Paint.painted (Texels.format7 data1.entry.bytes.now) data1.entry.num_texels out.old }
{
    let bytes = data1.bytes;
    put_texels(
        out,
        data1.num_texels,
        |n|
            requires { 2 * n + 2 ≤ length bytes.now }
            ensures { result ≡ Texels.format7 bytes.entry.now n }
        { texel7(bytes, n) },
    );
}

// What the low byte of a colour gives of its texel's bytes, as a number.
fn low_word(b: u8) -> u32
    ensures { result ≡ Words.low_word b }
{
    let red = extend_5bit_to_8bit(Level { bits: b & 31 });
    let green = extend_5bit_to_8bit(Level { bits: b >> 5 });
    u32::from_le_bytes([red, green, 0, 0])
}

// What the high byte of a colour gives of its texel's bytes, as a number.
fn high_word(b: u8) -> u32
    ensures { result ≡ Words.high_word b }
{
    let green = 66 * (b & 3);
    let blue = extend_5bit_to_8bit(Level {
        bits: (b >> 2) & 31,
    });
    let alpha = 255 * (b >> 7);
    u32::from_le_bytes([0, green, blue, alpha])
}

// The words of all low bytes.
fn low_words() -> [u32; 256]
    ensures { Paint.Tabled Words.low_word result }
{
    array::from_fn(
        |b|
            requires { b < 256 }
            ensures { result ≡ Words.low_word b }
        { low_word(b as u8) },
    )
}

// The words of all high bytes.
fn high_words() -> [u32; 256]
    ensures { Paint.Tabled Words.high_word result }
{
    array::from_fn(
        |b|
            requires { b < 256 }
            ensures { result ≡ Words.high_word b }
        { high_word(b as u8) },
    )
}

// A texel of format 7 by the two bytes of its colour.
#[tactic(auto, using(crate::proofs::Words::direct_word))]
fn direct_by(lows: &[u32], highs: &[u32], lo: u8, hi: u8) -> [u8; 4]
    requires { Paint.Tabled Words.low_word lows.now × Paint.Tabled Words.high_word highs.now }
    ensures { result ≡ Texels.direct (lo + 256 * hi) }
{
    (lows[usize::from(lo)] + highs[usize::from(hi)]).to_le_bytes()
}

// Direct colour texture, by a table for each byte of a colour.
#[tactic(auto, using(crate::proofs::Words::number_two), unfolding(texels::specs::Texels::format7))]
fn decode_large_format7(out: &mut [u8], data1: FirstData<16>)
    requires { 4 * data1.num_texels ≤ length out.old }
    ensures { out.new ≡ Paint.painted (Texels.format7 data1.entry.bytes.now) data1.entry.num_texels out.old }
{
    let bytes = data1.bytes;
    let lows = low_words();
    let highs = high_words();
    put_texels(
        out,
        data1.num_texels,
        |n|
            requires { (2 * n + 2 ≤ length bytes.now) × Paint.Tabled Words.low_word lows × Paint.Tabled Words.high_word highs }
            ensures { result ≡ Texels.format7 bytes.entry.now n }
        { direct_by(&lows, &highs, bytes[2 * n], bytes[2 * n + 1]) },
    );
}

/// Direct colour texture: 16-bit colours, no palette. The tables are worth their making from some thousand texels on.
pub fn decode_format7(out: &mut [u8], data1: FirstData<16>)
    requires { 4 * data1.num_texels ≤ length out.old }
    ensures { out.new ≡ Paint.painted (Texels.format7 data1.entry.bytes.now) data1.entry.num_texels out.old }
{
    if data1.num_texels < 4096 {
        decode_small_format7(out, data1)
    } else {
        decode_large_format7(out, data1)
    }
}
