//! Texels written to an output: formats 1 to 4 and 6.

#![tactic(auto)]

ghost use Rattle.std.specs.Prelude.{ℕ, List, ◌≡◌, ◌+◌, ◌*◌, ◌≤◌, ◌<◌, ◌^◌, ◌/◌, ◌%◌, length, take, drop, slice_index};
ghost use Rattle.std.proofs.lemmas.List.Edits.{sets};
ghost use Rattle.texels.specs.Index as Index;
ghost use Rattle.texels.specs.Texels as Texels;
ghost use Rattle.paint.specs.Paint as Paint;

pub mod first_data;

use first_data::FirstData;
use std::array;
use texels::{Colors, Level, Palette, a3_to_a5, extend_5bit_to_8bit, index_at};

/// Writes texel n of a picture.
#[tactic(auto, using(texels::proofs::Texels::put_four))]
pub fn put_pixel(out: &mut [u8], n: usize, pixel: [u8; 4])
    requires { 4 * n + 4 ≤ length out.old }
    ensures { out.new ≡ sets out.old (4 * n) pixel }
{
    let at = 4 * n;
    out[at] = pixel[0];
    out[at + 1] = pixel[1];
    out[at + 2] = pixel[2];
    out[at + 3] = pixel[3];
}

/// Texel k of a table, or of a picture.
#[tactic(auto, using(texels::proofs::Texels::four_at))]
pub fn pixel_at(table: &[u8], k: usize) -> [u8; 4]
    requires { 4 * k + 4 ≤ length table.now }
    ensures { result ≡ take 4 (drop (4 * k) table.now) }
{
    let at = 4 * k;
    [table[at], table[at + 1], table[at + 2], table[at + 3]]
}

/// Writes the first count texels, in order, each as the closure makes it by its number.
#[tactic(auto, using(crate::proofs::Quads::made_none, crate::proofs::Quads::made_more, crate::proofs::Quads::made_all))]
pub fn put_texels<F: Fn(usize) -> [u8; 4]>(out: &mut [u8], count: usize, texel: F)
    requires room { 4 * count ≤ length out.old }
    requires callable { (n : ℕ) → n < count → F.pre texel n }
    ensures each { Paint.Paints (F.post texel) count out.old out.new }
    ensures same { (f : ℕ → List ℕ) → Paint.Makes (F.post texel) count f → out.new ≡ Paint.painted f count out.old }
{
    for n in 0..count {
        put_pixel(out, n, texel(n));
    }
}

// The texels of the colour indices below N.
fn texel_table<const N: usize>(colors: Colors) -> [[u8; 4]; N]
    requires { N ≤ 256 }
    ensures { Paint.TexelTable (Texels.indexed colors.entry.clear0 colors.entry.palette.block.now colors.entry.palette.off) N result }
{
    array::from_fn(
        |i|
            requires { i < 256 }
            ensures { result ≡ Texels.indexed colors.entry.clear0 colors.entry.palette.block.now colors.entry.palette.off i }
        { colors.texel(i as u8) },
    )
}

// Writes the texels whose colour indices the data has, of BITS bits each, as the table has them.
#[tactic(auto, using(texels::proofs::Index::texel_lt, crate::proofs::Tables::index_there))]
fn put_indexed<const BITS: usize>(out: &mut [u8], data1: FirstData<BITS>, table: &[[u8; 4]])
    requires indices { Paint.AreIndices BITS data1.num_texels }
    requires room { 4 * data1.num_texels ≤ length out.old }
    requires all { 2 ^ BITS ≤ length table.now }
    ensures { out.new ≡ Paint.painted (Paint.indexed_texel BITS data1.entry.bytes.now table.now) data1.entry.num_texels out.old }
{
    let bytes = data1.bytes;
    put_texels(
        out,
        data1.num_texels,
        |n|
            requires { Index.IndexThere BITS n (length bytes.now) × (2 ^ BITS ≤ length table.now) }
            ensures { result ≡ Paint.indexed_texel BITS bytes.entry.now table.entry.now n }
        { table[usize::from(index_at(bytes, BITS, n))] },
    );
}

// Writes the texels of 2 bits of the first count bytes, as the table has them. They go byte by byte: a byte is read once, and
// its four texels are written by a loop of fixed length, which from 64 by 64 texels on takes less than half the time of an index for each texel.
#[tactic(auto, using(crate::proofs::Tables::two_bits))]
fn put_fours(out: &mut [u8], bytes: &[u8], count: usize, table: &[[u8; 4]; 4])
    requires there { count ≤ length bytes.now }
    requires room { 16 * count ≤ length out.old }
    ensures { out.new ≡ Paint.painted (Paint.indexed_texel 2 bytes.now table.now) (4 * count) out.old }
{
    for i in 0..count {
        let byte = bytes[i];
        put_texels(
            &mut out[16 * i..],
            4,
            |c|
                requires { c < 4 }
                ensures { result ≡ Paint.pixel_at table.entry.now (byte / 2 ^ (2 * c) % 2 ^ 2) }
            { table[usize::from((byte >> (2 * c)) & 3)] },
        );
    }
}

/// 4-colour palette texture.
pub fn decode_format2(out: &mut [u8], data1: FirstData<2>, colors: Colors)
    requires small { data1.num_texels < 2 ^ 32 }
    requires room { 4 * data1.num_texels ≤ length out.old }
    ensures { out.new ≡ Paint.painted (Texels.formats2to4 2 colors.entry.clear0 data1.entry.bytes.now colors.entry.palette.block.now colors.entry.palette.off) data1.entry.num_texels out.old }
{
    let table: [[u8; 4]; 4] = texel_table(colors);
    let whole = data1.num_texels / 4;
    put_fours(out, data1.bytes, whole, &table);
    // What is left are the texels of a byte that has fewer than four.
    put_indexed::<2>(
        &mut out[16 * whole..],
        FirstData {
            bytes: &data1.bytes[whole..],
            num_texels: data1.num_texels % 4,
        },
        &table,
    );
}

/// 16-colour palette texture.
#[tactic(auto, using(crate::proofs::Tables::painted_by_table))]
pub fn decode_format3(out: &mut [u8], data1: FirstData<4>, colors: Colors)
    requires small { data1.num_texels < 2 ^ 32 }
    requires room { 4 * data1.num_texels ≤ length out.old }
    ensures { out.new ≡ Paint.painted (Texels.formats2to4 4 colors.entry.clear0 data1.entry.bytes.now colors.entry.palette.block.now colors.entry.palette.off) data1.entry.num_texels out.old }
{
    let table: [[u8; 4]; 16] = texel_table(colors);
    put_indexed::<4>(out, data1, &table);
}

// Writes the texels of the data's first bytes, each as the closure makes it by its byte.
fn put_bytes<F: Fn(u8) -> [u8; 4]>(out: &mut [u8], data1: FirstData<8>, texel: F)
    requires room { 4 * data1.num_texels ≤ length out.old }
    requires callable { F.IsAlwaysCallable texel }
    ensures { (f : ℕ → List ℕ) → Paint.MakesOf (F.post texel) data1.entry.bytes.now data1.entry.num_texels f → out.new ≡ Paint.painted f data1.entry.num_texels out.old }
{
    let bytes = data1.bytes;
    put_texels(
        out,
        data1.num_texels,
        |n|
            requires { (n < length bytes.now) × F.IsAlwaysCallable texel }
            ensures { (slice_index bytes.entry.now n < 256) × F.post texel (slice_index bytes.entry.now n) result }
        { texel(bytes[n]) },
    );
}

// The same, by a table of the texels of all 256 bytes where that is worth its making: from 512 texels on.
fn decode_bytes<F: Fn(u8) -> [u8; 4]>(out: &mut [u8], data1: FirstData<8>, texel: F)
    requires room { 4 * data1.num_texels ≤ length out.old }
    requires callable { F.IsAlwaysCallable texel }
    ensures { (f : ℕ → List ℕ) → Paint.MakesOf (F.post texel) data1.entry.bytes.now data1.entry.num_texels f → out.new ≡ Paint.painted f data1.entry.num_texels out.old }
{
    if data1.num_texels < 512 {
        put_bytes(out, data1, texel);
    } else {
        let table: [[u8; 4]; 256] = array::from_fn(
            |b|
                requires { (b < 256) × F.IsAlwaysCallable texel }
                ensures { F.post texel b result }
            { texel(b as u8) },
        );
        put_bytes(
            out,
            data1,
            |b|
                ensures { result ≡ Paint.pixel_at table b }
            { table[usize::from(b)] },
        );
    }
}

// A texel with another alpha.
fn with_alpha(pixel: [u8; 4], a5: Level) -> [u8; 4]
    ensures { result ≡ Paint.with_alpha pixel a5.bits }
{
    let [red, green, blue, _] = pixel;
    [red, green, blue, extend_5bit_to_8bit(a5)]
}

/// A3I5 translucent texture: 3-bit alpha, 5-bit colour index.
#[tactic(auto, using(crate::proofs::Tables::a3i5_texel), unfolding(texels::specs::Texels::format1))]
pub fn decode_format1(out: &mut [u8], data1: FirstData<8>, palette: Palette)
    requires { 4 * data1.num_texels ≤ length out.old }
    ensures { out.new ≡ Paint.painted (Texels.format1 data1.entry.bytes.now palette.entry.block.now palette.entry.off) data1.entry.num_texels out.old }
{
    let table: [[u8; 4]; 32] = texel_table(Colors {
        palette,
        clear0: false,
    });
    decode_bytes(
        out,
        data1,
        |x|
            ensures { result ≡ Paint.with_alpha (Paint.pixel_at table (x % 32)) (Texels.alpha3 (x / 32)) }
        { with_alpha(table[usize::from(x & 31)], a3_to_a5(x >> 5)) },
    )
}

/// 256-colour palette texture.
#[tactic(auto, using(texels::proofs::Texels::texel_byte), unfolding(texels::specs::Texels::formats2to4))]
pub fn decode_format4(out: &mut [u8], data1: FirstData<8>, colors: Colors)
    requires { 4 * data1.num_texels ≤ length out.old }
    ensures { out.new ≡ Paint.painted (Texels.formats2to4 8 colors.entry.clear0 data1.entry.bytes.now colors.entry.palette.block.now colors.entry.palette.off) data1.entry.num_texels out.old }
{
    decode_bytes(
        out,
        data1,
        |x|
            ensures { result ≡ Texels.indexed colors.entry.clear0 colors.entry.palette.block.now colors.entry.palette.off x }
        { colors.texel(x) },
    )
}

/// A5I3 translucent texture: 5-bit alpha, 3-bit colour index.
#[tactic(auto, using(crate::proofs::Tables::a5i3_texel), unfolding(texels::specs::Texels::format6))]
pub fn decode_format6(out: &mut [u8], data1: FirstData<8>, palette: Palette)
    requires { 4 * data1.num_texels ≤ length out.old }
    ensures { out.new ≡ Paint.painted (Texels.format6 data1.entry.bytes.now palette.entry.block.now palette.entry.off) data1.entry.num_texels out.old }
{
    let table: [[u8; 4]; 8] = texel_table(Colors {
        palette,
        clear0: false,
    });
    decode_bytes(
        out,
        data1,
        |x|
            ensures { result ≡ Paint.with_alpha (Paint.pixel_at table (x % 8)) (x / 8) }
        { with_alpha(table[usize::from(x & 7)], Level { bits: x >> 3 }) },
    )
}
