//! Parts of a block, by their places.
ghost use Rattle.std.specs.Prelude.{◌≡◌};
ghost use Rattle.told.specs.Told as Told;

use places::{locate, pal_place};
use told::tell_part;

/// Where in the block the data of texture n are, or a block-compressed texture's first data, and how long it is. An empty part begins at 0.
#[tactic(auto, using(crate::proofs::Places::data1_told, crate::proofs::Places::data1_refused))]
#[unsafe(no_mangle)]
pub extern "C" fn rasclanya_texture_data1(
    block: &[u8],
    n: usize,
    pos: &mut usize,
    len: &mut usize,
    needed: &mut usize,
) -> u32
    ensures value { result ≡ Told.code_of (Told.data1 block.now n) }
    ensures pos_after { pos.new ≡ Told.left pos.old Told.pos (Told.data1 block.now n) }
    ensures len_after { len.new ≡ Told.left len.old Told.len (Told.data1 block.now n) }
    ensures needed_after { needed.new ≡ Told.needed_of (Told.data1 block.now n) }
{
    let place = locate(block, n, None).map(|places| places.data1);
    tell_part(place, pos, len, needed)
}

/// Where in the block the second data of texture n are, and how long it is. An empty part begins at 0.
#[tactic(auto, using(crate::proofs::Places::data2_told, crate::proofs::Places::data2_refused))]
#[unsafe(no_mangle)]
pub extern "C" fn rasclanya_texture_data2(
    block: &[u8],
    n: usize,
    pos: &mut usize,
    len: &mut usize,
    needed: &mut usize,
) -> u32
    ensures value { result ≡ Told.code_of (Told.data2 block.now n) }
    ensures pos_after { pos.new ≡ Told.left pos.old Told.pos (Told.data2 block.now n) }
    ensures len_after { len.new ≡ Told.left len.old Told.len (Told.data2 block.now n) }
    ensures needed_after { needed.new ≡ Told.needed_of (Told.data2 block.now n) }
{
    let place = locate(block, n, None).map(|places| places.data2);
    tell_part(place, pos, len, needed)
}

/// Where in the block the palette block is, and how long it is. An empty part begins at 0.
#[tactic(auto, using(crate::proofs::Places::pal_block_told, crate::proofs::Places::pal_block_refused))]
#[unsafe(no_mangle)]
pub extern "C" fn rasclanya_pal_block(
    block: &[u8],
    pos: &mut usize,
    len: &mut usize,
    needed: &mut usize,
) -> u32
    ensures value { result ≡ Told.code_of (Told.pal_block block.now) }
    ensures pos_after { pos.new ≡ Told.left pos.old Told.pos (Told.pal_block block.now) }
    ensures len_after { len.new ≡ Told.left len.old Told.len (Told.pal_block block.now) }
    ensures needed_after { needed.new ≡ Told.needed_of (Told.pal_block block.now) }
{
    tell_part(pal_place(block), pos, len, needed)
}
