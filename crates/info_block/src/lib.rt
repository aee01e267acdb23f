//! Name lists: apicula's src/nitro/info_block.rs. A list has c entries, each a datum and a name of 16 bytes.

#![tactic(auto)]

ghost use Rattle.std.specs.Prelude.{◌≡◌, IfOk};
ghost use Rattle.util.specs.Outcome.{result as answered};
ghost use Rattle.errors.specs.Refusal.{outcome_as};
ghost use Rattle.scripts.specs.Script.{run, outcome_of};
ghost use Rattle.info_block.specs.InfoBlock as InfoBlock;
ghost use Rattle.info_block.specs.Lists.{listed};

pub mod name_list;

use errors::{Kind, Refusal};
use name_list::{NameList, datum_size, list_len};
use scripts::take;
use util::unsigned::Unsigned;

// Reads the list of count entries at pos whole, and checks it.
#[tactic(auto, using(crate::proofs::Lists::reads))]
fn read_whole(block: &[u8], kind: Kind, pos: u32, count: u8) -> Result<NameList<'_>, Refusal>
    ensures value { outcome_as listed result ≡ outcome_of (run (InfoBlock.whole_list kind pos count) block.now) answered }
    ensures of_kind { IfOk result (λ list. list.kind ≡ kind) }
{
    let count = usize::from(count);
    let bytes = take(block, pos as usize, list_len(kind, count))?;
    if u8::view(bytes, 0) != 0 {
        return Err(Refusal::Dummy(kind));
    }
    if usize::from(u16::view(bytes, 12 + 4 * count)) != datum_size(kind) {
        return Err(Refusal::DatumSize(kind));
    }
    Ok(NameList { kind, count, bytes })
}

/// Reads the list at pos: its count, then the whole list, then its dummy and its datum size.
#[tactic(auto, using(crate::proofs::Lists::reads))]
pub fn read(block: &[u8], kind: Kind, pos: u32) -> Result<NameList<'_>, Refusal>
    ensures value { outcome_as listed result ≡ outcome_of (run (InfoBlock.name_list kind pos) block.now) answered }
    ensures of_kind { IfOk result (λ list. list.kind ≡ kind) }
{
    let head = take(block, pos as usize, 2)?;
    read_whole(block, kind, pos, u8::view(head, 1))
}
