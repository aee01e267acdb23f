//! Blocks that were read.
ghost use Rattle.std.specs.Prelude.{◌≡◌};
ghost use Rattle.reading.specs.Layouts.{LaidOut};

use crate::lay_out;
use errors::{Kind, Refusal};
use info_block::name_list::{Entry, NameList};
use layout::Layout;

/// A block, with what its reading found.
#[derive(Clone, Copy)]
pub struct Tex<'a> {
    pub block: &'a [u8],
    pub layout: Layout,
    pub ghost laid: { LaidOut block.now layout },
}

impl<'a> Tex<'a> {
    ghost use Rattle.std.specs.Prelude.{IfOk};
    ghost use Rattle.errors.specs.Refusal.{outcome_as};
    ghost use Rattle.scripts.specs.Script.{run};
    ghost use Rattle.info_block.specs.InfoBlock.{list_at};
    ghost use Rattle.info_block.specs.Lists.{listed};
    ghost use Rattle.layout.specs.Positions as Positions;
    ghost use Rattle.reading.specs.Tex.{read_tex};
    ghost use Rattle.reading.specs.Layouts.{layout_answer};
    ghost use Rattle.reading.specs.Blocks.{layout_in, list_of, entry_at};

    /// Reads a block.
    pub fn read(block: &'a [u8]) -> Result<Tex<'a>, Refusal>
        ensures value { outcome_as layout_in result ≡ layout_answer block.now (run read_tex block.now) }
        ensures of_block { IfOk result (λ tex. tex.block ≡ block.entry) }
    {
        let layout = lay_out(block)?;
        Ok(Tex { block, layout })
    }

    /// Its list of the kind.
    #[tactic(auto, using(crate::proofs::Blocks::list_within))]
    pub fn list(self, kind: Kind) -> NameList<'a>
        ensures value { listed result ≡ list_at kind (Positions.list_pos kind self.entry.layout.header) (Positions.count_of kind self.entry.layout) self.entry.block.now }
        ensures of_kind { result.kind ≡ kind }
    {
        let layout = self.layout;
        NameList::at(
            self.block,
            kind,
            layout.header.list_pos(kind),
            layout.count_of(kind),
        )
    }

    /// Entry n of its list of the kind, where it has one.
    #[tactic(auto, unfolding(crate::specs::Blocks::entry_at))]
    pub fn entry(self, kind: Kind, n: usize) -> Result<Entry<'a>, Refusal>
        ensures value { outcome_as list_of result ≡ entry_at kind n self.entry.block.now self.entry.layout }
        ensures of_number { IfOk result (λ entry. (entry.list.kind ≡ kind) × (entry.n ≡ n)) }
    {
        let list = self.list(kind);
        if n < list.count {
            Ok(list.entry(n))
        } else {
            Err(Refusal::Number(kind))
        }
    }
}
