//! A name list that a block has, and its entries.
ghost use Rattle.std.specs.Prelude.{◌≡◌, ◌+◌, ◌*◌, ◌<◌, ◌≤◌, ◌^◌, length, take as first_bytes, drop};
ghost use Rattle.info_block.specs.InfoBlock as InfoBlock;
ghost use Rattle.info_block.specs.InfoBlock.{datum_bytes, list_length};

use errors::Kind;
use name::Name;
use util::unsigned::Unsigned;

// The size of an entry's datum.
pub(crate) fn datum_size(kind: Kind) -> usize
    ensures { result ≡ datum_bytes kind }
{
    match kind {
        Kind::Texture => 8,
        Kind::Palette => 4,
    }
}

// Where name n of a list of count entries begins, from the list's start.
fn name_at(kind: Kind, count: usize, n: usize) -> usize
    requires { InfoBlock.name_at kind count n < 2 ^ 64 }
    ensures { result ≡ InfoBlock.name_at kind count n }
{
    16 + 4 * count + datum_size(kind) * count + 16 * n
}

// The length of a list of count entries, which ends behind its last name.
pub(crate) fn list_len(kind: Kind, count: usize) -> usize
    requires { list_length kind count < 2 ^ 64 }
    ensures { result ≡ list_length kind count }
{
    name_at(kind, count, count)
}

// The name of the 16 bytes at pos.
fn name_of(bytes: &[u8], pos: usize) -> Name
    requires { pos + 16 ≤ length bytes.now }
    ensures { result.0 ≡ first_bytes 16 (drop pos bytes.now) }
{
    Name(bytes[pos..pos + 16].try_into().unwrap())
}

/// A list of count entries, whole.
#[derive(Clone, Copy)]
pub struct NameList<'a> {
    pub kind: Kind,
    pub count: usize,
    pub bytes: &'a [u8],
    pub ghost whole: { length bytes.now ≡ list_length kind count },
    /// No slice is longer.
    pub ghost fits: { list_length kind count < 2 ^ 63 },
}

/// An entry of a list, by its number.
#[derive(Clone, Copy)]
pub struct Entry<'a> {
    pub list: NameList<'a>,
    pub n: usize,
    pub ghost below: { n < list.count },
}

impl<'a> NameList<'a> {
    ghost use Rattle.info_block.specs.InfoBlock.{list_at};
    ghost use Rattle.info_block.specs.Lists.{listed};

    /// The list of count entries at pos.
    pub fn at(block: &'a [u8], kind: Kind, pos: usize, count: usize) -> NameList<'a>
        requires { pos + list_length kind count ≤ length block.now }
        ensures value { listed result ≡ list_at kind pos count block.now }
        ensures of_kind { result.kind ≡ kind }
    {
        let len = list_len(kind, count);
        NameList {
            kind,
            count,
            bytes: &block[pos..pos + len],
        }
    }

    /// Entry n.
    pub fn entry(self, n: usize) -> Entry<'a>
        requires { n < self.count }
        ensures { (result.list ≡ self.entry) × (result.n ≡ n) }
    {
        Entry { list: self, n }
    }
}

impl Entry<'_> {
    ghost use Rattle.info_block.specs.InfoBlock.{datum_at, entry_name, entry_number};
    ghost use Rattle.info_block.specs.Lists.{listed};

    /// Where its name begins, from the list's start.
    pub fn name_pos(self) -> usize
        ensures { (result ≡ InfoBlock.name_at self.entry.list.kind self.entry.list.count self.entry.n) × (result < 2 ^ 63) }
    {
        name_at(self.list.kind, self.list.count, self.n)
    }

    // Where its datum begins, from the list's start.
    #[tactic(auto, using(crate::proofs::Lists::datum_within))]
    fn datum_pos(self) -> usize
        ensures { (result ≡ datum_at self.entry.list.kind self.entry.list.count self.entry.n) × (result + 4 ≤ length self.entry.list.bytes.now) }
    {
        16 + 4 * self.list.count + datum_size(self.list.kind) * self.n
    }

    /// Its name.
    pub fn name(self) -> Name
        ensures { result.0 ≡ entry_name self.entry.list.kind (listed self.entry.list) self.entry.n }
    {
        name_of(self.list.bytes, self.name_pos())
    }

    /// The number that the first bytes of its datum are, as many as the type has.
    pub fn number<T: Unsigned>(self) -> T
        ensures { T.number result ≡ entry_number self.entry.list.kind T.SIZE (listed self.entry.list) self.entry.n }
    {
        T::view(self.list.bytes, self.datum_pos())
    }
}
