// The words of names, of an edge's ends and of its offset: each is made and read here, the last one made with the marks (rows).
ghost use Rattle.std.specs.Prelude.{◌≡◌, ◌/◌, ◌%◌, ◌+◌, ◌*◌, ◌≤◌};
ghost use Rattle.meaning.specs.Area.{name_in};
ghost use Rattle.meaning.specs.Laws.Area.{bit};

use crate::RefID;
use file_format::CodeOffset;

// What a name is counted in, in a word that holds more than the name; and the unit of an edge's offset.
const NAME_END: u32 = 65536;

pub(crate) const OFFSET: u32 = 65536;

pub fn id_in(w: u32) -> RefID
    ensures { result.0 ≡ w % 65536 }
{
    RefID((w % NAME_END) as u16)
}

pub fn is_mutable_name(w: u32) -> bool
    ensures { result ≡ (name_in w).mutable }
{
    w / NAME_END == 1
}

pub fn name_word(id: RefID, mutable: bool) -> u32
    ensures { name_in result ≡ record { id = id.0; mutable = mutable } }
{
    bit_of(mutable) * NAME_END + id.0 as u32
}

// The ends of an edge.
pub fn ends(parent: RefID, child: RefID) -> u32
    ensures { (result / 65536 ≡ parent.0) × (result % 65536 ≡ child.0) }
{
    parent.0 as u32 * NAME_END + child.0 as u32
}

// The first of an edge's two names.
pub(crate) fn parent_in(w: u32) -> RefID
    ensures { result.0 ≡ w / 65536 }
{
    RefID((w / NAME_END) as u16)
}

// The offset, above an edge's marks.
pub(crate) fn offset_in(w: u32) -> CodeOffset
    ensures { result.0 ≡ w / 65536 }
{
    CodeOffset((w / OFFSET) as u16)
}

pub(crate) fn bit_of(b: bool) -> u32
    ensures { (result ≡ bit b) × (result ≤ 1) }
{
    u32::from(b)
}
