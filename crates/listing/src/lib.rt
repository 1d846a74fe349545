// The listing of one routine (document 01): its bytes are read into a routine, are none, or are refused, by a number of 1 to 6 or by 33 with a place.
#![tactic(auto)]

pub mod decode;
mod rules;

ghost use Rattle.std.specs.Prelude.{◌≡◌, true, map, ◌≤◌, ◌<◌, take, length};
ghost use Rattle.meaning.specs.Limits.{max_blocks};
ghost use Rattle.meaning.specs.Lists.{all};
ghost use Rattle.meaning.specs.Listing.{block_at, read_listing};
ghost use Rattle.vm_status.specs.declared.Refusal.TheVariants.{BadBlocks};
ghost use Rattle.listing.specs.Models.{block_of, two_at, Sound, ruled_places, Ruled, Answers};
ghost use Rattle.listing_records.specs.Models.{places_in};

use file_format::CodeOffset;
use listing_reader::head;
use listing_records::{Cursor, Places, body, byte_at, place, read_places, u16_at};
use meaning::{MAX_BLOCKS, MAX_INSTRUCTIONS, ROOM};
use vm_status::{Refusal, Refused};

// A block: its first and its last instruction, and the entries of its successors, of which `count` (0 to 2) are in use.
#[derive(Clone, Copy)]
pub struct Block {
    pub entry: CodeOffset,
    pub exit: CodeOffset,
    pub count: usize,
    pub first: CodeOffset,
    pub second: CodeOffset,
}

// A routine that was read: the tokens (0, 1, 2) of its parameters, L, the number of its returns, how many instructions it has, and the blocks
// in listed order. Where the record of each instruction starts stands beside, in an array that the caller lends. Slots from a count on are free.
#[derive(Clone, Copy)]
pub struct Routine {
    pub params: [u8; ROOM],
    pub param_count: usize,
    pub locals: u8,
    pub returns: u8,
    pub code_count: usize,
    pub blocks: [Block; MAX_BLOCKS],
    pub block_count: usize,
}

fn no_block() -> Block {
    Block {
        entry: CodeOffset(0),
        exit: CodeOffset(0),
        count: 0,
        first: CodeOffset(0),
        second: CodeOffset(0),
    }
}

// Refusal 5.
fn bad_blocks(place: usize) -> Refused
    ensures { result ≡ record { refusal = BadBlocks; place = place } }
{
    Refused {
        refusal: Refusal::BadBlocks,
        place,
    }
}

// The block whose record starts here.
fn block_at(s: &[u8], at: usize) -> Block
    requires { two_at s.now at ≡ true }
    ensures { block_of result ≡ block_at s.now at }
{
    let b = body(s, Cursor { at });
    Block {
        entry: CodeOffset(u16_at(b, 0)),
        exit: CodeOffset(u16_at(b, 2)),
        count: byte_at(b, 4) as usize,
        first: CodeOffset(u16_at(b, 5)),
        second: CodeOffset(u16_at(b, 7)),
    }
}

// The blocks whose records start at these places, in the first slots.
fn blocks_at(s: &[u8], places: &[u16]) -> [Block; MAX_BLOCKS]
    requires { (length places.now ≤ max_blocks) × (all (two_at s.now) places.now ≡ true) }
    ensures { map block_of (take (length places.now) result) ≡ map (block_at s.now) places.now }
{
    let mut out = [no_block(); MAX_BLOCKS];
    for i in 0..places.len() {
        out[i] = block_at(s, place(places[i]));
    }
    out
}

// A routine whose records were read, under the rules on blocks and on Ret.
fn ruled(
    s: &[u8],
    head: &[u8],
    w: Places,
    places: &[u16; MAX_BLOCKS],
    code: &[u16; MAX_INSTRUCTIONS],
) -> Result<Routine, Refused>
    requires { Sound s.now head.now w places.now code.now }
    ensures { Ruled s.now code.now (ruled_places s.now (places_in places.now code.now w)) result }
{
    let n = w.block_count;
    let m = w.code_count;
    if n == 0 {
        return Err(bad_blocks(s.len()));
    }
    let blocks = blocks_at(s, &places[..n]);
    let listed = &blocks[..n];
    if let Some(bad) = rules::first_faulty(listed, m) {
        return Err(bad_blocks(place(places[bad])));
    }
    if let Some(stray) = rules::first_stray(s, code, w.first_ret, m, listed) {
        return Err(bad_blocks(place(code[stray])));
    }
    let param_count = byte_at(head, 0) as usize;
    Ok(Routine {
        params: decode::tokens_at(head, 2, param_count),
        param_count,
        locals: byte_at(head, 1),
        returns: byte_at(head, 2 + param_count),
        code_count: m,
        blocks,
        block_count: n,
    })
}

// What a listing means: every byte string gets a routine, None where there is no byte to read (an empty cell), or the refusal and the place of document
// 01. Where the record of each instruction starts is put into the lent array; where no routine is read what it holds is free, and nothing is said of it.
pub fn read_listing(
    s: &[u8],
    code: &mut [u16; MAX_INSTRUCTIONS],
) -> Result<Option<Routine>, Refused>
    ensures { Answers s.now code.new (read_listing s.now) result }
{
    if s.len() == 0 {
        return Ok(None);
    }
    let mut places = [0u16; MAX_BLOCKS];
    let w = read_places(s, &mut places, code)?;
    let routine = ruled(s, head(s), w, &places, code)?;
    Ok(Some(routine))
}
