// The rules on blocks and on Ret (refusal 5).
ghost use Rattle.std.specs.Prelude.{◌≡◌, ◌≤◌, ◌<◌, map, length, take};
ghost use Rattle.meaning.specs.Limits.{max_instructions};
ghost use Rattle.meaning.specs.Lists.{any};
ghost use Rattle.meaning.specs.Listing.{overlap, entry_in, ends_block, faulty_successor, faulty_block, stray_ret, instr_at};
ghost use Rattle.listing_records.specs.Models.{before_ret};
ghost use Rattle.listing.specs.Models.{block_of, faulty_successors, FirstOf};

use crate::Block;
use file_format::CodeOffset;
use listing_records::shapes::RET;
use listing_records::{place, u16_at};
use meaning::MAX_INSTRUCTIONS;

// That one of these blocks has this entry.
fn has_entry(blocks: &[Block], entry: CodeOffset) -> bool
    ensures { result ≡ entry_in (map block_of blocks.now) entry.0 }
{
    blocks.iter().any(|b| entry == b.entry)
}

// That a block has an instruction of one of these.
fn overlaps(blocks: &[Block], b: Block) -> bool
    ensures { result ≡ any (overlap (block_of b)) (map block_of blocks.now) }
{
    blocks
        .iter()
        .any(|c| (b.entry <= c.exit) & (c.entry <= b.exit))
}

// That a successor of the block at `i` is no block's entry, or above the block's own and not listed later.
fn faulty_successor(blocks: &[Block], i: usize, b: Block, e: CodeOffset) -> bool
    requires { i < length blocks.now }
    ensures { result ≡ faulty_successor (map block_of blocks.now) i (block_of b) e.0 }
{
    !has_entry(blocks, e) || (b.entry < e && !has_entry(&blocks[i + 1..], e))
}

fn faulty_successors(blocks: &[Block], i: usize, b: Block) -> bool
    requires { i < length blocks.now }
    ensures { result ≡ faulty_successors (map block_of blocks.now) i (block_of b) }
{
    let count = b.count;
    if count == 0 {
        return false;
    }
    let e = b.first;
    if faulty_successor(blocks, i, b, e) {
        return true;
    }
    if count == 1 {
        return false;
    }
    let f = b.second;
    if e == f {
        return true;
    }
    faulty_successor(blocks, i, b, f)
}

// That the block at `i`, in a routine of `code_count` instructions, breaks a rule.
fn faulty_block(blocks: &[Block], i: usize, code_count: usize) -> bool
    requires { i < length blocks.now }
    ensures { result ≡ faulty_block code_count (map block_of blocks.now) i }
{
    let b = blocks[i];
    if (i == 0) & (b.entry.0 != 0) {
        return true;
    }
    if b.exit < b.entry {
        return true;
    }
    if code_count <= place(b.exit.0) {
        return true;
    }
    if overlaps(&blocks[..i], b) {
        return true;
    }
    faulty_successors(blocks, i, b)
}

// The first block that breaks a rule.
pub(crate) fn first_faulty(blocks: &[Block], code_count: usize) -> Option<usize>
    ensures { FirstOf (faulty_block code_count (map block_of blocks.now)) (length blocks.now) result }
{
    for i in 0..blocks.len() {
        if faulty_block(blocks, i, code_count) {
            return Some(i);
        }
    }
    None
}

// That an instruction is the exit of a block without successors.
fn ends_block(blocks: &[Block], k: CodeOffset) -> bool
    ensures { result ≡ ends_block (map block_of blocks.now) k.0 }
{
    blocks.iter().any(|b| (k == b.exit) & (b.count == 0))
}

// The first of m instructions that is a Ret, and not the exit of a block without successors. No Ret stands before `first`.
pub(crate) fn first_stray(
    s: &[u8],
    code: &[u16; MAX_INSTRUCTIONS],
    first: usize,
    m: usize,
    blocks: &[Block],
) -> Option<usize>
    requires { (m ≤ max_instructions) × (first ≡ before_ret s.now (take m code.now)) }
    ensures { FirstOf (stray_ret (map (instr_at s.now) (take m code.now)) (map block_of blocks.now)) m result }
{
    for k in first..m {
        let start = place(code[k]);
        if u16_at(s, start + 2) == RET {
            if !ends_block(blocks, CodeOffset(k as u16)) {
                return Some(k);
            }
        }
    }
    None
}
