// The instruction of a record.
ghost use Rattle.std.specs.Prelude.{◌≡◌, ◌≤◌, ◌<◌, map, get_or, take};
ghost use Rattle.file_format.specs.Models.{token_of};
ghost use Rattle.meaning.specs.Limits.{max_locals};
ghost use Rattle.meaning.specs.Listing.{token_as, flag_at, words_at, instr_of};
ghost use Rattle.listing.specs.Models.{tokens_at, plain_of, decoded_of, decoded_at, call_for};

use file_format::{LocalIndex, SignatureToken};
use listing_records::{Cursor, body, byte_at, u16_at};
use meaning::{MAX_ACQUIRED, MAX_RETURNS, ROOM};

// One variant for each kind of instruction record.
#[derive(Clone, Copy)]
pub enum Instruction {
    Pop,
    CopyLoc(LocalIndex),
    MoveLoc(LocalIndex),
    StLoc(LocalIndex),
    FreezeRef,
    // Eq, Neq
    Compare,
    ReadRef,
    WriteRef,
    // A borrow's bool: mutable.
    BorrowLoc(LocalIndex, bool),
    BorrowField(u16, bool),
    BorrowGlobal(u16, bool),
    MoveFrom(u16),
    // The number of parameters; what it acquires and returns stands beside.
    Call(u8),
    Ret,
    // Takes, pushes, the token of what it pushes.
    Values(u16, u16, SignatureToken),
    MoveTo,
    // Values taken, mutable, pushes, the token of what it pushes.
    VectorOp(u8, bool, u8, SignatureToken),
    BorrowElement(bool),
}

// An instruction, and for a call the numbers that it acquires and the tokens (0, 1, 2) of what it returns. Slots from a count on are free.
#[derive(Clone, Copy)]
pub struct Decoded {
    pub instruction: Instruction,
    pub acquired: [u16; ROOM],
    pub acquired_count: usize,
    pub tokens: [u8; ROOM],
    pub token_count: usize,
}

// n tokens from a place on.
pub(crate) fn tokens_at(b: &[u8], from: usize, n: usize) -> [u8; ROOM]
    requires { (n ≤ max_locals) × (from < 65536) }
    ensures { map token_as (take n result) ≡ tokens_at b.now from n }
{
    let mut out = [0u8; ROOM];
    for i in 0..n {
        out[i] = byte_at(b, from + i);
    }
    out
}

// n numbers from a place on.
fn words_at(b: &[u8], from: usize, n: usize) -> [u16; ROOM]
    requires { (n ≤ max_locals) × (from < 65536) }
    ensures { take n result ≡ words_at b.now from n }
{
    let mut out = [0u16; ROOM];
    for i in 0..n {
        out[i] = u16_at(b, from + 2 * i);
    }
    out
}

fn flag_at(b: &[u8], i: usize) -> bool
    ensures { result ≡ flag_at b.now i }
{
    byte_at(b, i) == 1
}

fn local_at(b: &[u8]) -> LocalIndex
    ensures { result.0 ≡ get_or b.now 0 0 }
{
    LocalIndex(byte_at(b, 0))
}

fn token_at(b: &[u8], i: usize) -> SignatureToken
    ensures { token_of result ≡ token_as (get_or b.now i 0) }
{
    SignatureToken::from(byte_at(b, i))
}

// An instruction that is no call.
fn decode_plain(kind: u16, b: &[u8]) -> Instruction
    requires { kind ≡ 22 → ⊥ }
    ensures { plain_of result ≡ instr_of kind b.now }
{
    match kind {
        11 => Instruction::CopyLoc(local_at(b)),
        12 => Instruction::MoveLoc(local_at(b)),
        13 => Instruction::StLoc(local_at(b)),
        14 => Instruction::FreezeRef,
        15 => Instruction::Compare,
        16 => Instruction::ReadRef,
        17 => Instruction::WriteRef,
        18 => Instruction::BorrowLoc(local_at(b), flag_at(b, 1)),
        19 => Instruction::BorrowField(u16_at(b, 0), flag_at(b, 2)),
        20 => Instruction::BorrowGlobal(u16_at(b, 0), flag_at(b, 2)),
        21 => Instruction::MoveFrom(u16_at(b, 0)),
        23 => Instruction::Ret,
        24 => Instruction::Values(u16_at(b, 0), u16_at(b, 2), token_at(b, 4)),
        25 => Instruction::MoveTo,
        26 => Instruction::VectorOp(byte_at(b, 0), flag_at(b, 1), byte_at(b, 2), token_at(b, 3)),
        27 => Instruction::BorrowElement(flag_at(b, 0)),
        _ => Instruction::Pop,
    }
}

fn alone(instruction: Instruction) -> Decoded
    ensures { decoded_of result ≡ plain_of instruction }
{
    Decoded {
        instruction,
        acquired: [0u16; ROOM],
        acquired_count: 0,
        tokens: [0u8; ROOM],
        token_count: 0,
    }
}

// A call; one with more numbers or tokens than the limits is read as Pop.
fn decode_call(b: &[u8]) -> Decoded
    ensures { decoded_of result ≡ call_for b.now }
{
    let acquired = byte_at(b, 1);
    if MAX_ACQUIRED < acquired {
        return alone(Instruction::Pop);
    }
    let n = acquired as usize;
    let returns = byte_at(b, 2 + 2 * n);
    if MAX_RETURNS < returns {
        return alone(Instruction::Pop);
    }
    let m = returns as usize;
    Decoded {
        instruction: Instruction::Call(byte_at(b, 0)),
        acquired: words_at(b, 2, n),
        acquired_count: n,
        tokens: tokens_at(b, 3 + 2 * n, m),
        token_count: m,
    }
}

// The instruction of the record that starts at a place of a listing that was read. At any other place of any bytes: what its kind and its body
// say, bytes past the end being 0 and the body of no whole record empty; Pop for a kind without an instruction and a call beyond the limits.
pub fn decode(s: &[u8], at: u16) -> Decoded
    ensures { decoded_of result ≡ decoded_at s.now at }
{
    let start = at as usize;
    let b = body(s, Cursor { at: start });
    let kind = u16_at(s, start + 2);
    if kind == 22 {
        decode_call(b)
    } else {
        alone(decode_plain(kind, b))
    }
}
