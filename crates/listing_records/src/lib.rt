// The records of a listing (document 01, request A5): a cursor over the lent bytes, a record's body, its tests, and where all records start.
#![tactic(auto)]

pub mod shapes;

ghost use Rattle.std.specs.Prelude.{◌≡◌, ◌+◌, ◌≤◌, ◌<◌, [], ltb, length, get_or, take, drop};
ghost use Rattle.meaning.specs.Limits.{max_bytes, max_instructions, max_blocks};
ghost use Rattle.meaning.specs.Lists.{all};
ghost use Rattle.meaning.specs.Listing.{u16_at, whole_at, body_at, locals_of, is_token, no_places, places_from, read_places};
ghost use Rattle.listing_records.specs.Models.{found_of, found_at, field_of, packed, limit_of, FieldFor, fault_of, place_fault, body_fault, Tested, limit_rows, keeps_to, full_of, one_more, ReadInto};

use meaning::{
    MAX_ACQUIRED, MAX_BLOCKS, MAX_BYTES, MAX_INSTRUCTIONS, MAX_LOCALS, MAX_PARAMETERS, MAX_RETURNS,
};
use shapes::{ACQUIRED, LOCAL, PARAMETERS, RET, RETURNS, SUCCESSORS, WORD};
use vm_status::{Refusal, Refused};

#[derive(Clone, Copy)]
pub struct Cursor {
    pub at: usize,
}

// A whole record: its kind, and where the next one starts.
#[derive(Clone, Copy)]
pub struct Record {
    pub kind: u16,
    pub next: Cursor,
}

// A byte, 0 past the end.
pub fn byte_at(s: &[u8], i: usize) -> u8
    ensures { result ≡ get_or s.now i 0 }
{
    if i < s.len() { s[i] } else { 0 }
}

fn wide(b: u8) -> u16
    ensures { result ≡ b }
{
    b as u16
}

// A place as an index.
pub fn place(p: u16) -> usize
    ensures { (result ≡ p) × (result < 65536) }
{
    p as usize
}

// Two bytes that are there, little-endian.
fn u16_in(s: &[u8], i: usize) -> u16
    requires { i + 2 ≤ length s.now }
    ensures { result ≡ u16_at s.now i }
{
    wide(s[i]) + 256 * wide(s[i + 1])
}

// Two bytes, little-endian; 0 for those past the end.
pub fn u16_at(s: &[u8], i: usize) -> u16
    ensures { result ≡ u16_at s.now i }
{
    if s.len() <= i {
        return 0;
    }
    if s.len() - i == 1 {
        return wide(s[i]);
    }
    u16_in(s, i)
}

// That no record at this place ends too early.
fn whole_at(s: &[u8], at: usize) -> bool
    ensures { result ≡ whole_at s.now at }
{
    if s.len() <= at {
        return false;
    }
    let left = s.len() - at;
    if left < 4 {
        return false;
    }
    let len = u16_in(s, at) as usize;
    4 + len <= left
}

// What stands at a cursor: None where no byte is left, refusal 1 where a record ends too early.
pub fn read(s: &[u8], c: Cursor) -> Result<Option<Record>, Refusal>
    ensures { found_of c.at result ≡ found_at s.now c.at }
{
    let at = c.at;
    if s.len() <= at {
        return Ok(None);
    }
    if !whole_at(s, at) {
        return Err(Refusal::Short);
    }
    let kind = u16_in(s, at + 2);
    let next = at + 4 + u16_in(s, at) as usize;
    Ok(Some(Record {
        kind,
        next: Cursor { at: next },
    }))
}

// The body of the record at a cursor, as a part of the caller's bytes; none, if no whole record stands there.
pub fn body<'a>(s: &'a [u8], c: Cursor) -> &'a [u8]
    ensures { result.now ≡ body_at s.now c.at }
{
    let at = c.at;
    if whole_at(s, at) {
        let start = at + 4;
        let end = start + u16_at(s, at) as usize;
        &s[start..end]
    } else {
        &s[..0]
    }
}

// ---- the tests of a body

fn tokens_only(b: &[u8]) -> bool
    ensures { result ≡ all is_token b.now }
{
    b.iter().all(|x| *x <= 2)
}

// That the n bytes from a place on are there, and are tokens.
fn tokens_from(b: &[u8], i: usize, n: usize) -> bool
    requires { i + n ≤ 65536 }
    ensures { i + n ≤ length b.now → result ≡ all is_token (take n (drop i b.now)) }
{
    let end = i + n;
    if b.len() < end {
        return false;
    }
    tokens_only(&b[i..end])
}

// The least number that a field of a fixed width may not start with.
fn limit_of(f: u16, locals: u8) -> u16
    ensures { result ≡ limit_of locals f }
{
    if f == LOCAL {
        wide(locals)
    } else if f < PARAMETERS {
        f + 1
    } else {
        256
    }
}

// How many bytes a field takes; if it does not run past the end, that it holds what it may (else refusal 3); and if it does hold that,
// that it is within the limits (else refusal 6). Both are there for every field, so neither is an Option.
#[derive(Clone, Copy)]
struct Field {
    width: usize,
    right: bool,
    within: bool,
}

// The field that starts these bytes. One of a fixed width is tested without a jump; WORD, of two bytes, is the last of them.
fn test_field(b: &[u8], f: u16, locals: u8) -> Field
    requires { 0 < length b.now }
    ensures { FieldFor locals (field_of f) b.now result }
{
    let first = b[0];
    if f <= WORD {
        return Field {
            width: 1 + (f / WORD) as usize,
            right: wide(first) < limit_of(f, locals),
            within: (f != PARAMETERS) | (first <= MAX_PARAMETERS),
        };
    }
    let n = first as usize;
    match f {
        SUCCESSORS => Field {
            width: 1 + 2 * n,
            right: first <= 2,
            within: true,
        },
        ACQUIRED => Field {
            width: 1 + 2 * n,
            right: true,
            within: first <= MAX_ACQUIRED,
        },
        RETURNS => Field {
            width: 1 + n,
            right: tokens_from(b, 1, n),
            within: first <= MAX_RETURNS,
        },
        _ => Field {
            width: 2 + n,
            right: (first <= byte_at(b, 1)) & tokens_from(b, 2, n),
            within: byte_at(b, 1) <= MAX_LOCALS,
        },
    }
}

// A body against its fields, packed as in `shapes`: refusal 3, or 6.
fn test_body(b: &[u8], shape: u16, locals: u8) -> Result<(), Refusal>
    ensures { fault_of result ≡ body_fault locals (packed 4 shape) b.now }
{
    let mut fields = shape;
    let mut rest = b;
    let mut within = true;
    // A field says itself how much of the body is left after it: no iterator says that plainer.
    while fields != 0 {
        if rest.len() == 0 {
            return Err(Refusal::BadBody);
        }
        let t = test_field(rest, fields % 16, locals);
        if (rest.len() < t.width) | !t.right {
            return Err(Refusal::BadBody);
        }
        within = within & t.within;
        rest = &rest[t.width..];
        fields = fields / 16;
    }
    if 0 < rest.len() {
        return Err(Refusal::BadBody);
    }
    if within {
        Ok(())
    } else {
        Err(Refusal::PastLimit)
    }
}

// ---- the tests of a record

// Where a record may stand: refusal 4, unless the first one and no other is of kind 1; 33, if a block stands behind an instruction.
fn test_place(kind: u16, at: usize, coded: bool) -> Result<(), Refusal>
    ensures { fault_of result ≡ place_fault kind at coded }
{
    if (kind == 1) != (at == 0) {
        return Err(Refusal::MisplacedFunction);
    }
    if coded & (kind == 2) {
        return Err(Refusal::LateBlock);
    }
    Ok(())
}

// The record at a place, or the first of its tests that fails; `coded`: an instruction stands before it.
fn test_record(s: &[u8], at: usize, locals: u8, coded: bool) -> Result<Record, Refusal>
    ensures { Tested s.now locals coded at result }
{
    let record = read(s, Cursor { at })?.ok_or(Refusal::Short)?;
    let shape = shapes::shape_of(record.kind).ok_or(Refusal::UnknownKind)?;
    test_place(record.kind, at, coded)?;
    test_body(body(s, Cursor { at }), shape, locals)?;
    Ok(record)
}

// That a byte is below a limit.
fn below(s: &[u8], i: usize, limit: u16) -> bool
    requires { i < length s.now }
    ensures { result ≡ ltb (get_or s.now i 0) limit }
{
    wide(s[i]) < limit
}

// That the record at a place, with a body of n bytes, keeps to a row: one test of all its bytes, without a jump. Nine bytes are there, four
// and the longest body that has a row.
fn keeps_to_row(s: &[u8], at: usize, n: u16, row: &[u16; 6]) -> bool
    requires { at + 9 ≤ length s.now }
    ensures { result ≡ keeps_to row.now n s.now at }
{
    let len = n == row[0];
    let a = below(s, at + 4, row[1]);
    let b = below(s, at + 5, row[2]);
    let c = below(s, at + 6, row[3]);
    let d = below(s, at + 7, row[4]);
    let e = below(s, at + 8, row[5]);
    len & a & b & c & d & e
}

// What `test_record` says. Where the record keeps to its row no test fails, and it is not asked; the kinds 10 to 27 have rows.
fn test_by_row(
    s: &[u8],
    at: usize,
    locals: u8,
    coded: bool,
    rows: &[[u16; 6]; 18],
) -> Result<Record, Refusal>
    requires { (at < length s.now) × (rows.now ≡ limit_rows locals) }
    ensures { Tested s.now locals coded at result }
{
    let left = s.len() - at;
    if (at != 0) & (9 <= left) {
        let n = u16_in(s, at);
        let kind = u16_in(s, at + 2);
        if (10 <= kind) & (kind < 28) {
            if keeps_to_row(s, at, n, &rows[kind as usize - 10]) {
                let next = at + 4 + n as usize;
                return Ok(Record {
                    kind,
                    next: Cursor { at: next },
                });
            }
        }
    }
    test_record(s, at, locals, coded)
}

// ---- all records

// How many block records and instruction records there are, and how many instructions stand before the first Ret.
#[derive(Clone, Copy)]
pub struct Places {
    pub block_count: usize,
    pub code_count: usize,
    pub first_ret: usize,
}

// That a record of this kind would be one block or one instruction too many.
fn is_full(kind: u16, block_count: usize, code_count: usize) -> bool
    ensures { result ≡ full_of kind block_count code_count }
{
    match kind {
        1 => false,
        2 => MAX_BLOCKS <= block_count,
        _ => MAX_INSTRUCTIONS <= code_count,
    }
}

// How many instructions stand before the first Ret, after one more of this kind.
fn before_ret(kind: u16, first_ret: usize, code_count: usize) -> usize
    requires { code_count < max_instructions }
    ensures { result ≡ one_more kind first_ret code_count }
{
    if (first_ret == code_count) & (kind != RET) {
        code_count + 1
    } else {
        first_ret
    }
}

// The cursor moves on by what each record says of its length, and the record is put into one of two arrays: no iterator says it plainer.
fn read_records(
    s: &[u8],
    locals: u8,
    blocks: &mut [u16; MAX_BLOCKS],
    code: &mut [u16; MAX_INSTRUCTIONS],
) -> Result<Places, Refused>
    requires { (length s.now ≤ max_bytes) × (locals ≡ locals_of (body_at s.now 0)) }
    ensures { ReadInto (places_from (length s.now) s.now 0 no_places) s.now blocks.new code.new result }
{
    let rows = shapes::limit_rows(locals);
    let mut block_count: usize = 0;
    let mut code_count: usize = 0;
    let mut first_ret: usize = 0;
    let mut at: usize = 0;
    while at < s.len() {
        let r = test_by_row(s, at, locals, code_count != 0, &rows).map_err(|refusal| Refused {
            refusal,
            place: at,
        })?;
        let kind = r.kind;
        if is_full(kind, block_count, code_count) {
            return Err(Refused {
                refusal: Refusal::PastLimit,
                place: at,
            });
        }
        if kind == 2 {
            blocks[block_count] = at as u16;
            block_count += 1;
        } else if kind != 1 {
            first_ret = before_ret(kind, first_ret, code_count);
            code[code_count] = at as u16;
            code_count += 1;
        }
        at = r.next.at;
    }
    Ok(Places {
        block_count,
        code_count,
        first_ret,
    })
}

// Every byte string gets the places of its records, or the refusal and the place of document 01: its length, then record by record.
// The places are put into the lent arrays; their slots from a count on are free, and beside a refusal all of them.
pub fn read_places(
    s: &[u8],
    blocks: &mut [u16; MAX_BLOCKS],
    code: &mut [u16; MAX_INSTRUCTIONS],
) -> Result<Places, Refused>
    ensures { ReadInto (read_places s.now) s.now blocks.new code.new result }
{
    if MAX_BYTES < s.len() {
        return Err(Refused {
            refusal: Refusal::PastLimit,
            place: MAX_BYTES,
        });
    }
    let head = body(s, Cursor { at: 0 });
    read_records(s, byte_at(head, 1), blocks, code)
}
