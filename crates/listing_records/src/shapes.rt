// The shape table: the fields of each kind's body. And the rows of limits that stand for the shapes of a fixed width.
ghost use Rattle.std.specs.Prelude.{◌≡◌, ◌≤◌};
ghost use Rattle.meaning.specs.Listing.{kind_in_use, fields_of};
ghost use Rattle.listing_records.specs.Models.{packed, ShapeFor, limit_row, limit_rows};

// Fields and kinds are numbers and no enums: the fields of a body are packed into one number, and a kind picks a row (request A6, below).

// The fields; those of a fixed width first. A range that is passed is refusal 3, a limit that is passed is refusal 6.
pub const FLAG: u16 = 1; // u8: 0 or 1

pub const TOKEN: u16 = 2; // u8: 0 to 2

pub const PARAMETERS: u16 = 3; // u8, at most 16

pub const LOCAL: u16 = 4; // u8, below L

pub const WORD: u16 = 5; // u16

pub const SUCCESSORS: u16 = 6; // a count u8, 0 to 2, and as many u16

pub const ACQUIRED: u16 = 7; // a count u8, at most 16, and as many u16

pub const RETURNS: u16 = 8; // a count u8, at most 8, and as many tokens

pub const FRAME: u16 = 9; // P u8, L u8, P tokens; P at most L, L at most 16

// The kind of the instruction Ret.
pub const RET: u16 = 23;

// Request A6: a decision over the kind number yields the shapes and the rows, and no table of them stands in read-only memory. The decision has
// this form because the compiler makes a table again of other ones: of a `match` with all kinds in it, of rows that are handed back, and of ten
// rows or fewer in a loop. bench/memory/run tells.

// That a kind is in use.
fn in_use(kind: u16) -> bool
    ensures { result ≡ kind_in_use kind }
{
    (kind == 1) | (kind == 2) | ((10 <= kind) & (kind <= 27))
}

// The bodies of more than one field.
const FUNCTION: u16 = FRAME + 16 * RETURNS;

const BLOCK: u16 = WORD + 16 * WORD + 256 * SUCCESSORS;

const BORROW_LOCAL: u16 = LOCAL + 16 * FLAG;

const BORROW: u16 = WORD + 16 * FLAG;

const CALL: u16 = PARAMETERS + 16 * ACQUIRED + 256 * RETURNS;

const VALUES: u16 = WORD + 16 * WORD + 256 * TOKEN;

const VECTOR: u16 = TOKEN + 16 * FLAG + 256 * FLAG + 4096 * TOKEN;

// The fields of a kind, field by field: the first one is the last hexadecimal digit, and so on up to a digit 0. A kind that is not in use has none.
fn fields_of(kind: u16) -> u16
    ensures { packed 4 result ≡ fields_of kind }
{
    match kind {
        18..=21 => match kind {
            18 => BORROW_LOCAL,
            21 => WORD,
            _ => BORROW,
        },
        22..=24 => match kind {
            22 => CALL,
            24 => VALUES,
            _ => 0,
        },
        26 => VECTOR,
        27 => FLAG,
        _ => match kind {
            1 => FUNCTION,
            2 => BLOCK,
            11..=13 => LOCAL,
            _ => 0,
        },
    }
}

// The fields of a kind, packed; None where no kind in use has this number.
pub fn shape_of(kind: u16) -> Option<u16>
    ensures { ShapeFor kind result }
{
    if in_use(kind) {
        Some(fields_of(kind))
    } else {
        None
    }
}

// A byte that may be anything, or is past the body.
const ANY: u16 = 256;

// A row, in a routine of so many locals: how long a kind's body is, and the least number that each of its bytes may not be. (0, in kind 22, is for
// a field whose width is not fixed: no byte is below it.)
const NO_BODY: [u16; 6] = [0, ANY, ANY, ANY, ANY, ANY];

// The rows of the kinds from Pop to WriteRef.
fn local_row(row: &mut [u16; 6], kind: u16, locals: u16)
    requires { (10 ≤ kind) × (kind ≤ 17) }
    ensures { row.new ≡ limit_row locals kind }
{
    *row = NO_BODY;
    match kind {
        11..=13 => {
            row[0] = 1;
            row[1] = locals;
        }
        _ => {}
    }
}

// Those of the borrows and of MoveFrom.
fn borrow_row(row: &mut [u16; 6], kind: u16, locals: u16)
    requires { (18 ≤ kind) × (kind ≤ 21) }
    ensures { row.new ≡ limit_row locals kind }
{
    *row = NO_BODY;
    match kind {
        18 => {
            row[0] = 2;
            row[1] = locals;
            row[2] = 2;
        }
        21 => {
            row[0] = 2;
        }
        _ => {
            row[0] = 3;
            row[3] = 2;
        }
    }
}

// Those of Call, of Ret, and of values taken and pushed.
fn call_row(row: &mut [u16; 6], kind: u16, locals: u16)
    requires { (22 ≤ kind) × (kind ≤ 24) }
    ensures { row.new ≡ limit_row locals kind }
{
    *row = NO_BODY;
    match kind {
        22 => {
            row[0] = 3;
            row[1] = 17;
            row[2] = 0;
            row[3] = 0;
        }
        24 => {
            row[0] = 5;
            row[5] = 3;
        }
        _ => {}
    }
}

// Those of MoveTo and of what is done to vectors.
fn vector_row(row: &mut [u16; 6], kind: u16, locals: u16)
    requires { (25 ≤ kind) × (kind ≤ 27) }
    ensures { row.new ≡ limit_row locals kind }
{
    *row = NO_BODY;
    match kind {
        26 => {
            row[0] = 4;
            row[1] = 3;
            row[2] = 2;
            row[3] = 2;
            row[4] = 3;
        }
        27 => {
            row[0] = 1;
            row[1] = 2;
        }
        _ => {}
    }
}

// The row of a kind.
fn limit_row(row: &mut [u16; 6], kind: u16, locals: u16)
    requires { (10 ≤ kind) × (kind ≤ 27) }
    ensures { row.new ≡ limit_row locals kind }
{
    match kind {
        0..=17 => local_row(row, kind, locals),
        18..=21 => borrow_row(row, kind, locals),
        22..=24 => call_row(row, kind, locals),
        _ => vector_row(row, kind, locals),
    }
}

// The rows of the kinds from 10 on. Made once for a listing, since a decision at each record would take longer.
pub(crate) fn limit_rows(locals: u8) -> [[u16; 6]; 18]
    ensures { result ≡ limit_rows locals }
{
    let l = locals as u16;
    let mut rows = [[0u16; 6]; 18];
    for i in 0..18 {
        limit_row(&mut rows[i], 10 + i as u16, l);
    }
    rows
}
