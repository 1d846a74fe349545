// The codes of violations and the numbers of refusals. `StatusCode` has the Rust's names (vm_status.rs, `StatusCode`: those of this pass); where the
// Rust panics, or has no limit, document 01 has a refusal.
#![tactic(auto)]

ghost use Rattle.std.specs.Prelude.{◌≡◌, ℕ, false, ◌==◌};
ghost use Rattle.std.specs.Int.NonZero.{non_zero_u8_get};
ghost use Rattle.vm_status.specs.Models.{code_of, number_of};
ghost use Rattle.vm_status.specs.NumberLaws.{number_known, non_zero_known};

use std::num::NonZeroU8;

// What stands for a number: a code or a refusal, or the number itself.
pub trait Numbered: Copy {
    ghost number_is: { Self → ℕ };

    fn number(self) -> u8
        ensures { result ≡ number_is self };
}

// What an answer may be refused by: its number is not 0.
pub trait Refuses: Numbered {
    ghost known: { (e : Self) → (Self.number_is e == 0) ≡ false };
}

impl Numbered for u8 {
    ghost number_is = { λ n. n };

    fn number(self) -> u8 {
        self
    }
}

impl Numbered for NonZeroU8 {
    ghost number_is = { non_zero_u8_get };

    fn number(self) -> u8 {
        self.get()
    }
}

impl Refuses for NonZeroU8 {
    ghost known = { non_zero_known };
}

// What a routine does that the pass forbids.
#[derive(Clone, Copy, PartialEq, Eq)]
pub enum StatusCode {
    CopyLocExistsBorrow,
    MoveLocExistsBorrow,
    StLocUnsafeToDestroy,
    FreezeRefExistsMutableBorrow,
    ReadRefExistsMutableBorrow,
    WriteRefExistsBorrow,
    BorrowLocExistsBorrow,
    BorrowFieldExistsMutableBorrow,
    GlobalReference,
    VecUpdateExistsMutableBorrow,
    VecBorrowElementExistsMutableBorrow,
    CallBorrowedMutableReference,
    UnsafeRet,
    RetBorrowedMutableReference,
}

impl From<StatusCode> for u8 {
    ghost from_gives = { λ s n. n ≡ code_of s };

    fn from(s: StatusCode) -> u8 {
        match s {
            StatusCode::CopyLocExistsBorrow => 101,
            StatusCode::MoveLocExistsBorrow => 102,
            StatusCode::StLocUnsafeToDestroy => 103,
            StatusCode::FreezeRefExistsMutableBorrow => 104,
            StatusCode::ReadRefExistsMutableBorrow => 105,
            StatusCode::WriteRefExistsBorrow => 106,
            StatusCode::BorrowLocExistsBorrow => 107,
            StatusCode::BorrowFieldExistsMutableBorrow => 108,
            StatusCode::GlobalReference => 109,
            StatusCode::VecUpdateExistsMutableBorrow => 110,
            StatusCode::VecBorrowElementExistsMutableBorrow => 111,
            StatusCode::CallBorrowedMutableReference => 112,
            StatusCode::UnsafeRet => 113,
            StatusCode::RetBorrowedMutableReference => 114,
        }
    }
}

impl Numbered for StatusCode {
    ghost number_is = { code_of };

    fn number(self) -> u8 {
        u8::from(self)
    }
}

// Why there is neither an acceptance nor a violation. The first seven and the last come from the listing and its caller, 8, 9 and 23 from a caller of
// the graph, 10 to 16 from the routine's author, 20 to 22 from the size of the controller.
#[derive(Clone, Copy, PartialEq, Eq)]
pub enum Refusal {
    // 1: the listing ends within a record.
    Short,
    // 2
    UnknownKind,
    // 3: length, token, flag, range or local.
    BadBody,
    // 4: the first record is no function record, or a later one is.
    MisplacedFunction,
    // 5: the rules on blocks and on Ret.
    BadBlocks,
    // 6
    PastLimit,
    // 7: the work area.
    SmallArea,
    // 8
    NameHeld,
    // 9: no well-formed graph, or a name that it lacks.
    IllFormed,
    // 10
    EmptyStack,
    // 11: a value where a reference is needed, or the reverse.
    WrongOperand,
    // 12
    AbsentLocal,
    // 13
    Immutable,
    // 14: at a block's end.
    OperandsLeft,
    // 15: a value in one state, a reference in the other.
    UnlikeLocals,
    // 16
    NamesClash,
    // 20
    FullStack,
    // 21
    ManyEdges,
    // 22
    LongPath,
    // 23
    ManyNames,
    // 33: behind an instruction.
    LateBlock,
}

impl From<Refusal> for u8 {
    ghost from_gives = { λ r n. n ≡ number_of r };

    fn from(r: Refusal) -> u8 {
        match r {
            Refusal::Short => 1,
            Refusal::UnknownKind => 2,
            Refusal::BadBody => 3,
            Refusal::MisplacedFunction => 4,
            Refusal::BadBlocks => 5,
            Refusal::PastLimit => 6,
            Refusal::SmallArea => 7,
            Refusal::NameHeld => 8,
            Refusal::IllFormed => 9,
            Refusal::EmptyStack => 10,
            Refusal::WrongOperand => 11,
            Refusal::AbsentLocal => 12,
            Refusal::Immutable => 13,
            Refusal::OperandsLeft => 14,
            Refusal::UnlikeLocals => 15,
            Refusal::NamesClash => 16,
            Refusal::FullStack => 20,
            Refusal::ManyEdges => 21,
            Refusal::LongPath => 22,
            Refusal::ManyNames => 23,
            Refusal::LateBlock => 33,
        }
    }
}

impl Numbered for Refusal {
    ghost number_is = { number_of };

    fn number(self) -> u8 {
        u8::from(self)
    }
}

impl Refuses for Refusal {
    ghost known = { number_known };
}

// A refusal and its place: that of a record in a listing, or what document 01 names for the refusal.
#[derive(Clone, Copy, PartialEq, Eq)]
pub struct Refused {
    pub refusal: Refusal,
    pub place: usize,
}
