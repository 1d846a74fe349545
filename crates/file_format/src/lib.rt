// The numbers of a listing that must not stand for one another (file_format.rs), and the token of a type.

#![tactic(auto)]

ghost use Rattle.std.specs.Prelude.{◌≡◌};
ghost use Rattle.meaning.specs.Listing.{token_as};
ghost use Rattle.file_format.specs.Models.{token_of};

#[derive(Clone, Copy, PartialEq, Eq)]
pub struct LocalIndex(pub u8);

#[derive(Clone, Copy, PartialEq, Eq, PartialOrd, Ord)]
pub struct CodeOffset(pub u16);

#[derive(Clone, Copy, PartialEq, Eq)]
pub enum SignatureToken {
    Value,
    Reference,
    MutableReference,
}

// 0 a value, 2 a mutable reference, another number a reference. (A listing that was read has only 0, 1 and 2.)
impl From<u8> for SignatureToken {
    ghost from_gives = { λ n t. token_of t ≡ token_as n };

    fn from(n: u8) -> SignatureToken {
        match n {
            0 => SignatureToken::Value,
            2 => SignatureToken::MutableReference,
            _ => SignatureToken::Reference,
        }
    }
}
