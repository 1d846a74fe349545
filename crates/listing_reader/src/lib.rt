// The listing reader (document 01): a struct that holds the lent bytes and where the next record starts. It is thin over the cursor
// of `listing_records`: each function takes the struct apart and calls one that takes the bytes and a place.
#![tactic(auto)]

ghost use Rattle.std.specs.Prelude.{◌≡◌};
ghost use Rattle.meaning.specs.Listing.{body_at};
ghost use Rattle.listing_records.specs.Models.{found_of, found_at};
ghost use Rattle.listing_reader.specs.Models.{onward};

use listing_records::{Cursor, Record, body, read};
use vm_status::Refusal;

#[derive(Clone, Copy)]
pub struct Reader<'a> {
    pub listing: &'a [u8],
    pub at: usize,
}

impl<'a> Reader<'a> {
    pub fn new(listing: &'a [u8]) -> Reader<'a>
        ensures { (result.listing ≡ listing.entry) × (result.at ≡ 0) }
    {
        Reader { listing, at: 0 }
    }

    // The next record; the reader moves on to the one after it, and stays where there is none.
    pub fn next(&mut self) -> Result<Option<Record>, Refusal>
        ensures { (found_of self.old.at result ≡ found_at self.old.listing.now self.old.at) × (self.new ≡ onward self.old) }
    {
        let found = read(self.listing, Cursor { at: self.at });
        if let Ok(Some(record)) = found {
            self.at = record.next.at;
        }
        found
    }

    // The next record's body, as a part of the caller's own bytes; none, if no whole record stands there.
    pub fn body(self) -> &'a [u8]
        ensures { result.now ≡ body_at self.entry.listing.now self.entry.at }
    {
        body(self.listing, Cursor { at: self.at })
    }
}

// The body of the record that a listing starts with. Its contract says nothing of a reader.
pub fn head<'a>(listing: &'a [u8]) -> &'a [u8]
    ensures { result.now ≡ body_at listing.now 0 }
{
    Reader::new(listing).body()
}
