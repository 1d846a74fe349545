// Reads what a program is run on, and cuts it into the cases of those that try the others.
#![tactic(auto)]

ghost use Rattle.std.specs.Prelude.{◌≡◌, length, take};
ghost use Rattle.std.specs.Iterator.{at_most};
ghost use Rattle.std.specs.Io.KnownBytes.{Consumes};
ghost use Rattle.io.specs.Counts.{IsPrefixLen};
ghost use Rattle.case_input.specs.Cases.{NextCase};
ghost use Rattle.case_input.specs.Models.{count_of};

use std::io::Read;

// A read failed after this many bytes.
#[derive(Clone, Copy)]
pub struct Failed(pub usize);

// Reads until the buffer is full, the input ends or a read fails, and answers how many bytes it put at the start of the buffer.
pub fn fill<R: Read>(input: &mut R, buf: &mut [u8]) -> Result<usize, Failed>
    ensures count { IsPrefixLen (count_of result) buf.new }
    ensures bytes { Consumes (R.remaining input.old) (R.remaining input.new) (take (count_of result) buf.new) }
{
    let mut done: usize = 0;
    // By as much as a read gave, so nothing is counted one by one.
    while done < buf.len() {
        match input.read(&mut buf[done..]) {
            Ok(0) => return Ok(done),
            Ok(n) => done += n,
            Err(_) => return Err(Failed(done)),
        }
    }
    Ok(done)
}

// The same, where a failed read is an end.
pub fn read_full<R: Read>(input: &mut R, buf: &mut [u8]) -> usize
    ensures count { IsPrefixLen result buf.new }
    ensures bytes { Consumes (R.remaining input.old) (R.remaining input.new) (take result buf.new) }
{
    fill(input, buf).unwrap_or_else(|failed| failed.0)
}

// The cases in the bytes that are left: each after three bytes with its length, up to the first that is not whole.
#[derive(Drop)]
pub struct Cases<'a>(&'a [u8]);

impl<'a> Cases<'a> {
    pub fn new(input: &'a [u8]) -> Self
        ensures { result.0.now ≡ input.now }
    {
        Cases(input)
    }
}

impl<'a> Iterator for Cases<'a> {
    type Item = &'a [u8];

    ghost next_gives = { λ s r t. NextCase s.0.now r t.0.now };

    ghost remaining = { λ s. at_most (length s.0.now) };

    fn next(&mut self) -> Option<&'a [u8]> {
        let (head, rest) = self.0.split_first_chunk::<3>()?;
        let [a, b, c] = *head;
        let len = u32::from_le_bytes([a, b, c, 0]) as usize;
        let (case, left) = rest.split_at_checked(len)?;
        self.0 = left;
        Some(case)
    }
}
