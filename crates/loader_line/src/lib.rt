// What the loader prints for a verdict.
#![tactic(auto)]

ghost use Rattle.std.specs.Prelude.{◌≡◌, ◌++◌, ◌+◌, ◌≤◌, length};
ghost use Rattle.arrayvec.specs.ArrayString.{array_string_len};
ghost use Rattle.meaning.specs.Area.{cleared};
ghost use Rattle.meaning.specs.Verify as Whole;
ghost use Rattle.absint.specs.Models.{verdict_of};
ghost use Rattle.loader_line.specs.Text.{accepted, violated, refused, newline, blurred_is, borrowed_at as borrowed_at_is, decimal_of, numbers_of, line_of};

use absint::{Ruling, Verdict, verify};
use arrayvec::ArrayString;
use itoa::Buffer;

// Room for the longest lines and more.
const ROOM: usize = 96;

// The lines of the verdict on a listing.
pub fn answer_line(listing: &[u8], area: &mut [u32]) -> ArrayString<ROOM>
    ensures { (result.bytes ≡ line_of (Whole.verify (length area.old) listing.now)) × (area.new ≡ cleared area.old) }
{
    verdict_line(verify(listing, area))
}

pub fn verdict_line(v: Verdict) -> ArrayString<ROOM>
    ensures { result.bytes ≡ line_of (verdict_of v) }
{
    match v.ruling {
        Ruling::Accept => accept_lines(v.blurred),
        Ruling::Violation(code, offset, borrowed_at) => {
            violation_lines(code, offset.0 as usize, borrowed_at.0 as u64)
        }
        Ruling::Refused(number, place) => refusal_line(number, place),
        Ruling::Empty => line("EMPTY\n"),
    }
}

// An acceptance has a second line.
fn accept_lines(blurred: u64) -> ArrayString<ROOM>
    ensures { result.bytes ≡ accepted ++ newline ++ blurred_is ++ decimal_of blurred ++ newline }
{
    let mut l = line("ACCEPT\nBLURRED ");
    put_decimal(&mut l, blurred);
    l.push_str("\n");
    l
}

// So has a violation.
fn violation_lines(code: u8, offset: usize, borrowed_at: u64) -> ArrayString<ROOM>
    ensures { result.bytes ≡ violated ++ numbers_of code offset ++ borrowed_at_is ++ decimal_of borrowed_at ++ newline }
{
    let mut l = line("VIOLATION ");
    put_numbers(&mut l, code, offset);
    l.push_str("BORROWED AT ");
    put_decimal(&mut l, borrowed_at);
    l.push_str("\n");
    l
}

fn refusal_line(number: u8, place: usize) -> ArrayString<ROOM>
    ensures { result.bytes ≡ refused ++ numbers_of number place }
{
    let mut l = line("REFUSED ");
    put_numbers(&mut l, number, place);
    l
}

fn line(text: &str) -> ArrayString<ROOM>
    requires { length text.now ≤ 20 }
    ensures { result.bytes ≡ text.now }
{
    let mut l = ArrayString::new();
    l.push_str(text);
    l
}

// Two numbers, a space between them, and the end of the line.
fn put_numbers(l: &mut ArrayString<ROOM>, a: u8, b: usize)
    requires { array_string_len l.old ≤ 20 }
    ensures text { l.new.bytes ≡ l.old.bytes ++ numbers_of a b }
    ensures len { array_string_len l.new ≤ array_string_len l.old + 42 }
{
    put_decimal(l, a as u64);
    l.push_str(" ");
    put_decimal(l, b as u64);
    l.push_str("\n");
}

fn put_decimal(l: &mut ArrayString<ROOM>, n: u64)
    requires { array_string_len l.old ≤ 74 }
    ensures text { l.new.bytes ≡ l.old.bytes ++ decimal_of n }
    ensures len { array_string_len l.new ≤ array_string_len l.old + 20 }
{
    let mut digits = Buffer::new();
    l.push_str(digits.format(n));
}
