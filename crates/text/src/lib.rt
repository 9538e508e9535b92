// Text as bytes in a lent buffer. Each writer puts its text from a place on, leaves every other byte as it was, and answers the place behind the text.
#![tactic(auto)]

ghost use Rattle.std.specs.Prelude.{◌+◌, ◌≤◌, length};
ghost use Rattle.text.specs.Decimal.{decimal, field};
ghost use Rattle.writing.specs.Written.{Wrote};

use itoa::Buffer;
use writing::{copy_from, put_byte};

// Writes a number in decimal digits. One of one digit is written at once: the library's buffer costs more.
pub fn put_number(out: &mut [u8], at: usize, x: usize) -> usize
    requires { at + length (decimal x) ≤ length out.old }
    ensures { Wrote out.old at (decimal x) result out.new }
{
    if x < 10 {
        return put_byte(out, at, b'0' + x as u8);
    }
    let mut buffer = Buffer::new();
    let digits = buffer.format(x).as_bytes();
    copy_from(out, at, digits, 0, digits.len());
    at + digits.len()
}

// Writes one space and a number.
pub fn put_field(out: &mut [u8], at: usize, x: usize) -> usize
    requires { at + length (field x) ≤ length out.old }
    ensures { Wrote out.old at (field x) result out.new }
{
    let next = put_byte(out, at, b' ');
    put_number(out, next, x)
}
