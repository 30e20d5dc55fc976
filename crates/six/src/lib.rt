#![tactic(auto)]
// An integer field of six bytes, as every post is, read from its last byte back in six written steps; what it answers is number's integer. From the
// end nobody sees which byte first makes a form impossible: a field in which no number is found so is read again from its first byte.
ghost use Rattle.std.specs.Prelude.{◌≡◌, length};
ghost use Rattle.laws.specs.Texts.{every};
ghost use Rattle.number.specs.Bytes.{is_blank};
ghost use Rattle.number.specs.Integer.{integer};
ghost use Rattle.number.specs.Reading.{said};
ghost use Rattle.six.specs.Steps.{is_front, FrontAsked, Finds};

use number::Unread;

fn is_front(c: u8) -> bool
    ensures { result ≡ is_front c }
{
    matches!(c, b' ' | b'+' | b'-')
}

// Kept: field has the same line over the rest of a block; a public one for both would be longer than the two.
fn all_blank(s: &[u8]) -> bool
    ensures { result ≡ every is_blank s.now }
{
    s.iter().all(|&c| c == b' ')
}

// What stands before the digits: at k a sign or a blank, and blanks before it.
fn front(field: &[u8], k: usize, size: u64) -> Option<i64>
    requires { FrontAsked field.now k size }
    ensures { Finds field.now result }
{
    let c = field[k];
    if is_front(c) && all_blank(&field[..k]) {
        Some(number::signed(c == b'-', size))
    } else {
        None
    }
}

// The number found from the end, or none. No reading: with `read_integer` in each arm that finds none, a post took 38 instructions more
// (docs/SPEED.md).
fn from_the_end(field: &[u8]) -> Option<i64>
    requires { length field.now ≡ 6 }
    ensures { Finds field.now result }
{
    let f = field[5];
    if !f.is_ascii_digit() {
        return None;
    }
    let ones = (f - b'0') as u64;
    let e = field[4];
    if !e.is_ascii_digit() {
        return front(field, 4, ones);
    }
    let two = ones + 10 * ((e - b'0') as u64);
    let d = field[3];
    if !d.is_ascii_digit() {
        return front(field, 3, two);
    }
    let three = two + 100 * ((d - b'0') as u64);
    let c = field[2];
    if !c.is_ascii_digit() {
        return front(field, 2, three);
    }
    let four = three + 1000 * ((c - b'0') as u64);
    let b = field[1];
    if !b.is_ascii_digit() {
        return front(field, 1, four);
    }
    let five = four + 10000 * ((b - b'0') as u64);
    let a = field[0];
    if !a.is_ascii_digit() {
        return front(field, 0, five);
    }
    let six = five + 100000 * ((a - b'0') as u64);
    Some(number::signed(false, six))
}

// For any field; one of six bytes is what it is made for.
pub fn read_six(field: &[u8]) -> Result<i64, Unread>
    ensures { said result ≡ integer field.now }
{
    if field.len() == 6 {
        if let Some(value) = from_the_end(field) {
            return Ok(value);
        }
    }
    number::read_integer(field)
}
