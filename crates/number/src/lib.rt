#![tactic(auto)]
// Number fields, read exactly: document 01, "Number fields". No floating point anywhere.
mod decimal;
mod walk;

ghost use Rattle.std.specs.Prelude.{◌≡◌, ℕ, ◌<◌, ◌≤◌, ◌^◌, ◌-◌, min, nat_abs, Ok, Err};
ghost use Rattle.laws.specs.Sign.{signed};
ghost use Rattle.number.specs.Integer.{integer, wrong_form, says_minus};
ghost use Rattle.number.specs.Reading.{said, unread};
ghost use Rattle.number.specs.Real.{real};
ghost use Rattle.number.specs.Steps.{reading_of, stopped_at};
ghost use Rattle.number.specs.Tens.{ten_to};

use kinds::Kind;

// Why a text is no number. For wrong form the byte of the field, counted from 1, that first makes the form impossible; 0 for every other kind.
#[derive(Clone, Copy)]
pub struct Unread {
    pub kind: Kind,
    pub byte: u8,
}

impl Unread {
    // A kind that is told at the field's first byte.
    pub fn of(kind: Kind) -> Unread
        ensures { result ≡ unread kind }
    {
        Unread { kind, byte: 0 }
    }
}

// What a field comes to in document 01's numbers. Kind 0 is a good reading; any other kind is the number of the refusal, with the value 0. For wrong form
// the byte of the field, counted from 1, that first makes the form impossible; 0 for every other kind. Kept: what takes it promises an answer to any (field).
#[derive(Clone, Copy)]
pub struct Reading {
    pub kind: u32,
    pub value: i64,
    pub byte: u8,
}

impl Reading {
    pub fn told(read: Result<i64, Unread>) -> Reading
        ensures { result ≡ said read }
    {
        match read {
            Ok(value) => Reading {
                kind: 0,
                value,
                byte: 0,
            },
            Err(u) => Reading {
                kind: u.kind.number(),
                value: 0,
                byte: u.byte,
            },
        }
    }
}

// No field goes on as this one does from `next` on, counted from 0; or it ends there, too soon, and its last byte is meant.
fn wrong_form(next: usize, bytes: usize) -> Unread
    requires { (next ≤ bytes) × (bytes ≤ 24) }
    ensures { said (Err result) ≡ wrong_form (stopped_at next bytes) }
{
    Unread {
        kind: Kind::Form,
        byte: bytes.min(next + 1) as u8,
    }
}

// A power of ten, for the reading here and the writing above; 0 past the greatest that they need. Arms and no array: an array is laid out on the
// stack whenever one of its numbers is asked for.
#[tactic(auto, unfolding(crate::specs::Tens::ten_to))]
pub fn ten_to(k: usize) -> u64
    ensures { result ≡ ten_to k }
{
    match k {
        0 => 1,
        1 => 10,
        2 => 100,
        3 => 1000,
        4 => 10000,
        5 => 100000,
        6 => 1000000,
        7 => 10000000,
        8 => 100000000,
        9 => 1000000000,
        10 => 10000000000,
        11 => 100000000000,
        12 => 1000000000000,
        13 => 10000000000000,
        14 => 100000000000000,
        15 => 1000000000000000,
        16 => 10000000000000000,
        17 => 100000000000000000,
        18 => 1000000000000000000,
        _ => 0,
    }
}

// A number with its sign; a size that an i64 has no room for counts as the greatest that it has.
pub fn signed(minus: bool, size: u64) -> i64
    ensures { result ≡ signed minus (min size (2 ^ 63 - 1)) }
{
    let z = size.min(i64::MAX as u64) as i64;
    if minus { -z } else { z }
}

// The number of an integer field of 1 to 6 bytes; kinds 1 and 6. One walk finds the number or the very byte.
pub fn read_integer(field: &[u8]) -> Result<i64, Unread>
    ensures { said result ≡ integer field.now }
{
    let n = field.len();
    if n < 1 || 6 < n {
        return Err(Unread::of(Kind::Length));
    }
    let t = walk::past_blanks(field, 0);
    let u = walk::past_sign(field, t);
    let w = walk::read_whole(field, u);
    if w.next == u || w.next < n {
        return Err(wrong_form(w.next, n));
    }
    Ok(signed(walk::minus_at(field, t), u64::from(w.value)))
}

// Whether a field says minus, also before zero: a reading's value has lost that.
pub fn is_minus(field: &[u8]) -> bool
    ensures { result ≡ says_minus field.now }
{
    let t = walk::past_blanks(field, 0);
    walk::minus_at(field, t)
}

fn settle(minus: bool, scaled: Result<u64, Kind>) -> Result<i64, Unread>
    requires { (n : ℕ) → scaled ≡ Ok n → n < 10 ^ 18 }
    ensures { said result ≡ reading_of minus scaled }
{
    match scaled {
        Ok(n) => Ok(signed(minus, n)),
        Err(kind) => Err(Unread::of(kind)),
    }
}

// The value of a real field of 1 to 24 bytes, in billionths; kinds 1, 6, 7 and 8.
pub fn read_real(field: &[u8]) -> Result<i64, Unread>
    ensures { said result ≡ real field.now }
{
    let n = field.len();
    if n < 1 || 24 < n {
        return Err(Unread::of(Kind::Length));
    }
    let t = walk::past_blanks(field, 0);
    let u = walk::past_sign(field, t);
    let m = decimal::read_mantissa(field, u);
    let x = m.next;
    if m.digits == 0 {
        return Err(wrong_form(x, n));
    }
    let p = decimal::read_power(field, x)?;
    let end = walk::past_blanks(field, p.next);
    if end < n {
        return Err(wrong_form(end, n));
    }
    let standing = x - m.point;
    let places = decimal::decimals(n, m.whole < m.point, standing);
    let minus = walk::minus_at(field, t);
    if p.minus {
        return settle(minus, decimal::scale(m.kept, 9, places + p.size));
    }
    settle(minus, decimal::scale(m.kept, 9 + p.size, places))
}
