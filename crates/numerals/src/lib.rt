#![tactic(auto)]
// Decimal digits, and the pieces of a text put one after another. A piece that does not fit changes nothing, and ends where it starts.
ghost use Rattle.std.specs.Prelude.{[], ◌∷◌, ◌≡◌, ◌+◌, ◌≤◌, ◌<◌, ◌^◌, leb, ltb, length};
ghost use Rattle.laws.specs.Digits.{places, short};
ghost use Rattle.numerals.specs.Numerals.{spell, fixed, count, numeral, minus};
ghost use Rattle.numerals.specs.Pieces.{GivenAt};

// The fields need no more than 10 ^ 18, a number of 64 bits one power more.
fn power_of(k: usize) -> u64
    requires { k < 20 }
    ensures { result ≡ 10 ^ k }
{
    if k == 19 {
        10_000_000_000_000_000_000
    } else {
        number::ten_to(k)
    }
}

// Whether k digits are enough.
pub fn is_below(n: u64, k: usize) -> bool
    ensures { result ≡ ltb n (10 ^ k) }
{
    19 < k || n < power_of(k)
}

// The sum of a place and a length may pass the greatest usize.
fn has_room(at: usize, many: usize, lent: usize) -> bool
    ensures { result ≡ leb (at + many) lent }
{
    at.checked_add(many).is_some_and(|end| end <= lent)
}

fn places_of(k: usize, n: u64) -> usize
    requires { k ≤ 20 }
    ensures { result ≡ places k n }
{
    for i in (0..k).rev() {
        if power_of(i) <= n {
            return i + 1;
        }
    }
    0
}

// How many digits a number has, at most k, with so many as are named for zero.
pub fn count_of(none: usize, k: usize, n: u64) -> usize
    ensures { result ≡ count none k n }
{
    if n == 0 {
        none
    } else {
        places_of(k.min(20), n)
    }
}

// Whether the digits past the first few are all zero. Most numbers have none: a delivery asks this of every real of its session.
pub fn is_short(digits: usize, size: u64) -> bool
    ensures { result ≡ short 18 digits size }
{
    if size < number::ten_to(digits) {
        return true;
    }
    let count = places_of(18, size);
    count <= digits || size % number::ten_to(count - digits) == 0
}

// Kept: a text and a place in it are two parameters in all that put a piece, since `GivenAt` promises that of each to its callers.
pub fn put_byte(text: &mut [u8], at: usize, byte: u8) -> usize
    ensures { GivenAt at (byte ∷ []) text.old text.new result }
{
    if at < text.len() {
        text[at] = byte;
        return at + 1;
    }
    at
}

// Kept: byte by byte, since `copy_from_slice` has the archive for C ask for `memmove`, which it did not need before.
pub fn put_word(text: &mut [u8], at: usize, word: &[u8]) -> usize
    ensures { GivenAt at word.now text.old text.new result }
{
    let many = word.len();
    if !has_room(at, many, text.len()) {
        return at;
    }
    for i in 0..many {
        text[at + i] = word[i];
    }
    at + many
}

pub fn put_minus(text: &mut [u8], at: usize, z: i64) -> usize
    ensures { GivenAt at (minus z) text.old text.new result }
{
    if z < 0 { put_byte(text, at, b'-') } else { at }
}

fn put_spelled(text: &mut [u8], at: usize, k: usize, n: u64) -> usize
    requires { (at + k ≤ length text.old) × ((k ≤ 20) × (n < 10 ^ k)) }
    ensures { GivenAt at (spell k n) text.old text.new result }
{
    let mut rest = n;
    for i in 0..k {
        let power = power_of(k - 1 - i);
        text[at + i] = b'0' + (rest / power) as u8;
        rest %= power;
    }
    at + k
}

// So many digits, zeros before them; none where they are not enough, or more than 20.
pub fn put_digits(text: &mut [u8], at: usize, k: usize, n: u64) -> usize
    ensures { GivenAt at (fixed k n) text.old text.new result }
{
    if 20 < k || !is_below(n, k) || !has_room(at, k, text.len()) {
        return at;
    }
    put_spelled(text, at, k, n)
}

// A number with no zeros before it.
pub fn put_number(text: &mut [u8], at: usize, n: u64) -> usize
    ensures { GivenAt at (numeral n) text.old text.new result }
{
    put_digits(text, at, count_of(1, 20, n), n)
}
