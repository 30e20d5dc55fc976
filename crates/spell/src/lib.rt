#![tactic(auto)]
// Number fields, written exactly: document 01, "Writing". An integer's bytes go straight into the field, from the right; a real's text is built in
// a scratch array, then placed at the field's right end.
ghost use Rattle.std.specs.Prelude.{cond, ◌∷◌, ◌≡◌, ◌+◌, ◌≤◌, ◌<◌, ◌^◌, leb, nat_abs, length};
ghost use Rattle.numerals.specs.Numerals.{spell, numeral, minus};
ghost use Rattle.numerals.specs.Pieces.{Puts};
ghost use Rattle.spell.specs.Spell.{justified, leading, power_text, decimal, integer_text, integer_fits, real_text, real_fits};
ghost use Rattle.spell.specs.RightSteps.{FromRight, filled_before};

// Magnitudes of 10 ^ 9 and more are written by no real: here in billionths.
const LIMIT: u64 = 1_000_000_000_000_000_000;

// The text at the field's right end, blanks before; a field that is too short stays as it is.
fn place(text: &[u8], field: &mut [u8]) -> bool
    ensures fits { result ≡ leb (length text.now) (length field.old) }
    ensures placed { field.new ≡ cond (leb (length text.now) (length field.old)) (justified (length field.old) text.now) field.old }
{
    if field.len() < text.len() {
        return false;
    }
    let gap = field.len() - text.len();
    field[..gap].fill(b' ');
    field[gap..].copy_from_slice(text);
    true
}

// Whether a minus and the digits have their bytes: asked before the first is put, since from the right one would find out too late.
fn has_places(value: i64, width: usize) -> bool
    ensures { result ≡ integer_fits width value }
{
    let minus = usize::from(value < 0);
    0 < width && numerals::is_below(value.unsigned_abs(), width - minus)
}

// The digits from the right end of the field; returns where the first stands. One is put before it is asked for more, so that zero has one.
fn put_from_right(n: u64, field: &mut [u8]) -> usize
    requires { length (numeral n) ≤ length field.old }
    ensures { FromRight field.old (numeral n) field.new result }
{
    let mut at = field.len();
    let mut rest = n;
    loop {
        at -= 1;
        field[at] = b'0' + (rest % 10) as u8;
        rest /= 10;
        if rest == 0 {
            return at;
        }
    }
}

// All that stands before the digits: a minus next to them if the number has one, blanks up to the field's first byte.
fn fill_before(value: i64, at: usize, field: &mut [u8])
    requires { (length (minus value) ≤ at) × (at ≤ length field.old) }
    ensures { field.new ≡ filled_before value at field.old }
{
    field[..at].fill(b' ');
    if value < 0 {
        field[at - 1] = b'-';
    }
}

// "Integers: right-justified .." False and the field as it was, where the number is too long for it.
// Kept: what is written answers with a bool, since `integer_fits` and `real_fits` promise one to the callers.
pub fn write_integer(value: i64, field: &mut [u8]) -> bool
    ensures fits { result ≡ integer_fits (length field.old) value }
    ensures written { field.new ≡ cond (integer_fits (length field.old) value) (integer_text (length field.old) value) field.old }
{
    if !has_places(value, field.len()) {
        return false;
    }
    let first = put_from_right(value.unsigned_abs(), field);
    fill_before(value, first, field);
    true
}

// The first few of a size's digits, or all of them with zeros behind.
fn leading_of(digits: usize, count: usize, size: u64) -> u64
    requires { (digits ≤ 15) × ((count ≤ 18) × (size < 10 ^ count)) }
    ensures { result ≡ leading digits count size }
{
    if count <= digits {
        size * number::ten_to(digits - count)
    } else {
        size / number::ten_to(count - digits)
    }
}

// ""0.", 15 digits (6 in the spacings)"
// Kept: a text and a place in it stand apart here, as in the functions of numerals that these call.
fn put_fraction(text: &mut [u8], at: usize, digits: usize, count: usize, size: u64) -> usize
    requires { (at + (digits + 2) ≤ length text.old) × ((digits ≤ 15) × ((count ≤ 18) × (size < 10 ^ count))) }
    ensures { Puts text.old at (48 ∷ 46 ∷ spell digits (leading digits count size)) text.new result }
{
    let first = numerals::put_word(text, at, b"0.");
    numerals::put_digits(text, first, digits, leading_of(digits, count, size))
}

// "then D (E in the spacings), sign, two digits"
fn put_power(text: &mut [u8], at: usize, letter: u8, count: usize) -> usize
    requires { (at + 4 ≤ length text.old) × (count ≤ 18) }
    ensures { Puts text.old at (power_text letter count) text.new result }
{
    let (sign, power) = if count < 9 {
        (b'-', 9 - count)
    } else {
        (b'+', count - 9)
    };
    let first = numerals::put_word(text, at, &[letter, sign]);
    numerals::put_digits(text, first, 2, power as u64)
}

// "optional minus, "0.", 15 digits .."
fn put_decimal(text: &mut [u8], digits: usize, letter: u8, value: i64) -> usize
    requires { (22 ≤ length text.old) × ((digits ≤ 15) × (nat_abs value < 10 ^ 18)) }
    ensures { Puts text.old 0 (decimal digits letter value) text.new result }
{
    let size = value.unsigned_abs();
    let count = numerals::count_of(9, 18, size);
    let first = numerals::put_minus(text, 0, value);
    let power = put_fraction(text, first, digits, count, size);
    put_power(text, power, letter, count)
}

// A value whose magnitude or digits no such real has is refused before anything is put.
fn write_decimal(value: i64, digits: usize, letter: u8, field: &mut [u8]) -> bool
    requires { digits ≤ 15 }
    ensures fits { result ≡ real_fits digits (length field.old) value }
    ensures written { field.new ≡ cond (real_fits digits (length field.old) value) (real_text digits letter (length field.old) value) field.old }
{
    let size = value.unsigned_abs();
    if LIMIT <= size || !numerals::is_short(digits, size) {
        return false;
    }
    let mut text = [0u8; 24];
    let end = put_decimal(&mut text, digits, letter, value);
    place(&text[..end], field)
}

// "Reals: right-justified .." 15 digits and D. False and the field as it was, where the value cannot stand in it.
pub fn write_real(value: i64, field: &mut [u8]) -> bool
    ensures fits { result ≡ real_fits 15 (length field.old) value }
    ensures written { field.new ≡ cond (real_fits 15 (length field.old) value) (real_text 15 68 (length field.old) value) field.old }
{
    write_decimal(value, 15, b'D', field)
}

// The same "in the spacings": 6 digits and E.
pub fn write_spacing(value: i64, field: &mut [u8]) -> bool
    ensures fits { result ≡ real_fits 6 (length field.old) value }
    ensures written { field.new ≡ cond (real_fits 6 (length field.old) value) (real_text 6 69 (length field.old) value) field.old }
{
    write_decimal(value, 6, b'E', field)
}
