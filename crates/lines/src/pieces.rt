// The pieces of a line, put into a scratch text one after another: a word, then a number of one kind or another.
ghost use Rattle.std.specs.Prelude.{[], ◌∷◌, ◌++◌, ◌+◌, ◌≤◌, length};
ghost use Rattle.numerals.specs.Numerals.{numeral};
ghost use Rattle.lines.specs.Lines.{units, hundredths, spacing};
ghost use Rattle.lines.specs.Pieces.{Within};

// A unit and a hundredth in billionths.
const UNIT: u64 = 1_000_000_000;

pub(crate) const HUNDREDTH: u64 = 10_000_000;

// Kept: a text and a place in it stand apart here, as in the functions of numerals that these call.
fn put_hundredths(text: &mut [u8], at: usize, n: u64) -> usize
    requires { at + 23 ≤ length text.old }
    ensures { Within 23 text.old at (units n) text.new result }
{
    let point = numerals::put_number(text, at, n / 100);
    let tenths = numerals::put_byte(text, point, b'.');
    numerals::put_digits(text, tenths, 2, n % 100)
}

// A word and a whole number.
pub(crate) fn put_number(text: &mut [u8], at: usize, word: &[u8], n: u64) -> usize
    requires { (at + 36 ≤ length text.old) × (length word.now ≤ 12) }
    ensures { Within 36 text.old at (word.now ++ numeral n) text.new result }
{
    let first = numerals::put_word(text, at, word);
    numerals::put_number(text, first, n)
}

// The last number of a line, after its word, and the line feed.
pub(crate) fn put_last(text: &mut [u8], at: usize, word: &[u8], n: u64) -> usize
    requires { (at + 72 ≤ length text.old) × (length word.now ≤ 12) }
    ensures { Within 72 text.old at ((word.now ++ numeral n) ++ (10 ∷ [])) text.new result }
{
    let end = put_number(text, at, word, n);
    numerals::put_byte(text, end, b'\n')
}

// A blank and hundredths as units with two decimals.
pub(crate) fn put_units(text: &mut [u8], at: usize, n: u64) -> usize
    requires { at + 36 ≤ length text.old }
    ensures { Within 36 text.old at (32 ∷ units n) text.new result }
{
    let first = numerals::put_byte(text, at, b' ');
    put_hundredths(text, first, n)
}

// A spacing in billionths: whole units as they are, any other with two decimals.
fn put_step(text: &mut [u8], at: usize, b: u64) -> usize
    requires { at + 23 ≤ length text.old }
    ensures { Within 23 text.old at (spacing b) text.new result }
{
    if b % UNIT == 0 {
        numerals::put_number(text, at, b / UNIT)
    } else {
        put_hundredths(text, at, b / HUNDREDTH)
    }
}

// A blank and a spacing.
pub(crate) fn put_spacing(text: &mut [u8], at: usize, b: u64) -> usize
    requires { at + 36 ≤ length text.old }
    ensures { Within 36 text.old at (32 ∷ spacing b) text.new result }
{
    let first = numerals::put_byte(text, at, b' ');
    put_step(text, first, b)
}

// A word and a height, which may lie below zero.
pub(crate) fn put_height(text: &mut [u8], at: usize, word: &[u8], z: i64) -> usize
    requires { (at + 36 ≤ length text.old) × (length word.now ≤ 12) }
    ensures { Within 36 text.old at (word.now ++ hundredths z) text.new result }
{
    let sign = numerals::put_word(text, at, word);
    let first = numerals::put_minus(text, sign, z);
    put_hundredths(text, first, z.unsigned_abs())
}
