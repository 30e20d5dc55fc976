#![tactic(auto)]
// The south-west corner in degrees, minutes and seconds: document 02, request 2.
ghost use Rattle.std.specs.Prelude.{◌≡◌, ◌≤◌, ◌<◌, ◌^◌, nat_abs};
ghost use Rattle.number.specs.Integer.{integer};
ghost use Rattle.number.specs.Real.{real};
ghost use Rattle.field.specs.Field.{stretch};
ghost use Rattle.corner.specs.Corner.{arc_seconds, says_corner};

// Billionths of an arc-second in a degree, and in a minute.
const DEGREE: u64 = 3600000000000;

const MINUTE: u64 = 60000000000;

fn size_at(block: &[u8], first: usize, width: usize) -> u64
    ensures size { result ≡ nat_abs (integer (stretch first width block.now)).value }
    ensures small { result < 10 ^ 6 }
{
    number::read_integer(field::stretch_of(block, first, width))
        .unwrap_or(0)
        .unsigned_abs()
}

fn seconds_at(block: &[u8], first: usize) -> u64
    ensures size { result ≡ nat_abs (real (stretch first 7 block.now)).value }
    ensures small { result < 10 ^ 18 }
{
    number::read_real(field::stretch_of(block, first, 7))
        .unwrap_or(0)
        .unsigned_abs()
}

// The sign is read from the degrees' bytes: a reading of `-0` has lost it.
#[tactic(auto, unfolding(crate::specs::Corner::arc_seconds))]
fn arc_seconds(block: &[u8], first: usize) -> i64
    requires { first ≤ 1024 }
    ensures { result ≡ arc_seconds first block.now }
{
    let degrees = size_at(block, first, 4);
    let minutes = size_at(block, first + 4, 2);
    let seconds = seconds_at(block, first + 6);
    let minus = number::is_minus(field::stretch_of(block, first, 4));
    number::signed(minus, degrees * DEGREE + minutes * MINUTE + seconds)
}

// Whether the text says this corner, longitude x and latitude y. Any block is answered.
pub fn says(block: &[u8], x: i64, y: i64) -> bool
    ensures { result ≡ says_corner block.now x y }
{
    arc_seconds(block, 110) == x && arc_seconds(block, 123) == y
}
