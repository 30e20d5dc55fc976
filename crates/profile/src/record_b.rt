// The nine fields at the head of a profile's first block.
ghost use Rattle.std.specs.Prelude.{◌≡◌, IfOk};
ghost use Rattle.number.specs.Real.{real};
ghost use Rattle.number.specs.Reading.{said};
ghost use Rattle.field.specs.Field.{stretch, whole_at, real_at, fault, fault_or};
ghost use Rattle.field.specs.Told.{fault_told};
ghost use Rattle.profile.specs.RecordB.{record_b, headed_told, is_datum, datum_field, hundredths};
ghost use Rattle.profile.specs.Steps.{head_with, reals_fault, counts_fault};

use field::Broken;
use kinds::Kind;
use number::Unread;

// What the head says: posts, the southern post's place and the stated extremes in billionths, the datum in hundredths.
#[derive(Drop)]
pub struct Head {
    pub posts: u64,
    pub x: i64,
    pub y: i64,
    pub datum: i64,
    pub least: i64,
    pub greatest: i64,
}

// Whole hundredths, at most 10,000 units from zero.
fn is_datum(z: i64) -> bool
    ensures { result ≡ is_datum z }
{
    z % 10000000 == 0 && z.unsigned_abs() <= 10000000000000
}

fn judge_datum(r: Result<i64, Unread>) -> Result<i64, Unread>
    ensures { said result ≡ datum_field (said r) }
{
    let z = r?;
    if is_datum(z) {
        Ok(z)
    } else {
        Err(Unread::of(Kind::Range))
    }
}

fn in_hundredths(z: i64) -> i64
    ensures { result ≡ hundredths z }
{
    z / 10000000
}

fn read_datum(block: &[u8]) -> Result<i64, Broken>
    ensures fault { fault_told result ≡ fault_or (datum_field (real (stretch 73 24 block.now))) 73 (fault 0 0) }
    ensures value { IfOk result (λ z. z ≡ hundredths (real_at 73 block.now)) }
{
    let z = field::placed(73, judge_datum(field::real_at(block, 73)))?;
    Ok(in_hundredths(z))
}

fn real(block: &[u8], byte: u16) -> Result<i64, Broken>
    ensures fault { fault_told result ≡ fault_or (real (stretch byte 24 block.now)) byte (fault 0 0) }
    ensures value { IfOk result (λ z. z ≡ real_at byte block.now) }
{
    field::placed(byte, field::real_at(block, byte))
}

// What the reals say, behind posts that were read.
fn read_reals(posts: u64, block: &[u8]) -> Result<Head, Broken>
    ensures fault { fault_told result ≡ reals_fault block.now }
    ensures value { IfOk result (λ h. h ≡ head_with posts block.now) }
{
    Ok(Head {
        posts,
        x: real(block, 25)?,
        y: real(block, 49)?,
        datum: read_datum(block)?,
        least: real(block, 97)?,
        greatest: real(block, 121)?,
    })
}

// The four integers; the posts are among them.
fn read_posts(family: u64, number: u64, block: &[u8]) -> Result<u64, Broken>
    ensures fault { fault_told result ≡ counts_fault family number block.now }
    ensures value { IfOk result (λ n. n ≡ whole_at 13 block.now) }
{
    let one = field::bounds_of(1, 1, 1, Kind::Value);
    one.check_at(block, 1)?;
    field::bounds_of(number, number, 1, Kind::Value).check_at(block, 7)?;
    let posts = field::posts_limits(family).check_at(block, 13)?;
    one.check_at(block, 19)?;
    Ok(figures::not_negative(posts))
}

// The head of the profile with this number, counted from 1, of a family's sheet, or its first fault.
#[tactic(auto, unfolding(crate::specs::RecordB::record_b))]
pub fn read_head(family: u64, number: u64, block: &[u8]) -> Result<Head, Broken>
    ensures { headed_told result ≡ record_b family number block.now }
{
    if block.len() != 1024 {
        return Err(Broken::at(Kind::Length, 0));
    }
    let posts = read_posts(family, number, block)?;
    read_reals(posts, block)
}
