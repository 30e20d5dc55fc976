// Record C, judged whole.
ghost use Rattle.std.specs.Prelude.{◌≡◌, ◌≤◌};
ghost use Rattle.number.specs.Integer.{integer};
ghost use Rattle.number.specs.Reading.{said};
ghost use Rattle.field.specs.Field.{stretch, fault, fault_or, first_of};
ghost use Rattle.field.specs.Told.{fault_told};
ghost use Rattle.profile.specs.RecordC.{record_c, half_fields, error_reading};

use field::Broken;
use kinds::Kind;
use number::Unread;

// An error or a count that was read, under its half's code.
fn judge_error(code: u64, r: Result<i64, Unread>) -> Result<i64, Unread>
    ensures { said result ≡ error_reading code (said r) }
{
    let z = r?;
    if z < 0 {
        return Err(Unread::of(Kind::Range));
    }
    if code == 0 && 0 < z {
        return Err(Unread::of(Kind::Value));
    }
    Ok(z)
}

fn error_at(code: u64, block: &[u8], byte: u16) -> Result<i64, Broken>
    ensures { fault_told result ≡ fault_or (error_reading code (integer (stretch byte 6 block.now))) byte (fault 0 0) }
{
    field::placed(byte, judge_error(code, field::integer_at(block, byte)))
}

// Code, three errors and count, from a byte.
fn check_half(block: &[u8], byte: u16) -> Result<(), Broken>
    requires { byte ≤ 31 }
    ensures { fault_told result ≡ first_of (half_fields byte block.now) }
{
    let code = field::bounds_of(0, 1, 1, Kind::Value).check_at(block, byte)?;
    let code = figures::not_negative(code);
    error_at(code, block, byte + 6)?;
    error_at(code, block, byte + 12)?;
    error_at(code, block, byte + 18)?;
    error_at(code, block, byte + 24)?;
    Ok(())
}

#[tactic(auto, unfolding(crate::specs::RecordC::record_c))]
pub fn check_record_c(block: &[u8]) -> Result<(), Broken>
    ensures { fault_told result ≡ record_c block.now }
{
    if block.len() != 1024 {
        return Err(Broken::at(Kind::Length, 0));
    }
    check_half(block, 1)?;
    check_half(block, 31)?;
    if !field::blank_from(block, 60) {
        return Err(Broken::at(Kind::Stretch, 61));
    }
    Ok(())
}
