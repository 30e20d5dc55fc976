#![tactic(auto)]
// The rules over a whole profile: where it stands, and what closes it. Document 01, "Record B".
ghost use Rattle.std.specs.Prelude.{◌≡◌, ◌+◌, eqb};
ghost use Rattle.laws.specs.Sign.{same_z};
ghost use Rattle.rules.specs.Told.{closing_told};
ghost use Rattle.delivery.specs.Deliver.{column_fits, row_fits, column_from, opened_at, stated, refusal, close_fault};

use profile::record_b::Head;
use session::{Profile, Session};

// A stated extreme that is not that of the cells (11): the block and the byte where it is stated.
#[derive(Clone, Copy)]
pub struct Misstated {
    pub block: u64,
    pub byte: u32,
}

// Whether two counts make a third. Their sum may not fit a u64.
fn is_sum(a: u64, b: u64, total: u64) -> bool
    ensures { result ≡ eqb (a + b) total }
{
    total.checked_sub(b) == Some(a)
}

// The first profile leaves room for all; each next one stands a column further east.
pub fn column_fits(s: Session, p: Option<u64>) -> bool
    ensures { result ≡ column_fits s p }
{
    match p {
        Some(c) if s.closed == 0 => {
            lattice::leaves_room(c, s.header.profiles, frame::columns(s.header))
        }
        Some(c) => is_sum(s.column, s.closed, c),
        None => false,
    }
}

pub fn row_fits(s: Session, posts: u64, p: Option<u64>) -> bool
    ensures { result ≡ row_fits s posts p }
{
    p.is_some_and(|r| lattice::leaves_room(r, posts, frame::rows(s.header)))
}

// The first profile's column, with a profile at this place.
pub fn first_column(s: Session, p: Option<u64>) -> u64
    ensures { result ≡ column_from s p }
{
    if s.closed == 0 {
        return p.unwrap_or(0);
    }
    s.column
}

// A profile that opens, with no post read yet.
pub fn open_profile(head: Head, p: Option<u64>) -> Profile
    ensures { result ≡ opened_at head p }
{
    Profile {
        posts: head.posts,
        row: p.unwrap_or(0),
        datum: head.datum,
        least: head.least,
        greatest: head.greatest,
        read: 0,
        filled: 0,
        low: 0,
        high: 0,
    }
}

// A stated extreme, in billionths, is that of the filled cells, in hundredths; zero where none is filled.
fn agrees(told: i64, filled: u64, extreme: i64) -> bool
    ensures { result ≡ same_z told (stated filled extreme) }
{
    if filled == 0 {
        return told == 0;
    }
    extreme.checked_mul(10000000) == Some(told)
}

fn told_otherwise(block: u64, byte: u32) -> Result<(), Misstated>
    ensures { closing_told result ≡ refusal 11 block byte }
{
    Err(Misstated { block, byte })
}

// The closing rules of a profile, then of the sheet with its last profile, in their order; `block` is the profile's first.
pub fn close_fault(block: u64, s: Session) -> Result<(), Misstated>
    ensures { closing_told result ≡ close_fault block s }
{
    let p = s.profile;
    let h = s.header;
    if !agrees(p.least, p.filled, p.low) {
        return told_otherwise(block, 97);
    }
    if !agrees(p.greatest, p.filled, p.high) {
        return told_otherwise(block, 121);
    }
    if !is_sum(s.closed, 1, h.profiles) {
        return Ok(());
    }
    if !agrees(h.least, s.filled, s.low) {
        return told_otherwise(0, 739);
    }
    if !agrees(h.greatest, s.filled, s.high) {
        return told_otherwise(0, 763);
    }
    Ok(())
}
