// A session's numbers, put at the front of a lent slice.
ghost use Rattle.std.specs.Prelude.{◌≡◌, ◌++◌, ◌+◌, ◌≤◌, length, drop};
ghost use Rattle.std.proofs.lemmas.List.Edits.{sets};
ghost use Rattle.ledger.specs.Numbers.{session_numbers};
ghost use Rattle.ledger.specs.Row.{with_sign, header_row, count_row, profile_row, added_row, row_of};

use frame::Header;
use session::{Profile, Session};

// The greatest number of 64 bits with a sign for a greater one. Kept: this line stands in title too, over a definition of its own.
fn signed(n: u64) -> i64
    ensures { result ≡ with_sign n }
{
    i64::try_from(n).unwrap_or(i64::MAX)
}

// A row from one number on.
fn put_row(row: &[i64], at: usize, numbers: &mut [i64])
    requires { at + length row.now ≤ length numbers.old }
    ensures { numbers.new ≡ sets numbers.old at row.now }
{
    numbers[at..at + row.len()].copy_from_slice(row);
}

fn put_header(h: Header, numbers: &mut [i64])
    requires { session_numbers ≤ length numbers.old }
    ensures { numbers.new ≡ sets numbers.old 0 (header_row h) }
{
    let row = [
        signed(h.level),
        signed(h.system),
        signed(h.zone),
        signed(h.ground),
        signed(h.vertical),
        h.sw.x,
        h.sw.y,
        h.nw.x,
        h.nw.y,
        h.ne.x,
        h.ne.y,
        h.se.x,
        h.se.y,
        h.least,
        h.greatest,
        signed(h.accuracy),
        signed(h.xstep),
        signed(h.ystep),
        signed(h.zstep),
        signed(h.profiles),
    ];
    put_row(&row, 0, numbers);
}

fn put_counts(s: Session, numbers: &mut [i64])
    requires { session_numbers ≤ length numbers.old }
    ensures { numbers.new ≡ sets numbers.old 20 (count_row s) }
{
    let row = [
        signed(s.taken),
        signed(s.closed),
        signed(s.posts),
        signed(s.filled),
        s.low,
        s.high,
        signed(s.column),
        signed(s.finished),
    ];
    put_row(&row, 20, numbers);
}

fn put_profile(p: Profile, numbers: &mut [i64])
    requires { session_numbers ≤ length numbers.old }
    ensures { numbers.new ≡ sets numbers.old 28 (profile_row p) }
{
    let row = [
        signed(p.posts),
        signed(p.row),
        p.datum,
        p.least,
        p.greatest,
        signed(p.read),
        signed(p.filled),
        p.low,
        p.high,
    ];
    put_row(&row, 28, numbers);
}

// What the session has been given since the first twenty, eight and nine.
fn put_added(s: Session, numbers: &mut [i64])
    requires { session_numbers ≤ length numbers.old }
    ensures { numbers.new ≡ sets numbers.old 37 (added_row s) }
{
    let row = [s.sum, signed(s.family)];
    put_row(&row, 37, numbers);
}

pub(crate) fn keep(s: Session, numbers: &mut [i64])
    requires { session_numbers ≤ length numbers.old }
    ensures { numbers.new ≡ row_of s ++ drop session_numbers numbers.old }
{
    put_header(s.header, numbers);
    put_counts(s, numbers);
    put_profile(s.profile, numbers);
    put_added(s, numbers);
}
