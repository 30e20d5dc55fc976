#![tactic(auto)]
// The session after a block: its counts, its extremes, its sum and its open profile. Whether the block is good is asked elsewhere.
ghost use Rattle.std.specs.Prelude.{◌≡◌, cond};
ghost use Rattle.ground.specs.Posts.{merged};
ghost use Rattle.delivery.specs.Deliver.{closed_session, finished_session};
ghost use Rattle.progress.specs.Progress.{small, near, countable, read_with, filled_with, Few, Counted};

use ground::Tally;
use session::{Profile, Session};

// Two tallies, one behind the other.
fn merge(t: Tally, u: Tally) -> Tally
    requires { Few t.filled × Few u.filled }
    ensures { result ≡ merged t u }
{
    if u.filled == 0 {
        return t;
    }
    if t.filled == 0 {
        return u;
    }
    Tally {
        filled: t.filled + u.filled,
        low: t.low.min(u.low),
        high: t.high.max(u.high),
    }
}

// The open profile with n posts more, of tally u.
fn read_on(p: Profile, n: u64, u: Tally) -> Profile
    requires { (Few p.read × Few n) × (Few p.filled × Few u.filled) }
    ensures { result ≡ read_with p n u }
{
    let before = Tally {
        filled: p.filled,
        low: p.low,
        high: p.high,
    };
    let Tally { filled, low, high } = merge(before, u);
    Profile {
        read: p.read + n,
        filled,
        low,
        high,
        ..p
    }
}

fn fill_counted(s: Session, column: u64, p: Profile, n: u64, u: Tally, sum: i64) -> Session
    requires { Counted s p n u sum }
    ensures { result ≡ filled_with s column p n u sum }
{
    let before = Tally {
        filled: s.filled,
        low: s.low,
        high: s.high,
    };
    let Tally { filled, low, high } = merge(before, u);
    Session {
        taken: s.taken + 1,
        posts: s.posts + n,
        filled,
        low,
        high,
        column,
        profile: read_on(p, n, u),
        sum: s.sum + sum,
        ..s
    }
}

fn is_small(n: u64) -> bool
    ensures { result ≡ small n }
{
    n <= 4294967296
}

fn is_near(z: i64) -> bool
    ensures { result ≡ near z }
{
    z.unsigned_abs() <= 1000000000000000000
}

// Counts and sums that no sheet comes near are not gone on from: so every sum fits.
fn is_countable(s: Session, p: Profile, n: u64, u: Tally, sum: i64) -> bool
    ensures { result ≡ countable s p n u sum }
{
    is_small(s.taken)
        && is_small(s.posts)
        && is_small(s.filled)
        && is_small(p.read)
        && is_small(p.filled)
        && is_small(n)
        && is_small(u.filled)
        && is_near(s.sum)
        && is_near(sum)
}

// The session with a block more of profile p: n posts, of tally u, and their sum.
pub fn fill_session(s: Session, column: u64, p: Profile, n: u64, u: Tally, sum: i64) -> Session
    ensures { result ≡ cond (countable s p n u sum) (filled_with s column p n u sum) s }
{
    if is_countable(s, p, n, u, sum) {
        fill_counted(s, column, p, n, u, sum)
    } else {
        s
    }
}

// The open profile closed.
pub fn close_session(s: Session) -> Session
    ensures { result ≡ cond (small s.closed) (closed_session s) s }
{
    if is_small(s.closed) {
        Session {
            closed: s.closed + 1,
            profile: Profile::default(),
            ..s
        }
    } else {
        s
    }
}

// Record C taken.
pub fn finish_session(s: Session) -> Session
    ensures { result ≡ cond (small s.taken) (finished_session s) s }
{
    if is_small(s.taken) {
        Session {
            taken: s.taken + 1,
            finished: 1,
            ..s
        }
    } else {
        s
    }
}
