// The clauses of a session that has begun, in document 01's order.
ghost use Rattle.std.specs.Prelude.{◌≡◌};
ghost use Rattle.session.specs.Session.{busy, profile_obeys, open_read, extremes_obey, sum_obeys, closed_obeys, column_obeys, posts_obey, finish_obeys, taken_obeys, begun_obeys};
ghost use Rattle.session.specs.Steps.{read_obeys, places_obey, counts_obey, Bounded};

use crate::{Profile, Session};
use frame::Header;

fn is_busy(s: Session) -> bool
    ensures { result ≡ busy s }
{
    s.profile.posts != 0
}

// 146 + 170k, below the posts stated.
fn read_obeys(p: Profile) -> bool
    ensures { result ≡ read_obeys p }
{
    146 <= p.read && (p.read - 146) % 170 == 0 && p.read < p.posts
}

fn profile_obeys(family: u64, h: Header, p: Profile) -> bool
    ensures { result ≡ profile_obeys family h p }
{
    field::in_range(field::posts_limits(family).limits(), p.posts)
        && lattice::leaves_room(p.row, p.posts, frame::rows(h))
        && p.datum.unsigned_abs() <= 1000000
        && heading::is_real_number(p.least)
        && heading::is_real_number(p.greatest)
        && read_obeys(p)
}

fn open_read(s: Session) -> u64
    ensures { result ≡ open_read s }
{
    if is_busy(s) { s.profile.read } else { 0 }
}

fn extremes_obey(filled: u64, low: i64, high: i64) -> bool
    ensures { result ≡ extremes_obey filled low high }
{
    filled == 0 || (low <= high && low.unsigned_abs() <= 4276700 && high.unsigned_abs() <= 4276700)
}

// Asked of any numbers: the product of the bound is not formed, since it could pass 64 bits.
fn sum_obeys(filled: u64, sum: i64) -> bool
    ensures { result ≡ sum_obeys filled sum }
{
    sum.unsigned_abs().div_ceil(4276700) <= filled
}

fn closed_obeys(s: Session) -> bool
    ensures { result ≡ closed_obeys s }
{
    s.closed <= s.header.profiles && (!is_busy(s) || s.closed < s.header.profiles)
}

fn column_obeys(s: Session) -> bool
    ensures { result ≡ column_obeys s }
{
    !(is_busy(s) || 0 < s.closed)
        || lattice::leaves_room(s.column, s.header.profiles, frame::columns(s.header))
}

fn finish_obeys(s: Session) -> bool
    ensures { result ≡ finish_obeys s }
{
    s.finished <= 1
        && (s.finished != 1 || (s.header.accuracy == 1 && s.closed == s.header.profiles))
}

fn places_obey(s: Session) -> bool
    ensures { result ≡ places_obey s }
{
    heading::family_obeys(s.family, s.header)
        && closed_obeys(s)
        && (!is_busy(s) || profile_obeys(s.family, s.header, s.profile))
        && column_obeys(s)
        && finish_obeys(s)
}

fn posts_obey(s: Session) -> bool
    requires { Bounded s }
    ensures { result ≡ posts_obey s }
{
    let read = open_read(s);
    s.closed + read <= s.posts
        && s.posts <= 2048 * s.closed + read
        && s.filled <= s.posts
        && (!is_busy(s) || s.profile.filled <= s.profile.read)
}

fn taken_obeys(s: Session) -> bool
    requires { Bounded s }
    ensures { result ≡ taken_obeys s }
{
    let blocks = crate::open_blocks(s);
    1 + s.closed + blocks + s.finished <= s.taken
        && s.taken <= 1 + 13 * s.closed + blocks + s.finished
}

fn counts_obey(s: Session) -> bool
    requires { Bounded s }
    ensures { result ≡ counts_obey s }
{
    let p = s.profile;
    posts_obey(s)
        && taken_obeys(s)
        && extremes_obey(s.filled, s.low, s.high)
        && (!is_busy(s) || extremes_obey(p.filled, p.low, p.high))
        && sum_obeys(s.filled, s.sum)
}

// The counts are added up only where the other clauses bound them.
pub(crate) fn begun_obeys(s: Session) -> bool
    ensures { result ≡ begun_obeys s }
{
    places_obey(s) && counts_obey(s)
}
