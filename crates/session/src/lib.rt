#![tactic(auto)]
// The session of a sheet that is being loaded: document 01, "What a delivery answers".
mod clauses;

ghost use Rattle.std.specs.Prelude.{◌≡◌};
ghost use Rattle.session.specs.Session.{opened, fresh, begun, is_fresh, sound, complete, open_blocks};

use frame::Header;

// The open profile: none where `posts` is 0. Stated extremes are in billionths, datum and running extremes in hundredths.
#[derive(Clone, Copy, Default, PartialEq, Eq)]
pub struct Profile {
    pub posts: u64,
    pub row: u64,
    pub datum: i64,
    pub least: i64,
    pub greatest: i64,
    pub read: u64,
    pub filled: u64,
    pub low: i64,
    pub high: i64,
}

// Blocks taken, profiles closed, posts and filled posts with their extremes in hundredths, the first profile's column,
// whether record C was taken, the sum of the filled posts' heights in hundredths, and the sheet's family.
// Kept: whether record C was taken, and the family, as numbers, since a caller in C keeps a session as numbers and any of them is answered (`sound`).
#[derive(Clone, Copy, Default, PartialEq, Eq)]
pub struct Session {
    pub header: Header,
    pub taken: u64,
    pub closed: u64,
    pub posts: u64,
    pub filled: u64,
    pub low: i64,
    pub high: i64,
    pub column: u64,
    pub finished: u64,
    pub profile: Profile,
    pub sum: i64,
    pub family: u64,
}

// A fresh session for sheets of a family. Any number is answered; one that names no family is unsound.
pub fn opened(family: u64) -> Session
    ensures { result ≡ opened family }
{
    Session {
        family,
        ..Session::default()
    }
}

// A fresh session for USGS sheets.
pub fn new() -> Session
    ensures { result ≡ fresh }
{
    opened(0)
}

fn is_fresh(s: Session) -> bool
    ensures { result ≡ is_fresh s }
{
    s == opened(s.family)
}

// Document 01: "A session is sound exactly if ..". Any session is answered.
#[tactic(auto, unfolding(crate::specs::Session::sound))]
pub fn is_sound(s: Session) -> bool
    ensures { result ≡ sound s }
{
    s.family < 2 && (is_fresh(s) || clauses::begun_obeys(s))
}

// After block 0: its header, one block taken, all else zero.
pub fn begun(family: u64, header: Header) -> Session
    ensures { result ≡ begun family header }
{
    Session {
        header,
        taken: 1,
        ..opened(family)
    }
}

// Block 0 taken, every profile closed and, where record C is announced, that taken too.
pub fn is_complete(s: Session) -> bool
    ensures { result ≡ complete s }
{
    s.taken != 0 && s.closed == s.header.profiles && (s.header.accuracy != 1 || s.finished == 1)
}

// The blocks taken of the open profile; none where no profile is open.
pub fn open_blocks(s: Session) -> u64
    ensures { result ≡ open_blocks s }
{
    if s.profile.posts == 0 {
        0
    } else {
        s.profile.read.saturating_sub(146) / 170 + 1
    }
}
