// The session that numbers say.
ghost use Rattle.std.specs.Prelude.{◌≡◌, ◌<◌, ◌^◌};
ghost use Rattle.delivery.proofs.SoundOut.{Idle};
ghost use Rattle.ledger.specs.Ledger.{kept_at, count_kept, corner_kept, header_kept, profile_kept, session_kept, none_negative, is_session};

use frame::{Corner, Header};
use session::{Profile, Session};

fn number_at(numbers: &[i64], i: usize) -> i64
    ensures { result ≡ kept_at numbers.now i }
{
    numbers.get(i).copied().unwrap_or(0)
}

// A count: what no count says is read as 0.
fn count_at(numbers: &[i64], i: usize) -> u64
    ensures { (result ≡ count_kept numbers.now i) × (result < 2 ^ 63) }
{
    figures::not_negative(number_at(numbers, i))
}

fn corner_at(numbers: &[i64], i: usize, j: usize) -> Corner
    ensures { result ≡ corner_kept numbers.now i j }
{
    Corner {
        x: number_at(numbers, i),
        y: number_at(numbers, j),
    }
}

fn header_kept(numbers: &[i64]) -> Header
    ensures { result ≡ header_kept numbers.now }
{
    Header {
        level: count_at(numbers, 0),
        system: count_at(numbers, 1),
        zone: count_at(numbers, 2),
        ground: count_at(numbers, 3),
        vertical: count_at(numbers, 4),
        sw: corner_at(numbers, 5, 6),
        nw: corner_at(numbers, 7, 8),
        ne: corner_at(numbers, 9, 10),
        se: corner_at(numbers, 11, 12),
        least: number_at(numbers, 13),
        greatest: number_at(numbers, 14),
        accuracy: count_at(numbers, 15),
        xstep: count_at(numbers, 16),
        ystep: count_at(numbers, 17),
        zstep: count_at(numbers, 18),
        profiles: count_at(numbers, 19),
    }
}

fn profile_kept(numbers: &[i64]) -> Profile
    ensures { (result ≡ profile_kept numbers.now) × ((result.row < 2 ^ 63) × ((result.read < 2 ^ 63) × (result.filled < 2 ^ 63))) }
{
    Profile {
        posts: count_at(numbers, 28),
        row: count_at(numbers, 29),
        datum: number_at(numbers, 30),
        least: number_at(numbers, 31),
        greatest: number_at(numbers, 32),
        read: count_at(numbers, 33),
        filled: count_at(numbers, 34),
        low: number_at(numbers, 35),
        high: number_at(numbers, 36),
    }
}

pub(crate) fn session_kept(numbers: &[i64]) -> Session
    ensures { (result ≡ session_kept numbers.now) × Idle result }
{
    Session {
        header: header_kept(numbers),
        taken: count_at(numbers, 20),
        closed: count_at(numbers, 21),
        posts: count_at(numbers, 22),
        filled: count_at(numbers, 23),
        low: number_at(numbers, 24),
        high: number_at(numbers, 25),
        column: count_at(numbers, 26),
        finished: count_at(numbers, 27),
        profile: profile_kept(numbers),
        sum: number_at(numbers, 37),
        family: count_at(numbers, 38),
    }
}

fn none_negative(numbers: &[i64]) -> bool
    ensures { result ≡ none_negative numbers.now }
{
    numbers.iter().all(|&z| 0 <= z)
}

// Enough numbers, and no negative one where the session keeps a count.
#[tactic(auto, unfolding(crate::specs::Ledger::is_session))]
pub(crate) fn is_session(numbers: &[i64]) -> bool
    ensures { result ≡ is_session numbers.now }
{
    crate::NUMBERS <= numbers.len()
        && none_negative(&numbers[0..5])
        && none_negative(&numbers[15..24])
        && none_negative(&numbers[26..30])
        && none_negative(&numbers[33..35])
        && none_negative(&numbers[38..39])
}
