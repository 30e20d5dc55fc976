// A good block of a profile: where its cells are, and the closing rules.
ghost use Rattle.std.specs.Prelude.{◌≡◌, ◌+◌, ◌≤◌, ◌<◌};
ghost use Rattle.frame.specs.Frame.{rows_of};
ghost use Rattle.delivery.specs.Deliver.{next_cell, filling};
ghost use Rattle.load.specs.Steps.{ByTally, Filling, Placing};

use gate::verdict;
use gate::verdict::Judged;
use ground::Tally;
use kinds::Kind;
use session::{Profile, Session};

// The cell of a profile's next post.
fn next_cell(s: Session, column: u64, p: Profile) -> u64
    requires { (rows_of s.header ≤ 2048) × ((column + s.closed < 2048) × (p.row + p.read < 4096)) }
    ensures { result ≡ next_cell s column p }
{
    let rows = frame::rows(s.header);
    (column + s.closed) * rows + p.row + p.read
}

// A good block of profile p: the session after it, or the closing rule it breaks.
pub(crate) fn fill_step(
    s: Session,
    number: u64,
    column: u64,
    p: Profile,
    n: u64,
    u: Tally,
    sum: i64,
) -> Judged
    requires { Filling s p n u sum × Placing s number column p }
    ensures { ByTally s (filling s number column p) n u sum result }
{
    let after = progress::fill_session(s, column, p, n, u, sum);
    let at = next_cell(s, column, p);
    if p.read + n < p.posts {
        return verdict::taken(after, 0, at, n);
    }
    match rules::close_fault(number - session::open_blocks(s), after) {
        Ok(()) => verdict::taken(progress::close_session(after), 0, at, n),
        Err(m) => verdict::refused_for(s, Kind::Extreme, m.block, m.byte),
    }
}
