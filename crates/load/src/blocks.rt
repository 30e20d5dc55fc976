// A later block judged whole: posts, blanks and places first, then the session after it.
ghost use Rattle.std.specs.Prelude.{◌≡◌, false, [], ◌+◌, ◌≤◌, ◌<◌};
ghost use Rattle.load.specs.Steps.{Opened, Opening, Placeable, Next, Judging, ByTally};
ghost use Rattle.delivery.specs.Deliver.{further, opening_with, opening, placed, filling, first_column, opened, unless, fills, finished_session, later};
ghost use Rattle.frame.specs.Frame.{cells_of};
ghost use Rattle.gate.specs.Gate.{judged_of};
ghost use Rattle.profile.specs.RecordB.{record_b};
ghost use Rattle.profile.specs.RecordC.{record_c};
ghost use Rattle.session.specs.Session.{busy};

use crate::steps;
use gate::verdict;
use gate::verdict::Judged;
use ground::Tally;
use kinds::Kind;
use profile::record_b::Head;
use session::Session;

// A further block of the open profile: posts from byte 1, at most 170.
fn further_block(s: Session, number: u64, block: &[u8], scratch: &mut [i32]) -> Judged
    requires { Opened s number block.now scratch.old }
    ensures { Judging s (further s number block.now) (cells_of s.header) scratch.new result }
{
    let p = s.profile;
    let n = (p.posts - p.read).min(170);
    let z = frame::z_of(s.header);
    match posts::scan_block(block, 1, n as usize, z, p.datum, scratch) {
        Ok(tally) => {
            let sum = posts::sum_filled(scratch, n as usize);
            steps::fill_step(s, number, s.column, p, n, tally, sum)
        }
        Err(b) => verdict::refused_for(s, b.kind, number, b.byte),
    }
}

// A profile's first block whose posts are good: its place, then its cells.
fn place_profile(s: Session, number: u64, head: Head, n: u64, u: Tally, sum: i64) -> Judged
    requires { Placeable s number head n u sum }
    ensures { ByTally s (λ hs. placed s number head (filling s number (first_column s head) (opened s head) hs)) n u sum result }
{
    let c = frame::column_of(s.header, head.x);
    if !rules::column_fits(s, c) {
        return verdict::refused_for(s, Kind::Place, number, 25);
    }
    let w = frame::row_of(s.header, head.y);
    if !rules::row_fits(s, head.posts, w) {
        return verdict::refused_for(s, Kind::Place, number, 49);
    }
    let column = rules::first_column(s, c);
    let p = rules::open_profile(head, w);
    steps::fill_step(s, number, column, p, n, u, sum)
}

// A profile's first block: posts from byte 145, at most 146.
fn open_block(s: Session, number: u64, block: &[u8], head: Head, scratch: &mut [i32]) -> Judged
    requires { Opening s number block.now head scratch.old }
    ensures { Judging s (opening_with s number block.now head) (cells_of s.header) scratch.new result }
{
    let n = head.posts.min(146);
    let z = frame::z_of(s.header);
    match posts::scan_block(block, 145, n as usize, z, head.datum, scratch) {
        Ok(tally) => {
            let sum = posts::sum_filled(scratch, n as usize);
            place_profile(s, number, head, n, tally, sum)
        }
        Err(b) => verdict::refused_for(s, b.kind, number, b.byte),
    }
}

// The next profile's first block, whose head is read first.
fn start_profile(s: Session, number: u64, block: &[u8], scratch: &mut [i32]) -> Judged
    requires { Next s number block.now scratch.old × ((busy s ≡ false) × (s.closed < s.header.profiles)) }
    ensures { Judging s (opening s number block.now (record_b s.family (s.closed + 1) block.now)) (cells_of s.header) scratch.new result }
{
    match profile::record_b::read_head(s.family, s.closed + 1, block) {
        Ok(head) => open_block(s, number, block, head, scratch),
        Err(b) => verdict::refused_for(s, b.kind, number, b.byte),
    }
}

// Record C: no cell, one block more.
fn finish_sheet(s: Session, number: u64, block: &[u8]) -> Judged
    requires { s.taken ≤ 26626 }
    ensures { result ≡ judged_of s (unless (record_c block.now) number (fills (finished_session s) 0 [])) }
{
    match profile::record_c::check_record_c(block) {
        Ok(()) => verdict::taken(progress::finish_session(s), 0, 0, 0),
        Err(b) => verdict::refused_for(s, b.kind, number, b.byte),
    }
}

// A later block, judged whole before a cell is written.
pub(crate) fn later_block(s: Session, number: u64, block: &[u8], scratch: &mut [i32]) -> Judged
    requires { Next s number block.now scratch.old }
    ensures { Judging s (later s number block.now) (cells_of s.header) scratch.new result }
{
    if s.profile.posts != 0 {
        return further_block(s, number, block, scratch);
    }
    if s.closed < s.header.profiles {
        return start_profile(s, number, block, scratch);
    }
    finish_sheet(s, number, block)
}
