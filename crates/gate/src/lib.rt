#![tactic(auto)]
// The first tests of a delivery, and block 0: document 01, "What a delivery answers".
pub mod verdict;

ghost use Rattle.std.specs.Prelude.{◌≡◌, ◌^◌, ◌<◌, ltb, eqb, true};
ghost use Rattle.sheet.specs.RecordA.{record_of};
ghost use Rattle.frame.specs.Frame.{cells_of};
ghost use Rattle.session.specs.Session.{begun, complete};
ghost use Rattle.delivery.specs.Deliver.{beginning};
ghost use Rattle.gate.specs.Gate.{room, gate_by, gate_of, taken, judged_of};

use frame::Header;
use kinds::Kind;
use session::Session;
use verdict::{Gate, Judged};

// The tests behind length and soundness, in document 01's order. Whether the cells lent are enough for the session's sheet is asked by the
// caller: it stays so from block to block.
pub fn order(s: Session, number: u64, roomy: bool) -> Gate
    ensures { result ≡ gate_by true true (ltb number s.taken) (ltb s.taken number) (eqb number 0) (complete s) roomy }
{
    if number < s.taken {
        return Gate::Again;
    }
    if s.taken < number {
        return Gate::Stop(Kind::Early);
    }
    if number == 0 {
        return Gate::Begin;
    }
    if session::is_complete(s) {
        return Gate::Stop(Kind::Complete);
    }
    if !roomy {
        return Gate::Stop(Kind::Room);
    }
    Gate::Later
}

// The first tests, in document 01's order.
pub fn gate(s: Session, number: u64, bytes: usize, cells: usize) -> Gate
    ensures { result ≡ gate_of s number bytes (room cells) }
{
    if bytes != 1024 {
        return Gate::Stop(Kind::Length);
    }
    if !session::is_sound(s) {
        return Gate::Stop(Kind::Unsound);
    }
    let roomy = frame::has_room(s.header, cells as u64);
    order(s, number, roomy)
}

// A good block 0: its header, and every cell of its sheet void.
fn begin(family: u64, h: Header) -> Judged
    requires { cells_of h < 2 ^ 64 }
    ensures { result ≡ taken (begun family h) (cells_of h) 0 0 }
{
    let cells = frame::columns(h) * frame::rows(h);
    verdict::taken(session::begun(family, h), cells, 0, 0)
}

// Block 0: its header, where the cells lent are enough.
pub fn judge_first(s: Session, block: &[u8], cells: usize) -> Judged
    ensures { result ≡ judged_of s (beginning (room cells) (record_of s.family block.now)) }
{
    match sheet::check_family(s.family, block) {
        Ok(h) if frame::has_room(h, cells as u64) => begin(s.family, h),
        Ok(_) => verdict::refused_for(s, Kind::Room, 0, 0),
        Err(b) => verdict::refused_for(s, b.kind, 0, b.byte),
    }
}
