// A template and grid judged before a byte is written: document 01, "Writing".
ghost use Rattle.std.specs.Prelude.{◌≡◌, true};
ghost use Rattle.heading.specs.Heading.{header_of, header_obeys};
ghost use Rattle.written.specs.Sending.{grid_objection, sheet_objection};
ghost use Rattle.columns.specs.Judging.{judged_by, judged_told};

use crate::count_sendable;
use frame::Header;
use kinds::Kind;
use written::Refused;

// "12 (0), 13 first cell .. (cell)"
fn judge_grid(h: Header, grid: &[i32]) -> Result<Header, Refused>
    requires { header_obeys h ≡ true }
    ensures { judged_told result ≡ judged_by h (grid_objection h grid.now) }
{
    let cells = (frame::columns(h) * frame::rows(h)) as usize;
    if grid.len() < cells {
        return Err(Refused::of(Kind::Room, 0));
    }
    let n = count_sendable(frame::z_of(h), &grid[..cells]);
    if n < cells {
        return Err(Refused::of(Kind::Cell, n as u64));
    }
    Ok(h)
}

// "1 template length (number 1), 5-10 template (byte)", then the grid.
pub fn judge_sheet(template: &[u8], grid: &[i32]) -> Result<Header, Refused>
    ensures { judged_told result ≡ judged_by (header_of template.now) (sheet_objection template.now grid.now) }
{
    if template.len() != 1024 {
        return Err(Refused::of(Kind::Length, 1));
    }
    match sheet::check_record_a(template) {
        Ok(h) => judge_grid(h, grid),
        Err(b) => Err(Refused::of(b.kind, u64::from(b.byte))),
    }
}
