// A whole sheet into one lent buffer, column by column: a column is looked up once for all its blocks, where one block's call must find it anew.
ghost use Rattle.std.specs.Prelude.{◌≡◌, cond, ◌+◌, ◌*◌, eqb, length};
ghost use Rattle.numerals.specs.Pieces.{Puts};
ghost use Rattle.written.specs.Sending.{sent_by, sent_told};
ghost use Rattle.send.specs.WholeSteps.{ColumnAsked, ColumnsAsked, BlocksAsked, FitAsked, column_text, columns_text, whole_text, room_objection};
ghost use Rattle.frame.specs.Frame.{columns_of};
ghost use Rattle.written.specs.Cells.{block_count, cells_sent};
ghost use Rattle.ground.specs.Posts.{blocks_for};

use crate::one_block;
use crate::one_block::Profile;
use frame::Header;
use kinds::Kind;
use written::Refused;

// The blocks of one column's profile, one behind the other; returns where the next column's begin.
fn write_column(h: Header, grid: &[i32], column: usize, at: usize, out: &mut [u8]) -> usize
    requires { ColumnAsked h grid.now column at out.old }
    ensures { Puts out.old at (column_text h grid.now column) out.new result × (result ≡ at + 1024 * blocks_for (length (cells_sent h grid.now column))) }
{
    let found = census::column_of(h, grid, column);
    let profile = Profile {
        column,
        row: found.row,
        posts: found.posts,
    };
    let mut from = at;
    for k in 0..columns::blocks_for(found.posts) {
        let end = from + 1024;
        one_block::write_profile_block(h, grid, profile, k, &mut out[from..end]);
        from = end;
    }
    from
}

// Every column's blocks, behind block 0 and to the buffer's end.
fn write_columns(h: Header, grid: &[i32], out: &mut [u8])
    requires { ColumnsAsked h grid.now out.old }
    ensures { Puts out.old 1024 (columns_text h grid.now (columns_of h)) out.new (length out.old) }
{
    let mut at = 1024;
    for c in 0..frame::columns(h) as usize {
        at = write_column(h, grid, c, at, out);
    }
}

// Block 0, then the columns.
fn write_blocks(template: &[u8], h: Header, grid: &[i32], out: &mut [u8])
    requires { BlocksAsked template.now h grid.now out.old }
    ensures { out.new ≡ whole_text template.now h grid.now }
{
    title::write_title(template, h, grid, &mut out[..1024]);
    write_columns(h, grid, out);
}

// The sheet has been judged; a buffer that is not count × 1,024 bytes is refused before a byte is written.
pub(crate) fn write_fitting(
    template: &[u8],
    h: Header,
    grid: &[i32],
    out: &mut [u8],
) -> Result<(), Refused>
    requires { FitAsked template.now h grid.now }
    ensures { (sent_told result ≡ sent_by (room_objection h grid.now (length out.old))) × (out.new ≡ cond (eqb (length out.old) (1024 * block_count h grid.now)) (whole_text template.now h grid.now) out.old) }
{
    let count = census::count_of(h, grid);
    if out.len() as u64 != 1024 * count {
        return Err(Refused::of(Kind::Length, 0));
    }
    write_blocks(template, h, grid, out);
    Ok(())
}
