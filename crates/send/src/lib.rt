#![tactic(auto)]
// Sheets written from a lent grid: document 01, "Writing".
mod one_block;
mod whole_sheet;

ghost use Rattle.std.specs.Prelude.{◌≡◌, length};
ghost use Rattle.written.specs.Sending.{block_objection, block_after, count_of, sent_by, sent_told, sheet_sent_objection, sheet_after};
ghost use Rattle.send.specs.SendSteps.{ZeroAsked};
ghost use Rattle.send.specs.AnswerSteps.{LaterAsked, later_block, count_objection, numbered};

use columns::judging;
use frame::Header;
use kinds::Kind;
use one_block::Profile;
use written::Refused;

// How many blocks a template and grid have; 0 where they are refused. So a caller can loop without provoking a refusal.
pub fn block_count(template: &[u8], grid: &[i32]) -> u64
    ensures { result ≡ count_of template.now grid.now }
{
    match judging::judge_sheet(template, grid) {
        Ok(h) => census::count_of(h, grid),
        Err(_) => 0,
    }
}

// A block that is not block 0.
fn write_later(h: Header, grid: &[i32], number: u64, block: &mut [u8])
    requires { LaterAsked h grid.now number block.old }
    ensures { block.new ≡ later_block h grid.now number }
{
    let found = census::find_column(h, grid, number);
    let profile = Profile {
        column: found.column,
        row: found.row,
        posts: found.posts,
    };
    one_block::write_profile_block(h, grid, profile, number - found.start, block);
}

// "14 number not below the sheet's block count (that count)", or the block.
fn write_number(
    template: &[u8],
    h: Header,
    grid: &[i32],
    number: u64,
    block: &mut [u8],
) -> Result<(), Refused>
    requires { ZeroAsked template.now h grid.now block.old }
    ensures { (sent_told result ≡ sent_by (count_objection h grid.now number)) × (block.new ≡ numbered template.now h grid.now number block.old) }
{
    let count = census::count_of(h, grid);
    if count <= number {
        return Err(Refused::of(Kind::Number, count));
    }
    if number == 0 {
        title::write_title(template, h, grid, block);
    } else {
        write_later(h, grid, number, block);
    }
    Ok(())
}

// One block of the sheet into the lent block; a refusal leaves it as it was.
pub fn write_block(
    template: &[u8],
    grid: &[i32],
    number: u64,
    block: &mut [u8],
) -> Result<(), Refused>
    ensures { (sent_told result ≡ sent_by (block_objection template.now grid.now number (length block.old))) × (block.new ≡ block_after template.now grid.now number block.old) }
{
    if block.len() != 1024 {
        return Err(Refused::of(Kind::Length, 0));
    }
    let h = judging::judge_sheet(template, grid)?;
    write_number(template, h, grid, number, block)
}

// The whole sheet into one lent buffer of block_count × 1,024 bytes: write_block's blocks, one behind the other (proofs/WholeBlocks).
// The sheet is judged and counted once. A refusal leaves the buffer as it was.
pub fn write_sheet(template: &[u8], grid: &[i32], out: &mut [u8]) -> Result<(), Refused>
    ensures { (sent_told result ≡ sent_by (sheet_sent_objection template.now grid.now (length out.old))) × (out.new ≡ sheet_after template.now grid.now out.old) }
{
    let h = judging::judge_sheet(template, grid)?;
    whole_sheet::write_fitting(template, h, grid, out)
}
