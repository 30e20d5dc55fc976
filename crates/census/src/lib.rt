#![tactic(auto)]
// The grid column by column: how many blocks there are, and which column's profile has one. Document 01, "Writing".
ghost use Rattle.std.specs.Prelude.{◌≡◌, true, ◌+◌, ◌*◌, ◌≤◌, length};
ghost use Rattle.std.specs.Option.{unwrap_or};
ghost use Rattle.written.specs.Cells.{column_at, first_row, profile_cells, start_at};
ghost use Rattle.census.specs.Census.{fits, counted, column_by, no_column, searched, found_by};

use columns::Column;
use frame::Header;

// The column whose profile has a block, with the profile's first block, row and posts.
#[derive(Drop)]
pub struct Found {
    pub column: usize,
    pub start: u64,
    pub row: usize,
    pub posts: usize,
}

// Kept: all zero where no column has the block, as `found_by` promises it.
const NO_COLUMN: Found = Found {
    column: 0,
    start: 0,
    row: 0,
    posts: 0,
};

// No more columns and rows than record A allows, and their cells are there: so no sum grows too large, and none is looked for past the grid.
fn fits(columns: usize, rows: usize, grid: &[i32]) -> bool
    ensures { result ≡ fits columns rows grid.now }
{
    columns <= 2048 && rows <= 2048 && columns * rows <= grid.len()
}

fn column_at(rows: usize, grid: &[i32], c: usize) -> Column
    requires { c * rows + rows ≤ length grid.now }
    ensures { (result.row ≡ first_row (column_at rows grid.now c)) × (result.posts ≡ length (profile_cells (column_at rows grid.now c))) }
{
    let from = c * rows;
    let end = from + rows;
    columns::scan_column(&grid[from..end])
}

// A column's profile: its first row and its posts. Kept: no row and no post where the grid does not fit, as `column_by` promises it.
pub fn column_of(h: Header, grid: &[i32], c: usize) -> Column
    ensures { result ≡ column_by h grid.now c }
{
    let rows = frame::rows(h) as usize;
    if c < 2048 && fits(c + 1, rows, grid) {
        return column_at(rows, grid, c);
    }
    Column { row: 0, posts: 0 }
}

// Block 0, and those of each column's profile.
fn count_blocks(columns: usize, rows: usize, grid: &[i32]) -> u64
    requires { fits columns rows grid.now ≡ true }
    ensures { result ≡ start_at rows grid.now columns }
{
    let mut next = 1;
    for c in 0..columns {
        next += columns::blocks_for(column_at(rows, grid, c).posts);
    }
    next
}

// How many blocks a sheet has; 0 where the grid does not fit.
pub fn count_of(h: Header, grid: &[i32]) -> u64
    ensures { result ≡ counted h grid.now }
{
    let columns = frame::columns(h) as usize;
    let rows = frame::rows(h) as usize;
    if fits(columns, rows, grid) {
        return count_blocks(columns, rows, grid);
    }
    0
}

// The first column whose profile does not end before a block. Behind the last column's there is none.
fn search(columns: usize, rows: usize, grid: &[i32], number: u64) -> Option<Found>
    requires { (fits columns rows grid.now ≡ true) × (1 ≤ number) }
    ensures { unwrap_or result no_column ≡ searched columns rows grid.now number }
{
    let mut start = 1;
    for c in 0..columns {
        let column = column_at(rows, grid, c);
        let next = start + columns::blocks_for(column.posts);
        if number < next {
            return Some(Found {
                column: c,
                start,
                row: column.row,
                posts: column.posts,
            });
        }
        start = next;
    }
    None
}

// The column whose profile has a block. Block 0 has none, as a block has that the sheet has not, and any block where the grid does not fit.
pub fn find_column(h: Header, grid: &[i32], number: u64) -> Found
    ensures { result ≡ found_by h grid.now number }
{
    let columns = frame::columns(h) as usize;
    let rows = frame::rows(h) as usize;
    if 0 < number && fits(columns, rows, grid) {
        return search(columns, rows, grid, number).unwrap_or(NO_COLUMN);
    }
    NO_COLUMN
}
