#![tactic(auto)]
// What the writer has to know of the grid before it writes a byte: document 01, "Writing".
pub mod judging;

ghost use Rattle.std.specs.Prelude.{◌≡◌, ◌/◌, ◌%◌, ◌*ℤ◌, pos, length};
ghost use Rattle.ground.specs.Posts.{void, blocks_for};
ghost use Rattle.laws.specs.Sign.{same_z};
ghost use Rattle.ground.specs.Extremes.{least_stated, greatest_stated};
ghost use Rattle.written.specs.Cells.{can_send, sendable, post_of, voids_before, up_to_last, first_row, profile_cells};
ghost use Rattle.columns.specs.ExtremeSteps.{with_cell, running};

// Where a column's profile begins, and how many posts it has.
#[derive(Drop)]
pub struct Column {
    pub row: usize,
    pub posts: usize,
}

// In billionths; zero where no cell is filled.
#[derive(Drop)]
pub struct Extremes {
    pub least: i64,
    pub greatest: i64,
}

// Extremes of the filled cells looked at so far, in hundredths.
#[derive(Clone, Copy)]
struct Running {
    low: i32,
    high: i32,
}

// The value that marks a void cell, and the post sent for it.
const VOID: i32 = i32::MIN;

const VOID_POST: i64 = -32767;

fn is_void(cell: i32) -> bool
    ensures { result ≡ same_z cell void }
{
    cell == VOID
}

// No sheet has a spacing of 0; a stranger's call may, and gets an answer too.
fn quotient(size: u64, z: u64) -> u64
    ensures { result ≡ size / z }
{
    size.checked_div(z).unwrap_or(0)
}

fn rest(size: u64, z: u64) -> u64
    ensures { result ≡ size % z }
{
    size.checked_rem(z).unwrap_or(size)
}

// "a multiple of the z spacing with quotient -32766 to 32767": -32767 would be read back as void.
pub fn can_send(z: u64, cell: i32) -> bool
    ensures { result ≡ can_send z cell }
{
    let size = u64::from(cell.unsigned_abs());
    let most = if cell < 0 { 32766 } else { 32767 };
    is_void(cell) || rest(size, z) == 0 && quotient(size, z) <= most
}

// "first cell of the sheet, in cell order": all of them where each can be sent.
pub fn count_sendable(z: u64, cells: &[i32]) -> usize
    ensures { result ≡ sendable z cells.now }
{
    cells
        .iter()
        .position(|&cell| !can_send(z, cell))
        .unwrap_or(cells.len())
}

// "voids between as -32767". Kept: the sign put by hand; over `number::signed` the check did not close this by itself.
pub fn post_of(z: u64, cell: i32) -> i64
    ensures { result ≡ post_of z cell }
{
    if is_void(cell) {
        return VOID_POST;
    }
    let n = quotient(u64::from(cell.unsigned_abs()), z) as i64;
    if cell < 0 { -n } else { n }
}

fn voids_before(column: &[i32]) -> usize
    ensures { result ≡ voids_before column.now }
{
    column
        .iter()
        .position(|&cell| !is_void(cell))
        .unwrap_or(column.len())
}

// "Writing", each column: its profile runs between the outermost filled rows; without any, a single void at row 0.
pub fn scan_column(column: &[i32]) -> Column
    ensures { (result.row ≡ first_row column.now) × (result.posts ≡ length (profile_cells column.now)) }
{
    let Some(last) = column.iter().rposition(|&cell| !is_void(cell)) else {
        return Column { row: 0, posts: 1 };
    };
    let row = voids_before(column);
    Column {
        row,
        posts: last + 1 - row,
    }
}

// "up to 146" posts in a profile's first block, "up to 170" in each further one.
pub fn blocks_for(posts: usize) -> u64
    ensures { result ≡ blocks_for posts }
{
    if posts <= 146 {
        return 1;
    }
    2 + ((posts - 147) / 170) as u64
}

// One cell before those looked at.
fn with_cell(cell: i32, found: Option<Running>) -> Option<Running>
    ensures { result ≡ with_cell cell found }
{
    if is_void(cell) {
        return found;
    }
    match found {
        None => Some(Running {
            low: cell,
            high: cell,
        }),
        Some(t) => Some(Running {
            low: cell.min(t.low),
            high: t.high.max(cell),
        }),
    }
}

// From the last cell to the first, as the extremes are defined.
fn filled_extremes(cells: &[i32]) -> Option<Running>
    ensures { result ≡ running cells.now }
{
    cells
        .iter()
        .rev()
        .fold(None, |found, &cell| with_cell(cell, found))
}

// Hundredths as billionths: any i32 fits an i64.
fn stated(height: i32) -> i64
    ensures { result ≡ height *ℤ pos 10000000 }
{
    i64::from(height) * 10000000
}

// "extremes worked out": of the filled cells, "or zero if there are none".
pub fn extremes_of(cells: &[i32]) -> Extremes
    ensures { (result.least ≡ least_stated cells.now) × (result.greatest ≡ greatest_stated cells.now) }
{
    match filled_extremes(cells) {
        None => Extremes {
            least: 0,
            greatest: 0,
        },
        Some(t) => Extremes {
            least: stated(t.low),
            greatest: stated(t.high),
        },
    }
}
