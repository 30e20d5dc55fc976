#![tactic(auto)]
// A sheet's frame: its corners, the lattices they span, and the rules over the whole record. Document 01, "Record A".
ghost use Rattle.std.specs.Prelude.{◌≡◌, leb};
ghost use Rattle.std.specs.Int.Signed.{lt_z};
ghost use Rattle.laws.specs.Sign.{lesser, greater};
ghost use Rattle.lattice.specs.Lattice.{lattice_of};
ghost use Rattle.field.specs.Told.{fault_told};
ghost use Rattle.frame.specs.Frame.{west, east, south, north, columns_of, rows_of, corners_in_order, one_to2048, whole_fault, pairs, listed, canadian_fault, family_fault, cells_of, z_of, column_place_of, row_place_of};

use field::Broken;
use kinds::Kind;
use lattice::Lattice;

// In billionths of the ground unit.
#[derive(Clone, Copy, Default, PartialEq, Eq)]
pub struct Corner {
    pub x: i64,
    pub y: i64,
}

// What a good record A says, in document 01's order; reals and spacings in billionths.
#[derive(Clone, Copy, Default, PartialEq, Eq)]
pub struct Header {
    pub level: u64,
    pub system: u64,
    pub zone: u64,
    pub ground: u64,
    pub vertical: u64,
    pub sw: Corner,
    pub nw: Corner,
    pub ne: Corner,
    pub se: Corner,
    pub least: i64,
    pub greatest: i64,
    pub accuracy: u64,
    pub xstep: u64,
    pub ystep: u64,
    pub zstep: u64,
    pub profiles: u64,
}

fn least_of(a: i64, b: i64, c: i64, d: i64) -> i64
    ensures { result ≡ lesser (lesser a b) (lesser c d) }
{
    a.min(b).min(c.min(d))
}

// In this order the library's `max` is `greater` to the letter.
fn greatest_of(a: i64, b: i64, c: i64, d: i64) -> i64
    ensures { result ≡ greater (greater a b) (greater c d) }
{
    d.max(c).max(b.max(a))
}

// The lattice over one coordinate of the four corners.
fn lattice_over(a: i64, b: i64, c: i64, d: i64, spacing: u64) -> Lattice
    ensures { result ≡ lattice_of (lesser (lesser a b) (lesser c d)) (greater (greater a b) (greater c d)) spacing }
{
    lattice::span(least_of(a, b, c, d), greatest_of(a, b, c, d), spacing)
}

// The columns of a header's lattice, as its corners and spacing span them.
pub fn column_lattice(h: Header) -> Lattice
    ensures { result ≡ lattice_of (west h) (east h) h.xstep }
{
    lattice_over(h.sw.x, h.nw.x, h.ne.x, h.se.x, h.xstep)
}

pub fn row_lattice(h: Header) -> Lattice
    ensures { result ≡ lattice_of (south h) (north h) h.ystep }
{
    lattice_over(h.sw.y, h.nw.y, h.ne.y, h.se.y, h.ystep)
}

// How many columns, and how many rows.
pub fn columns(h: Header) -> u64
    ensures { result ≡ columns_of h }
{
    column_lattice(h).count
}

pub fn rows(h: Header) -> u64
    ensures { result ≡ rows_of h }
{
    row_lattice(h).count
}

fn corners_in_order(h: Header) -> bool
    ensures { result ≡ corners_in_order h }
{
    h.sw.x < h.se.x && h.nw.x < h.ne.x && h.sw.y < h.nw.y && h.se.y < h.ne.y
}

fn one_to_2048(n: u64) -> bool
    ensures { result ≡ one_to2048 n }
{
    matches!(n, 1..=2048)
}

// The rules over the whole record, in their order.
pub fn judge_whole(h: Header) -> Result<(), Broken>
    ensures { fault_told result ≡ whole_fault h }
{
    if !corners_in_order(h) {
        return Err(Broken::at(Kind::Place, 547));
    }
    let columns = columns(h);
    if !one_to_2048(columns) || !one_to_2048(rows(h)) {
        return Err(Broken::at(Kind::Place, 817));
    }
    if columns < h.profiles {
        return Err(Broken::at(Kind::Place, 859));
    }
    Ok(())
}

// The listed pairs of spacings.
fn is_pair(x: u64, y: u64) -> bool
    ensures { result ≡ listed x y pairs }
{
    match y {
        750000000 => matches!(x, 750000000 | 1500000000 | 3000000000),
        3000000000 => matches!(x, 3000000000 | 6000000000 | 12000000000),
        _ => false,
    }
}

// The pair before the lattice: a spacing may be zero here.
fn judge_canadian(h: Header) -> Result<(), Broken>
    ensures { fault_told result ≡ canadian_fault h }
{
    if !is_pair(h.xstep, h.ystep) {
        return Err(Broken::at(Kind::Range, 817));
    }
    if !corners_in_order(h) {
        return Err(Broken::at(Kind::Place, 547));
    }
    if columns(h) != 1201 || rows(h) != 1201 {
        return Err(Broken::at(Kind::Place, 817));
    }
    Ok(())
}

// The rules over the whole record, of either family.
pub fn judge_family(family: u64, h: Header) -> Result<(), Broken>
    ensures { fault_told result ≡ family_fault family h }
{
    if family == 1 {
        return judge_canadian(h);
    }
    judge_whole(h)
}

// Whether so many cells are enough for the sheet. The product may not fit a u64.
pub fn has_room(h: Header, cells: u64) -> bool
    ensures { result ≡ leb (cells_of h) cells }
{
    columns(h)
        .checked_mul(rows(h))
        .is_some_and(|all| all <= cells)
}

// The z spacing in hundredths.
pub fn z_of(h: Header) -> u64
    ensures { result ≡ z_of h }
{
    h.zstep / 10000000
}

// The column of an x, and the row of a y.
pub fn column_of(h: Header, x: i64) -> Option<u64>
    ensures { result ≡ column_place_of h x }
{
    lattice::locate(column_lattice(h), h.xstep, x)
}

pub fn row_of(h: Header, y: i64) -> Option<u64>
    ensures { result ≡ row_place_of h y }
{
    lattice::locate(row_lattice(h), h.ystep, y)
}
