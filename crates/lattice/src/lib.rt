#![tactic(auto)]
// The lattice of a sheet, over spacings in billionths: document 01, "Record A".
ghost use Rattle.std.specs.Prelude.{◌≡◌, true, ◌+◌, ◌≤◌, leb};
ghost use Rattle.lattice.specs.Lattice.{is_real, first_multiple, lattice_of, place_within, place_of};

// The first multiple of the spacing, as a number of spacings, and how many multiples there are.
#[derive(Drop)]
pub struct Lattice {
    pub first: i64,
    pub count: u64,
}

// Whether a real field can hold it.
fn is_real(z: i64) -> bool
    ensures { result ≡ is_real z }
{
    z.unsigned_abs() < 1000000000000000000
}

// The least multiple that is not below.
fn first_multiple(v: i64, spacing: u64) -> i64
    requires { (is_real v ≡ true) × (1 ≤ spacing) }
    ensures { result ≡ first_multiple v spacing }
{
    let size = v.unsigned_abs();
    if v < 0 {
        -((size / spacing) as i64)
    } else {
        size.div_ceil(spacing) as i64
    }
}

// The multiples of the spacing from the least to the greatest corner value; none for what is no real or no spacing. The last is the first of the
// values with their signs turned.
#[tactic(auto, unfolding(crate::specs::Lattice::lattice_of))]
pub fn span(least: i64, greatest: i64, spacing: u64) -> Lattice
    ensures { result ≡ lattice_of least greatest spacing }
{
    if !is_real(least) || !is_real(greatest) || spacing < 1 {
        return Lattice { first: 0, count: 0 };
    }
    let first = first_multiple(least, spacing);
    let last = -first_multiple(-greatest, spacing);
    Lattice {
        first,
        count: (last + 1 - first).max(0) as u64,
    }
}

// So many multiples past the first, as a place.
fn place_within(past: i64, count: u64) -> Option<u64>
    ensures { result ≡ place_within past count }
{
    u64::try_from(past).ok().filter(|&i| i < count)
}

// Where a place stands on the lattice, counted from its first multiple.
#[tactic(auto, unfolding(crate::specs::Lattice::place_of))]
pub fn locate(l: Lattice, spacing: u64, z: i64) -> Option<u64>
    ensures { result ≡ place_of l spacing z }
{
    if !is_real(z) || !is_real(l.first) || spacing < 1 || z.unsigned_abs() % spacing != 0 {
        return None;
    }
    place_within(first_multiple(z, spacing) - l.first, l.count)
}

// Room for so many from a place on. The sum may not fit a u64.
pub fn leaves_room(at: u64, many: u64, count: u64) -> bool
    ensures { result ≡ leb (at + many) count }
{
    at.checked_add(many).is_some_and(|end| end <= count)
}
