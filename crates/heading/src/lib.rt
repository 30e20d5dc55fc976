#![tactic(auto)]
// What a sheet's header must obey: record A's limits, each by its name. Document 01, "Record A".
ghost use Rattle.std.specs.Prelude.{◌≡◌};
ghost use Rattle.heading.specs.Heading.{zone_limits, ground_limits, height_limits, named, limits_of, canadian_limits, family_limits, limits_at, family_limits_at, is_real_number, corner_real, fields_obey, reals_obey, header_obeys, canadian_fields, family_obeys, zero_header};
ghost use Rattle.field.specs.Field.{limits};
ghost use Rattle.field.specs.Told.{limits_told};
ghost use Rattle.heading.specs.Steps.{stands_by};

use field::{Bounds, Limits};
use frame::{Corner, Header};
use kinds::Kind;

// The names of record A's limits.
#[derive(Clone, Copy)]
pub enum Name {
    Level,
    Pattern,
    System,
    Zone,
    Ground,
    Vertical,
    Sides,
    Angle,
    Accuracy,
    Spacing,
    Height,
    Rank,
    Profiles,
    Minutes,
    Seconds,
}

// Their numbers. Kept: the promises of `named_limits` and `family_limits` are of any number (`limits_at`).
pub const LEVEL: usize = 0;

pub const PATTERN: usize = 1;

pub const SYSTEM: usize = 2;

pub const ZONE: usize = 3;

pub const GROUND: usize = 4;

pub const VERTICAL: usize = 5;

pub const SIDES: usize = 6;

pub const ANGLE: usize = 7;

pub const ACCURACY: usize = 8;

pub const SPACING: usize = 9;

pub const HEIGHT: usize = 10;

pub const RANK: usize = 11;

pub const PROFILES: usize = 12;

pub const MINUTES: usize = 13;

pub const SECONDS: usize = 14;

// The names in that order.
const NAMES: [Name; 15] = [
    Name::Level,
    Name::Pattern,
    Name::System,
    Name::Zone,
    Name::Ground,
    Name::Vertical,
    Name::Sides,
    Name::Angle,
    Name::Accuracy,
    Name::Spacing,
    Name::Height,
    Name::Rank,
    Name::Profiles,
    Name::Minutes,
    Name::Seconds,
];

// Spacings, and seconds of arc, are in billionths.
const BILLION: u64 = 1000000000;

// A number that the paper lets stand in a field, by its least, greatest and step; else it is of kind 9, or of kind 7.
fn values(least: u64, greatest: u64) -> Bounds
    ensures { limits_told result ≡ limits least greatest 1 9 }
{
    field::bounds_of(least, greatest, 1, Kind::Value)
}

fn range(least: u64, greatest: u64, step: u64) -> Bounds
    ensures { limits_told result ≡ limits least greatest step 7 }
{
    field::bounds_of(least, greatest, step, Kind::Range)
}

fn zone_limits(system: u64) -> Bounds
    ensures { limits_told result ≡ zone_limits system }
{
    match system {
        0 => values(0, 0),
        1 => values(1, 60),
        _ => values(1, 9999),
    }
}

fn ground_limits(system: u64) -> Bounds
    ensures { limits_told result ≡ ground_limits system }
{
    match system {
        0 => values(3, 3),
        1 => values(2, 2),
        _ => values(1, 2),
    }
}

fn height_limits(vertical: u64) -> Bounds
    ensures { limits_told result ≡ height_limits vertical }
{
    if vertical == 1 {
        range(BILLION / 10, BILLION, BILLION / 10)
    } else {
        range(BILLION / 100, BILLION, BILLION / 100)
    }
}

impl Name {
    // The limits of a name, by the system and the vertical unit.
    pub fn limits(self, system: u64, vertical: u64) -> Bounds
        ensures { limits_told result ≡ limits_of (named self) system vertical }
    {
        match self {
            Name::Level => values(1, 3),
            Name::Pattern => values(1, 1),
            Name::System => values(0, 2),
            Name::Zone => zone_limits(system),
            Name::Ground => ground_limits(system),
            Name::Vertical => values(1, 2),
            Name::Sides => values(4, 4),
            Name::Angle => values(0, 0),
            Name::Accuracy => values(0, 1),
            Name::Spacing => range(BILLION, 9999 * BILLION, BILLION),
            Name::Height => height_limits(vertical),
            Name::Rank => values(1, 1),
            Name::Profiles => range(1, 2048, 1),
            Name::Minutes => range(0, 59, 1),
            Name::Seconds => range(0, 60 * BILLION - 1, 1),
        }
    }

    // The limits of a name in a Canadian sheet: its own where request 2 narrows them, else those of any sheet.
    fn canadian_limits(self, system: u64, vertical: u64) -> Bounds
        ensures { limits_told result ≡ canadian_limits (named self) system vertical }
    {
        match self {
            Name::Level => values(1, 1),
            Name::System => values(0, 0),
            Name::Zone => values(0, 0),
            Name::Vertical => values(2, 2),
            Name::Accuracy => values(0, 0),
            Name::Profiles => range(1201, 1201, 1),
            _ => self.limits(system, vertical),
        }
    }

    // The limits of a name in a sheet of the family.
    pub fn limits_in(self, family: u64, system: u64, vertical: u64) -> Bounds
        ensures { limits_told result ≡ family_limits family (named self) system vertical }
    {
        if family == 1 {
            self.canadian_limits(system, vertical)
        } else {
            self.limits(system, vertical)
        }
    }
}

// The limits of a name by its number in a sheet of the family; a number that names none has limits that nothing keeps but 0.
pub fn family_limits(family: u64, name: usize, system: u64, vertical: u64) -> Limits
    ensures { result ≡ family_limits_at family name system vertical }
{
    if NAMES.len() <= name {
        return field::limits_of(0, 0, 0, 0);
    }
    NAMES[name].limits_in(family, system, vertical).limits()
}

// The same in a sheet of any family but the Canadian.
pub fn named_limits(name: usize, system: u64, vertical: u64) -> Limits
    ensures { result ≡ limits_at name system vertical }
{
    family_limits(0, name, system, vertical)
}

// A number of the header stands in the limits that its name has in a sheet of the family.
fn stands_in(family: u64, name: Name, h: Header, v: u64) -> bool
    ensures { result ≡ stands_by family name h v }
{
    field::in_range(name.limits_in(family, h.system, h.vertical).limits(), v)
}

fn fields_obey(h: Header) -> bool
    ensures { result ≡ fields_obey h }
{
    stands_in(0, Name::Level, h, h.level)
        && stands_in(0, Name::System, h, h.system)
        && stands_in(0, Name::Zone, h, h.zone)
        && stands_in(0, Name::Ground, h, h.ground)
        && stands_in(0, Name::Vertical, h, h.vertical)
        && stands_in(0, Name::Accuracy, h, h.accuracy)
        && stands_in(0, Name::Spacing, h, h.xstep)
        && stands_in(0, Name::Spacing, h, h.ystep)
        && stands_in(0, Name::Height, h, h.zstep)
        && stands_in(0, Name::Profiles, h, h.profiles)
}

// A delivery asks this of every real of its session, and nearly all of them end in three zeros: that is tested first.
pub fn is_real_number(z: i64) -> bool
    ensures { result ≡ is_real_number z }
{
    let n = z.unsigned_abs();
    n < 1000000000000000000 && (n % 1000 == 0 || numerals::is_short(15, n))
}

fn corner_real(c: Corner) -> bool
    ensures { result ≡ corner_real c }
{
    is_real_number(c.x) && is_real_number(c.y)
}

fn reals_obey(h: Header) -> bool
    ensures { result ≡ reals_obey h }
{
    corner_real(h.sw)
        && corner_real(h.nw)
        && corner_real(h.ne)
        && corner_real(h.se)
        && is_real_number(h.least)
        && is_real_number(h.greatest)
}

pub fn header_obeys(h: Header) -> bool
    ensures { result ≡ header_obeys h }
{
    fields_obey(h) && reals_obey(h) && frame::judge_whole(h).is_ok()
}

// The x and y spacing of a Canadian sheet are held to the listed pairs by the rules over the whole record.
fn canadian_fields(h: Header) -> bool
    ensures { result ≡ canadian_fields h }
{
    stands_in(1, Name::Level, h, h.level)
        && stands_in(1, Name::System, h, h.system)
        && stands_in(1, Name::Zone, h, h.zone)
        && stands_in(1, Name::Ground, h, h.ground)
        && stands_in(1, Name::Vertical, h, h.vertical)
        && stands_in(1, Name::Accuracy, h, h.accuracy)
        && stands_in(1, Name::Height, h, h.zstep)
        && stands_in(1, Name::Profiles, h, h.profiles)
}

// A header of either family.
pub fn family_obeys(family: u64, h: Header) -> bool
    ensures { result ≡ family_obeys family h }
{
    if family == 1 {
        canadian_fields(h) && reals_obey(h) && frame::judge_family(1, h).is_ok()
    } else {
        header_obeys(h)
    }
}

pub fn zero_header(h: Header) -> bool
    ensures { result ≡ zero_header h }
{
    h == Header::default()
}
