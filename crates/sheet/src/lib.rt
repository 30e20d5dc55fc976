#![tactic(auto)]
// Record A judged whole: document 01, "Record A (block 0)", and 02, request 2. The table of its fields stands as the paper has it, a row for each field.
ghost use Rattle.std.specs.Prelude.{◌≡◌, ◌≤◌, length, map, IfOk};
ghost use Rattle.laws.specs.Family.{is_canadian};
ghost use Rattle.laws.specs.Sign.{implies};
ghost use Rattle.corner.specs.Corner.{says_corner};
ghost use Rattle.sheet.specs.RecordA.{record_a, record_of, checked_told, judge, judge_row, front_of, back, fields_fault};
ghost use Rattle.field.specs.Told.{fault_told, limits_told};
ghost use Rattle.heading.specs.Heading.{named, family_limits};
ghost use Rattle.number.specs.Reading.{said};
ghost use Rattle.sheet.specs.RecordA.Rule.{form, spaced};
ghost use Rattle.sheet.specs.RecordASteps.{ruled, row_told, text_kept, Inside, AllInside, Begun, Walked, AllRead, place_of, value_from, number_from, corner_from, header_from};

use field::{Bounds, Broken};
use frame::{Corner, Header};
use heading::Name;
use kinds::Kind;
use number::Unread;

// What a field must be: text without lower case, text that may have it, blanks; a real's form only; any real; any integer; an x or y
// spacing; an integer, or a real, in the limits of a name.
#[derive(Clone, Copy)]
enum Rule {
    Words,
    Mixed,
    Filler,
    Form,
    Free,
    Plain,
    Spaced,
    Whole(Name),
    Stepped(Name),
}

// A field: its first byte, counted from 1, its width and its rule.
#[derive(Clone, Copy)]
struct Row(usize, usize, Rule);

// Record A's table: the front of a Canadian sheet, that of a USGS one, and the back of either.
const CANADIAN_FRONT: [Row; 12] = [
    Row(1, 40, Rule::Mixed),
    Row(41, 60, Rule::Mixed),
    Row(101, 9, Rule::Filler),
    Row(110, 4, Rule::Plain),
    Row(114, 2, Rule::Whole(Name::Minutes)),
    Row(116, 7, Rule::Stepped(Name::Seconds)),
    Row(123, 4, Rule::Plain),
    Row(127, 2, Rule::Whole(Name::Minutes)),
    Row(129, 7, Rule::Stepped(Name::Seconds)),
    Row(136, 1, Rule::Words),
    Row(137, 1, Rule::Filler),
    Row(138, 7, Rule::Words),
];

const USGS_FRONT: [Row; 1] = [Row(1, 144, Rule::Words)];

const BACK: [Row; 40] = [
    Row(145, 6, Rule::Whole(Name::Level)),
    Row(151, 6, Rule::Whole(Name::Pattern)),
    Row(157, 6, Rule::Whole(Name::System)),
    Row(163, 6, Rule::Whole(Name::Zone)),
    Row(169, 24, Rule::Form),
    Row(193, 24, Rule::Form),
    Row(217, 24, Rule::Form),
    Row(241, 24, Rule::Form),
    Row(265, 24, Rule::Form),
    Row(289, 24, Rule::Form),
    Row(313, 24, Rule::Form),
    Row(337, 24, Rule::Form),
    Row(361, 24, Rule::Form),
    Row(385, 24, Rule::Form),
    Row(409, 24, Rule::Form),
    Row(433, 24, Rule::Form),
    Row(457, 24, Rule::Form),
    Row(481, 24, Rule::Form),
    Row(505, 24, Rule::Form),
    Row(529, 6, Rule::Whole(Name::Ground)),
    Row(535, 6, Rule::Whole(Name::Vertical)),
    Row(541, 6, Rule::Whole(Name::Sides)),
    Row(547, 24, Rule::Free),
    Row(571, 24, Rule::Free),
    Row(595, 24, Rule::Free),
    Row(619, 24, Rule::Free),
    Row(643, 24, Rule::Free),
    Row(667, 24, Rule::Free),
    Row(691, 24, Rule::Free),
    Row(715, 24, Rule::Free),
    Row(739, 24, Rule::Free),
    Row(763, 24, Rule::Free),
    Row(787, 24, Rule::Stepped(Name::Angle)),
    Row(811, 6, Rule::Whole(Name::Accuracy)),
    Row(817, 12, Rule::Spaced),
    Row(829, 12, Rule::Spaced),
    Row(841, 12, Rule::Stepped(Name::Height)),
    Row(853, 6, Rule::Whole(Name::Rank)),
    Row(859, 6, Rule::Whole(Name::Profiles)),
    Row(865, 160, Rule::Words),
];

// A stretch of text or blanks has no number: it is as it must be, or kind 5.
fn stretch_judged(kept: bool) -> Result<i64, Unread>
    ensures { said result ≡ text_kept kept }
{
    if kept {
        return Ok(0);
    }
    Err(Unread::of(Kind::Stretch))
}

fn judge_form(field: &[u8]) -> Result<i64, Unread>
    ensures { said result ≡ judge 0 form 0 0 field.now }
{
    match number::read_real(field) {
        Err(u) if u.kind == Kind::Form => Err(u),
        _ => Ok(0),
    }
}

// What the limits of a sheet's numbers go by: its family, and the system and the vertical unit that its block says.
#[derive(Clone, Copy)]
struct Terms {
    family: u64,
    system: u64,
    vertical: u64,
}

impl Terms {
    fn limits(self, name: Name) -> Bounds
        ensures { limits_told result ≡ family_limits self.family (named name) self.system self.vertical }
    {
        name.limits_in(self.family, self.system, self.vertical)
    }
}

// An x or y spacing: those of a Canadian sheet may be any reals, for their pair is judged over the whole record.
fn judge_spacing(terms: Terms, field: &[u8]) -> Result<i64, Unread>
    ensures { said result ≡ judge terms.family spaced terms.system terms.vertical field.now }
{
    let read = number::read_real(field);
    if terms.family == 1 {
        return read;
    }
    Name::Spacing
        .limits(terms.system, terms.vertical)
        .hold(read)
}

// A field judged by its rule.
fn judge_field(terms: Terms, rule: Rule, field: &[u8]) -> Result<i64, Unread>
    ensures { said result ≡ judge terms.family (ruled rule) terms.system terms.vertical field.now }
{
    match rule {
        Rule::Words => stretch_judged(field::all_words(field)),
        Rule::Mixed => stretch_judged(field::all_text(field)),
        Rule::Filler => stretch_judged(field::blank_from(field, 0)),
        Rule::Form => judge_form(field),
        Rule::Free => number::read_real(field),
        Rule::Plain => number::read_integer(field),
        Rule::Spaced => judge_spacing(terms, field),
        Rule::Whole(name) => terms.limits(name).hold(number::read_integer(field)),
        Rule::Stepped(name) => terms.limits(name).hold(number::read_real(field)),
    }
}

// The field of a row, judged.
fn judge_row(terms: Terms, block: &[u8], row: Row) -> Result<i64, Unread>
    requires { Inside (row_told row) × Begun block.now terms.system terms.vertical }
    ensures { said result ≡ judge_row terms.family block.now (row_told row) }
{
    let Row(first, width, rule) = row;
    judge_field(terms, rule, &block[first - 1..first - 1 + width])
}

// The first fault by byte of these rows; where there is none, their values are left in `values`.
fn walk(terms: Terms, block: &[u8], rows: &[Row], values: &mut [i64]) -> Result<(), Broken>
    requires { AllInside (map row_told rows.now) × ((length rows.now ≤ length values.old) × Begun block.now terms.system terms.vertical) }
    ensures { Walked terms.family block.now (map row_told rows.now) values.old values.new (fault_told result) }
{
    for (i, row) in rows.iter().enumerate() {
        let read = judge_row(terms, block, *row);
        values[i] = field::placed(row.0 as u16, read)?;
    }
    Ok(())
}

fn front_of(family: u64) -> &'static [Row]
    ensures { map row_told result.now ≡ front_of family }
{
    if family == 1 {
        &CANADIAN_FRONT
    } else {
        &USGS_FRONT
    }
}

// A family's front, then the back, whose values the header is made of.
fn judge_fields(family: u64, block: &[u8]) -> Result<[i64; 40], Broken>
    requires { length block.now ≡ 1024 }
    ensures fault { fault_told result ≡ fields_fault family block.now }
    ensures values { IfOk result (λ values. AllRead family block.now back values) }
{
    let terms = Terms {
        family,
        system: field::whole_at(block, 157),
        vertical: field::whole_at(block, 535),
    };
    let mut values = [0; 40];
    walk(terms, block, front_of(family), &mut values)?;
    walk(terms, block, &BACK, &mut values)?;
    Ok(values)
}

// The place in the back of the field that begins at this byte; the back's length where there is none.
fn place_of(first: usize) -> usize
    ensures { result ≡ place_of first }
{
    BACK.iter()
        .position(|row| row.0 == first)
        .unwrap_or(BACK.len())
}

fn value_of(values: &[i64], first: usize) -> i64
    ensures { result ≡ value_from values.now first }
{
    values.get(place_of(first)).copied().unwrap_or(0)
}

fn number_of(values: &[i64], first: usize) -> u64
    ensures { result ≡ number_from values.now first }
{
    figures::not_negative(value_of(values, first))
}

fn corner_of(values: &[i64], first: usize) -> Corner
    requires { first ≤ 1024 }
    ensures { result ≡ corner_from values.now first }
{
    Corner {
        x: value_of(values, first),
        y: value_of(values, first + 24),
    }
}

fn header_from(values: &[i64]) -> Header
    ensures { result ≡ header_from values.now }
{
    Header {
        level: number_of(values, 145),
        system: number_of(values, 157),
        zone: number_of(values, 163),
        ground: number_of(values, 529),
        vertical: number_of(values, 535),
        sw: corner_of(values, 547),
        nw: corner_of(values, 595),
        ne: corner_of(values, 643),
        se: corner_of(values, 691),
        least: value_of(values, 739),
        greatest: value_of(values, 763),
        accuracy: number_of(values, 811),
        xstep: number_of(values, 817),
        ystep: number_of(values, 829),
        zstep: number_of(values, 841),
        profiles: number_of(values, 859),
    }
}

fn corner_told(family: u64, block: &[u8], h: Header) -> bool
    ensures { result ≡ implies (is_canadian family) (says_corner block.now h.sw.x h.sw.y) }
{
    family != 1 || corner::says(block, h.sw.x, h.sw.y)
}

// A record A of a family judged whole: its header, or the first rule it breaks. Any length and any family is answered.
pub fn check_family(family: u64, block: &[u8]) -> Result<Header, Broken>
    ensures { checked_told result ≡ record_of family block.now }
{
    if block.len() != 1024 {
        return Err(Broken::at(Kind::Length, 0));
    }
    if 2 <= family {
        return Err(Broken::at(Kind::Unsound, 0));
    }
    let values = judge_fields(family, block)?;
    let h = header_from(&values);
    if !corner_told(family, block, h) {
        return Err(Broken::at(Kind::Corner, 110));
    }
    frame::judge_family(family, h)?;
    Ok(h)
}

// A USGS record A.
pub fn check_record_a(block: &[u8]) -> Result<Header, Broken>
    ensures { checked_told result ≡ record_a block.now }
{
    check_family(0, block)
}
