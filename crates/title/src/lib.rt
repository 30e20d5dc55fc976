#![tactic(auto)]
// Block 0 written anew: document 01, "Writing". Its stretches stand in the order of record A's table.
ghost use Rattle.std.specs.Prelude.{◌≡◌, ◌+◌, ◌≤◌, length};
ghost use Rattle.title.specs.Title.{zero_after, title_after};
ghost use Rattle.title.specs.ZeroSteps.{start_of, width_of, stretches_by, text_by, stretch_after, capped};

use frame::Header;

// What is written in a stretch: the template's own bytes, or a number.
#[derive(Clone, Copy)]
enum Content {
    Kept,
    Integer(u64),
    Real(i64),
    Spacing(u64),
}

// The bytes before a stretch, how many it has itself, and what is written there.
#[derive(Clone, Copy)]
struct Stretch(usize, usize, Content);

// "n set to the columns, extremes worked out, accuracy 0"; what the paper allows one value only is that value.
fn stretches(h: Header, least: i64, greatest: i64, columns: u64) -> [Stretch; 27]
    ensures { result ≡ stretches_by h least greatest columns }
{
    [
        Stretch(0, 144, Content::Kept),
        Stretch(144, 6, Content::Integer(h.level)),
        Stretch(150, 6, Content::Integer(1)),
        Stretch(156, 6, Content::Integer(h.system)),
        Stretch(162, 6, Content::Integer(h.zone)),
        Stretch(168, 360, Content::Kept),
        Stretch(528, 6, Content::Integer(h.ground)),
        Stretch(534, 6, Content::Integer(h.vertical)),
        Stretch(540, 6, Content::Integer(4)),
        Stretch(546, 24, Content::Real(h.sw.x)),
        Stretch(570, 24, Content::Real(h.sw.y)),
        Stretch(594, 24, Content::Real(h.nw.x)),
        Stretch(618, 24, Content::Real(h.nw.y)),
        Stretch(642, 24, Content::Real(h.ne.x)),
        Stretch(666, 24, Content::Real(h.ne.y)),
        Stretch(690, 24, Content::Real(h.se.x)),
        Stretch(714, 24, Content::Real(h.se.y)),
        Stretch(738, 24, Content::Real(least)),
        Stretch(762, 24, Content::Real(greatest)),
        Stretch(786, 24, Content::Real(0)),
        Stretch(810, 6, Content::Integer(0)),
        Stretch(816, 12, Content::Spacing(h.xstep)),
        Stretch(828, 12, Content::Spacing(h.ystep)),
        Stretch(840, 12, Content::Spacing(h.zstep)),
        Stretch(852, 6, Content::Integer(1)),
        Stretch(858, 6, Content::Integer(columns)),
        Stretch(864, 160, Content::Kept),
    ]
}

// What no i64 holds is too long for every field: the largest stands for it, and leaves the field too.
// Kept: this line stands in ledger too, over a definition of its own; `number::signed(false, n)` says it less plainly.
fn signed(n: u64) -> i64
    ensures { result ≡ capped n }
{
    i64::try_from(n).unwrap_or(i64::MAX)
}

// A number too long for its field leaves it as it was.
#[tactic(auto, unfolding(crate::specs::ZeroSteps::text_by))]
fn write_field(content: Content, kept: &[u8], field: &mut [u8])
    requires { length kept.now ≡ length field.old }
    ensures { field.new ≡ text_by content kept.now field.old }
{
    match content {
        Content::Kept => {
            numerals::put_word(field, 0, kept);
        }
        Content::Integer(n) => {
            spell::write_integer(signed(n), field);
        }
        Content::Real(z) => {
            spell::write_real(z, field);
        }
        Content::Spacing(n) => {
            spell::write_spacing(signed(n), field);
        }
    }
}

// A field is lent its stretch of the block and no more.
fn write_stretch(template: &[u8], stretch: Stretch, block: &mut [u8])
    requires { (length template.now ≡ 1024) × ((length block.old ≡ 1024) × (start_of stretch + width_of stretch ≤ 1024)) }
    ensures { block.new ≡ stretch_after template.now stretch block.old }
{
    let Stretch(start, width, content) = stretch;
    let end = start + width;
    write_field(content, &template[start..end], &mut block[start..end]);
}

// "the template with numeric fields rewritten". Where one of the two is no block, the lent one stays as it was.
#[tactic(auto, unfolding(crate::specs::Title::zero_after))]
pub fn write_zero(
    template: &[u8],
    h: Header,
    least: i64,
    greatest: i64,
    columns: u64,
    block: &mut [u8],
)
    ensures { block.new ≡ zero_after template.now h least greatest columns block.old }
{
    if template.len() == 1024 && block.len() == 1024 {
        for stretch in stretches(h, least, greatest, columns) {
            write_stretch(template, stretch, block);
        }
    }
}

// Block 0 of a sheet: the extremes are those of its cells, n its columns. A grid that has not the cells leaves the block as it was.
pub fn write_title(template: &[u8], h: Header, grid: &[i32], block: &mut [u8])
    ensures { block.new ≡ title_after template.now h grid.now block.old }
{
    if !frame::has_room(h, grid.len() as u64) {
        return;
    }
    let columns = frame::columns(h);
    let cells = (columns * frame::rows(h)) as usize;
    let extremes = columns::extremes_of(&grid[0..cells]);
    write_zero(
        template,
        h,
        extremes.least,
        extremes.greatest,
        columns,
        block,
    );
}
