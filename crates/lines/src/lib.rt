#![tactic(auto)]
// The lister's lines: document 01, "The lister, and one sheet". A text is built in a scratch array, then given to the lent bytes.
mod pieces;

ghost use Rattle.std.specs.Prelude.{◌≡◌, ◌+◌, ◌≤◌, length};
ghost use Rattle.lines.specs.Lines.{sheet_line, head_line, posts_line, extreme, range_line, report_text, refused_text, unfinished_text, end_text, Given};
ghost use Rattle.lines.specs.Pieces.{Within};

use frame::Header;
use pieces::HUNDREDTH;
use session::Session;

fn sheet_line(text: &mut [u8], rows: u64, columns: u64, x: u64, y: u64, z: u64) -> usize
    requires { 216 ≤ length text.old }
    ensures { Within 216 text.old 0 (sheet_line rows columns x y z) text.new result }
{
    let a = pieces::put_number(text, 0, b"sheet ", rows);
    let b = pieces::put_number(text, a, b" ", columns);
    let c = pieces::put_spacing(text, b, x);
    let d = pieces::put_spacing(text, c, y);
    let e = pieces::put_units(text, d, z);
    numerals::put_byte(text, e, b'\n')
}

#[tactic(auto, unfolding(crate::specs::Lines::head_line))]
fn head_line(text: &mut [u8], h: Header) -> usize
    requires { 216 ≤ length text.old }
    ensures { Within 216 text.old 0 (head_line h) text.new result }
{
    let rows = frame::rows(h);
    let columns = frame::columns(h);
    sheet_line(text, rows, columns, h.xstep, h.ystep, h.zstep / HUNDREDTH)
}

fn posts_line(text: &mut [u8], at: usize, posts: u64, filled: u64) -> usize
    requires { at + 108 ≤ length text.old }
    ensures { Within 108 text.old at (posts_line posts filled) text.new result }
{
    let a = pieces::put_number(text, at, b"posts ", posts);
    pieces::put_last(text, a, b" void ", posts.saturating_sub(filled))
}

fn extreme_of(filled: u64, z: i64) -> i64
    ensures { result ≡ extreme filled z }
{
    if filled == 0 { 0 } else { z }
}

fn range_line(text: &mut [u8], at: usize, filled: u64, low: i64, high: i64) -> usize
    requires { at + 108 ≤ length text.old }
    ensures { Within 108 text.old at (range_line filled low high) text.new result }
{
    let a = pieces::put_height(text, at, b"range ", extreme_of(filled, low));
    let b = pieces::put_height(text, a, b" ", extreme_of(filled, high));
    numerals::put_byte(text, b, b'\n')
}

fn report(text: &mut [u8], s: Session) -> usize
    requires { 512 ≤ length text.old }
    ensures { Within 504 text.old 0 (report_text s) text.new result }
{
    let posts = head_line(text, s.header);
    let range = posts_line(text, posts, s.posts, s.filled);
    let end = range_line(text, range, s.filled, s.low, s.high);
    pieces::put_last(text, end, b"end ", s.taken)
}

fn refusal(text: &mut [u8], kind: u32, block: u64, byte: u32) -> usize
    requires { 512 ≤ length text.old }
    ensures { Within 144 text.old 0 (refused_text kind block byte) text.new result }
{
    let a = pieces::put_number(text, 0, b"refused ", kind as u64);
    let b = pieces::put_number(text, a, b" ", block);
    let c = pieces::put_number(text, b, b" ", byte as u64);
    numerals::put_byte(text, c, b'\n')
}

// The four lines of a sheet. Answers the bytes used; none, and nothing changed, where they do not fit. So do the others below.
// Kept: no byte used stands for no room, since `Given` promises that number.
pub fn put_report(s: Session, out: &mut [u8]) -> usize
    ensures { Given (report_text s) out.old out.new result }
{
    let mut text = [0u8; 512];
    let end = report(&mut text, s);
    numerals::put_word(out, 0, &text[..end])
}

// Kept: the kind as the number that an answer carries; the promise is of any number.
pub fn put_refusal(kind: u32, block: u64, byte: u32, out: &mut [u8]) -> usize
    ensures { Given (refused_text kind block byte) out.old out.new result }
{
    let mut text = [0u8; 512];
    let end = refusal(&mut text, kind, block, byte);
    numerals::put_word(out, 0, &text[..end])
}

pub fn put_unfinished(taken: u64, out: &mut [u8]) -> usize
    ensures { Given (unfinished_text taken) out.old out.new result }
{
    let mut text = [0u8; 512];
    let end = pieces::put_last(&mut text, 0, b"unfinished ", taken);
    numerals::put_word(out, 0, &text[..end])
}

// What the end of the input prints: the report of a complete sheet, else how many blocks were taken.
#[tactic(auto, unfolding(crate::specs::Lines::end_text))]
pub fn put_end(s: Session, out: &mut [u8]) -> usize
    ensures { Given (end_text s) out.old out.new result }
{
    if session::is_complete(s) {
        put_report(s, out)
    } else {
        put_unfinished(s.taken, out)
    }
}
