// A real's mantissa, power of ten and value, without a number wider than 64 bits: the first 15 digits that count are kept,
// later ones are counted and marked if one is not zero.
ghost use Rattle.std.specs.Prelude.{◌≡◌, ◌+◌, ◌≤◌, ◌<◌, ◌^◌, length, drop, cond};
ghost use Rattle.number.specs.Bytes.{is_point, is_letter, starts, past_one};
ghost use Rattle.number.specs.Real.{assumed};
ghost use Rattle.number.specs.Steps.{Past, RunAt, MantissaAt, PowerAt, ScaledAt, kept_one, up_of, down_of};

use crate::{Unread, walk, wrong_form};
use kinds::Kind;

// The digits of a mantissa so far: the number of the first 15 that count, how many came after, and whether one of those is not zero.
#[derive(Drop)]
pub(crate) struct Kept {
    pub head: u64,
    pub dropped: usize,
    pub more: bool,
}

#[derive(Drop)]
pub(crate) struct Run {
    pub next: usize,
    pub kept: Kept,
}

// A mantissa's places: past its whole digits, where a point stands if there is one; past that point; past the digits behind it.
#[derive(Drop)]
pub(crate) struct Mantissa {
    pub whole: usize,
    pub point: usize,
    pub next: usize,
    pub digits: usize,
    pub kept: Kept,
}

// A power of ten, and the place past it.
#[derive(Drop)]
pub(crate) struct Power {
    pub next: usize,
    pub minus: bool,
    pub size: usize,
}

impl Kept {
    pub const NONE: Kept = Kept {
        head: 0,
        dropped: 0,
        more: false,
    };
}

pub(crate) fn keep(k: Kept, d: u64) -> Kept
    requires { (d < 10) × ((k.head < 10 ^ 15) × (k.dropped < 10 ^ 15)) }
    ensures { result ≡ kept_one k d }
{
    if k.head < 100000000000000 {
        return Kept {
            head: k.head * 10 + d,
            ..k
        };
    }
    Kept {
        head: k.head,
        dropped: k.dropped + 1,
        more: k.more || d != 0,
    }
}

pub(crate) fn keep_digits(s: &[u8], from: usize, k: Kept) -> Run
    requires { (from ≤ length s.now) × ((k.dropped ≤ from) × ((k.head < 10 ^ 15) × (length s.now ≤ 24))) }
    ensures { RunAt s.now from k result }
{
    let mut kept = k;
    for i in from..s.len() {
        let c = s[i];
        if !c.is_ascii_digit() {
            return Run { next: i, kept };
        }
        kept = keep(kept, (c - b'0') as u64);
    }
    Run {
        next: s.len(),
        kept,
    }
}

fn past_point(s: &[u8], from: usize) -> usize
    requires { from ≤ length s.now }
    ensures { Past (past_one is_point) s.now from result }
{
    if s.get(from) == Some(&b'.') {
        return from + 1;
    }
    from
}

pub(crate) fn read_mantissa(s: &[u8], from: usize) -> Mantissa
    requires { (from ≤ length s.now) × (length s.now ≤ 24) }
    ensures { MantissaAt s.now from result }
{
    let a = keep_digits(s, from, Kept::NONE);
    let point = past_point(s, a.next);
    let b = keep_digits(s, point, a.kept);
    Mantissa {
        whole: a.next,
        point,
        next: b.next,
        digits: (a.next - from) + (b.next - point),
        kept: b.kept,
    }
}

// The digits behind the point: those that stand there, or what the field's length says where no point stands (02, request 4).
pub(crate) fn decimals(bytes: usize, pointed: bool, standing: usize) -> usize
    ensures { result ≡ cond pointed standing (assumed bytes) }
{
    if pointed {
        return standing;
    }
    match bytes {
        12 => 6,
        7 => 4,
        _ => 15,
    }
}

fn letter_at(s: &[u8], from: usize) -> bool
    ensures { result ≡ starts is_letter (drop from s.now) }
{
    matches!(s.get(from), Some(b'D' | b'E'))
}

pub(crate) fn read_power(s: &[u8], from: usize) -> Result<Power, Unread>
    requires { (from ≤ length s.now) × (length s.now ≤ 24) }
    ensures { PowerAt s.now from result }
{
    if !letter_at(s, from) {
        return Ok(Power {
            next: from,
            minus: false,
            size: 0,
        });
    }
    let sign = from + 1;
    let first = walk::past_sign(s, sign);
    let run = keep_digits(s, first, Kept::NONE);
    if run.next == first {
        return Err(wrong_form(first, s.len()));
    }
    if first + 2 < run.next {
        return Err(wrong_form(first + 2, s.len()));
    }
    Ok(Power {
        next: run.next,
        minus: walk::minus_at(s, sign),
        size: run.kept.head as usize,
    })
}

// Kept: the kept digits' head and mark by themselves, as `up_of` and `down_of` have them.
fn scale_up(head: u64, more: bool, d: usize) -> Result<u64, Kind>
    requires { (0 < head) × (head < 10 ^ 15) }
    ensures { result ≡ up_of head more d }
{
    if 18 <= d || crate::ten_to(18 - d) <= head {
        return Err(Kind::Range);
    }
    if more {
        return Err(Kind::Fine);
    }
    Ok(head * crate::ten_to(d))
}

fn scale_down(head: u64, more: bool, d: usize) -> Result<u64, Kind>
    requires { (0 < head) × (head < 10 ^ 15) }
    ensures { result ≡ down_of head more d }
{
    if more || 15 <= d {
        return Err(Kind::Fine);
    }
    let power = crate::ten_to(d);
    if head % power != 0 {
        return Err(Kind::Fine);
    }
    Ok(head / power)
}

// The kept digits times 10 ^ up / 10 ^ down, in billionths.
pub(crate) fn scale(kept: Kept, up: usize, down: usize) -> Result<u64, Kind>
    requires { (kept.dropped ≤ 24) × ((kept.head < 10 ^ 15) × ((up ≤ 108) × (down ≤ 123))) }
    ensures { ScaledAt kept up down result }
{
    let high = kept.dropped + up;
    if kept.head == 0 {
        return Ok(0);
    }
    if down <= high {
        return scale_up(kept.head, kept.more, high - down);
    }
    scale_down(kept.head, kept.more, down - high)
}
