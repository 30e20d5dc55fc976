#![tactic(auto)]
// A field of a block: its bytes, its limits, and the one place where a reading at a byte becomes a fault.
ghost use Rattle.std.specs.Prelude.{◌≡◌, ◌+◌, ◌-◌, take, drop, IfOk};
ghost use Rattle.laws.specs.Texts.{every};
ghost use Rattle.number.specs.Bytes.{is_blank};
ghost use Rattle.number.specs.Integer.{integer};
ghost use Rattle.number.specs.Reading.{said};
ghost use Rattle.number.specs.Real.{real};
ghost use Rattle.field.specs.Field.{is_word, is_text, stretch, whole_at, limits, posts_limits, in_range, in_limits, ranged, fault, fault_or};
ghost use Rattle.field.specs.Told.{limits_told, bounded, held, broken, placed, fault_told};

use kinds::Kind;
use number::{Reading, Unread};

// A broken rule: its kind and its byte in the block, counted from 1.
#[derive(Clone, Copy)]
pub struct Broken {
    pub kind: Kind,
    pub byte: u32,
}

impl Broken {
    pub fn at(kind: Kind, byte: u32) -> Broken
        ensures { result ≡ broken kind byte }
    {
        Broken { kind, byte }
    }
}

// Least, greatest and step of a number, with the kind of its refusal.
#[derive(Clone, Copy)]
pub struct Bounds {
    pub least: u64,
    pub greatest: u64,
    pub step: u64,
    pub kind: Kind,
}

// The same with a kind by its number. Kept, with `Fault` and what takes them: the promises are of any number (`limits`, `ranged`, `fault_or`).
#[derive(Clone, Copy)]
pub struct Limits {
    pub least: u64,
    pub greatest: u64,
    pub step: u64,
    pub kind: u32,
}

// A broken rule by the number of its kind, and its byte. Kind 0: none is broken.
#[derive(Clone, Copy)]
pub struct Fault {
    pub kind: u32,
    pub byte: u32,
}

pub fn limits_of(least: u64, greatest: u64, step: u64, kind: u32) -> Limits
    ensures { result ≡ limits least greatest step kind }
{
    Limits {
        least,
        greatest,
        step,
        kind,
    }
}

pub fn no_fault() -> Fault
    ensures { result ≡ fault 0 0 }
{
    fault_of(0, 0)
}

pub fn fault_of(kind: u32, byte: u32) -> Fault
    ensures { result ≡ fault kind byte }
{
    Fault { kind, byte }
}

pub fn bounds_of(least: u64, greatest: u64, step: u64, kind: Kind) -> Bounds
    ensures { result ≡ bounded least greatest step kind }
{
    Bounds {
        least,
        greatest,
        step,
        kind,
    }
}

// The posts that a profile may have, by the family. Kept, here and in the rooms above: a family by its number, as a session has it.
pub fn posts_limits(family: u64) -> Bounds
    ensures { limits_told result ≡ posts_limits family }
{
    if family == 1 {
        return bounds_of(1201, 1201, 1, Kind::Range);
    }
    bounds_of(1, 2048, 1, Kind::Range)
}

impl Bounds {
    // The same limits, with the kind by its number.
    pub fn limits(self) -> Limits
        ensures { result ≡ limits_told self }
    {
        limits_of(self.least, self.greatest, self.step, self.kind.number())
    }

    // "Inside one field the kinds of its reading come before its own rule."
    pub fn hold(self, r: Result<i64, Unread>) -> Result<i64, Unread>
        ensures { result ≡ held self r }
    {
        let z = r?;
        if in_limits(self.limits(), z) {
            return Ok(z);
        }
        Err(Unread::of(self.kind))
    }

    // A number that was read, in its bounds.
    pub fn check(self, r: Result<i64, Unread>, byte: u16) -> Result<i64, Broken>
        ensures { result ≡ placed byte (held self r) }
    {
        placed(byte, self.hold(r))
    }

    pub fn check_at(self, block: &[u8], byte: u16) -> Result<i64, Broken>
        ensures fault { fault_told result ≡ fault_or (ranged (limits_told self) (integer (stretch byte 6 block.now))) byte (fault 0 0) }
        ensures value { IfOk result (λ z. (integer (stretch byte 6 block.now)).value ≡ z) }
    {
        self.check(integer_at(block, byte), byte)
    }
}

pub fn in_range(l: Limits, v: u64) -> bool
    ensures { result ≡ in_range l v }
{
    if v < l.least || l.greatest < v {
        return false;
    }
    if l.step == 0 {
        return v == 0;
    }
    v % l.step == 0
}

fn in_limits(l: Limits, z: i64) -> bool
    ensures { result ≡ in_limits l z }
{
    0 <= z && in_range(l, z as u64)
}

// As `Bounds::hold`, of a reading and limits by their numbers, whatever these are; so below `fault_or`, `judge` and `judge_at`.
pub fn read_ranged(l: Limits, r: Reading) -> Reading
    ensures { result ≡ ranged l r }
{
    if r.kind != 0 || in_limits(l, r.value) {
        return r;
    }
    Reading {
        kind: l.kind,
        value: 0,
        byte: 0,
    }
}

fn is_text(c: u8) -> bool
    ensures { result ≡ is_text c }
{
    matches!(c, 32..=126)
}

fn is_word(c: u8) -> bool
    ensures { result ≡ is_word c }
{
    is_text(c) && !c.is_ascii_lowercase()
}

pub fn all_words(s: &[u8]) -> bool
    ensures { result ≡ every is_word s.now }
{
    s.iter().all(|&c| is_word(c))
}

// Text that may have lower case.
pub fn all_text(s: &[u8]) -> bool
    ensures { result ≡ every is_text s.now }
{
    s.iter().all(|&c| is_text(c))
}

fn all_blank(s: &[u8]) -> bool
    ensures { result ≡ every is_blank s.now }
{
    s.iter().all(|&c| c == b' ')
}

// Whether all that remains of a block is blank.
pub fn blank_from(block: &[u8], from: usize) -> bool
    ensures { result ≡ every is_blank (drop from block.now) }
{
    if block.len() <= from {
        return true;
    }
    all_blank(&block[from..])
}

// As many of the first bytes as there are.
fn front_of(block: &[u8], width: usize) -> &[u8]
    ensures { result.now ≡ take width block.now }
{
    &block[..width.min(block.len())]
}

// The bytes from `first`, counted from 1, as many of them as there are.
pub fn stretch_of(block: &[u8], first: usize, width: usize) -> &[u8]
    ensures { result.now ≡ stretch first width block.now }
{
    let n = block.len();
    if first == 0 {
        return front_of(block, width);
    }
    let start = first - 1;
    if n <= start {
        return &block[n..n];
    }
    front_of(&block[start..], width)
}

// Where a reading is refused: at the field's first byte, or at the very byte of wrong form. A block's bytes are counted in 16 bits here, so that
// the sum fits whatever is asked.
fn place_in(first: u16, k: u8) -> u32
    ensures { result ≡ first + (k - 1) }
{
    u32::from(first) + u32::from(k.saturating_sub(1))
}

pub fn placed(byte: u16, r: Result<i64, Unread>) -> Result<i64, Broken>
    ensures { result ≡ placed byte r }
{
    r.map_err(|u| Broken::at(u.kind, place_in(byte, u.byte)))
}

// The fault of a field, by its first byte, or the first of those behind it.
pub fn fault_or(r: Reading, byte: u16, rest: Fault) -> Fault
    ensures { result ≡ fault_or r byte rest }
{
    if r.kind == 0 {
        return rest;
    }
    fault_of(r.kind, place_in(byte, r.byte))
}

pub fn integer_at(block: &[u8], byte: u16) -> Result<i64, Unread>
    ensures { said result ≡ integer (stretch byte 6 block.now) }
{
    number::read_integer(stretch_of(block, byte as usize, 6))
}

// A whole number that is not negative; 0 for any other field.
pub fn whole_at(block: &[u8], byte: u16) -> u64
    ensures { result ≡ whole_at byte block.now }
{
    figures::not_negative(integer_at(block, byte).unwrap_or(0))
}

pub fn real_at(block: &[u8], byte: u16) -> Result<i64, Unread>
    ensures { said result ≡ real (stretch byte 24 block.now) }
{
    number::read_real(stretch_of(block, byte as usize, 24))
}

// An integer that was read, in its limits.
pub fn judge(l: Limits, r: Reading, byte: u16, rest: Fault) -> Fault
    ensures { result ≡ fault_or (ranged l r) byte rest }
{
    fault_or(read_ranged(l, r), byte, rest)
}

pub fn judge_at(l: Limits, block: &[u8], byte: u16, rest: Fault) -> Fault
    ensures { result ≡ fault_or (ranged l (integer (stretch byte 6 block.now))) byte rest }
{
    judge(l, Reading::told(integer_at(block, byte)), byte, rest)
}
