// Steps over a field's bytes: each function takes a place and gives the place past what it names.
ghost use Rattle.std.specs.Prelude.{◌≡◌, ◌≤◌, length, drop};
ghost use Rattle.number.specs.Bytes.{is_blank, is_sign, is_minus, starts, past_one, past_all};
ghost use Rattle.number.specs.Steps.{Past, WholeAt};

// Digits that were read: the place past them and their number.
#[derive(Drop)]
pub(crate) struct Whole {
    pub next: usize,
    pub value: u32,
}

pub(crate) fn past_blanks(s: &[u8], from: usize) -> usize
    requires { from ≤ length s.now }
    ensures { Past (past_all is_blank) s.now from result }
{
    for i in from..s.len() {
        if s[i] != b' ' {
            return i;
        }
    }
    s.len()
}

pub(crate) fn past_sign(s: &[u8], from: usize) -> usize
    requires { from ≤ length s.now }
    ensures { Past (past_one is_sign) s.now from result }
{
    if matches!(s.get(from), Some(b'+' | b'-')) {
        return from + 1;
    }
    from
}

pub(crate) fn minus_at(s: &[u8], from: usize) -> bool
    ensures { result ≡ starts is_minus (drop from s.now) }
{
    s.get(from) == Some(&b'-')
}

// Kept beside `keep_digits`, which could read these digits too: an integer field took a fifth more instructions by it.
pub(crate) fn read_whole(s: &[u8], from: usize) -> Whole
    requires { (from ≤ length s.now) × (length s.now ≤ 6) }
    ensures { WholeAt s.now from result }
{
    let mut value: u32 = 0;
    for i in from..s.len() {
        let c = s[i];
        if !c.is_ascii_digit() {
            return Whole { next: i, value };
        }
        value = value * 10 + u32::from(c - b'0');
    }
    Whole {
        next: s.len(),
        value,
    }
}
