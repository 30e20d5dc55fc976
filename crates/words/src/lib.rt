#![tactic(auto)]
// Numbers of four bytes, largest byte first, as the programs' inputs hold them: at any place of any text, its end followed by zeros.
ghost use Rattle.std.specs.Prelude.{◌≡◌, ◌+◌, ◌<◌, ◌^◌, get_or, [], ◌∷◌};
ghost use Rattle.words.specs.Words.{number_at, cell_at};

// The byte so far past a place. No text is so long that its end lies past the greatest usize.
fn byte_at(text: &[u8], at: usize, past: usize) -> u8
    ensures { result ≡ get_or text.now (at + past) 0 }
{
    text.get(at.saturating_add(past)).copied().unwrap_or(0)
}

// The four bytes from a place on.
fn word_at(text: &[u8], at: usize) -> [u8; 4]
    ensures { result ≡ get_or text.now at 0 ∷ get_or text.now (at + 1) 0 ∷ get_or text.now (at + 2) 0 ∷ get_or text.now (at + 3) 0 ∷ [] }
{
    [
        byte_at(text, at, 0),
        byte_at(text, at, 1),
        byte_at(text, at, 2),
        byte_at(text, at, 3),
    ]
}

pub fn number_at(text: &[u8], at: usize) -> u64
    ensures value { result ≡ number_at text.now at }
    ensures upper_bound { result < 2 ^ 32 }
{
    u64::from(u32::from_be_bytes(word_at(text, at)))
}

pub fn cell_at(text: &[u8], at: usize) -> i32
    ensures { result ≡ cell_at text.now at }
{
    i32::from_be_bytes(word_at(text, at))
}
