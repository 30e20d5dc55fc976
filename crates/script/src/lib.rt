#![tactic(auto)]
// What the bytes of a script say. Here because nothing of it needs a session or a delivery; `replay` reads the bytes and goes by the answers.
ghost use Rattle.std.specs.Prelude.{◌≡◌};
ghost use Rattle.words.specs.Words.{number_at};
ghost use Rattle.script.specs.Script.{count_from, head_from, Fitting, Within};

// What stands before a delivery's bytes: cells lent, block number, bytes.
#[derive(Clone, Copy)]
pub struct Delivery {
    pub lent: usize,
    pub number: u64,
    pub bytes: usize,
}

// A script that is cut short, or names too many cells or bytes.
#[derive(Drop)]
pub struct BadScript;

// How many cells the grid has, by the input's first bytes, of which `got` could be read.
#[tactic(auto, unfolding(crate::specs::Script::count_from))]
pub fn cells_of(text: &[u8; 4], got: usize) -> Result<usize, BadScript>
    ensures value { result ≡ count_from got (number_at text.now 0) }
    ensures fits { Fitting result }
{
    let cells = words::number_at(text, 0);
    if got != 4 || cells > 15000 {
        return Err(BadScript);
    }
    Ok(cells as usize)
}

// The next bytes, of which `got` could be read: a delivery's head, or the script's end.
#[tactic(auto, unfolding(crate::specs::Script::head_from))]
pub fn head_of(text: &[u8; 12], got: usize, cells: usize) -> Result<Option<Delivery>, BadScript>
    ensures value { result ≡ head_from got cells (number_at text.now 0) (number_at text.now 4) (number_at text.now 8) }
    ensures fits { Within cells result }
{
    if got == 0 {
        return Ok(None);
    }
    let lent = words::number_at(text, 0);
    let number = words::number_at(text, 4);
    let bytes = words::number_at(text, 8);
    if got != 12 || lent > cells as u64 || bytes > 4096 {
        return Err(BadScript);
    }
    Ok(Some(Delivery {
        lent: lent as usize,
        number,
        bytes: bytes as usize,
    }))
}
