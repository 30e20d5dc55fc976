#![tactic(auto)]
// The origin's number and the sheet's name: document 01, "Record A"; origins of Canadian sheets: document 02, request 2.
ghost use Rattle.std.specs.Prelude.{◌≡◌, ◌≤◌, length, take};
ghost use Rattle.label.specs.Label.{origins_of, place_in, origin_of, family_origin, name_length};

// A block of any other length has no origin and no name.
const BLOCK: usize = 1024;

// The families of sheets. Kept: as numbers, since a session keeps its family as a number and any number is answered.
const USGS: u64 = 0;

const CANADIAN: u64 = 1;

const ORIGINS: [[u8; 4]; 6] = [*b"MAC ", *b"GPM2", *b"MCMC", *b"RMMC", *b"WMC ", *b"FS  "];

const CANADIAN_ORIGINS: [[u8; 4]; 15] = [
    *b"NTDB", *b"BC  ", *b"MB  ", *b"NB  ", *b"NL  ", *b"NS  ", *b"NT  ", *b"NU  ", *b"ON  ",
    *b"PE  ", *b"AB  ", *b"QC  ", *b"SK  ", *b"YT  ", *b"MULT",
];

// A code's place in a table, counted from 1; 0 for any other text.
fn place(code: &[u8], codes: &[[u8; 4]]) -> u32
    requires { length codes.now ≤ 15 }
    ensures { result ≡ place_in 1 code.now codes.now }
{
    let Some(k) = codes.iter().position(|c| code == c.as_slice()) else {
        return 0;
    };
    k as u32 + 1
}

// A family that we do not know has no codes.
fn family_place(family: u64, code: &[u8]) -> u32
    ensures { result ≡ place_in 1 code.now (origins_of family) }
{
    match family {
        CANADIAN => place(code, &CANADIAN_ORIGINS),
        USGS => place(code, &ORIGINS),
        _ => 0,
    }
}

// 02, request 2: the number of the origin (141-144) among the codes of the sheet's family, 0 for any other.
#[tactic(auto, unfolding(crate::specs::Label::family_origin))]
pub fn family_origin(family: u64, block: &[u8]) -> u32
    ensures { result ≡ family_origin family block.now }
{
    if block.len() == BLOCK {
        family_place(family, &block[140..144])
    } else {
        0
    }
}

// "Origin (141-144) is reported as 1 to 6 .. and 0 for any other.": that of a USGS sheet.
#[tactic(auto, unfolding(crate::specs::Label::family_origin, crate::specs::Label::origin_of))]
pub fn origin(block: &[u8]) -> u32
    ensures { result ≡ origin_of block.now }
{
    family_origin(USGS, block)
}

// How many bytes the name has. The bound is said beside the number so that `name` can cut there.
#[tactic(auto, unfolding(crate::specs::Label::name_length))]
fn name_end(block: &[u8]) -> usize
    ensures { (result ≤ length block.now) × (result ≡ name_length block.now) }
{
    if block.len() != BLOCK {
        return 0;
    }
    match block[..40].iter().rposition(|&c| c != b' ') {
        Some(last) => last + 1,
        None => 0,
    }
}

// The name is no copy: the front of the block that the caller lent, up to its last byte that is no blank.
pub fn name(block: &[u8]) -> &[u8]
    ensures { result.now ≡ take (name_length block.now) block.now }
{
    &block[..name_end(block)]
}
