#![tactic(auto)]
// What the blocks of a sheet say when it is written, for the writer and for reading back. The definitions stand in specs/; here is what a
// writer refuses.
ghost use Rattle.std.specs.Prelude.{◌≡◌};
ghost use Rattle.written.specs.Sending.{against};

use kinds::Kind;

// What a writer refuses: "kinds .., each with one number".
#[derive(Clone, Copy)]
pub struct Refused {
    pub kind: Kind,
    pub number: u64,
}

impl Refused {
    pub fn of(kind: Kind, number: u64) -> Refused
        ensures { result ≡ against kind number }
    {
        Refused { kind, number }
    }
}
