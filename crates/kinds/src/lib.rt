#![tactic(auto)]
// Document 01's kinds of a refusal. The code goes by their names; what is told outside is the paper's number.
ghost use Rattle.std.specs.Prelude.{◌≡◌};
ghost use Rattle.kinds.specs.Kinds.{number_of};

#[derive(Clone, Copy, PartialEq, Eq)]
pub enum Kind {
    Length,
    Unsound,
    Early,
    Complete,
    Stretch,
    Form,
    Range,
    Fine,
    Value,
    Place,
    Extreme,
    Room,
    Cell,
    Number,
    Corner,
}

impl Kind {
    // The paper's number.
    pub fn number(self) -> u32
        ensures { result ≡ number_of self }
    {
        match self {
            Kind::Length => 1,
            Kind::Unsound => 2,
            Kind::Early => 3,
            Kind::Complete => 4,
            Kind::Stretch => 5,
            Kind::Form => 6,
            Kind::Range => 7,
            Kind::Fine => 8,
            Kind::Value => 9,
            Kind::Place => 10,
            Kind::Extreme => 11,
            Kind::Room => 12,
            Kind::Cell => 13,
            Kind::Number => 14,
            Kind::Corner => 15,
        }
    }
}
