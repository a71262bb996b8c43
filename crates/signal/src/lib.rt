// Reading records, after wellen's src/signal/mod.rs.
#![tactic(auto)]

ghost use Rattle.std.specs.Prelude.{◌≡◌};
ghost use Rattle.signal.specs.Read.{kind_of};

use fst::Encoding;
use value::States;

pub mod decode;
pub mod packed;
pub mod read;

#[derive(Clone, Copy, PartialEq, Eq)]
pub enum Kind {
    Event,
    Real,
    BitVector,
}

impl From<Encoding> for Kind {
    ghost from_gives = { λ encoding kind. kind ≡ kind_of encoding };

    fn from(encoding: Encoding) -> Kind {
        match encoding {
            Encoding::Event => Kind::Event,
            Encoding::Real => Kind::Real,
            Encoding::BitVector { .. } => Kind::BitVector,
        }
    }
}

// The answer of Read: `part` is that part of the lent bytes which holds the levels.
#[derive(Clone, Copy)]
pub struct Entry<'a> {
    pub kind: Kind,
    pub states: States,
    pub part: &'a [u8],
}
