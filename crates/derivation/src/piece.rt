// One piece of a derivation, and the 64-bit number that packs it.
ghost use Rattle.std.specs.Prelude.{◌≡◌, ◌+◌, ◌<◌};
ghost use Rattle.derivation.specs.Piece.{packed_of, extract_of, end_of, is_bad_piece, adjoin, merged};

use crate::Extract;
use fst::record::MAX_WIDTH;

impl From<u64> for Extract {
    ghost from_gives = { λ number extract. extract ≡ extract_of number };

    #[tactic(auto, using(std::proofs::lemmas::Nat::and_mask), unfolding(crate::specs::Piece::extract_of))]
    fn from(number: u64) -> Extract {
        Extract {
            signal: (number >> 48) as u16,
            width: ((number >> 32) & 0xffff) as u16,
            lsb: (number & 0xffff_ffff) as u32,
        }
    }
}

impl From<Extract> for u64 {
    ghost from_gives = { λ extract number. number ≡ packed_of extract };

    #[tactic(auto, using(crate::proofs::Pieces::packed_bits))]
    fn from(extract: Extract) -> u64 {
        (u64::from(extract.signal) << 48)
            | (u64::from(extract.width) << 32)
            | u64::from(extract.lsb)
    }
}

impl Extract {
    // One above the highest bit.
    pub fn end(self) -> u64
        ensures { result ≡ end_of self }
    {
        u64::from(self.lsb) + u64::from(self.width)
    }

    // Whether number 14 refuses a derivation of so many inputs for this piece.
    #[tactic(auto, unfolding(crate::specs::Piece::is_bad_piece))]
    pub fn is_bad(self, inputs: u32) -> bool
        ensures { result ≡ is_bad_piece inputs self }
    {
        self.width == 0 || inputs <= u32::from(self.signal) || u64::from(MAX_WIDTH) < self.end()
    }

    // Whether the bits of `low` end where this piece begins.
    #[tactic(auto, unfolding(crate::specs::Piece::adjoin))]
    pub(crate) fn adjoins(self, low: Extract) -> bool
        ensures { result ≡ adjoin self low }
    {
        self.signal == low.signal && u64::from(self.lsb) == low.end()
    }

    // This piece and `low` as one.
    pub(crate) fn merged(self, low: Extract) -> Extract
        requires { self.width + low.width < 65536 }
        ensures { result ≡ merged self low }
    {
        Extract {
            width: self.width + low.width,
            ..low
        }
    }
}
