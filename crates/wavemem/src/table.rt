// Characters by a table of their codes.
ghost use Rattle.std.specs.Prelude.{◌≡◌, ◌^◌, ◌<◌};
ghost use Rattle.value.specs.Digits.{number};
ghost use Rattle.value.specs.Level.{fold, fold_all, code_of, codes_of, bits_of};
ghost use Rattle.wavemem.specs.Packed.{OneWord, ByLowBits};

use value::States;

// The code of a character, and 9 of a foreign byte.
#[tactic(auto, using(crate::proofs::Packing::code_told))]
fn code_of(value: u8) -> u8
    ensures { result ≡ code_of (fold value) }
{
    let Some(code) = value::bit_char_to_num(value) else {
        return 9;
    };
    code
}

// The codes of the letters by their low five bits, which tell them apart, from 8 of H to 26 of Z, and 9 where these are no letter's.
#[derive(Clone, Copy)]
pub struct Table {
    codes: [u8; 19],
    ghost by_low_bits: { ByLowBits codes },
}

impl Table {
    // The compiler works it out, so that no jump of the match is left.
    pub fn new() -> Table {
        let u = code_of(b'U');
        let x = code_of(b'X');
        let zero = code_of(b'0');
        let one = code_of(b'1');
        let z = code_of(b'Z');
        let w = code_of(b'W');
        let l = code_of(b'L');
        let h = code_of(b'H');
        let d = code_of(b'-');
        Table {
            codes: [h, 9, 9, 9, l, d, 9, 9, zero, one, 9, 9, 9, u, 9, w, x, 9, z],
        }
    }

    // The number of so few characters that 64 bits hold their levels. None is foreign.
    #[tactic(auto, using(crate::proofs::Packing::low_from, crate::proofs::Packing::low_within), unfolding(value::specs::Digits::number))]
    pub fn number(&self, states: States, value: &[u8]) -> u64
        requires { OneWord states value.now }
        ensures { result ≡ number (2 ^ bits_of states) (codes_of (fold_all value.now)) }
    {
        let bits = states.bits();
        let mut working: u64 = 0;
        for c in value {
            let low = (*c & 31) as usize;
            let code = u64::from(self.codes[low - 8]);
            working = (working << bits) | code;
        }
        working
    }
}
