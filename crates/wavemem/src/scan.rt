// What is told of a string before it is stored: its least set, and its levels as one number where its entry is short.
ghost use Rattle.std.specs.Prelude.{◌≡◌, ◌*◌, ◌^◌, ◌≤◌, length};
ghost use Rattle.value.specs.Digits.{number};
ghost use Rattle.value.specs.Level.{fold_all, codes_of, bits_of};
ghost use Rattle.wavemem.specs.Packed.{Codes};
ghost use Rattle.wavemem.specs.Scan.{ScanFor};

use crate::number_from_ascii;
use crate::short::{Scanned, scan_short};
use value::States;

// The number of a string's levels, and 0 where 64 bits don't hold them or the entry has more than eight bytes.
fn levels_for(states: States, value: &[u8], size: usize) -> u64
    requires { Codes states (codes_of (fold_all value.now)) × (length value.now ≤ 4096) }
    ensures { size ≤ 8 → length value.now * bits_of states ≤ 64 → result ≡ number (2 ^ bits_of states) (codes_of (fold_all value.now)) }
{
    if 8 < size {
        return 0;
    }
    if 64 < value.len() * states.bits() as usize {
        return 0;
    }
    number_from_ascii(states, value)
}

// Of a string for an entry of a size.
#[tactic(auto, using(crate::proofs::Scanning::codes_told))]
pub fn scan(value: &[u8], size: usize) -> Option<Scanned>
    requires { length value.now ≤ 4096 }
    ensures { ScanFor value.now size result }
{
    if value.len() <= 8 {
        return scan_short(value);
    }
    let states = States::from_ascii(value)?;
    Some(Scanned {
        states,
        levels: levels_for(states, value, size),
    })
}
