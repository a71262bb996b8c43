// A real's entry: its 64 bits as 8 bytes, the lowest first.
ghost use Rattle.std.specs.Prelude.{◌≡◌, reverse, ◌+◌, ◌*◌, ◌≤◌, length};
ghost use Rattle.value.specs.Digits.{digits};
ghost use Rattle.value.specs.Slice.{part, overlay};
ghost use Rattle.entries.specs.Repeats.{repeats};

use crate::last_place;
use layout::bytes::{read_block, write_block};

#[tactic(auto, using(crate::proofs::Reals::low_bytes))]
pub fn write_real(bits: u64, out: &mut [u8], at: usize)
    requires { at + 8 ≤ length out.old }
    ensures { out.new ≡ overlay out.old at (reverse (digits 256 8 bits)) }
{
    write_block(out, at, &bits.to_le_bytes());
}

// Whether a real repeats the last of `count` entries.
#[tactic(auto, using(crate::proofs::LastEntry::none_repeated))]
pub fn repeats_real(bits: u64, bytes: &[u8], byte_start: usize, count: u32) -> bool
    requires { byte_start + count * 8 ≤ length bytes.now }
    ensures { result ≡ repeats 8 count (part byte_start (count * 8) bytes.now) (reverse (digits 256 8 bits)) }
{
    let Some(at) = last_place(byte_start, count, 8) else {
        return false;
    };
    u64::from_le_bytes(read_block(bytes, at)) == bits
}
