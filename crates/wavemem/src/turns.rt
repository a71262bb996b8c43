// A string that fills whole bytes, packed and compared by turns: so many characters to so many bytes.
ghost use Rattle.std.specs.Prelude.{◌≡◌, ◌+◌, ◌%◌, length};
ghost use Rattle.value.specs.declared.States.{States};
ghost use Rattle.value.specs.Slice.{part, overlay, same};
ghost use Rattle.value.specs.Level.{fold_all, codes_of, len_of};
ghost use Rattle.wavemem.specs.Packed.{packed_from, Codes, Fills, WholeBytes};

// How a turn packs levels of a set.
pub trait Packs<const CHARS: usize, const BYTES: usize> {
    ghost set: { States };

    fn pack(&self, chars: &[u8; CHARS]) -> [u8; BYTES]
        requires { Codes set (codes_of (fold_all chars.now)) }
        ensures { result ≡ packed_from set 0 chars.now };

    ghost fills: { Fills set CHARS BYTES };
}

// Stores the levels of a string that fills turns. Returns the place behind them.
pub fn write_turns<const CHARS: usize, const BYTES: usize, P: Packs<CHARS, BYTES>>(
    packs: &P,
    value: &[u8],
    out: &mut [u8],
    at: usize,
) -> usize
    requires { WholeBytes P.set value.now (length out.old) at × (length value.now % CHARS ≡ 0) }
    ensures value { result ≡ at + len_of (length value.now) P.set }
    ensures out_after { out.new ≡ overlay out.old at (packed_from P.set 0 value.now) }
{
    let mut to = at;
    for chars in value.as_chunks::<CHARS>().0 {
        let next = to + BYTES;
        out[to..next].copy_from_slice(&packs.pack(chars));
        to = next;
    }
    to
}

// Whether the bytes from a place on are those that `write_turns` would store there.
pub fn equals_turns<const CHARS: usize, const BYTES: usize, P: Packs<CHARS, BYTES>>(
    packs: &P,
    value: &[u8],
    bytes: &[u8],
    at: usize,
) -> bool
    requires { WholeBytes P.set value.now (length bytes.now) at × (length value.now % CHARS ≡ 0) }
    ensures { result ≡ same (part at (len_of (length value.now) P.set) bytes.now) (packed_from P.set 0 value.now) }
{
    let mut to = at;
    for chars in value.as_chunks::<CHARS>().0 {
        let next = to + BYTES;
        let packed = packs.pack(chars);
        if bytes[to..next] != packed[..] {
            return false;
        }
        to = next;
    }
    true
}

// `write_turns` of a string whose first characters, fewer than a turn has, are packed to single bytes.
pub fn write_parts<
    const FEW: usize,
    const CHARS: usize,
    const BYTES: usize,
    F: Packs<FEW, 1>,
    P: Packs<CHARS, BYTES>,
>(first: &F, packs: &P, value: &[u8], out: &mut [u8], at: usize) -> usize
    requires { WholeBytes P.set value.now (length out.old) at × (F.set ≡ P.set) }
    ensures value { result ≡ at + len_of (length value.now) P.set }
    ensures out_after { out.new ≡ overlay out.old at (packed_from P.set 0 value.now) }
{
    let lead = value.len() % CHARS;
    let next = write_turns(first, &value[..lead], out, at);
    write_turns(packs, &value[lead..], out, next)
}

// `equals_turns` of such a string.
pub fn equals_parts<
    const FEW: usize,
    const CHARS: usize,
    const BYTES: usize,
    F: Packs<FEW, 1>,
    P: Packs<CHARS, BYTES>,
>(first: &F, packs: &P, value: &[u8], bytes: &[u8], at: usize) -> bool
    requires { WholeBytes P.set value.now (length bytes.now) at × (F.set ≡ P.set) }
    ensures { result ≡ same (part at (len_of (length value.now) P.set) bytes.now) (packed_from P.set 0 value.now) }
{
    let lead = value.len() % CHARS;
    equals_turns(first, &value[..lead], bytes, at)
        && equals_turns(packs, &value[lead..], bytes, at + lead / FEW)
}
