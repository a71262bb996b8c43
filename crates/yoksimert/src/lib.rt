// The operations of documents 01 and 02 for C and Rust: flat structs of numbers in and out, and lent slices. A caller can pass any numbers.
#![tactic(auto)]

pub mod derivations;
pub mod exports;
pub mod flat;
pub mod recorder;

// A description by numbers. Kind: 0 event, 1 real, 2 bit vector. Set: the mark of the largest set, 0 to 2. The width and the set of an event
// or a real are 0. Other numbers are no description, which every operation refuses with 2.
#[repr(C)]
#[derive(Clone, Copy)]
pub struct FlatDescription {
    pub kind: u32,
    pub width: u32,
    pub set: u32,
    pub count: u32,
}

// In each answer `number` is 0 for an accepted call, and else the number of the refusal.

// The answer of Fresh and of Derive. On a refusal the description is none: its kind is 3, and it is 0 elsewhere.
#[repr(C)]
#[derive(Clone, Copy)]
pub struct FlatMade {
    pub number: u32,
    pub description: FlatDescription,
}

// The answer of Read: the part that holds the levels is `length` of the lent bytes from `start` on. On a refusal all but the number is 0.
#[repr(C)]
#[derive(Clone, Copy)]
pub struct FlatEntry {
    pub number: u32,
    pub kind: u32,
    pub set: u32,
    pub start: usize,
    pub length: usize,
}

// The answer of Compare. On a refusal it is not equal.
#[repr(C)]
#[derive(Clone, Copy)]
pub struct FlatEqual {
    pub number: u32,
    pub equal: bool,
}

// An entry as a number. On a refusal the value is 0.
#[repr(C)]
#[derive(Clone, Copy)]
pub struct FlatNumber {
    pub number: u32,
    pub value: u64,
}

#[repr(C)]
#[derive(Clone, Copy)]
pub struct FlatSigned {
    pub number: u32,
    pub value: i64,
}

// The answer of Look up. Where nothing is found, all but the number is 0, and where there is no next index, that is 0.
#[repr(C)]
#[derive(Clone, Copy)]
pub struct FlatOffset {
    pub number: u32,
    pub found: bool,
    pub start: usize,
    pub elements: u32,
    pub time_match: bool,
    pub has_next: bool,
    pub next_index: u32,
}

// A derivation without its eight names and 64 pieces, which are lent beside it.
#[repr(C)]
#[derive(Clone, Copy)]
pub struct FlatDerivation {
    pub width: u32,
    pub input_count: u32,
    pub piece_count: u32,
}

// The answer of Add a piece. On a refusal the next derivation is the given one.
#[repr(C)]
#[derive(Clone, Copy)]
pub struct FlatJoined {
    pub number: u32,
    pub next: FlatDerivation,
}

// An input record of Derive.
#[repr(C)]
#[derive(Clone, Copy)]
pub struct FlatInput {
    pub description: FlatDescription,
    pub byte_start: usize,
    pub index_start: usize,
}

// The input records of Derive. Those from `count` on are not looked at.
#[repr(C)]
#[derive(Clone, Copy)]
pub struct FlatInputs {
    pub count: u32,
    pub inputs: [FlatInput; 8],
}
