// Rows by value whose beds are packed: four bits to a bed, eight beds to a word.
// The first patient's bed is in the highest four bits, so that the order of words is the order of beds.
#![tactic(auto)]

ghost use Rattle.std.specs.Prelude.{◌≡◌, ◌+◌, ◌-◌, ◌*◌, ◌%◌, ◌<◌, ◌≤◌, length};
ghost use Rattle.std.proofs.lemmas.List.Edits.{sets};
ghost use Rattle.definitions.specs.Plans.{bed_of, compare_rows};
ghost use Rattle.definitions.specs.Sheets.{same_beds};
ghost use Rattle.partial_rows.specs.Adding.{add_rows};
ghost use Rattle.packed_rows.specs.Packed.{beds_of_word, packed_beds, row_of, before_or, packable, Fit};
ghost use Rattle.packed_rows.specs.Laws.{beds_from};

use std::cmp::Ordering;

// A cost, and the beds of 32 patients. Rows compare by cost, and at equal costs by their beds.
#[derive(Clone, Copy, PartialEq, Eq, PartialOrd, Ord)]
pub struct Row {
    pub cost: u64,
    pub words: [u32; 4],
}

// The bed of patient s as it is packed; bed 0 for one who is no patient.
fn bed_below(beds: &[u8; 32], v: usize, s: usize) -> u32
    requires { (v ≤ 32) × (s < 32) }
    ensures { (result ≡ bed_of (packable v beds.now) s) × (result < 16) }
{
    if s < v { u32::from(beds[s] % 16) } else { 0 }
}

// The word of eight patients, from one on.
fn packed_word(beds: &[u8; 32], v: usize, first: usize) -> u32
    requires { (v ≤ 32) × (first + 8 ≤ 32) }
    ensures { beds_of_word 7 result ≡ beds_from (packable v beds.now) first }
{
    let mut word = 0;
    for s in first..first + 8 {
        word = word * 16 + bed_below(beds, v, s);
    }
    word
}

// Packs the beds of v patients, with bed 0 for the others of 32.
pub fn pack(cost: u64, beds: &[u8; 32], v: usize) -> Row
    requires { v ≤ 32 }
    ensures { row_of result ≡ record { cost = cost; beds = packable v beds.now } }
{
    let words = [
        packed_word(beds, v, 0),
        packed_word(beds, v, 8),
        packed_word(beds, v, 16),
        packed_word(beds, v, 24),
    ];
    Row { cost, words }
}

// How many bits of a word stand behind its bed k.
fn bits_behind(k: usize) -> usize
    requires { k < 8 }
    ensures { result ≡ 28 - 4 * k }
{
    28 - 4 * k
}

// Writes the eight beds of a word, from one place on. Each is taken out of the whole word, so that none waits for another.
fn put_beds(beds: &mut [u8; 32], first: usize, word: u32)
    requires { first + 8 ≤ 32 }
    ensures { beds.new ≡ sets beds.old first (beds_of_word 7 word) }
{
    for k in 0..8 {
        beds[first + k] = ((word >> bits_behind(k)) % 16) as u8;
    }
}

// The beds of all 32 patients.
pub fn beds_of(row: Row) -> [u8; 32]
    ensures { result ≡ packed_beds row.words }
{
    let mut beds = [0; 32];
    for j in 0..4 {
        put_beds(&mut beds, 8 * j, row.words[j]);
    }
    beds
}

// The sum of two rows: no bed's sum reaches into the bits of the bed before.
pub fn add_rows(x: Row, y: Row) -> Row
    requires { Fit (row_of x) (row_of y) }
    ensures { row_of result ≡ add_rows (row_of x) (row_of y) }
{
    let mut words = [0; 4];
    for j in 0..4 {
        words[j] = x.words[j] + y.words[j];
    }
    Row {
        cost: x.cost + y.cost,
        words,
    }
}

// Does x come before y? At a tie, the answer is the one handed in. By `cmp`, which gives an Ordering at once: `<` and `<=`
// make an Option of one first, and listing plans of equal costs takes half as long again with them.
pub fn precedes(x: Row, y: Row, equal: bool) -> bool
    ensures { result ≡ before_or equal (compare_rows (row_of x) (row_of y)) }
{
    match x.cmp(&y) {
        Ordering::Less => true,
        Ordering::Equal => equal,
        Ordering::Greater => false,
    }
}

// Have two rows the same beds? Costs do not count.
pub fn same_beds(x: Row, y: Row) -> bool
    ensures { result ≡ same_beds (row_of x) (row_of y) }
{
    (0..4).all(|j| x.words[j] == y.words[j])
}
