// Rows in a lent area of 32-bit numbers: the list of the cheapest rows found so far.
// A row takes six words: its cost in two, the low one first, then its packed beds in four.
#![tactic(auto)]

ghost use Rattle.std.specs.Prelude.{◌≡◌, not, ◌&&◌, ◌+◌, ◌-◌, ◌*◌, ◌≤◌, eqb, length};
ghost use Rattle.definitions.specs.Plans.{compare_rows};
ghost use Rattle.packed_rows.specs.Packed.{row_of, is_before};
ghost use Rattle.row_list.specs.Rows.{whole_row, Stored, Room, Inserted};
ghost use Rattle.row_list.specs.Steps.{Place};

use packed_rows::{Row, precedes};

// The cost of row i of the list.
pub fn cost_at(list: &[u32], i: usize) -> u64
    requires { i * 6 + 6 ≤ length list.now }
    ensures { result ≡ (whole_row list.now i).cost }
{
    u64::from(list[i * 6]) + u64::from(list[i * 6 + 1]) * 4_294_967_296
}

// Row i of the list.
pub fn row_at(list: &[u32], i: usize) -> Row
    requires { i * 6 + 6 ≤ length list.now }
    ensures { row_of result ≡ whole_row list.now i }
{
    // One by one, so that they stay in registers: a copy of the part goes through memory.
    let mut words = [0; 4];
    for j in 0..4 {
        words[j] = list[i * 6 + 2 + j];
    }
    Row {
        cost: cost_at(list, i),
        words,
    }
}

// Writes a row as row i of the list.
pub fn set_row(list: &mut [u32], i: usize, row: Row)
    requires { i * 6 + 6 ≤ length list.old }
    ensures { Stored i row list.old list.new }
{
    let at = i * 6;
    list[at] = (row.cost % 4_294_967_296) as u32;
    list[at + 1] = (row.cost / 4_294_967_296) as u32;
    list[at + 2..at + 6].copy_from_slice(&row.words);
}

// Is the list full, and a row not before its last?
pub fn is_past(list: &[u32], n: usize, m: usize, row: Row) -> bool
    requires { Room n m list.now }
    ensures { result ≡ (eqb n m && not (is_before (compare_rows (row_of row) (whole_row list.now (m - 1))))) }
{
    n == m && !precedes(row, row_at(list, m - 1), false)
}

// The place of a new row among n rows in order, by halving: the first row that it does not come after, or n.
// The rows lie in the words that the caller lends, so that the library's search of a slice does not find them.
fn place_of(list: &[u32], n: usize, row: Row) -> usize
    requires { n * 6 ≤ length list.now }
    ensures { Place n row list.now result }
{
    let mut low = 0;
    let mut high = n;
    while low < high {
        let middle = low + (high - low) / 2;
        if precedes(row, row_at(list, middle), true) {
            high = middle;
        } else {
            low = middle + 1;
        }
    }
    low
}

// Inserts a row where it belongs among the n rows held, of at most m: the last one falls out of a full list.
pub fn insert(list: &mut [u32], n: usize, m: usize, row: Row) -> usize
    requires { Room n m list.old }
    ensures { Inserted n m row list.old list.new result }
{
    let at = place_of(list, n, row);
    if at == m {
        return n;
    }
    let end = n.min(m - 1);
    list.copy_within(at * 6..end * 6, at * 6 + 6);
    set_row(list, at, row);
    end + 1
}
