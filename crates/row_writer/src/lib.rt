// The areas that a caller lends: whether they are long enough, a list's rows written to them, and the work area cleared behind them.
#![tactic(auto)]

ghost use Rattle.std.specs.Prelude.{◌≡◌, ◌≤◌, length, replicate};
ghost use Rattle.row_writer.specs.Writing.{long_enough, Writable, RowsWritten};

use packed_rows::beds_of;
use row_list::row_at;

// How many numbers of work area list and sheet ask for.
pub const WORK: usize = 16_384;

// 12. Have the areas room for m rows of v beds, and the work area its numbers?
pub fn long_enough(v: usize, m: usize, beds: usize, costs: usize, work: usize) -> bool
    requires { (v ≤ 32) × (m ≤ 64) }
    ensures { result ≡ long_enough v m beds costs work }
{
    m * v <= beds && (m <= costs && WORK <= work)
}

// Writes the first n rows of the list: row r begins at r × v of the beds, and its cost stands at place r.
pub fn write_rows(list: &[u32], v: usize, n: usize, beds: &mut [u8], costs: &mut [u32])
    requires { Writable v n list.now beds.old costs.old }
    ensures { RowsWritten v n list.now beds.old costs.old beds.new costs.new }
{
    for r in 0..n {
        let row = row_at(list, r);
        let plain = beds_of(row);
        let start = r * v;
        beds[start..start + v].copy_from_slice(&plain[..v]);
        costs[r] = row.cost as u32;
    }
}

// Nothing of a region is left in the work area.
pub fn clear(work: &mut [u32])
    ensures { work.new ≡ replicate (length work.old) 0 }
{
    work.fill(0);
}
