// The cheapest sums of a row of one list and a row of another.
// The work area that the caller lends has three parts of 384 words: the list so far, the next list, and their sums.
#![tactic(auto)]

ghost use Rattle.std.specs.Prelude.{◌≡◌, ◌<◌, ◌≤◌, length};
ghost use Rattle.row_sums.specs.Sums.{Asks, Gives};
ghost use Rattle.row_sums.specs.Steps.{exceeds_last, AsksRow, GivesRow, Copied};

use packed_rows::{Row, add_rows};
use row_list::{cost_at, insert, row_at, set_row};

// Where the second and the third part start, and where the third ends.
pub const SECOND: usize = 384;

pub const THIRD: usize = 768;

const END: usize = 1_152;

// Is the list full, and does its last row cost less than this?
fn exceeds_last(list: &[u32], n: usize, m: usize, cost: u64) -> bool
    requires { (0 < m) × (n ≤ m) × (m ≤ 64) × (384 ≤ length list.now) }
    ensures { result ≡ exceeds_last n m cost list.now }
{
    n == m && cost_at(list, m - 1) < cost
}

// Adds a row to each of the b rows of the next list, and inserts the sums among the n held.
// The next list is in order, so that behind a sum that costs more than the last row of a full list there is none that enters.
fn insert_sums(work: &mut [u32], m: usize, n: usize, b: usize, x: Row) -> usize
    requires { AsksRow m n b x work.old }
    ensures { GivesRow m n b x work.old work.new result }
{
    let mut count = n;
    for j in 0..b {
        let cost = x.cost + cost_at(&work[SECOND..THIRD], j);
        if exceeds_last(&work[THIRD..END], count, m, cost) {
            return count;
        }
        let sum = add_rows(x, row_at(&work[SECOND..THIRD], j));
        count = insert(&mut work[THIRD..END], count, m, sum);
    }
    count
}

// Copies the first n sums over the list so far. Row by row: with the library's copies the archive needs memmove from outside.
fn copy_back(work: &mut [u32], n: usize)
    requires { (n ≤ 64) × (1_152 ≤ length work.old) }
    ensures { Copied n work.old work.new }
{
    for i in 0..n {
        let row = row_at(&work[THIRD..END], i);
        set_row(&mut work[0..SECOND], i, row);
    }
}

// The m cheapest sums of a row of the list so far and a row of the next list. They become the list so far.
pub fn combine(work: &mut [u32], m: usize, a: usize, b: usize) -> usize
    requires { Asks m a b work.old }
    ensures { Gives m a b work.old work.new result }
{
    let mut n = 0;
    for i in 0..a {
        let x = row_at(&work[..SECOND], i);
        n = insert_sums(work, m, n, b, x);
    }
    copy_back(work, n);
    n
}
