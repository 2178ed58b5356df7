// What each bed of a patient costs, with the beds that the others have.
ghost use Rattle.std.specs.Prelude.{◌≡◌, ◌<◌, ◌≤◌, get_or};
ghost use Rattle.definitions.specs.Basics.{cond, eqb, replicate};
ghost use Rattle.held_region.specs.Meaning.{mark};
ghost use Rattle.pricing.specs.Pricing.{cost_in, no_sum, sum_in};
ghost use Rattle.pricing.specs.BedCosts.{Small, most_word, OneMore, AsksEntries, GivesEntries, Asks, Gives};

use bucket_words::Buckets;
use held_region::FORBIDDEN;

// From this word on a sum is no number, since one of its entries is forbidden: 64 numbers together are far below it.
// An Option for each bed was tried in its place: adding took twice as long for 4 beds, and four times for 16.
const NO_SUM: u64 = 1_000_000_000_000;

// What makes a sum no number: that much for a forbidden entry, and nothing for a number.
fn no_sum_for(entry: u32) -> u64
    ensures { result ≡ cond (eqb entry mark) no_sum 0 }
{
    if entry == FORBIDDEN {
        return NO_SUM;
    }
    0
}

// A sum with one more entry.
fn add_entry(sum: u64, entry: u32) -> u64
    requires { Small sum × (sum ≤ most_word) }
    ensures { OneMore sum entry result }
{
    sum + entry as u64 + no_sum_for(entry)
}

// Adds to the sum of each bed from the first to before the end the entry for it: the entries lie side by side, that for bed 0 at a place.
fn add_entries(sums: &mut [u64; 16], entries: &[u32; 4096], from: usize, first: usize, end: usize)
    requires { AsksEntries entries.now from first end sums.old }
    ensures { GivesEntries entries.now from first end sums.old sums.new }
{
    for bed in first..end {
        sums[bed] = add_entry(sums[bed], entries[from + bed]);
    }
}

// What the tables of a patient's bucket cost together, for each of its permitted beds, in sums that were zero.
// The entries for its beds lie side by side, from each table's kept place on. A result by value was tried, and the walk took longer.
pub fn bed_costs(
    sums: &mut [u64; 16],
    buckets: &Buckets,
    entries: &[u32; 4096],
    places: &[u32; 64],
    s: usize,
    first: usize,
    end: usize,
)
    requires { Asks entries.now buckets.now.patients buckets.now.terms places.now s first end × (sums.old ≡ replicate 16 0) }
    ensures { Gives entries.now buckets.now.patients buckets.now.terms places.now s first end sums.new }
{
    // The terms of a bucket are linked: which one is next, each says.
    let mut k = buckets.first_term(s);
    while k < 64 {
        let from = buckets.entry_start(k) + places[k] as usize;
        add_entries(sums, entries, from, first, end);
        k = buckets.next_term(k);
    }
}

// The cost of one of the beds, none where an entry is forbidden.
pub fn bed_cost(sums: &[u64; 16], bed: usize) -> Option<u64>
    requires { bed < 16 }
    ensures { cost_in result ≡ sum_in (get_or sums.now bed 0) }
{
    let sum = sums[bed];
    if NO_SUM <= sum {
        return None;
    }
    Some(sum)
}
