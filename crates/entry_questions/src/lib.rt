// Questions 8 and 9, of the entries: how many each table has, and what the store holds.
#![tactic(auto)]

ghost use Rattle.std.specs.Prelude.{◌≡◌, ◌≤◌};
ghost use Rattle.definitions.specs.Basics.{product, map};
ghost use Rattle.held_region.specs.Entries.{code_fits, store_fits, BedsRead, CountsSmall};
ghost use Rattle.held_region.specs.Sound.{Sound, bed_count_in};
ghost use Rattle.entry_questions.specs.Counting.{EntriesCounted};
ghost use Rattle.held_region.specs.Meaning.{members_of, start_in};

use held_region::{FORBIDDEN, Patient, Region, Table};
use limits::{Field, within};

// How many beds the members of a table have together: the product.
fn bed_product(patients: &[Patient; 32], table: Table) -> usize
    requires { BedsRead patients.now table }
    ensures { result ≡ product (map (bed_count_in patients.now) (members_of table)) }
{
    let mut n: usize = 1;
    for i in 0..table.members {
        n *= patients[table.first[i] as usize].beds as usize;
    }
    n
}

// How many entries all tables have together: where those of a table behind the last would begin.
pub fn entry_total(region: Region) -> usize
    requires { CountsSmall region }
    ensures { result ≡ start_in region region.t }
{
    let mut total: usize = 0;
    for i in 0..region.t {
        total += region.tables[i].entries;
    }
    total
}

// 8. Has each table as many entries as the product of its members' bed counts, and have all together their place? Then this is how many there are.
pub fn entry_counts(region: Region) -> Option<usize>
    requires { Sound region }
    ensures { EntriesCounted region result }
{
    let mut n: usize = 0;
    for i in 0..region.t {
        let table = region.tables[i];
        if table.entries != bed_product(&region.patients, table) {
            return None;
        }
        n += table.entries;
    }
    within(Field::EntryCount, n).then_some(n)
}

fn entry_fits(entry: u32) -> bool
    ensures { result ≡ code_fits entry }
{
    entry == FORBIDDEN || within(Field::Entry, entry as usize)
}

// 9. Is each of the store's first entries, if it is a number, within its limits?
pub fn entries_fit(entries: &[u32; 4096], total: usize) -> bool
    requires { total ≤ 4096 }
    ensures { result ≡ store_fits total entries.now }
{
    entries[..total].iter().all(|entry| entry_fits(*entry))
}
