// The rows of a clinic's sheet, collected behind the list in the work area.
#![tactic(auto)]

ghost use Rattle.std.specs.Prelude.{◌≡◌, ◌*◌, ◌≤◌, length};
ghost use Rattle.definitions.specs.Basics.{any};
ghost use Rattle.definitions.specs.Sheets.{same_beds};
ghost use Rattle.patient_set.specs.Sets.{members};
ghost use Rattle.pricing.specs.Pricing.{AsksAll};
ghost use Rattle.packed_rows.specs.Packed.{row_of};
ghost use Rattle.row_list.specs.Rows.{whole_rows};
ghost use Rattle.sheets.specs.Steps.{PartTaken, Priced, AsksOwn, GivesOwn, Room, Kept, AsksList, GivesList};
ghost use Rattle.sheets.specs.Sheets.{Asks, Gives};

use bucket_words::Buckets;
use buckets::prepare_for;
use held_region::Region;
use packed_rows::{Row, beds_of, pack, same_beds};
use patient_set::PatientSet;
use pricing::{Plan, tables_cost};
use row_list::{row_at, set_row};
use row_sums::{SECOND, THIRD};

// The beds of a clinic's patients, by rising number, moved together to the front.
fn clinic_beds(beds: [u8; 32], clinic: PatientSet) -> [u8; 32]
    ensures { PartTaken beds (members clinic.0) result }
{
    let mut taken = [0u8; 32];
    let mut j: usize = 0;
    for s in clinic.iter() {
        taken[j] = beds[s];
        j += 1;
    }
    taken
}

// What the tables cost for a plan, 0 where one of them forbids it.
fn price(buckets: &Buckets, entries: &[u32; 4096], v: usize, beds: [u8; 32]) -> u64
    requires { AsksAll entries.now buckets.now.patients buckets.now.terms v beds }
    ensures { Priced entries.now buckets.now.patients buckets.now.terms v beds result }
{
    let plan = Plan { beds: beds, len: v };
    tables_cost(buckets, entries, v, plan).unwrap_or(0)
}

// What the sheet holds of a row of the list: the clinic's own cost, and its part of the beds.
fn own_row(buckets: &Buckets, entries: &[u32; 4096], v: usize, row: Row, clinic: PatientSet) -> Row
    requires { AsksOwn entries.now buckets.now.patients buckets.now.terms v row clinic.0 }
    ensures { GivesOwn entries.now buckets.now.patients buckets.now.terms v row clinic.0 result }
{
    let beds = beds_of(row);
    let cost = price(buckets, entries, v, beds);
    let taken = clinic_beds(beds, clinic);
    let k = clinic.size() as usize;
    pack(cost, &taken, k)
}

// Have a row's beds come before, in one of the n rows of the sheet? Costs do not count.
fn has_come_before(sheet: &[u32], n: usize, row: Row) -> bool
    requires { n * 6 ≤ length sheet.now }
    ensures { result ≡ any (same_beds (row_of row)) (whole_rows n sheet.now) }
{
    for i in 0..n {
        let kept = row_at(sheet, i);
        if same_beds(row, kept) {
            return true;
        }
    }
    false
}

// Adds a row at the end of the n rows of the sheet, unless its beds have come before.
fn keep_new(sheet: &mut [u32], n: usize, row: Row) -> usize
    requires { Room n sheet.old }
    ensures { Kept n row sheet.old sheet.new result }
{
    if has_come_before(sheet, n, row) {
        return n;
    }
    set_row(sheet, n, row);
    n + 1
}

// Walks the n rows of the list, and keeps the clinic's own rows in the second part of the work area.
fn keep_rows(
    work: &mut [u32],
    buckets: &Buckets,
    entries: &[u32; 4096],
    v: usize,
    n: usize,
    clinic: PatientSet,
) -> usize
    requires { AsksList entries.now buckets.now.patients buckets.now.terms v n clinic.0 work.old }
    ensures { GivesList entries.now buckets.now.patients buckets.now.terms v n clinic.0 work.old work.new result }
{
    let mut count: usize = 0;
    for i in 0..n {
        let row = row_at(&work[0..SECOND], i);
        let own = own_row(buckets, entries, v, row, clinic);
        count = keep_new(&mut work[SECOND..THIRD], count, own);
    }
    count
}

// The rows of a clinic's sheet, from the n rows of the region's list.
pub fn sheet_rows(
    work: &mut [u32],
    region: Region,
    store: &[u32; 4096],
    n: usize,
    clinic: PatientSet,
) -> usize
    requires { Asks region store.now n clinic.0 work.old }
    ensures { Gives region store.now n clinic.0 work.old work.new result }
{
    let buckets = prepare_for(region, store, clinic);
    keep_rows(work, &buckets, store, region.v, n, clinic)
}
