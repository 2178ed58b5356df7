// The tables by their highest members, in a form in which a walk finds an entry at once.
#![tactic(auto)]

ghost use Rattle.std.specs.Prelude.{◌≡◌, ◌≤◌, ◌<◌};
ghost use Rattle.theorems.specs.Accepted.{Accepted};
ghost use Rattle.definitions.specs.Basics.{true};
ghost use Rattle.held_region.specs.Meaning.{optional, members_of, said};
ghost use Rattle.held_region.specs.Asked.{none_or_below};
ghost use Rattle.held_region.specs.Related.{MembersKnown};
ghost use Rattle.buckets.specs.Permitted.{first_of, end_of};
ghost use Rattle.buckets.specs.Counting.{lowest_in, counts_for, PreparedFor, PreparedAll};
ghost use Rattle.buckets.specs.Least.{least_number};
ghost use Rattle.buckets.specs.Written.{FixedFit, PatientsWritten, MembersWritable, MembersWritten, LastKnown, last_of, TermKnown, TermAdded};

use bucket_words::{Buckets, PatientBucket, TableTerm, TermMember};
use entry_questions::entry_total;
use held_region::{FORBIDDEN, Patient, Region, Table};
use patient_set::PatientSet;

// The end of a bucket: no table has this number.
const NO_TERM: u32 = 64;

// What stands where no member, no patient and no table is.
const NO_MEMBER: TermMember = TermMember {
    patient: 0,
    stride: 0,
};

const NO_BUCKET: PatientBucket = PatientBucket {
    beds: 0,
    first_bed: 0,
    bed_end: 0,
    least: 0,
    first_term: NO_TERM,
};

const BLANK_TERM: TableTerm = TableTerm {
    start: 0,
    next: NO_TERM,
    members: [NO_MEMBER; 4],
};

// The permitted beds are all, or the fixed one: the first, and the end behind the last.
fn first_permitted(fixed: Option<u32>) -> u32
    ensures { result ≡ first_of (optional fixed) }
{
    fixed.unwrap_or(0)
}

fn permitted_end(fixed: Option<u32>, beds: u32) -> u32
    requires { none_or_below (optional fixed) beds ≡ true }
    ensures { result ≡ end_of (optional fixed) beds }
{
    match fixed {
        None => beds,
        Some(bed) => bed + 1,
    }
}

// The patients before any table is put into its bucket.
fn patient_buckets(patients: [Patient; 32], v: usize) -> [PatientBucket; 32]
    requires { (v ≤ 32) × FixedFit patients v }
    ensures { PatientsWritten patients v result }
{
    let mut written = [NO_BUCKET; 32];
    for s in 0..v {
        let patient = patients[s];
        let fixed = patient.fixed;
        written[s] = PatientBucket {
            beds: patient.beds,
            first_bed: first_permitted(fixed),
            bed_end: permitted_end(fixed, patient.beds),
            least: 0,
            first_term: NO_TERM,
        };
    }
    written
}

// The least number of a part of the store, or 0 where all of it is forbidden.
fn least_number(entries: &[u32; 4096], from: usize, to: usize) -> u32
    requires { to ≤ 4096 }
    ensures { result ≡ least_number entries.now from to }
{
    let mut least = FORBIDDEN;
    for i in from..to {
        let code = entries[i];
        if code < least {
            least = code;
        }
    }
    if least == FORBIDDEN { 0 } else { least }
}

// The members of a table, and for each the product of the bed counts of the members after it.
fn term_members(patients: &[PatientBucket; 32], table: Table) -> [TermMember; 4]
    requires { MembersWritable patients.now table }
    ensures { MembersWritten patients.now table result }
{
    let mut members = [NO_MEMBER; 4];
    let mut stride: u32 = 1;
    for j in (0..table.members).rev() {
        let patient = table.first[j];
        members[j] = TermMember {
            patient: patient,
            stride: stride,
        };
        stride *= patients[patient as usize].beds;
    }
    members
}

// The highest member of a table: members rise, so it is the last.
fn highest_member(table: Table) -> usize
    requires { LastKnown table }
    ensures { result ≡ last_of table }
{
    let last = table.members - 1;
    table.first[last] as usize
}

// A table as a term in front of the bucket of its highest member.
fn add_term(buckets: &mut Buckets, entries: &[u32; 4096], table: Table, k: usize, start: usize)
    requires { TermKnown entries.now table k start buckets.old.patients buckets.old.terms }
    ensures { TermAdded entries.now table k start buckets.old.patients buckets.new.patients buckets.old.terms buckets.new.terms }
{
    let least = least_number(entries, start, start + table.entries);
    let members = term_members(&buckets.patients, table);
    let s = highest_member(table);
    let bucket = buckets.patients[s];
    buckets.terms[k] = TableTerm {
        start: start as u32,
        next: bucket.first_term,
        members: members,
    };
    buckets.patients[s] = PatientBucket {
        least: bucket.least + least,
        first_term: k as u32,
        ..bucket
    };
}

// Does a table count for the patients of a set: is its lowest member one of them? Members rise, so it is the first.
fn counts_for(table: Table, of: PatientSet) -> bool
    requires { (MembersKnown table) × (0 < table.members) }
    ensures { result ≡ lowest_in of.0 (members_of table) }
{
    let s = table.first[0] as usize;
    of.has(s)
}

// Every table that counts for the patients of a set as a term in the bucket of its highest member.
// From the last table on, so that each bucket has the order of the file.
pub fn prepare_for(region: Region, store: &[u32; 4096], of: PatientSet) -> Buckets
    requires { Accepted (said region store.now) }
    ensures { PreparedFor (counts_for of.0) (said region store.now) store.now result.patients result.terms }
{
    let mut buckets = Buckets {
        patients: patient_buckets(region.patients, region.v),
        terms: [BLANK_TERM; 64],
    };
    let mut start = entry_total(region);
    for i in (0..region.t).rev() {
        let table = region.tables[i];
        start -= table.entries;
        if counts_for(table, of) {
            add_term(&mut buckets, store, table, i, start);
        }
    }
    buckets
}

// Every table as a term.
pub fn prepare(region: Region, store: &[u32; 4096]) -> Buckets
    requires { Accepted (said region store.now) }
    ensures { PreparedAll (said region store.now) store.now result.patients result.terms }
{
    prepare_for(region, store, PatientSet::FULL)
}
