// The held region: what a region file says, by value, and the answers to the questions it is asked.
#![tactic(auto)]

ghost use Rattle.std.specs.Prelude.{◌≡◌};
ghost use Rattle.held_region.specs.Meaning.{blank_region};

use scanner::MARK;

// There is no parent at a root, and no fixed bed where the patient is free. Both are held as the file has them, however large.
#[derive(Clone, Copy)]
pub struct Patient {
    pub clinic: u32,
    pub beds: u32,
    pub parent: Option<u32>,
    pub fixed: Option<u32>,
}

// The first four members, and how many members and entries the table has. Its entries begin where those of the table before it end.
#[derive(Clone, Copy)]
pub struct Table {
    pub first: [u32; 4],
    pub members: usize,
    pub entries: usize,
}

// V, T and m of the first line, the patients and the tables. The entries of all tables stand in one store of 4,096 numbers beside it,
// which the entry function has and lends.
#[derive(Clone, Copy)]
pub struct Region {
    pub v: usize,
    pub t: usize,
    pub m: usize,
    pub patients: [Patient; 32],
    pub tables: [Table; 64],
}

// The mark of a forbidden entry, with which document 01 fills the store: so an entry is a number there and no Option.
pub const FORBIDDEN: u32 = MARK;

// What stands in a place where no patient, and where no table, is held.
pub const NO_PATIENT: Patient = Patient {
    clinic: 0,
    beds: 0,
    parent: None,
    fixed: None,
};

pub const NO_TABLE: Table = Table {
    first: [0; 4],
    members: 0,
    entries: 0,
};

// No patient and no table: so begins what is held of a file.
#[inline]
pub fn blank() -> Region
    ensures { result ≡ blank_region }
{
    Region {
        v: 0,
        t: 0,
        m: 0,
        patients: [NO_PATIENT; 32],
        tables: [NO_TABLE; 64],
    }
}

// The questions that every file is asked first, 1 to 10, each named for what is wrong where the answer is no.
#[derive(Clone, Copy, PartialEq, Eq)]
pub enum Refusal {
    TooLong = 1,
    Layout = 2,
    Counts = 3,
    Sum = 4,
    Limits = 5,
    Patients = 6,
    Members = 7,
    EntryCounts = 8,
    Entries = 9,
    Ancestors = 10,
}
