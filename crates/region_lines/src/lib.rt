// The lines of a held region before the end line.
#![tactic(auto)]

pub mod forms;

ghost use Rattle.std.specs.Prelude.{◌≡◌};
ghost use Rattle.definitions.specs.Basics.{true};
ghost use Rattle.definitions.specs.Spelling.{spell_patient, spell_table, spell_body};
ghost use Rattle.theorems.specs.Forms.{ok_patient};
ghost use Rattle.held_region.specs.Meaning.{patient_of, said};
ghost use Rattle.text_writer.specs.Wrote.{Room, Wrote};
ghost use Rattle.region_lines.specs.Spelled.{table_from, patient_lines, table_lines};
ghost use Rattle.region_lines.specs.Writable.{PatientsFit, TableFits, Writable};

use forms::{write_codes, write_form};
use held_region::{Patient, Region, Table};
use scanner::code_of;
use text_writer::write_text;

// The parent and the fixed bed go by their codes: the mark where there is none.
fn write_patient(out: &mut [u8], at: usize, patient: Patient) -> usize
    requires { (ok_patient (patient_of patient) ≡ true) × (Room (spell_patient (patient_of patient)) at out.old) }
    ensures { Wrote (spell_patient (patient_of patient)) at out.old out.new result }
{
    let parent = code_of(patient.parent);
    let fixed = code_of(patient.fixed);
    write_form(
        out,
        at,
        b"patient",
        &[patient.clinic, patient.beds, parent, fixed],
    )
}

fn write_patients(out: &mut [u8], at: usize, region: Region) -> usize
    requires { (PatientsFit region) × (Room (patient_lines region) at out.old) }
    ensures { Wrote (patient_lines region) at out.old out.new result }
{
    let mut next = at;
    for s in 0..region.v {
        next = write_patient(out, next, region.patients[s]);
    }
    next
}

// A table's line; its entries stand in the store from a place on.
fn write_table(out: &mut [u8], at: usize, table: Table, store: &[u32; 4096], start: usize) -> usize
    requires { (TableFits table start) × (Room (spell_table (table_from store.now start table)) at out.old) }
    ensures { Wrote (spell_table (table_from store.now start table)) at out.old out.new result }
{
    let members = write_text(out, at, b"(cost (");
    let between = write_codes(out, members, &table.first[..table.members], 0);
    let entries = write_text(out, between, b") (");
    let end = write_codes(out, entries, &store[start..start + table.entries], 0);
    write_text(out, end, b"))\n")
}

// The entries of a table stand behind those of the table before it.
fn write_tables(out: &mut [u8], at: usize, region: Region, store: &[u32; 4096]) -> usize
    requires { (Writable region store.now) × (Room (table_lines region store.now) at out.old) }
    ensures { Wrote (table_lines region store.now) at out.old out.new result }
{
    let mut next = at;
    let mut start = 0;
    for i in 0..region.t {
        let table = region.tables[i];
        next = write_table(out, next, table, store, start);
        start += table.entries;
    }
    next
}

// The lines before the end line, from the beginning of the text.
pub fn write_body(out: &mut [u8], region: Region, store: &[u32; 4096]) -> usize
    requires { (Writable region store.now) × (Room (spell_body (said region store.now)) 0 out.old) }
    ensures { Wrote (spell_body (said region store.now)) 0 out.old out.new result }
{
    let patients = write_form(
        out,
        0,
        b"region",
        &[region.v as u32, region.t as u32, region.m as u32],
    );
    let tables = write_patients(out, patients, region);
    write_tables(out, tables, region, store)
}
