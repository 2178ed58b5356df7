// The layout of a file, and what is held of what it says.
#![tactic(auto)]

pub mod patients;
pub mod tables;

ghost use Rattle.layout.specs.LaidOut.{LaidOut};

use line_reader::{RegionLine, end_line, line_end, region_line};
use patients::{Patients, read_patients};
use tables::{Tables, read_tables};

// V, T and m of a file that is laid out; its patients and tables; n, and the place where the end line begins.
#[derive(Clone, Copy)]
pub struct Laid {
    pub v: u32,
    pub t: u32,
    pub m: u32,
    pub patients: Patients,
    pub tables: Tables,
    pub sum: u32,
    pub end: usize,
}

pub fn lay_out(file: &[u8], store: &mut [u32; 4096]) -> Option<Laid>
    ensures { LaidOut file.now result store.old store.new }
{
    let head_end = line_end(file, 0);
    let RegionLine { v, t, m } = region_line(&file[..head_end])?;
    let patients = read_patients(file, head_end);
    let tables = read_tables(file, patients.next, store);
    let body_end = tables.next;
    let last = line_end(file, body_end);
    let sum = end_line(&file[body_end..last])?;
    if last < file.len() {
        return None;
    }
    Some(Laid {
        v,
        t,
        m,
        patients,
        tables,
        sum,
        end: body_end,
    })
}
