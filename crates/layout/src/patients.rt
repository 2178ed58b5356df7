// The patient lines of a file.
ghost use Rattle.layout.specs.Reading.{PatientLines};

use held_region::{Patient, blank};
use line_reader::{line_end, patient_line};

// The first 32 patients of the lines from a place on, how many there are, and the place after them.
#[derive(Clone, Copy)]
pub struct Patients {
    pub first: [Patient; 32],
    pub count: usize,
    pub next: usize,
}

// A line that is no patient line ends them.
pub fn read_patients(file: &[u8], at: usize) -> Patients
    ensures { PatientLines file.now at result }
{
    let mut first = blank().patients;
    let mut count = 0;
    let mut i = at;
    // Where a line ends, the next one begins: lines are of no one length.
    while i < file.len() {
        let end = line_end(file, i);
        let Some(patient) = patient_line(&file[i..end]) else {
            break;
        };
        if count < 32 {
            first[count] = patient;
        }
        count += 1;
        i = end;
    }
    Patients {
        first,
        count,
        next: i,
    }
}
