// Where a line ends, the checksum of some bytes, and what a line says.
#![tactic(auto)]

ghost use Rattle.std.specs.Prelude.{◌≡◌, ◌+◌, ◌≤◌, length};
ghost use Rattle.definitions.specs.Basics.{true, every};
ghost use Rattle.definitions.specs.Layout.{whole, region_line, patient_line, end_line};
ghost use Rattle.definitions.specs.Limits.{file_length, limits};
ghost use Rattle.definitions.specs.Questions.{checksum};
ghost use Rattle.scanner.specs.Classes.{is_letter};
ghost use Rattle.scanner.specs.Answers.{ReadAt, number_read};
ghost use Rattle.line_reader.specs.Answers.{LineEnd, region_read, patient_read, end_read};
ghost use Rattle.line_reader.specs.Forms.{field, field_values, values_read};
ghost use Rattle.line_reader.specs.Lines.{Seeking, no_end_in_four};

use held_region::Patient;
use scanner::{
    code_of, form_end_at, form_start_at, hyphen_or_number_at, is_line_end, number_at, said_by,
    space_at,
};

// Is none of the four bytes from a place on a line end? Written out, and not a loop over the four: every byte of a file passes here.
fn no_end_in_four(s: &[u8], at: usize) -> bool
    requires { at + 4 ≤ length s.now }
    ensures { result ≡ no_end_in_four s.now at }
{
    !is_line_end(s[at])
        && (!is_line_end(s[at + 1]) && (!is_line_end(s[at + 2]) && !is_line_end(s[at + 3])))
}

// A place on the line that begins at a place: eight bytes at a time are passed while none of them ends the line,
// which is faster than a test of the end of the file for each.
fn pass_eights(s: &[u8], at: usize) -> usize
    ensures { Seeking s.now at result }
{
    let mut i = at;
    while i < s.len() && s.len() - i >= 8 && no_end_in_four(s, i) && no_end_in_four(s, i + 4) {
        i += 8;
    }
    i
}

// The place after the line that begins at a place.
pub fn line_end(s: &[u8], at: usize) -> usize
    ensures { LineEnd s.now at result }
{
    for i in pass_eights(s, at)..s.len() {
        if is_line_end(s[i]) {
            return i + 1;
        }
    }
    s.len()
}

const MODULUS: u32 = 65_521;

// The sum of all bytes, modulo 65,521. That of a file's bytes fits 32 bits, so nothing is tested within the loop.
pub fn checksum_of(s: &[u8]) -> u32
    requires { length s.now ≤ (limits file_length).highest }
    ensures { result ≡ checksum s.now }
{
    let mut sum: u32 = 0;
    for b in s {
        sum += u32::from(*b);
    }
    sum % MODULUS
}

// What a field may be: a number, or a hyphen in its place.
#[derive(Clone, Copy, PartialEq, Eq)]
enum Kind {
    Number,
    Optional,
}

// The value of a field of this kind, and the place after it.
fn field_at(line: &[u8], at: usize, kind: Kind) -> Option<(u32, usize)>
    ensures { ReadAt (field kind) line.now at (number_read result) }
{
    match kind {
        Kind::Number => number_at(line, at),
        Kind::Optional => {
            let (said, next) = hyphen_or_number_at(line, at)?;
            Some((code_of(said), next))
        }
    }
}

// The values of a line that is a form of this word, with fields of these kinds, one space before each.
fn read_form<const N: usize>(line: &[u8], word: &[u8], kinds: &[Kind; N]) -> Option<[u32; N]>
    requires { every is_letter word.now ≡ true }
    ensures { values_read result ≡ field_values word.now kinds.now line.now }
{
    let mut values = [0; N];
    let mut at = form_start_at(line, 0, word)?;
    for (k, kind) in kinds.iter().enumerate() {
        let begin = space_at(line, at)?;
        let (value, next) = field_at(line, begin, *kind)?;
        values[k] = value;
        at = next;
    }
    let end = form_end_at(line, at)?;
    if line.len() <= end {
        Some(values)
    } else {
        None
    }
}

// The region line's counts of patients and tables, and the number of plans wanted.
#[derive(Clone, Copy)]
pub struct RegionLine {
    pub v: u32,
    pub t: u32,
    pub m: u32,
}

pub fn region_line(line: &[u8]) -> Option<RegionLine>
    ensures { region_read result ≡ whole region_line line.now }
{
    let [v, t, m] = read_form(line, b"region", &[Kind::Number; 3])?;
    Some(RegionLine { v, t, m })
}

// A patient's clinic and count of beds; its parent, a hyphen at a root; its fixed bed, a hyphen where the patient is free.
pub fn patient_line(line: &[u8]) -> Option<Patient>
    ensures { patient_read result ≡ whole patient_line line.now }
{
    let [clinic, beds, parent, fixed] = read_form(
        line,
        b"patient",
        &[Kind::Number, Kind::Number, Kind::Optional, Kind::Optional],
    )?;
    Some(Patient {
        clinic,
        beds,
        parent: said_by(parent),
        fixed: said_by(fixed),
    })
}

// The end line's sum.
pub fn end_line(line: &[u8]) -> Option<u32>
    ensures { end_read result ≡ whole end_line line.now }
{
    let [sum] = read_form(line, b"end", &[Kind::Number])?;
    Some(sum)
}
