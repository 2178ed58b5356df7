// The line of a file over some typed members: question 21, and the search for the line.
#![tactic(auto)]

ghost use Rattle.std.specs.Prelude.{◌≡◌, length};
ghost use Rattle.definitions.specs.Layout.{exactly, lines};
ghost use Rattle.definitions.specs.Lookup.{typed_right, first_line, line_outcome};
ghost use Rattle.theorems.specs.Lookup.{opening, begins};
ghost use Rattle.scanner.specs.Answers.{ReadAt, passed};
ghost use Rattle.line_finder.specs.Found.{line_error_number, part_said, line_of};
ghost use Rattle.line_finder.specs.declared.LineError.TheVariants as Lines;

use answers::Numbered;
use held_region::{FORBIDDEN, Refusal};
use line_reader::line_end;
use reader::load;
use scanner::bytes_at;
use table_reader::members_at;

// Why no line is looked for. Typed: question 21 is answered no.
#[derive(Clone, Copy, PartialEq, Eq)]
pub enum LineError {
    Refused(Refusal),
    Typed,
}

impl From<Refusal> for LineError {
    ghost from_gives = { λ refusal error. error ≡ Lines.Refused refusal };

    fn from(refused: Refusal) -> LineError {
        LineError::Refused(refused)
    }
}

impl Numbered for LineError {
    ghost number_in = { line_error_number };

    fn number(self) -> u64 {
        match self {
            LineError::Refused(refusal) => refusal.number(),
            LineError::Typed => 21,
        }
    }
}

// Question 21: are the typed bytes a list of members, with nothing after it?
fn typed_right(typed: &[u8]) -> bool
    ensures { result ≡ typed_right typed.now }
{
    match members_at(typed, 0) {
        Some(list) => typed.len() <= list.next,
        None => false,
    }
}

// The place after what the line of a table over the typed members begins with.
fn opening_end(line: &[u8], typed: &[u8]) -> Option<usize>
    ensures { ReadAt (exactly (opening typed.now)) line.now 0 (passed result) }
{
    let members = bytes_at(line, 0, b"(cost ")?;
    let end = bytes_at(line, members, typed)?;
    bytes_at(line, end, b" (")
}

fn begins_with(line: &[u8], typed: &[u8]) -> bool
    ensures { result ≡ begins typed.now line.now }
{
    opening_end(line, typed).is_some()
}

// The place and the length of a line, its line end left out.
#[derive(Clone, Copy)]
pub struct Part {
    pub start: usize,
    pub size: usize,
}

// The first line of a file that begins so; where none does, the empty part at the end.
fn first_line(file: &[u8], typed: &[u8]) -> Part
    ensures { part_said result ≡ first_line (begins typed.now) 0 (lines file.now) }
{
    let mut start = 0;
    // Where a line ends, the next one begins: lines are of no one length.
    while start < file.len() {
        let end = line_end(file, start);
        if begins_with(&file[start..end], typed) {
            return Part {
                start,
                size: end - start - 1,
            };
        }
        start = end;
    }
    Part {
        start: file.len(),
        size: 0,
    }
}

// Questions 1 to 10 and 21, then the line.
pub fn find_line(file: &[u8], typed: &[u8]) -> Result<Part, LineError>
    ensures { line_of (length file.now) result ≡ line_outcome file.now typed.now }
{
    let mut store = [FORBIDDEN; 4096];
    load(file, &mut store, true)?;
    if !typed_right(typed) {
        return Err(LineError::Typed);
    }
    Ok(first_line(file, typed))
}
