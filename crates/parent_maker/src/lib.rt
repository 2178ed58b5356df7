// Parents: a file read without asking for its parents, and written with those that its tables make.
#![tactic(auto)]

ghost use Rattle.std.specs.Prelude.{◌≡◌};
ghost use Rattle.definitions.specs.Questions.{first_no};
ghost use Rattle.definitions.specs.Parents.{asked_to_make, parents_outcome};
ghost use Rattle.definitions.specs.Boundary.{parents_call};
ghost use Rattle.file_answers.specs.Answers.{written_outcome};
ghost use Rattle.answers.specs.Answers.{checked_number};
ghost use Rattle.answers.specs.Rooms.{or_twelve};

use answers::{Counted, checked_number, or_twelve};
use byte_areas::store_result;
use file_answers::WriteError;
use held_region::{FORBIDDEN, Refusal};
use reader::load;
use region_parents::make_parents;
use writer::write_accepted;

// Questions 1 to 9, of 6 not the parents' half, then 15, then the file.
#[tactic(auto, using(crate::specs::Outcomes::parents_refused))]
pub fn parents(file: &[u8], output: &mut [u8]) -> Result<usize, WriteError>
    ensures { written_outcome result output.new ≡ parents_outcome file.now output.old }
{
    let mut store = [FORBIDDEN; 4096];
    let region = load(file, &mut store, false)?;
    let made = make_parents(region);
    write_accepted(made, &store, output)
}

// Questions 1 to 9, of 6 not the parents' half.
fn check_to_make(file: &[u8]) -> Result<(), Refusal>
    ensures { checked_number result ≡ first_no (asked_to_make file.now) }
{
    let mut store = [FORBIDDEN; 4096];
    let asked = load(file, &mut store, false);
    asked.map(|_| ())
}

// The number where the result area is too short for the byte count.
fn number_without_room(file: &[u8]) -> u64
    ensures { result ≡ or_twelve (first_no (asked_to_make file.now)) }
{
    or_twelve(checked_number(check_to_make(file)))
}

// The result area holds one number: the byte count.
pub fn parents_call(file: &[u8], output: &mut [u8], res: &mut [u8]) -> u64
    ensures { record { number = result; output = output.new; result = res.new } ≡ parents_call file.now output.old res.old }
{
    if res.len() < 8 {
        return number_without_room(file);
    }
    let written = Counted::of(parents(file, output));
    store_result(res, &[written.count as u64]);
    written.number
}
