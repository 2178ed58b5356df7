// Join: two region files put together into one.
#![tactic(auto)]

ghost use Rattle.std.specs.Prelude.{◌≡◌};
ghost use Rattle.definitions.specs.Joining.{join_outcome};
ghost use Rattle.theorems.specs.Accepted.{Accepted};
ghost use Rattle.held_region.specs.Meaning.{said};
ghost use Rattle.file_answers.specs.Answers.{joined_outcome};
ghost use Rattle.joiner.specs.Outcomes.{once_accepted, once_both};

use file_answers::JoinError;
use held_region::{FORBIDDEN, Region};
use joined_region::{clinics_apart, join_regions, join_within};
use reader::load;
use writer::place_file;

// Questions 16, 17 and 15 of two accepted regions, then the joined file. The second's entries go into the first's store.
fn join_accepted(
    first: Region,
    store: &mut [u32; 4096],
    second: Region,
    other: &[u32; 4096],
    output: &mut [u8],
) -> Result<usize, JoinError>
    requires { (Accepted (said first store.old)) × (Accepted (said second other.now)) }
    ensures { joined_outcome result output.new ≡ once_both (said first store.old) (said second other.now) output.old }
{
    if !clinics_apart(first, second) {
        return Err(JoinError::Shared);
    }
    if !join_within(first, second) {
        return Err(JoinError::TooMany);
    }
    let region = join_regions(first, store, second, other);
    place_file(region, store, output).ok_or(JoinError::Short)
}

// Questions 1 to 10 of the second file, behind an accepted first one, and what is asked of both.
fn join_second(
    first: Region,
    store: &mut [u32; 4096],
    second: &[u8],
    output: &mut [u8],
) -> Result<usize, JoinError>
    requires { Accepted (said first store.old) }
    ensures { joined_outcome result output.new ≡ once_accepted (said first store.old) second.now output.old }
{
    let mut other = [FORBIDDEN; 4096];
    match load(second, &mut other, true) {
        Ok(region) => join_accepted(first, store, region, &other, output),
        Err(refusal) => Err(JoinError::SecondRefused(refusal)),
    }
}

// Questions 1 to 10 of the first file, then of the second, then 16, 17 and 15, then the joined file.
pub fn join(first: &[u8], second: &[u8], output: &mut [u8]) -> Result<usize, JoinError>
    ensures { joined_outcome result output.new ≡ join_outcome first.now second.now output.old }
{
    let mut store = [FORBIDDEN; 4096];
    match load(first, &mut store, true) {
        Ok(region) => join_second(region, &mut store, second, output),
        Err(refusal) => Err(JoinError::FirstRefused(refusal)),
    }
}
