// For the tests that are run: a caller of line from Rattle, which lays down the part that it gets, so that a test sees where it lies.
#![tactic(auto)]

ghost use Rattle.std.specs.Prelude.{◌≡◌};
ghost use Rattle.definitions.specs.Basics.{length};
ghost use Rattle.definitions.specs.Lookup.{line_outcome, part_of};

use planner::line;

// A part of a file, which C sees as its address and its length.
#[repr(C)]
pub struct HandedBack<'a> {
    pub part: &'a [u8],
}

#[unsafe(no_mangle)]
pub extern "C" fn rigbasen_trial_line<'a>(
    file: &'a [u8],
    typed: &[u8],
    handed: &mut HandedBack<'a>,
) -> u64
    ensures number { result ≡ (line_outcome file.now typed.now).number }
    ensures part { record { number = result; block = handed.new.part.ref_ptr.0; place = handed.new.part.ref_ptr.1; size = length handed.new.part.now; bytes = handed.new.part.now } ≡ part_of file.entry.ref_ptr.0 file.entry.ref_ptr.1 file.now (line_outcome file.now typed.now) }
{
    let mut number = 0;
    handed.part = line(file, typed, &mut number);
    number
}
