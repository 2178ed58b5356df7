// The writer: a held region as its file.
#![tactic(auto)]

ghost use Rattle.std.specs.Prelude.{◌≡◌};
ghost use Rattle.definitions.specs.Spelling.{spell};
ghost use Rattle.definitions.specs.Writer.{write_outcome};
ghost use Rattle.theorems.specs.Accepted.{Accepted};
ghost use Rattle.held_region.specs.Meaning.{said};
ghost use Rattle.file_answers.specs.Answers.{written_outcome};
ghost use Rattle.text_writer.specs.Wrote.{Room, Wrote};
ghost use Rattle.writer.specs.Outcomes.{placed_outcome, placing};

use file_answers::WriteError;
use held_region::Region;
use line_reader::checksum_of;
use questions::judge;
use region_lines::forms::write_form;
use region_lines::write_body;
use text_writer::write_text;

// The most bytes that the file of an accepted region has.
pub const FILE_ROOM: usize = 35_038;

// The file from the beginning of a text: its lines, and the end line with their sum.
fn write_file(text: &mut [u8], region: Region, store: &[u32; 4096]) -> usize
    requires { (Accepted (said region store.now)) × (Room (spell (said region store.now)) 0 text.old) }
    ensures { Wrote (spell (said region store.now)) 0 text.old text.new result }
{
    let end = write_body(text, region, store);
    let sum = checksum_of(&text[..end]);
    write_form(text, end, b"end", &[sum])
}

// The file of an accepted region, whole or not at all: its byte count, none where the output area is too short for it. It is made in an area of its own, so that its length is known before the output area is touched.
pub fn place_file(region: Region, store: &[u32; 4096], output: &mut [u8]) -> Option<usize>
    requires { Accepted (said region store.now) }
    ensures { placed_outcome result output.new ≡ placing (spell (said region store.now)) output.old }
{
    let mut text = [0u8; FILE_ROOM];
    let n = write_file(&mut text, region, store);
    if output.len() < n {
        return None;
    }
    write_text(output, 0, &text[..n]);
    Some(n)
}

// The same as write answers it.
pub fn write_accepted(
    region: Region,
    store: &[u32; 4096],
    output: &mut [u8],
) -> Result<usize, WriteError>
    requires { Accepted (said region store.now) }
    ensures { written_outcome result output.new ≡ placing (spell (said region store.now)) output.old }
{
    place_file(region, store, output).ok_or(WriteError::Short)
}

// Questions 5 to 10 of a held region, whatever it says, then 15, then the file.
pub fn write(region: Region, store: &[u32; 4096], output: &mut [u8]) -> Result<usize, WriteError>
    ensures { written_outcome result output.new ≡ write_outcome (said region store.now) output.old }
{
    judge(region, store, true)?;
    write_accepted(region, store, output)
}
