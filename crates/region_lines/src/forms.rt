// Numbers of which the mark is spelled as a hyphen, and the forms without lists.
ghost use Rattle.std.specs.Prelude.{◌≤◌, ◌∷◌};
ghost use Rattle.definitions.specs.Basics.{map};
ghost use Rattle.definitions.specs.Spelling.{line};
ghost use Rattle.text_writer.specs.Wrote.{Room, Wrote};
ghost use Rattle.text_writer.specs.Parts.{apart};
ghost use Rattle.region_lines.specs.Codes.{spell_code};

use held_region::FORBIDDEN;
use text_writer::{write_byte, write_gap, write_number, write_text};

// A number that may be the mark, which is spelled as a hyphen.
pub fn write_code(out: &mut [u8], at: usize, code: u32) -> usize
    requires { Room (spell_code code) at out.old }
    ensures { Wrote (spell_code code) at out.old out.new result }
{
    if code == FORBIDDEN {
        return write_byte(out, at, b'-');
    }
    write_number(out, at, code as u64)
}

// Such numbers, single spaces between them. A part may stand before them: then a space stands before the first.
pub fn write_codes(out: &mut [u8], at: usize, codes: &[u32], before: usize) -> usize
    requires { (before ≤ 1) × (Room (apart before (map spell_code codes.now)) at out.old) }
    ensures { Wrote (apart before (map spell_code codes.now)) at out.old out.new result }
{
    let mut next = at;
    for (i, code) in codes.iter().enumerate() {
        next = write_gap(out, next, before + i);
        next = write_code(out, next, *code);
    }
    next
}

// A form without lists: its word and its fields, as a line.
pub fn write_form(out: &mut [u8], at: usize, word: &[u8], fields: &[u32]) -> usize
    requires { Room (line (word.now ∷ map spell_code fields.now)) at out.old }
    ensures { Wrote (line (word.now ∷ map spell_code fields.now)) at out.old out.new result }
{
    let word_at = write_byte(out, at, b'(');
    let fields_at = write_text(out, word_at, word);
    let end = write_codes(out, fields_at, fields, 1);
    write_text(out, end, b")\n")
}
