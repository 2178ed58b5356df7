// What the programs read of a file or of standard input, into an area that they have for it.
#![tactic(auto)]

ghost use Rattle.std.specs.Prelude.{◌≤◌, IfOk, length};

use std::io;
use std::io::Read;

// Reads until the area is full or the input ends, and says how many bytes that are. A pipe gives its bytes in parts,
// so the library's read_exact would fail at the end of the input, and its read_to_end asks for memory.
pub fn read_file<R: Read>(from: &mut R, area: &mut [u8]) -> io::Result<usize>
    ensures { IfOk result (λ n. n ≤ length area.new) }
{
    let mut done: usize = 0;
    while done < area.len() {
        match from.read(&mut area[done..])? {
            0 => return Ok(done),
            more => done += more,
        }
    }
    Ok(done)
}
