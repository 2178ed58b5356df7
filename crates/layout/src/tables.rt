// The table lines of a file.
ghost use Rattle.layout.specs.TableLines.{TableLines};

use held_region::{Table, blank};
use line_reader::line_end;
use table_reader::table_line;

// The first 64 tables of the lines from a place on, how many there are, and the place after them.
#[derive(Clone, Copy)]
pub struct Tables {
    pub first: [Table; 64],
    pub count: usize,
    pub next: usize,
}

// A line that is no table line ends them. Each entry takes a byte of the file, so `used` cannot overflow.
pub fn read_tables(file: &[u8], at: usize, store: &mut [u32; 4096]) -> Tables
    ensures { TableLines file.now at result store.old store.new }
{
    let mut first = blank().tables;
    let mut count = 0;
    let mut used = 0;
    let mut i = at;
    // Where a line ends, the next one begins: lines are of no one length.
    while i < file.len() {
        let end = line_end(file, i);
        let Some(table) = table_line(&file[i..end], store, used) else {
            break;
        };
        if count < 64 {
            first[count] = table;
        }
        count += 1;
        used += table.entries;
        i = end;
    }
    Tables {
        first,
        count,
        next: i,
    }
}
