// What the printing program prints of rows that lie in a list: the line of a list, of a sheet or of a refusal, and a line for each row.
#![tactic(auto)]

ghost use Rattle.std.specs.Prelude.{◌≤◌, ◌∷◌};
ghost use Rattle.definitions.specs.Basics.{[], text};
ghost use Rattle.definitions.specs.Spelling.{decimal, line};
ghost use Rattle.definitions.specs.Output.{printed_row, printed_rows};
ghost use Rattle.partial_rows.specs.Padding.{unpadded};
ghost use Rattle.packed_rows.specs.Packed.{row_of};
ghost use Rattle.row_list.specs.Rows.{rows_in};
ghost use Rattle.text_writer.specs.Wrote.{Room, Wrote};
ghost use Rattle.row_printer.specs.Printing.{counted, Printable};

use packed_rows::{Row, beds_of};
use row_list::row_at;
use text_writer::{write_byte, write_number, write_numbers, write_text};

// The line of a row, which has a bed for each of v patients.
fn print_row(out: &mut [u8], at: usize, row: Row, v: usize) -> usize
    requires { (v ≤ 32) × (Room (printed_row (unpadded v (row_of row))) at out.old) }
    ensures { Wrote (printed_row (unpadded v (row_of row))) at out.old out.new result }
{
    let beds = beds_of(row);
    let cost_at = write_text(out, at, b"(row ");
    let space = write_number(out, cost_at, row.cost);
    let beds_at = write_byte(out, space, b' ');
    let end = write_numbers(out, beds_at, &beds[..v]);
    write_text(out, end, b")\n")
}

// The row count that ends a title line, the line's end, and the rows.
fn print_rows(out: &mut [u8], at: usize, list: &[u32], v: usize, n: usize) -> usize
    requires { Printable (counted (rows_in v n list.now)) v n list.now at out.old }
    ensures { Wrote (counted (rows_in v n list.now)) at out.old out.new result }
{
    let end = write_number(out, at, n as u64);
    let mut next = write_text(out, end, b")\n");
    for i in 0..n {
        next = print_row(out, next, row_at(list, i), v);
    }
    next
}

// The first n rows of the list, as a region's list.
pub fn print_list(out: &mut [u8], at: usize, list: &[u32], v: usize, n: usize) -> usize
    requires { Printable (printed_rows (text "list" ∷ []) (rows_in v n list.now)) v n list.now at out.old }
    ensures { Wrote (printed_rows (text "list" ∷ []) (rows_in v n list.now)) at out.old out.new result }
{
    let count = write_text(out, at, b"(list ");
    print_rows(out, count, list, v, n)
}

// The first n rows of the list, as a clinic's sheet.
pub fn print_sheet(
    out: &mut [u8],
    at: usize,
    clinic: u64,
    list: &[u32],
    v: usize,
    n: usize,
) -> usize
    requires { Printable (printed_rows (text "sheet" ∷ decimal clinic ∷ []) (rows_in v n list.now)) v n list.now at out.old }
    ensures { Wrote (printed_rows (text "sheet" ∷ decimal clinic ∷ []) (rows_in v n list.now)) at out.old out.new result }
{
    let number = write_text(out, at, b"(sheet ");
    let space = write_number(out, number, clinic);
    let count = write_byte(out, space, b' ');
    print_rows(out, count, list, v, n)
}

// The number of the question that a file was refused by.
pub fn print_refusal(out: &mut [u8], at: usize, q: u64) -> usize
    requires { Room (line (text "refused" ∷ decimal q ∷ [])) at out.old }
    ensures { Wrote (line (text "refused" ∷ decimal q ∷ [])) at out.old out.new result }
{
    let number = write_text(out, at, b"(refused ");
    let end = write_number(out, number, q);
    write_text(out, end, b")\n")
}
