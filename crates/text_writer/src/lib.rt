// Bytes, texts and numbers written into a lent area from a place on. Each writer gives the place after what it wrote.
#![tactic(auto)]

ghost use Rattle.std.specs.Prelude.{◌≡◌, ◌+◌, ◌<◌, ◌∷◌};
ghost use Rattle.definitions.specs.Basics.{[], map, get_or, length};
ghost use Rattle.definitions.specs.Spelling.{decimal, bracketed};
ghost use Rattle.text_writer.specs.Wrote.{Room, Wrote};
ghost use Rattle.text_writer.specs.Parts.{gap};

// One byte.
pub fn write_byte(out: &mut [u8], at: usize, byte: u8) -> usize
    requires { Room (byte ∷ []) at out.old }
    ensures { Wrote (byte ∷ []) at out.old out.new result }
{
    out[at] = byte;
    at + 1
}

// A lent text, as b"(row ".
pub fn write_text(out: &mut [u8], at: usize, text: &[u8]) -> usize
    requires { Room text.now at out.old }
    ensures { Wrote text.now at out.old out.new result }
{
    let end = at + text.len();
    out[at..end].copy_from_slice(text);
    end
}

// A number in decimal digits: those before the last are the digits of a tenth of it.
pub fn write_number(out: &mut [u8], at: usize, n: u64) -> usize
    requires { Room (decimal n) at out.old }
    ensures { Wrote (decimal n) at out.old out.new result }
{
    let one_digit = n < 10;
    let last = if one_digit {
        at
    } else {
        write_number(out, at, n / 10)
    };
    write_byte(out, last, b'0' + (n % 10) as u8)
}

// The space that stands before part i in brackets; before the first there is none.
pub fn write_gap(out: &mut [u8], at: usize, i: usize) -> usize
    requires { Room (gap i) at out.old }
    ensures { Wrote (gap i) at out.old out.new result }
{
    if i == 0 {
        return at;
    }
    write_byte(out, at, b' ')
}

// Numbers in brackets, single spaces between them.
pub fn write_numbers(out: &mut [u8], at: usize, numbers: &[u8]) -> usize
    requires { Room (bracketed (map decimal numbers.now)) at out.old }
    ensures { Wrote (bracketed (map decimal numbers.now)) at out.old out.new result }
{
    let mut next = write_byte(out, at, b'(');
    for (i, number) in numbers.iter().enumerate() {
        next = write_gap(out, next, i);
        next = write_number(out, next, u64::from(*number));
    }
    write_byte(out, next, b')')
}
