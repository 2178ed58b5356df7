// The pieces of a region file's lines, read from any place of a slice.
#![tactic(auto)]

ghost use Rattle.std.specs.Prelude.{◌≡◌, ◌∷◌, drop};
ghost use Rattle.definitions.specs.Basics.{ℕ, [], true, every, eqb};
ghost use Rattle.definitions.specs.Layout.{exactly, word, number, hyphen_or_number};
ghost use Rattle.scanner.specs.Classes.{is_letter, class_of, first_class, ClassOfOne};
ghost use Rattle.scanner.specs.Words.{form_start};
ghost use Rattle.scanner.specs.Answers.{ReadAt, passed, number_read, optional, code_of, said_by, entry_read, step_read};
ghost use Rattle.scanner.specs.Separators.{separator};

use limits::DIGITS;

// The reader's class of a byte; a digit comes with its value, a letter with its byte.
#[derive(Clone, Copy, PartialEq, Eq)]
pub enum Class {
    Digit(u32),
    Open,
    Close,
    Space,
    Hyphen,
    Letter(u8),
    LineEnd,
    Other,
}

pub fn class_of(b: u8) -> Class
    ensures { result ≡ class_of b }
{
    match b {
        b'0'..=b'9' => Class::Digit((b - b'0') as u32),
        b'(' => Class::Open,
        b')' => Class::Close,
        b' ' => Class::Space,
        b'-' => Class::Hyphen,
        b'a'..=b'z' => Class::Letter(b),
        b'\n' => Class::LineEnd,
        _ => Class::Other,
    }
}

// The class of the byte at a place; behind the end there is none, and the class is Other.
pub fn class_at(s: &[u8], at: usize) -> Class
    ensures { result ≡ first_class (drop at s.now) }
{
    if at < s.len() {
        class_of(s[at])
    } else {
        Class::Other
    }
}

pub fn is_line_end(b: u8) -> bool
    ensures { result ≡ eqb b 10 }
{
    class_of(b) == Class::LineEnd
}

// The place after one byte of a class, which another byte than Other has.
#[inline]
fn one_at(s: &[u8], at: usize, class: Class) -> Option<usize>
    requires { class ≡ Class.Other → ⊥ }
    ensures { (w : ℕ) → ClassOfOne class w → ReadAt (exactly (w ∷ [])) s.now at (passed result) }
{
    if class_at(s, at) == class {
        Some(at + 1)
    } else {
        None
    }
}

// The bracket that opens a list.
pub fn open_at(s: &[u8], at: usize) -> Option<usize>
    ensures { ReadAt (word "(") s.now at (passed result) }
{
    one_at(s, at, Class::Open)
}

// The space between two parts.
pub fn space_at(s: &[u8], at: usize) -> Option<usize>
    ensures { ReadAt (word " ") s.now at (passed result) }
{
    one_at(s, at, Class::Space)
}

// The bracket that closes a form, and its line end.
pub fn form_end_at(s: &[u8], at: usize) -> Option<usize>
    ensures { ReadAt (word ")\n") s.now at (passed result) }
{
    let end = one_at(s, at, Class::Close)?;
    one_at(s, end, Class::LineEnd)
}

// Exactly these bytes, whatever their classes.
pub fn bytes_at(s: &[u8], at: usize, bytes: &[u8]) -> Option<usize>
    ensures { ReadAt (exactly bytes.now) s.now at (passed result) }
{
    let rest = &s[at.min(s.len())..];
    if rest.len() < bytes.len() {
        return None;
    }
    let found = rest.iter().zip(bytes).all(|(here, asked)| here == asked);
    found.then_some(at + bytes.len())
}

// Exactly these letters, each by its class.
fn letters_at(s: &[u8], at: usize, letters: &[u8]) -> Option<usize>
    requires { every is_letter letters.now ≡ true }
    ensures { ReadAt (exactly letters.now) s.now at (passed result) }
{
    let mut next = at;
    for asked in letters {
        let Class::Letter(letter) = class_at(s, next) else {
            return None;
        };
        if letter != *asked {
            return None;
        }
        next += 1;
    }
    Some(next)
}

// The bracket that opens a form, and the form's word.
pub fn form_start_at(s: &[u8], at: usize, word: &[u8]) -> Option<usize>
    requires { every is_letter word.now ≡ true }
    ensures { ReadAt (exactly (form_start word.now)) s.now at (passed result) }
{
    let start = open_at(s, at)?;
    letters_at(s, start, word)
}

// A number with no leading zero, and the place after it. A digit too many ends the reading.
pub fn number_at(s: &[u8], at: usize) -> Option<(u32, usize)>
    ensures { ReadAt number s.now at (number_read result) }
{
    let Class::Digit(first) = class_at(s, at) else {
        return None;
    };
    let mut value = first;
    let mut i = at + 1;
    // How many digits there are is seen by reading them.
    while let Class::Digit(d) = class_at(s, i) {
        let leading_zero = value == 0;
        if i - at == DIGITS || leading_zero {
            return None;
        }
        value = value * 10 + d;
        i += 1;
    }
    Some((value, i))
}

// What stands for a hyphen where a field that may be one is held as a number: no number of a file is so large.
pub const MARK: u32 = u32::MAX;

// A field that may be a hyphen as one number, and what such a number says.
pub fn code_of(field: Option<u32>) -> u32
    ensures { result ≡ code_of (optional field) }
{
    field.unwrap_or(MARK)
}

pub fn said_by(code: u32) -> Option<u32>
    ensures { optional result ≡ said_by code }
{
    if code == MARK { None } else { Some(code) }
}

// A hyphen, which says that there is none, or a number; and the place after it.
pub fn hyphen_or_number_at(s: &[u8], at: usize) -> Option<(Option<u32>, usize)>
    ensures { ReadAt hyphen_or_number s.now at (entry_read result) }
{
    if class_at(s, at) == Class::Hyphen {
        return Some((None, at + 1));
    }
    let (value, next) = number_at(s, at)?;
    Some((Some(value), next))
}

// What stands after an item, and the place after that: a space before the next one, or the bracket that closes the list.
#[derive(Clone, Copy)]
pub enum ItemStep {
    Next(usize),
    Closed(usize),
}

pub fn item_step(s: &[u8], at: usize) -> Option<ItemStep>
    ensures { ReadAt separator s.now at (step_read result) }
{
    match class_at(s, at) {
        Class::Space => Some(ItemStep::Next(at + 1)),
        Class::Close => Some(ItemStep::Closed(at + 1)),
        _ => None,
    }
}
