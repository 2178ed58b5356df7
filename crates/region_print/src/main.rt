// Reads a region file from standard input, and prints its list and its sheets, or its refusal.
#![tactic(auto)]

ghost use Rattle.std.specs.Prelude.{◌≡◌, ◌≤◌};
ghost use Rattle.definitions.specs.Basics.{length, sets};
ghost use Rattle.definitions.specs.Output.{printed};

use file_input::read_file;
use printer::print;
use std::io;
use std::process::ExitCode;

// Prints a file's text, which the area has room for.
fn print_text<P: Print>(to: &P, file: &[u8], text: &mut [u8]) -> io::Result<()>
    requires { 32_106 ≤ length text.old }
    ensures { text.new ≡ sets text.old 0 (printed file.now) }
{
    let n = print(file, text);
    to.write_all(&text[..n])
}

// Says on standard error what failed.
fn fail<E: Eprint>(to: &E, what: &str, error: io::Error) -> ExitCode {
    let _ = eprintln!(to; "{what}: {error}");
    ExitCode::FAILURE
}

// A read or a write that fails is said on standard error.
fn main(rt: HostRuntime) -> ExitCode {
    // One byte more than a region file may have, so that a longer one is seen to be too long.
    let mut file = [0u8; 65536];
    let mut text = [0u8; 65536];
    match read_file(&mut rt.stdin(), &mut file) {
        Err(error) => fail(&rt, "standard input", error),
        Ok(n) => match print_text(&rt, &file[..n], &mut text) {
            Ok(()) => ExitCode::SUCCESS,
            Err(error) => fail(&rt, "standard output", error),
        },
    }
}
