// Checks each file that an argument names, and prints its name and check's number.
#![tactic(auto)]

use answers::checked_number;
use file_input::read_file;
use planner::check;
use std::env::{Env, FillError};
use std::{fs, io, str};

// A file that cannot be opened is said on standard error.
fn try_file(rt: &HostRuntime, path: &str) -> io::Result<()> {
    match fs::open(rt, path) {
        Err(error) => eprintln!(rt; "{path}: {error}"),
        Ok(mut from) => {
            // One byte more than a region file may have, so that a longer one is seen to be too long.
            let mut file = [0u8; 65536];
            let n = read_file(&mut from, &mut file)?;
            let answer = check(&file[..n]);
            let number = checked_number(answer);
            println!(rt; "{path} {number}")
        }
    }
}

// Is there an argument of this number? It is tried.
fn try_argument(rt: &HostRuntime, i: usize) -> io::Result<bool> {
    // A path has at most 4,095 bytes.
    let mut path = [0u8; 4096];
    match rt.arg(i, &mut path) {
        Err(FillError::NotPresent) => Ok(false),
        Err(FillError::TooLong) => {
            eprintln!(rt; "argument {i} is too long")?;
            Ok(true)
        }
        Ok(n) => {
            match str::from_utf8(&path[..n]) {
                Err(_) => eprintln!(rt; "argument {i} is no text")?,
                Ok(name) => try_file(rt, name)?,
            }
            Ok(true)
        }
    }
}

fn main(rt: HostRuntime) -> io::Result<()> {
    for i in 1..usize::MAX {
        if !try_argument(&rt, i)? {
            break;
        }
    }
    Ok(())
}
