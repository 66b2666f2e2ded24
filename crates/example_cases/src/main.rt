// What `board` and then `statement` print for each run file that an argument names: the repository's examples, stored as cases.
// Rests on program, on std for files.
#![tactic(auto)]

use std::rt::{Env, Files};
use std::{fs, str};

// How many run files the arguments name.
const CASES: usize = 8;

// The longest name of a file.
const PATH: usize = 4096;

// The file that an argument names, opened; if it cannot be, that is said.
fn open_case<R: Files + Env + Eprint>(rt: &R, number: usize) -> Option<R::File> {
    let mut path = [0; PATH];
    let length = rt.arg(number, &mut path).unwrap_or(0);
    let Ok(path) = str::from_utf8(&path[..length]) else {
        let _ = eprintln!(rt; "Argument {number} is no text.");
        return None;
    };
    match fs::open(rt, path) {
        Ok(file) => Some(file),
        Err(error) => {
            let _ = eprintln!(rt; "{path}: {error}");
            None
        }
    }
}

fn print_case(rt: &(impl Files + Env + Print + Eprint), number: usize) {
    if let Some(mut file) = open_case(rt, number) {
        program::print_from(rt, &mut file);
    }
    if let Some(mut file) = open_case(rt, number) {
        program::state_from(rt, &mut file);
    }
}

fn main(rt: HostRuntime) {
    for number in 1..=CASES {
        print_case(&rt, number);
    }
}
