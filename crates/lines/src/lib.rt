// The lines that answers are printed as, files read whole, and the program's arguments: one place for every program.
// Promises nothing beyond safety: what is written to a file no contract can say; the programs' stored output tests it.
// Depends on records (the refusal).
#![tactic(auto)]

ghost use Rattle.std.specs.Prelude.{◌≤◌, length, IfSome};

use records::Refusal;
use std::env::{Env, FillError};
use std::fmt::Display;
use std::io::Read;
use std::rt::Files;
use std::{fs, str};

// Room for one word more than the longest array file and table file have, so that a longer one is seen to be too long. Fixed, so that no program fails
// for want of memory.
pub const ARRAY_ROOM: usize = 17428;

pub const TABLE_ROOM: usize = 59520;

// Writes the bytes. What can't be written is passed over, here and below.
pub fn print_text(rt: &impl Print, text: &[u8]) {
    let _ = rt.write_all(text);
}

fn print_line(rt: &impl Print, line: &impl Display) {
    let _ = println!(rt; "{line}");
}

// A refusal by its number, any one, and its place.
pub fn print_refusal(rt: &impl Print, number: u8, place: usize) {
    let _ = print!(rt; "refused {number} {place}");
}

// Its line.
pub fn print_refused(rt: &impl Print, number: u8, place: usize) {
    let _ = println!(rt; "refused {number} {place}");
}

// The answer's line: what it says, or the refusal.
pub fn print_answer<T: Display + Drop>(rt: &impl Print, answer: Result<T, Refusal>) {
    match answer {
        Ok(said) => print_line(rt, &said),
        Err(refusal) => print_line(rt, &refusal),
    }
}

// Reads until the buffer is full, the input ends or a read fails, and answers what came. (A read may bring less than was asked.)
pub fn read_full<'a, R: Read>(input: &mut R, buffer: &'a mut [u8]) -> &'a [u8]
    ensures { length result.now ≤ length buffer.old }
{
    let mut done: usize = 0;
    while done < buffer.len() {
        match input.read(&mut buffer[done..]) {
            Ok(0) | Err(_) => break,
            Ok(n) => done += n,
        }
    }
    &buffer[..done]
}

// Reads the file at a path into a buffer and answers what came; a file that can't be opened counts as empty, and so does one whose path is not
// UTF-8.
pub fn read_file<'a>(rt: &impl Files, path: &[u8], buffer: &'a mut [u8]) -> &'a [u8]
    ensures { length result.now ≤ length buffer.old }
{
    let Ok(name) = str::from_utf8(path) else {
        return &[];
    };
    let Ok(mut file) = fs::open(rt, name) else {
        return &[];
    };
    read_full(&mut file, buffer)
}

// The program's argument i in a buffer, empty where it does not fit; none past the last one. (`env::args` needs an allocator, and a path that is
// UTF-8.)
pub fn argument<'a>(rt: &impl Env, i: usize, buffer: &'a mut [u8]) -> Option<&'a [u8]>
    ensures { IfSome result (λ part. length part.now ≤ length buffer.old) }
{
    match rt.arg(i, buffer) {
        Ok(n) => Some(&buffer[..n]),
        Err(FillError::TooLong) => Some(&[]),
        Err(FillError::NotPresent) => None,
    }
}

// Hands over each argument behind the program's name.
pub fn each_argument<F: Fn(&[u8])>(rt: &impl Env, tell: F)
    requires { F.IsAlwaysCallable tell }
{
    let mut path = [0u8; 4096];
    for i in 1..usize::MAX {
        let Some(path) = argument(rt, i, &mut path) else {
            return;
        };
        tell(path);
    }
}

// Reads each pair of files that the arguments name, an array file and a table file, and hands both over behind the second one's name, printed. A file that is
// not one of a pair is not opened.
pub fn each_pair<F: Fn(&[u8], &[u8])>(rt: &(impl Env + Files + Print), tell: F)
    requires { F.IsAlwaysCallable tell }
{
    let mut array = [0u8; ARRAY_ROOM];
    let mut table = [0u8; TABLE_ROOM];
    let mut path = [0u8; 4096];
    for i in (1..usize::MAX).step_by(2) {
        if argument(rt, i + 1, &mut path).is_none() {
            return;
        }
        let Some(name) = argument(rt, i, &mut path) else {
            return;
        };
        let array = read_file(rt, name, &mut array);
        let Some(name) = argument(rt, i + 1, &mut path) else {
            return;
        };
        let table = read_file(rt, name, &mut table);
        print_text(rt, name);
        print_text(rt, b" ");
        tell(array, table);
    }
}
