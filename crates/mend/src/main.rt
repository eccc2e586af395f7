// mend: reads `array.pis` and `table.pic` in the folder it runs in, puts the mended table in the place of `mended.pic` and writes one line,
// the number of bits set. Thin: the library mends; what is here writes a file, so that `mended.pic` is a whole table or stays as it was.
#![tactic(auto)]

use std::fs;
use std::fs::{OpenFile, OpenOptions};
use std::io::Write;
use std::rt::Files;

// Writes the table to the new file and closes it. Answers whether all of it was written. A failure that the system tells late would come with
// the closing, which says nothing here, so it is asked for before.
fn fill<F: Write + OpenFile + Drop>(mut file: F, table: &[u8]) -> bool {
    let written = file.write_all(table).is_ok();
    let kept = file.sync_all().is_ok();
    written & kept
}

// Writes the table to the new file, closes it and gives it its name. Answers whether all of that was done.
fn complete<R: Files>(rt: &R, file: R::File, table: &[u8]) -> bool {
    if fill(file, table) {
        return fs::rename(rt, "mended.pic.new", "mended.pic").is_ok();
    }
    false
}

// Puts the table in the place of `mended.pic`, whole, and answers true, or leaves `mended.pic` as it was. No other file is left: what stood
// under the new file's name, from a run that was broken off, goes first.
fn replace(rt: &impl Files, table: &[u8]) -> bool {
    let _ = fs::remove_file(rt, "mended.pic.new");
    let Ok(file) = OpenOptions::new()
        .write(true)
        .create_new(true)
        .open(rt, "mended.pic.new")
    else {
        return false;
    };
    let done = complete(rt, file, table);
    if !done {
        let _ = fs::remove_file(rt, "mended.pic.new");
    }
    done
}

// The line comes after the file.
fn keep(rt: &(impl Files + Print), table: &[u8], bits: usize) {
    let _ = if replace(rt, table) {
        println!(rt; "mended {bits}")
    } else {
        println!(rt; "not written")
    };
}

fn main(rt: HostRuntime) {
    let mut array = [0u8; lines::ARRAY_ROOM];
    let mut table = [0u8; lines::TABLE_ROOM];
    let mut mended = [0u8; lines::TABLE_ROOM];
    let array = lines::read_file(&rt, b"array.pis", &mut array);
    let table = lines::read_file(&rt, b"table.pic", &mut table);
    match handover::mend(array, table, &mut mended) {
        Ok(bits) => keep(&rt, &mended[..table.len()], bits),
        Err(refusal) => lines::print_refused(&rt, refusal.reason.number(), refusal.place),
    }
}
