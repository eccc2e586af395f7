// inspect FILE..: reads each file as an array file and writes a line for it: the name, then `read`, the numbers of nodes and
// names and the remark's length in bytes, or `refused`, the number and the place. A file that can't be opened counts as empty.
// Thin: everything that matters is in the library. Its run over data/ is the reader's test.
#![tactic(auto)]

use records::Trailer;
use std::fmt;
use std::rt::Files;

// What the trailer says, and the remark's length.
#[derive(Drop)]
struct Read(Trailer, usize);

impl fmt::Display for Read {
    fn fmt<W: fmt::Write>(&self, f: &mut fmt::Formatter<W>) -> fmt::Result {
        write!(f, "read {} {} {}", self.0.nodes, self.0.names, self.1)
    }
}

fn print_file(rt: &(impl Files + Print), path: &[u8]) {
    let mut file = [0u8; lines::ARRAY_ROOM];
    let file = lines::read_file(rt, path, &mut file);
    lines::print_text(rt, path);
    lines::print_text(rt, b" ");
    let answer = handover::read_array(file).map(|trailer| Read(
        trailer,
        handover::remark(file).len(),
    ));
    lines::print_answer(rt, answer);
}

fn main(rt: HostRuntime) {
    lines::each_argument(&rt, |path| print_file(&rt, path));
}
