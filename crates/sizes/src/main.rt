// sizes ARRAY TABLE ..: reads each pair of files and writes a line for it: the table's name, then `read`, M, N, K, Q; or `refused`, number,
// place. Its run over data/ is the table reader's test from outside.
#![tactic(auto)]

use layout::Sizes;
use std::fmt;

#[derive(Drop)]
struct Read(Sizes);

impl fmt::Display for Read {
    fn fmt<W: fmt::Write>(&self, f: &mut fmt::Formatter<W>) -> fmt::Result {
        let z = self.0;
        write!(
            f,
            "read {} {} {} {}",
            z.nodes, z.names, z.balances, z.claims
        )
    }
}

fn main(rt: HostRuntime) {
    lines::each_pair(&rt, |array, table| {
        lines::print_answer(&rt, handover::read_table(array, table).map(Read));
    });
}
