// cases ARRAY TABLE ..: judges each pair of files and writes a line for it: the table's name and the verdict. Its run over data/ is the
// checker's test from outside.
#![tactic(auto)]

fn main(rt: HostRuntime) {
    lines::each_pair(&rt, |array, table| {
        lines::print_answer(&rt, handover::check(array, table));
    });
}
