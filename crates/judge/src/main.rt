// judge: reads `array.pis` and `table.pic` in the folder it runs in and writes one line, the verdict. Thin: everything that matters
// is in the library.
#![tactic(auto)]

fn main(rt: HostRuntime) {
    let mut array = [0u8; lines::ARRAY_ROOM];
    let mut table = [0u8; lines::TABLE_ROOM];
    let array = lines::read_file(&rt, b"array.pis", &mut array);
    let table = lines::read_file(&rt, b"table.pic", &mut table);
    lines::print_answer(&rt, handover::check(array, table));
}
