// seals: writes an array file, a remark and one stop, and the empty table beside it, number by number, seals both, and writes what the readers
// say of them: the remark's bytes, the array's line and the verdict. Its run is the test of the writers in wire.
#![tactic(auto)]

ghost use Rattle.std.specs.Prelude.{◌≤◌, length};

// 8 bytes that tell the order in which they are written.
fn write_remark(file: &mut [u8])
    requires { 40 ≤ length file.old }
{
    wire::put_word(file, 0, 67305985);
    wire::put_number(file, 4, 1541);
    wire::put_number(file, 6, 2055);
}

// The trailer of one node behind 8 bytes of remark and 16 of record: its start, M and N, then the sum and the letters `PIS1`.
fn write_array(file: &mut [u8])
    requires { 40 ≤ length file.old }
{
    write_remark(file);
    wire::put_word(file, 24, 8);
    wire::put_number(file, 28, 1);
    wire::put_number(file, 30, 0);
    wire::seal(file, 32, 827541840);
}

// The trailer of a table without rows, balances and claims: it names the array's sum, and ends with its own and the letters `PIC1`.
fn write_table(table: &mut [u8], sum: u32)
    requires { 28 ≤ length table.old }
{
    wire::put_word(table, 16, sum);
    wire::seal(table, 20, 826493264);
}

fn print_bytes(rt: &impl Print, bytes: &[u8]) {
    for byte in bytes {
        let _ = print!(rt; " {byte}");
    }
    let _ = println!(rt);
}

fn main(rt: HostRuntime) {
    let mut file = [0u8; 40];
    let mut table = [0u8; 28];
    write_array(&mut file);
    write_table(&mut table, wire::u32_at(&file, 32));
    print_bytes(&rt, handover::remark(&file));
    print_bytes(&rt, &file[24..]);
    print_bytes(&rt, &table);
    lines::print_answer(&rt, handover::check(&file, &table));
}
