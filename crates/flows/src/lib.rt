// Flow rows as rows of marks, refusal 19, and a table written out again with other rows.
// Promises the bits of the file, refusal19 of layout, and specs/Written. Depends on layout, frees, records, marks, wire, model and laws.
// Refusal 19 takes 8,192 bytes of stack for the rows.
#![tactic(auto)]

ghost use Rattle.std.specs.Prelude.{◌≡◌, not, ◌&&◌, ℕ, ◌+◌, ◌*◌, ◌<◌, ◌≤◌, length};
ghost use Rattle.laws.specs.Lists.{one, put};
ghost use Rattle.laws.specs.Search.{sum};
ghost use Rattle.marks.specs.Marks.{marked};
ghost use Rattle.records.specs.ArrayFile.{array_in};
ghost use Rattle.records.specs.Record.{found_of};
ghost use Rattle.layout.specs.Table.{balance_at, row_bit, refusal19, Laid};
ghost use Rattle.flows.specs.Written.{row_bytes, rewritten};

use layout::{Sizes, TableFile};
use records::{ArrayFile, Reason, Refusal};

// The flow rows. A row of the file and a row of marks have the same bits in the same order. Here and below table and sizes come apart: a TableFile
// asks more, that the claims lie in the file too.
pub fn flow_rows(rows: &mut [u64; 1024], table: &[u8], z: Sizes)
    requires { (z.nodes ≤ 1024) × (z.names ≤ 256) × (balance_at z 0 ≤ length table.now) }
    ensures { (v o : ℕ) → v < z.names → o < 256 → marked rows.new v o ≡ row_bit table.now z v o }
{
    for i in 0..4 * z.names {
        rows[i] = wire::u64_at(table, 8 * i);
    }
}

// Refusal 19.
pub fn bad_row(array: &ArrayFile, table: &TableFile) -> Result<(), Refusal>
    requires { Laid array.now.trailer table.now.bytes.now table.now.sizes }
    ensures { found_of result ≡ refusal19 (array_in array.now) table.now.bytes.now table.now.sizes }
{
    let news = frees::opened(array);
    let mut rows = [0u64; 1024];
    flow_rows(&mut rows, table.bytes, table.sizes);
    records::first_failing(
        table.sizes.names,
        Reason::Row,
        |v| marks::contained(&rows, v, &news, 0),
    )
}

// Writes a table's bytes at the start of the output. A loop: `copy_from_slice` would ask the C library for memmove, which the archive does without.
fn copy_bytes(output: &mut [u8], table: &[u8])
    requires { length table.now ≤ length output.old }
    ensures { output.new ≡ put 0 table.now output.old }
{
    for i in 0..table.len() {
        output[i] = table[i];
    }
}

// Writes the rows at the start of the output.
fn put_rows(output: &mut [u8], rows: &[u64; 1024], z: Sizes)
    requires { (z.nodes ≤ 1024) × (z.names ≤ 256) × (balance_at z 0 ≤ length output.old) }
    ensures { output.new ≡ put 0 (row_bytes (balance_at z 0) (marked rows.now)) output.old }
{
    for i in 0..z.balance_at(0) {
        let word = rows[i / 8].to_le_bytes();
        output[i] = word[i % 8];
    }
}

// Writes the table with other rows, and its new word sum, at the start of the output.
pub fn write_table(output: &mut [u8], table: &[u8], rows: &[u64; 1024], z: Sizes)
    requires rows_in_bounds { (z.nodes ≤ 1024) × (z.names ≤ 256) × (balance_at z 0 + 28 ≤ length table.now) }
    requires table_in_bounds { length table.now ≤ length output.old }
    ensures { output.new ≡ put 0 (rewritten z (marked rows.now) table.now) output.old }
{
    let len = table.len();
    copy_bytes(output, table);
    put_rows(output, rows, z);
    wire::seal(output, len - 8, wire::u32_at(table, len - 4));
}

// How many bits the rows have that the table's rows have not.
pub fn new_bits(table: &[u8], rows: &[u64; 1024], z: Sizes) -> usize
    requires { (z.nodes ≤ 1024) × (z.names ≤ 256) × (balance_at z 0 ≤ length table.now) }
    ensures { result ≡ sum z.names (λ v. sum 256 (λ o. one (marked rows.now v o && not (row_bit table.now z v o)))) }
{
    let mut count: usize = 0;
    for i in 0..4 * z.names {
        let x = rows[i];
        let y = wire::u64_at(table, 8 * i);
        count += (x ^ (x & y)).count_ones() as usize;
    }
    count
}
