// The table reader: refusals 13 to 21, 30 and 31 in checking order, after the array's own.
// Promises specs/Read, for every two byte strings; proofs/Laws says that a table that was read is one (IsTable, in layout), and proofs/Rewritten
// that it is read again when it is written with other rows.
// Depends on the crates that check one part each (flows, weights, claims), layout, arrays, records, wire, model and laws.
#![tactic(auto)]

ghost use Rattle.std.specs.Prelude.{◌≡◌, ◌≤◌, length};
ghost use Rattle.records.specs.Record.{answered, found_of};
ghost use Rattle.layout.specs.Table.{parts_fit, Laid};
ghost use Rattle.tables.specs.Read.{from14, from16, from18, from20, from21, table_refusal, read_table};

use layout::{Form, Sizes, TableFile};
use records::{ArrayFile, Reason, Refusal};

// Refusals 21, 30 and 31.
fn check_claims(array: &ArrayFile, table: &TableFile) -> Result<(), Refusal>
    ensures { found_of result ≡ from21 array.now.bytes.now array.now.trailer table.now.bytes.now table.now.sizes }
{
    claims::bad_claim(array, table)?;
    claims::bad_set(table)?;
    claims::bad_order(table)
}

// Refusals 20, 21, 30 and 31.
fn check_numbers(array: &ArrayFile, table: &TableFile) -> Result<(), Refusal>
    requires { Laid array.now.trailer table.now.bytes.now table.now.sizes }
    ensures { found_of result ≡ from20 array.now.bytes.now array.now.trailer table.now.bytes.now table.now.sizes }
{
    weights::bad_balance(array, table)?;
    check_claims(array, table)
}

// Refusals 18 to 21, 30 and 31.
fn check_rows(array: &ArrayFile, table: &TableFile) -> Result<(), Refusal>
    requires { Laid array.now.trailer table.now.bytes.now table.now.sizes }
    ensures { found_of result ≡ from18 array.now.bytes.now array.now.trailer table.now.bytes.now table.now.sizes }
{
    if wire::u32_at(table.bytes, table.bytes.len() - 12) != array.trailer.sum {
        return Err(Reason::OtherArray.into());
    }
    flows::bad_row(array, table)?;
    check_numbers(array, table)
}

// The parts start where they should, and fill the file. Table and sizes come apart as long as this is not known.
fn parts_fit(table: &[u8], z: Sizes) -> bool
    requires nodes_bound { (z.nodes ≤ 1024) × (z.names ≤ 256) × (z.balances ≤ 24) × (z.claims ≤ 256) }
    requires in_bounds { 28 ≤ length table.now }
    ensures { result ≡ parts_fit table.now z }
{
    let len = table.len();
    (wire::u32_at(table, len - 28) == 0)
        & (wire::u32_at(table, len - 24) as usize == z.balance_at(0))
        & (wire::u32_at(table, len - 20) as usize == z.claim_at(0))
        & (z.claim_at(z.claims) + 28 == len)
}

// Refusals 16 to 21, 30 and 31.
fn check_parts(array: &ArrayFile, table: &[u8], z: Sizes) -> Result<(), Refusal>
    requires { (z.nodes ≡ array.now.trailer.nodes) × (z.names ≡ array.now.trailer.names) × (z.balances ≤ 24) × (z.claims ≤ 256) × (28 ≤ length table.now) }
    ensures { found_of result ≡ from16 array.now.bytes.now array.now.trailer table.now z }
{
    let len = table.len();
    if !parts_fit(table, z) {
        return Err(Reason::TableParts.into());
    }
    if wire::u32_at(table, len - 8) != wire::word_sum(table, (len - 8) / 4) {
        return Err(Reason::TableSum.into());
    }
    let table = TableFile {
        bytes: table,
        sizes: z,
    };
    check_rows(array, &table)
}

// Refusals 14 to 21, 30 and 31.
fn check_letters(array: &ArrayFile, table: &[u8], z: Sizes) -> Result<(), Refusal>
    requires { (z.nodes ≡ array.now.trailer.nodes) × (z.names ≡ array.now.trailer.names) × (28 ≤ length table.now) }
    ensures { found_of result ≡ from14 array.now.bytes.now array.now.trailer table.now z }
{
    if z.form != Some(Form::Pic1) {
        return Err(Reason::TableLetters.into());
    }
    if !((z.balances <= z.most_balances()) & (z.claims <= 256)) {
        return Err(Reason::TableSizes.into());
    }
    check_parts(array, table, z)
}

// Refusals 13 to 21, 30 and 31, of a table for an array that was read.
pub fn check_table(array: &ArrayFile, table: &[u8]) -> Result<(), Refusal>
    ensures { found_of result ≡ table_refusal array.now.bytes.now array.now.trailer table.now }
{
    let len = table.len();
    if !((28 <= len) & (len <= 59516) & (len % 4 == 0)) {
        return Err(Reason::TableLength.into());
    }
    check_letters(array, table, layout::read_sizes(array.trailer, table))
}

// Reads a table file beside its array file.
pub fn read_table(array: &[u8], table: &[u8]) -> Result<Sizes, Refusal>
    ensures { answered result ≡ read_table array.now table.now }
{
    let file = arrays::open(array)?;
    check_table(&file, table)?;
    Ok(layout::read_sizes(file.trailer, table))
}
