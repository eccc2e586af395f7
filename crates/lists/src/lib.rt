// The checker's own lists, filled from an array file and a table file that were read: loads of all nodes in all balances, bounds; beside rows of marks.
// Promises that with the table's rows they stand for the array and the table of the bytes. Depends on loads, pairs (the lists' table), layout,
// arrays, records, marks, wire and model. Whoever lends the lists, with rows, gives 106,600 bytes of stack.
#![tactic(auto)]

ghost use Rattle.std.specs.Prelude.{◌≡◌, List, ℕ, ◌<◌, get_or};
ghost use Rattle.wire.specs.Numbers.{u32_at};
ghost use Rattle.arrays.specs.File.{IsRead};
ghost use Rattle.layout.specs.Table.{balance_at, IsTable};
ghost use Rattle.lists.specs.Listed.{RowsRead, Listed};

use layout::TableFile;
use records::ArrayFile;

// The bounds of all balances.
fn all_bounds(bounds: &mut [u32; 24], table: &TableFile)
    ensures { (k : ℕ) → k < table.now.sizes.balances
        → get_or bounds.new k 0 ≡ u32_at table.now.bytes.now (balance_at table.now.sizes k) }
{
    for k in 0..table.sizes.balances {
        bounds[k] = wire::u32_at(table.bytes, table.sizes.balance_at(k));
    }
}

// Loads and bounds. Beside rows that were read (by flows) they stand for the table.
pub fn fill_lists(
    loads: &mut [u32; 24578],
    bounds: &mut [u32; 24],
    array: &ArrayFile,
    table: &TableFile,
)
    requires { IsRead array.now.bytes.now array.now.trailer
        × IsTable array.now.bytes.now array.now.trailer table.now.bytes.now table.now.sizes }
    ensures { (rows : List ℕ) → RowsRead table.now.bytes.now table.now.sizes rows
        → Listed array.now.bytes.now array.now.trailer table.now.bytes.now table.now.sizes rows loads.new bounds.new }
{
    loads::all_loads(loads, array, table);
    all_bounds(bounds, table);
}
