// The loads of all nodes in all balances, worked out once, from the last node to the first, into a list that the caller lends. The list has two entries
// to spare, so that it and the rows beside it start at a multiple of 16 bytes, as the compiler lays out the stack: else reads cross cache lines.
// Promises that each entry is the load of the process tree. Depends on layout, records, wire, model and laws.
#![tactic(auto)]

ghost use Rattle.std.specs.Prelude.{◌≡◌, true, ℕ, ◌+◌, ◌<◌, ltb, length};
ghost use Rattle.laws.specs.Lists.{has};
ghost use Rattle.model.specs.Formed.{children, WellFormed};
ghost use Rattle.records.specs.ArrayFile.{array_in};
ghost use Rattle.records.specs.Record.{node_of};
ghost use Rattle.layout.specs.Table.{Laid};
ghost use Rattle.layout.specs.TableFile.{table_in};
ghost use Rattle.loads.specs.Loads.{entry_index, load_in, Half, load_from, FilledFrom, AllLoads};

use layout::TableFile;
use records::{ArrayFile, Record};

// The entry of node i in balance k.
pub fn entry(i: usize, k: usize) -> usize
    requires { entry_index i k < 18446744073709551616 }
    ensures { result ≡ entry_index i k }
{
    24 * i + k
}

// The load of node i in balance k, from the list.
pub fn load_at(loads: &[u32], i: usize, k: usize) -> u32
    requires { Half loads.now i k }
    ensures { (result ≡ load_in loads.now i k) × (result < 2147483648) }
{
    loads[entry(i, k)]
}

// a < b. Both are compared as signed numbers, of which a machine compares several at once.
pub fn less(a: u32, b: u32) -> bool
    requires { (a < 2147483648) × (b < 2147483648) }
    ensures { result ≡ ltb a b }
{
    (a as i32) < (b as i32)
}

// The load of a node, whose record is r, in balance k, from its weight and the loads of its children.
fn load_of(loads: &[u32], r: Record, k: usize, weight: u32) -> u32
    requires { (c : ℕ) → has (children (node_of r)) c ≡ true → Half loads.now c k }
    ensures { result ≡ load_from loads.now r k weight }
{
    if records::is_agent(r) {
        return weight;
    }
    if records::is_stop(r) {
        return 0;
    }
    let left = load_at(loads, r.left, k);
    if records::is_new(r) {
        return left;
    }
    let right = load_at(loads, r.right, k);
    if records::is_par(r) {
        return left + right;
    }
    if left < right {
        return right;
    }
    left
}

// The loads of node i in every balance, from those of the nodes above it.
fn fill_node(loads: &mut [u32; 24578], array: &ArrayFile, table: &TableFile, i: usize)
    requires formed { WellFormed (array_in array.now) × Laid array.now.trailer table.now.bytes.now table.now.sizes }
    requires filled { (i < array.now.trailer.nodes) × FilledFrom loads.old (array_in array.now) (table_in table.now) (i + 1) }
    ensures { FilledFrom loads.new (array_in array.now) (table_in table.now) i }
{
    let r = array.node_at(i);
    // Copied, so that they need not be read again after each write.
    let bytes = table.bytes;
    let sizes = table.sizes;
    for k in 0..sizes.balances {
        let weight = wire::u16_at(bytes, sizes.balance_at(k) + 4 + 2 * i) as u32;
        let load = load_of(loads, r, k, weight);
        loads[entry(i, k)] = load;
    }
}

// The loads of all nodes in all balances.
pub fn all_loads(loads: &mut [u32; 24578], array: &ArrayFile, table: &TableFile)
    requires { WellFormed (array_in array.now) × Laid array.now.trailer table.now.bytes.now table.now.sizes }
    ensures { AllLoads loads.new (array_in array.now) (table_in table.now) }
{
    for i in (0..array.trailer.nodes).rev() {
        fill_node(loads, array, table, i);
    }
}
