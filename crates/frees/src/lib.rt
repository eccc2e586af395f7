// The names that news open, as a row of marks; and the free names of all nodes, worked out once, from the last node to the first, into
// a list that the caller lends: a row of marks for each node. Promises that each mark is that of the process tree.
// Depends on arrays, scopes, records, marks, model and laws.
#![tactic(auto)]

ghost use Rattle.std.specs.Prelude.{◌≡◌, true, ℕ, ◌+◌, ◌<◌, length, get_or};
ghost use Rattle.laws.specs.Lists.{has};
ghost use Rattle.laws.specs.Bits.{bit};
ghost use Rattle.model.specs.Tree.{is_new};
ghost use Rattle.model.specs.Formed.{children, uses};
ghost use Rattle.records.specs.Record.{node_of};
ghost use Rattle.records.specs.ArrayFile.{array_in};
ghost use Rattle.marks.specs.Marks.{word_at, HasRow, marked};
ghost use Rattle.arrays.specs.File.{IsRead};
ghost use Rattle.frees.specs.Frees.{at_child, RowsAbove, RowFilled, AllFree};

use records::{ArrayFile, Record};

// The names that news open, marked in a row.
pub fn opened(array: &ArrayFile) -> [u64; 4]
    ensures { (o : ℕ) → marked result 0 o ≡ is_new (array_in array.now) o }
{
    let mut row = [0u64; 4];
    for i in 0..array.trailer.nodes {
        let r = array.node_at(i);
        marks::mark_if(&mut row, records::is_new(r), r.name);
    }
    row
}

// The names that a record uses, marked: its channel, and what an out sends.
fn used_by(r: Record) -> [u64; 4]
    requires { r.name < 256 }
    ensures { (v : ℕ) → v < 256 → marked result 0 v ≡ has (uses (node_of r)) v }
{
    let mut row = [0u64; 4];
    marks::mark_if(&mut row, records::is_agent(r), r.name);
    scopes::mark_args(&mut row, records::sends(r), r);
    row
}

// Word w of the names free in the children of a node whose record is r.
fn below(frees: &[u64], r: Record, w: usize) -> u64
    requires { (w < 4) × ((c : ℕ) → has (children (node_of r)) c ≡ true → HasRow frees.now c) }
    ensures { (k : ℕ) → bit result k ≡ at_child (λ c. bit (get_or frees.now (word_at c w) 0) k) (node_of r) }
{
    if records::is_stop(r) {
        return 0;
    }
    let left = marks::word_at(frees, r.left, w);
    if records::branches(r) {
        let right = marks::word_at(frees, r.right, w);
        return left | right;
    }
    left
}

// The row of node i, whose record is r, from the rows of its children: what it uses, and what is free below and not bound by it.
fn fill_row(frees: &mut [u64], i: usize, r: Record)
    requires { (r.name < 256) × HasRow frees.old i × RowsAbove frees.old i (node_of r) }
    ensures { RowFilled frees.old frees.new i (node_of r) }
{
    let used = used_by(r);
    let bound = scopes::bound_by(r);
    for w in 0..4 {
        let inside = below(frees, r, w);
        let own = inside & bound[w];
        marks::set_word(frees, i, w, used[w] | (inside ^ own));
    }
}

// The free names of all nodes.
pub fn fill_frees(frees: &mut [u64], array: &ArrayFile)
    requires { IsRead array.now.bytes.now array.now.trailer × (length frees.old ≡ 4096) }
    ensures { AllFree frees.new (array_in array.now) }
{
    for i in (0..array.trailer.nodes).rev() {
        fill_row(frees, i, array.node_at(i));
    }
}
