// Which names reach which node, in a table filled once from the root down: refusal 12.
// Promises the model's refusal12 of the array that the bytes stand for, where 8 and 9 have passed.
// Depends on records, marks, wire, model and laws. The table takes 32,768 bytes of stack.
#![tactic(auto)]

ghost use Rattle.std.specs.Prelude.{◌≡◌, true, ◌&&◌, ◌||◌, ℕ, ◌+◌, ◌<◌, ◌≤◌, length, replicate};
ghost use Rattle.laws.specs.Search.{clear};
ghost use Rattle.laws.specs.Lists.{all, has};
ghost use Rattle.model.specs.Formed.{children, binds, uses, in_reach, refusal8, refusal9, refusal12};
ghost use Rattle.records.specs.Record.{args_of, node_of, found_of};
ghost use Rattle.records.specs.ArrayFile.{array_in};
ghost use Rattle.marks.specs.Marks.{HasRow, marked};
ghost use Rattle.scopes.specs.Scope.{passed, pass_if, HandedDown};

use records::{ArrayFile, Reason, Record, Refusal};

// Marks the arguments of a record where `on` is true.
pub fn mark_args(row: &mut [u64; 4], on: bool, r: Record)
    ensures { (v : ℕ) → v < 256 → marked row.new 0 v ≡ marked row.old 0 v || (on && has (args_of r) v) }
{
    for (k, arg) in r.args.iter().enumerate() {
        marks::mark_if(row, on & (k < r.arity), usize::from(*arg));
    }
}

// The names that a record binds, marked.
pub fn bound_by(r: Record) -> [u64; 4]
    requires { r.name < 256 }
    ensures { (v : ℕ) → v < 256 → marked result 0 v ≡ has (binds (node_of r)) v }
{
    let mut row = [0u64; 4];
    marks::mark_if(&mut row, records::is_new(r), r.name);
    mark_args(&mut row, records::receives(r), r);
    row
}

// Child `to` of node `from` has the marks of its parent and of what its parent binds.
pub fn pass_down(reach: &mut [u64], from: usize, to: usize, bound: [u64; 4])
    requires { (from < to) × HasRow reach.old to }
    ensures { reach.new ≡ passed reach.old from to bound 4 }
{
    for w in 0..4 {
        let above = marks::word_at(reach, from, w);
        marks::set_word(reach, to, w, above | bound[w]);
    }
}

// The same where `on` is true.
fn pass_if(reach: &mut [u64], on: bool, from: usize, to: usize, bound: [u64; 4])
    requires { on ≡ true → (from < to) × HasRow reach.old to }
    ensures { reach.new ≡ pass_if reach.old on from to bound }
{
    if on {
        pass_down(reach, from, to, bound);
    }
}

// The children of node j, whose record is r, have the marks of node j and of what it binds.
fn pass_children(reach: &mut [u64], j: usize, r: Record)
    requires name_bound { r.name < 256 }
    requires by_index { (c : ℕ) → has (children (node_of r)) c ≡ true → (j < c) × HasRow reach.old c }
    ensures { HandedDown reach.old reach.new j (node_of r) }
{
    let bound = bound_by(r);
    pass_if(reach, records::continues(r), j, r.left, bound);
    pass_if(reach, records::branches(r), j, r.right, bound);
}

// The names that reach each node, marked in a row for each, of a list that has no marks.
fn fill_scopes(reach: &mut [u64], array: &ArrayFile)
    requires no_marks { reach.old ≡ replicate 4096 0 }
    requires is_tree { (refusal8 (array_in array.now) ≡ clear) × (refusal9 (array_in array.now) ≡ clear) }
    ensures { (i v : ℕ) → i < array.now.trailer.nodes → v < 256 → marked reach.new i v ≡ in_reach (array_in array.now) v i }
{
    for j in 0..array.trailer.nodes {
        pass_children(reach, j, array.node_at(j));
    }
}

// The arguments are marked in row i.
fn args_marked(reach: &[u64], i: usize, r: Record) -> bool
    requires { HasRow reach.now i }
    ensures { result ≡ all (marked reach.now i) (args_of r) }
{
    let mut found = true;
    for (k, arg) in r.args.iter().enumerate() {
        let here = marks::is_marked(reach, i, usize::from(*arg));
        found &= (r.arity <= k) | here;
    }
    found
}

// The names that a record uses are marked in row i.
fn uses_marked(reach: &[u64], i: usize, r: Record) -> bool
    requires { HasRow reach.now i × (r.name < 256) }
    ensures { result ≡ all (marked reach.now i) (uses (node_of r)) }
{
    if !records::is_agent(r) {
        return true;
    }
    if records::sends(r) {
        let args = args_marked(reach, i, r);
        return marks::is_marked(reach, i, r.name) & args;
    }
    marks::is_marked(reach, i, r.name)
}

// Refusal 12.
pub fn bad_reach(array: &ArrayFile) -> Result<(), Refusal>
    requires { (refusal8 (array_in array.now) ≡ clear) × (refusal9 (array_in array.now) ≡ clear) }
    ensures { found_of result ≡ refusal12 (array_in array.now) }
{
    let mut reach = [0u64; 4096];
    fill_scopes(&mut reach, array);
    records::first_failing(
        array.trailer.nodes,
        Reason::Reach,
        |i| uses_marked(&reach, i, array.node_at(i)),
    )
}
