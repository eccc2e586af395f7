// How often each node is a child and each name is bound, in tables filled once: refusals 9 and 11.
// Promises the model's refusal9 and refusal11 of the array that the bytes stand for. Depends on records, wire, model and laws.
#![tactic(auto)]

ghost use Rattle.std.specs.Prelude.{◌≡◌, ◌&&◌, ◌||◌, ℕ, ◌+◌, ◌<◌, length, get_or, ltb, eqb};
ghost use Rattle.laws.specs.Search.{first};
ghost use Rattle.laws.specs.Lists.{times, one};
ghost use Rattle.model.specs.Formed.{refuse, children, binds, fields_to, binders, refusal9, refusal11};
ghost use Rattle.records.specs.Record.{number_of, node_of, found_of};
ghost use Rattle.records.specs.ArrayFile.{array_in};
ghost use Rattle.counts.specs.Counts.{Grown, Below, params_of};

use records::{ArrayFile, Reason, Record, Refusal};

// Adds one to an entry where `on` is true. An entry past the end is none.
fn add_if(table: &mut [u16], on: bool, at: usize)
    requires { get_or table.old at 0 < 65535 }
    ensures { Grown table.old table.new (λ v. one (on && eqb v at)) }
{
    if on && at < table.len() {
        table[at] += 1;
    }
}

// Counts the children that a record names.
fn count_children(table: &mut [u16], r: Record)
    requires { Below table.old 65000 }
    ensures { Grown table.old table.new (times (children (node_of r))) }
{
    add_if(table, records::continues(r), r.left);
    add_if(table, records::branches(r), r.right);
}

// How many child fields name each node.
fn count_fields(array: &ArrayFile) -> [u16; 1024]
    ensures { (v : ℕ) → v < 1024 → get_or result v 0 ≡ fields_to (array_in array.now) v }
{
    let mut table = [0u16; 1024];
    for j in 0..array.trailer.nodes {
        count_children(&mut table, array.node_at(j));
    }
    table
}

// Counts the parameters that a record binds.
fn count_params(table: &mut [u16], r: Record)
    requires { Below table.old 65000 }
    ensures { Grown table.old table.new (times (params_of r)) }
{
    let binds = records::receives(r);
    for (k, arg) in r.args.iter().enumerate() {
        add_if(table, binds & (k < r.arity), usize::from(*arg));
    }
}

// Counts the names that a record binds.
fn count_names(table: &mut [u16], r: Record)
    requires { Below table.old 60000 }
    ensures { Grown table.old table.new (times (binds (node_of r))) }
{
    add_if(table, records::is_new(r), r.name);
    count_params(table, r);
}

// The same loop over what a record binds; a closure that changes the table would have a longer contract than the loop.
// How many times each name is bound: one mark is kept for each of 256 names.
fn count_binders(array: &ArrayFile) -> [u16; 256]
    ensures { (v : ℕ) → v < 256 → get_or result v 0 ≡ binders (array_in array.now) v }
{
    let mut marks = [0u16; 256];
    for j in 0..array.trailer.nodes {
        count_names(&mut marks, array.node_at(j));
    }
    marks
}

// A refusal at the first entry, from entry `from` on, that is not 1.
fn first_not_one(reason: Reason, table: &[u16], from: usize) -> Result<(), Refusal>
    ensures { found_of result ≡ first (length table.now) (λ k. refuse (number_of reason) k (ltb k from || eqb (get_or table.now k 0) 1)) }
{
    records::first_failing(table.len(), reason, |k| (k < from) | (table[k] == 1))
}

// Refusal 9.
pub fn bad_parent(array: &ArrayFile) -> Result<(), Refusal>
    ensures { found_of result ≡ refusal9 (array_in array.now) }
{
    let table = count_fields(array);
    first_not_one(Reason::Parent, &table[..array.trailer.nodes], 1)
}

// Refusal 11.
pub fn bad_binding(array: &ArrayFile) -> Result<(), Refusal>
    ensures { found_of result ≡ refusal11 (array_in array.now) }
{
    let marks = count_binders(array);
    first_not_one(Reason::Binding, &marks[..array.trailer.names], 0)
}
