// One pass over the records, from the root down, that says yes only where none of the refusals 6 to 12 comes. A no says nothing: the reader then looks
// for the refusal. Promises specs/Pass, Clear. Depends on fields, scopes and counts (the tests and tables of single refusals), records, marks, wire,
// model and laws. The tables take 34,304 bytes of stack.
#![tactic(auto)]

ghost use Rattle.std.specs.Prelude.{◌≡◌, true, false, ◌&&◌, ℕ, ◌*◌, ◌<◌, ◌≤◌, eqb, length, get_or};
ghost use Rattle.laws.specs.Search.{every};
ghost use Rattle.laws.specs.Lists.{one, all, has, times};
ghost use Rattle.marks.specs.Marks.{HasRow, marked};
ghost use Rattle.model.specs.Tree.{is_agent};
ghost use Rattle.records.specs.Record.{node_of};
ghost use Rattle.fields.specs.Fields.{rest_zero, fields_zero, children_fit};
ghost use Rattle.counts.specs.Counts.{Grown, Below};
ghost use Rattle.scopes.specs.Scope.{passed};
ghost use Rattle.scans.specs.Pass.{Clear, record_fits, count_fits, Ready, Passed};

use records::{ArrayFile, Record};

// 6, 7 and 8 pass at node i of m, but for the argument bytes.
fn record_fits(m: usize, i: usize, r: Record) -> bool
    ensures { result ≡ record_fits m i r }
{
    fields::shape_fits(r) & fields::fields_zero(r) & fields::children_fit(m, i, r)
}

// The argument bytes past the arity are zero, all at once.
fn rest_zero(r: Record) -> bool
    ensures { result ≡ true → every 8 (rest_zero r) ≡ true }
{
    if r.arity < 8 {
        return u64::from_le_bytes(r.args) >> (8 * r.arity) == 0;
    }
    true
}

// 7 and 8 pass at node i of m, an agent whose record is r, but for the argument bytes: it has one child, and uses its name.
fn one_child_fits(m: usize, i: usize, r: Record) -> bool
    requires { is_agent (node_of r) ≡ true }
    ensures { result ≡ fields_zero r && children_fit m i r }
{
    (r.pad == 0) & (r.right == 0) & ((i < r.left) & (r.left < m))
}

// 6, 7 and 8 pass at node i of m, an agent whose record is r, and its channel is marked in its row.
fn agent_fits(reach: &[u64], m: usize, i: usize, r: Record) -> bool
    requires { HasRow reach.now i × (r.name < 256) × (is_agent (node_of r) ≡ true) }
    ensures { result ≡ true → (record_fits m i r ≡ true) × (every 8 (rest_zero r) ≡ true) × (marked reach.now i r.name ≡ true) }
{
    fields::shape_fits(r)
        & one_child_fits(m, i, r)
        & rest_zero(r)
        & marks::is_marked(reach, i, r.name)
}

// The arguments are marked in row i.
fn args_marked(reach: &[u64], i: usize, args: &[u8]) -> bool
    requires { HasRow reach.now i }
    ensures { result ≡ all (marked reach.now i) args.now }
{
    let mut found = true;
    for arg in args {
        found &= marks::is_marked(reach, i, usize::from(*arg));
    }
    found
}

// The arguments, marked.
fn args_row(args: &[u8]) -> [u64; 4]
    ensures { (v : ℕ) → marked result 0 v ≡ has args.now v }
{
    let mut row = [0u64; 4];
    for arg in args {
        marks::mark_if(&mut row, true, usize::from(*arg));
    }
    row
}

// One name, marked.
fn name_row(v: usize) -> [u64; 4]
    requires { v < 256 }
    ensures { (u : ℕ) → marked result 0 u ≡ eqb u v }
{
    let mut row = [0u64; 4];
    marks::mark_if(&mut row, true, v);
    row
}

// Counts one more at an entry.
fn count(table: &mut [u16], at: usize)
    requires { (at < length table.old) × (get_or table.old at 0 < 65535) }
    ensures { Grown table.old table.new (λ v. one (eqb v at)) }
{
    table[at] += 1;
}

// Counts the arguments.
fn count_args(binders: &mut [u16], args: &[u8])
    requires { (length binders.old ≡ 256) × Below binders.old 60000 × (length args.now ≤ 8) }
    ensures { Grown binders.old binders.new (times args.now) }
{
    for arg in args {
        count(binders, usize::from(*arg));
    }
}

// Counts one field more that names node `to`. False where a byte holds no more: the file is refused then, since 9 allows one field.
fn count_field(parents: &mut [u8], to: usize) -> bool
    requires { to < length parents.old }
    ensures { result ≡ true → Grown parents.old parents.new (λ v. one (eqb v to)) }
{
    if parents[to] < 255 {
        parents[to] += 1;
        return true;
    }
    false
}

// Child `to` of node `from` has the marks of its parent and of what its parent binds, and is named by one field more. False where the count is full.
fn hand_down(reach: &mut [u64], parents: &mut [u8], from: usize, to: usize, bound: [u64; 4]) -> bool
    requires { (from < to) × HasRow reach.old to × (to < length parents.old) }
    ensures reach_after { reach.new ≡ passed reach.old from to bound 4 }
    ensures grown { result ≡ true → Grown parents.old parents.new (λ v. one (eqb v to)) }
{
    scopes::pass_down(reach, from, to, bound);
    count_field(parents, to)
}

// Passes node i of m, an agent whose record is r. False where it does not fit. Part of the pass, as the next two are, and not called for each node.
#[inline(always)]
fn pass_agent(
    reach: &mut [u64],
    parents: &mut [u8],
    binders: &mut [u16],
    m: usize,
    i: usize,
    r: Record,
) -> bool
    requires ready { Ready m i reach.old parents.old binders.old }
    requires agent { (r.name < 256) × (is_agent (node_of r) ≡ true) }
    ensures { result ≡ true → Passed m i r reach.old parents.old binders.old
        reach.new parents.new binders.new }
{
    if !agent_fits(reach, m, i, r) {
        return false;
    }
    let args = &r.args[..r.arity];
    if records::sends(r) {
        if !args_marked(reach, i, args) {
            return false;
        }
        return hand_down(reach, parents, i, r.left, [0; 4]);
    }
    count_args(binders, args);
    hand_down(reach, parents, i, r.left, args_row(args))
}

// Passes node i of m, a stop, new, par or choice whose record is r. False where it does not fit.
#[inline(always)]
fn pass_other(
    reach: &mut [u64],
    parents: &mut [u8],
    binders: &mut [u16],
    m: usize,
    i: usize,
    r: Record,
) -> bool
    requires ready { Ready m i reach.old parents.old binders.old }
    requires no_agent { (r.name < 256) × (is_agent (node_of r) ≡ false) }
    ensures { result ≡ true → Passed m i r reach.old parents.old binders.old
        reach.new parents.new binders.new }
{
    if !(record_fits(m, i, r) & rest_zero(r)) {
        return false;
    }
    if records::is_stop(r) {
        return true;
    }
    if records::is_new(r) {
        count(binders, r.name);
        return hand_down(reach, parents, i, r.left, name_row(r.name));
    }
    if !hand_down(reach, parents, i, r.left, [0; 4]) {
        return false;
    }
    hand_down(reach, parents, i, r.right, [0; 4])
}

// Passes node i of m, whose record is r. False where it does not fit.
#[inline(always)]
fn pass_node(
    reach: &mut [u64],
    parents: &mut [u8],
    binders: &mut [u16],
    m: usize,
    i: usize,
    r: Record,
) -> bool
    requires { Ready m i reach.old parents.old binders.old × (r.name < 256) }
    ensures { result ≡ true → Passed m i r reach.old parents.old binders.old
        reach.new parents.new binders.new }
{
    if records::is_agent(r) {
        return pass_agent(reach, parents, binders, m, i, r);
    }
    pass_other(reach, parents, binders, m, i, r)
}

// Each name below n was counted once, and no other.
fn bound_once(binders: &[u16; 256], n: usize) -> bool
    ensures { result ≡ every 256 (count_fits binders.now n) }
{
    let mut once = true;
    for (v, count) in binders.iter().enumerate() {
        once &= ((n <= v) | (*count == 1)) & ((v < n) | (*count == 0));
    }
    once
}

// The pass, over tables for NODES nodes with four words for each: the names that reach each node, how many fields name each node, how often each
// name is bound. A parent comes before its children, so that a node's row and count are final when it is passed. It has a frame of its own: the tables of
// refusal 12 then stand in their place, and a small array takes small ones.
#[inline(never)]
fn scan<const NODES: usize, const WORDS: usize>(array: &ArrayFile) -> bool
    requires { (array.now.trailer.nodes ≤ NODES) × (NODES ≤ 1024) × (WORDS ≡ 4 * NODES) }
    ensures { result ≡ true → Clear array.now.bytes.now array.now.trailer }
{
    let mut reach = [0u64; WORDS];
    let mut parents = [0u8; NODES];
    let mut binders = [0u16; 256];
    let m = array.trailer.nodes;
    for i in 0..m {
        if !((i == 0) | (parents[i] == 1)) {
            return false;
        }
        if !pass_node(
            &mut reach,
            &mut parents,
            &mut binders,
            m,
            i,
            array.node_at(i),
        ) {
            return false;
        }
    }
    bound_once(&binders, array.trailer.names)
}

// Yes only where none of the refusals 6 to 12 comes. Tables for 64 nodes are cleared the faster.
pub fn passes(array: &ArrayFile) -> bool
    ensures { result ≡ true → Clear array.now.bytes.now array.now.trailer }
{
    if array.trailer.nodes <= 64 {
        scan::<64, 256>(array)
    } else {
        scan::<1024, 4096>(array)
    }
}
