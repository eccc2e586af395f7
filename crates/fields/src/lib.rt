// The refusals that look at one record at a time: 6, 7, 8 and 10.
// Promises refusal6 and refusal7 of specs/Fields, and the model's refusal8 and refusal10 of the array that the bytes stand for.
// Depends on records, wire, model and laws.
#![tactic(auto)]

ghost use Rattle.std.specs.Prelude.{◌≡◌, Bool, leb, ℕ, ◌+◌, ◌<◌};
ghost use Rattle.laws.specs.Search.{first, every};
ghost use Rattle.model.specs.Formed.{refuse, refusal8, refusal10};
ghost use Rattle.records.specs.Record.{kind_number, record_of, number_of, found_of};
ghost use Rattle.records.specs.ArrayFile.{array_in};
ghost use Rattle.fields.specs.Fields.{shape_fits, rest_zero, fields_zero, unused_zero, children_fit, arg_below, names_fit, refusal6, refusal7};

use records::{ArrayFile, Kind, Reason, Record, Refusal};

// The kind is one of 01's.
fn is_named(r: Record) -> bool
    ensures { result ≡ leb (kind_number r.kind) 6 }
{
    match r.kind {
        Kind::Other(_) => false,
        _ => true,
    }
}

// Refusal 6 passes.
pub fn shape_fits(r: Record) -> bool
    ensures { result ≡ shape_fits r }
{
    is_named(r) & (r.arity <= 8) & (records::is_agent(r) | (r.arity == 0))
}

// The argument bytes past the arity are zero.
fn rest_zero(r: Record) -> bool
    ensures { result ≡ every 8 (rest_zero r) }
{
    let mut zero = true;
    for (k, arg) in r.args.iter().enumerate() {
        zero &= (k < r.arity) | (*arg == 0);
    }
    zero
}

// The fields before the arguments that the kind does not use are zero.
pub fn fields_zero(r: Record) -> bool
    ensures { result ≡ fields_zero r }
{
    (r.pad == 0)
        & (!records::is_stop(r) | (r.left == 0))
        & (records::is_par(r) | records::is_choice(r) | (r.right == 0))
        & (records::is_new(r) | records::is_agent(r) | (r.name == 0))
}

// Refusal 7 passes.
fn unused_zero(r: Record) -> bool
    ensures { result ≡ unused_zero r }
{
    fields_zero(r) & rest_zero(r)
}

// Refusal 8 passes at node i of m.
pub fn children_fit(m: usize, i: usize, r: Record) -> bool
    ensures { result ≡ children_fit m i r }
{
    (records::is_stop(r) | ((i < r.left) & (r.left < m)))
        & (!records::branches(r) | ((i < r.right) & (r.right < m)))
}

// The arguments are names below n.
fn args_below(n: usize, r: Record) -> bool
    ensures { result ≡ every 8 (arg_below n r) }
{
    let mut below = true;
    for (k, arg) in r.args.iter().enumerate() {
        below &= (r.arity <= k) | (usize::from(*arg) < n);
    }
    below
}

// Refusal 10 passes under n names.
fn names_fit(n: usize, r: Record) -> bool
    ensures { result ≡ names_fit n r }
{
    (!records::is_new(r) | (r.name < n))
        & (!records::is_agent(r) | ((r.name < n) & args_below(n, r)))
}

// Refusal 6.
pub fn bad_shape(array: &ArrayFile) -> Result<(), Refusal>
    ensures { found_of result ≡ refusal6 array.now.bytes.now array.now.trailer }
{
    records::first_failing(
        array.trailer.nodes,
        Reason::Shape,
        |i| shape_fits(array.node_at(i)),
    )
}

// Refusal 7.
pub fn bad_unused(array: &ArrayFile) -> Result<(), Refusal>
    ensures { found_of result ≡ refusal7 array.now.bytes.now array.now.trailer }
{
    records::first_failing(
        array.trailer.nodes,
        Reason::Unused,
        |i| unused_zero(array.node_at(i)),
    )
}

// Refusal 8.
pub fn bad_child(array: &ArrayFile) -> Result<(), Refusal>
    ensures { found_of result ≡ refusal8 (array_in array.now) }
{
    let m = array.trailer.nodes;
    records::first_failing(m, Reason::Child, |i| children_fit(m, i, array.node_at(i)))
}

// Refusal 10.
pub fn bad_name(array: &ArrayFile) -> Result<(), Refusal>
    ensures { found_of result ≡ refusal10 (array_in array.now) }
{
    let n = array.trailer.names;
    records::first_failing(
        array.trailer.nodes,
        Reason::Name,
        |i| names_fit(n, array.node_at(i)),
    )
}
