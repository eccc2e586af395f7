// The mended rows of a table, and its file. Passes over pairs set what rule 3 asks for, until no row changes; a pass looks only at pairs that use a
// name whose row changed in the pass before. Sets of senders are asked before single ones, and what one receiver is sent goes to all that hear it.
// Promises the rows that the model's rounds find, written with their word sum, and the number of bits set. Depends on lists (loads, bounds), flows
// (rows, also as bytes), filter and senders (sets of senders), pairs, frees (the names that news open), layout, loads, arrays, records, marks, model and
// laws. The lists take 106,600 bytes of stack, those of a sweep 13,500.
#![tactic(auto)]

ghost use Rattle.std.specs.Prelude.{◌≡◌, ◌↔◌, IsTrue, MatchOption, true, List, ℕ, ◌<◌, ◌≤◌, length, replicate};
ghost use Rattle.laws.specs.Search.{every};
ghost use Rattle.laws.specs.Lists.{put};
ghost use Rattle.marks.specs.Marks.{marked};
ghost use Rattle.model.specs.Tree.{is_agent};
ghost use Rattle.model.specs.Mend.{mended, bits_set};
ghost use Rattle.records.specs.Record.{node_of};
ghost use Rattle.records.specs.ArrayFile.{array_in};
ghost use Rattle.records.specs.Kinds.{is_receiver};
ghost use Rattle.arrays.specs.File.{IsRead};
ghost use Rattle.arrays.specs.Agents.{Reads};
ghost use Rattle.layout.specs.Table.{IsTable};
ghost use Rattle.layout.specs.TableFile.{table_in};
ghost use Rattle.flows.specs.Written.{rewritten};
ghost use Rattle.pairs.specs.Pairs.{HalfRow, figures_of, live_by, Rooms, NameRow};
ghost use Rattle.pairs.specs.Weighing.{beside};
ghost use Rattle.senders.specs.Sets.{SentRows, Vacant, Member, Linked};
ghost use Rattle.mending.specs.Growing.{Grew, Added, SentIf, sent_at, has_at, Takes, Gained, Only, Sends, no_heavier, Hears, RuleThree, Noted, Stale};
ghost use Rattle.mending.specs.Growing.{set_clear, SetNoted, AllNoted, NodeNoted, Swept, Clean, Finished, OwnMarked};
ghost use Rattle.mending.specs.Beside.{Receiver, LinksSenders, GrewBeside, side_of, left_from};

use layout::TableFile;
use pairs::{PairRule, Side, Weighing};
use records::{ArrayFile, Record};
use senders::Sets;

// How far a pass has come: the rows, and the names whose rows got a mark in it.
#[derive(Drop)]
struct Progress {
    rows: [u64; 1024],
    names: [u64; 4],
}

// The pairs that a sweep looks at: a receiver on a name that is marked in `reach` (or, where `on` is false, is not), and a sender that uses a name that is
// marked in `chosen`. A flag, since the same passes look at both halves of the receivers.
#[derive(Drop)]
struct Scope {
    chosen: [u64; 4],
    reach: [u64; 4],
    on: bool,
}

// Row u gets the marks of row v of what is sent; where one is new, name u is noted.
fn add_row(so_far: &mut Progress, u: usize, sent: &[u64; 32], v: usize)
    requires { (u < 256) × (v < 8) }
    ensures { Added so_far.old.rows so_far.old.names u sent.now v so_far.new.rows so_far.new.names }
{
    if marks::contained(sent, v, &so_far.rows, u) {
        return;
    }
    marks::join(&mut so_far.rows, u, sent, v);
    marks::mark_if(&mut so_far.names, true, u);
}

// Each parameter's row gets the marks of what is sent as its argument.
fn add_args(so_far: &mut Progress, sent: &[u64; 32], p: Record)
    requires { p.arity ≤ 8 }
    ensures grew { Grew (Takes p.arity p.args sent.now) so_far.old.rows so_far.old.names so_far.new.rows so_far.new.names }
    ensures takes { Takes p.arity p.args sent.now (marked so_far.new.rows) }
{
    for n in 0..p.arity {
        add_row(so_far, usize::from(p.args[n]), sent, n);
    }
}

// What is sent gets the rows of q's arguments: what a sender sends, or a receiver's parameters.
fn join_args(sent: &mut [u64; 32], rows: &[u64; 1024], array: &ArrayFile, q: Side)
    requires { SentRows rows.now q.node × Reads array.now.bytes.now array.now.trailer q.number q.node }
    ensures { SentIf true rows.now q.node sent.old sent.new }
{
    for m in 0..q.node.arity {
        marks::join(sent, m, rows, array.arg_at(q.number, m));
    }
}

// All that q sends is there already.
fn sent_already(sent: &[u64; 32], rows: &[u64; 1024], array: &ArrayFile, q: Side) -> bool
    requires { SentRows rows.now q.node × Reads array.now.bytes.now array.now.trailer q.number q.node }
    ensures { IsTrue result ↔ ((m : ℕ) → m < q.node.arity → sent_at rows.now q.node sent.now m ≡ true) }
{
    (0..q.node.arity).all(|m| marks::contained(rows, array.arg_at(q.number, m), sent, m))
}

// What is sent gets the rows of what sender q sends, where p and q are a live pair. Whether it is there already is asked first: a name may hold nothing yet.
fn join_pair(
    sent: &mut [u64; 32],
    rows: &[u64; 1024],
    w: &Weighing,
    rooms: &[u32; 24],
    p: Side,
    q: Side,
)
    requires sent_rows { SentRows rows.now q.node × Reads w.now.array.bytes.now w.now.array.trailer q.number q.node }
    requires rooms { Rooms w.now.balances w.now.loads.now rooms.now q.number × (is_agent (node_of p.node) ≡ true) × NameRow rows.now p × NameRow rows.now q }
    ensures { SentIf (live_by rows.now w.now.loads.now rooms.now w.now.balances p q) rows.now q.node sent.old sent.new }
{
    if sent_already(sent, rows, &w.array, q) {
        return;
    }
    if !pairs::meet(rows, p, q) {
        return;
    }
    if pairs::fits_beside(w.balances, w.loads, rooms, q.number) {
        join_args(sent, rows, &w.array, q);
    }
}

// What is sent gets the rows of what the senders send that the links of set g pass and that are a live pair with p. Of p's differences rule 3 asks for
// the rooms alone.
fn join_members(
    sent: &mut [u64; 32],
    rows: &[u64; 1024],
    w: &Weighing,
    sets: &Sets,
    g: usize,
    p: Side,
)
    requires receiver { Receiver w.now p × (g < 12) }
    requires links { LinksSenders w.now sets.now.links }
    ensures gained { Gained (beside w.now rows.now) p sent.old sent.new }
    ensures sends { (chosen : List ℕ) (sets' : ℕ → ℕ) → Linked w.now.array.bytes.now w.now.array.trailer chosen sets' sets.now.links
        → (j : ℕ) → Member w.now.array.bytes.now w.now.array.trailer chosen sets' g j
        → Sends (beside w.now rows.now) p sent.new (side_of w.now j) }
{
    let margins = pairs::differences(w.balances, w.loads, w.bounds, p);
    // its own, so that it need not be read again after each write
    let weighing = *w;
    // Links lead from node to node, so that no range goes over them.
    let mut next = usize::from(sets.links[senders::last_link(g)]);
    while 0 < next {
        let j = next - 1;
        let q = Side {
            number: j,
            node: weighing.array.node_at(j),
        };
        join_pair(sent, rows, &weighing, &margins.rooms, p, q);
        next = usize::from(sets.links[j]);
    }
}

// The pairs of p and the senders that the links of set g pass. What those of live pairs send is joined to what the parameters have, and then added to their
// rows.
fn mend_members(so_far: &mut Progress, w: &Weighing, sets: &Sets, g: usize, p: Side)
    requires receiver { Receiver w.now p × (g < 12) }
    requires links { LinksSenders w.now sets.now.links }
    ensures grew { GrewBeside w.now so_far.old so_far.new }
    ensures noted { (chosen : List ℕ) (sets' : ℕ → ℕ) → Linked w.now.array.bytes.now w.now.array.trailer chosen sets' sets.now.links
        → (j : ℕ) → Member w.now.array.bytes.now w.now.array.trailer chosen sets' g j
        → Noted (beside w.now so_far.new.rows) so_far.new.names p (side_of w.now j) }
{
    let mut sent = [0u64; 32];
    join_args(&mut sent, &so_far.rows, &w.array, p);
    join_members(&mut sent, &so_far.rows, w, sets, g, p);
    add_args(so_far, &sent, p.node);
}

// No sender of set g has to be looked at beside p: none may come, or all that the set sends is contained already.
fn set_clear(sets: &Sets, rows: &[u64; 1024], g: usize, p: Side) -> bool
    requires { (g < 12) × (p.node.name < 256) × SentRows rows.now p.node }
    ensures { result ≡ set_clear sets.now.unions sets.now.arities rows.now p g }
{
    !filter::may_come(&sets.unions, &sets.arities, rows, g, p)
        || filter::args_inside(&sets.unions, rows, g, p.node)
}

// No sender of any set has to be looked at. A loop, since of `all` over a range of known length no proof was found.
fn sets_clear(sets: &Sets, rows: &[u64; 1024], p: Side) -> bool
    requires { (p.node.name < 256) × SentRows rows.now p.node }
    ensures { result ≡ every 12 (set_clear sets.now.unions sets.now.arities rows.now p) }
{
    for n in 0..12 {
        if !set_clear(sets, rows, n, p) {
            return false;
        }
    }
    true
}

// The pairs of p and the senders of set g, where they have to be looked at.
fn mend_set(so_far: &mut Progress, w: &Weighing, sets: &Sets, g: usize, p: Side)
    requires receiver { Receiver w.now p × (g < 12) }
    requires stale { (chosen : List ℕ) × Stale (beside w.now so_far.old.rows) so_far.old.names chosen sets.now }
    ensures grew { GrewBeside w.now so_far.old so_far.new }
    ensures noted { (chosen : List ℕ) (k : Stale (beside w.now so_far.old.rows) so_far.old.names chosen sets.now)
        → SetNoted (beside w.now so_far.new.rows) so_far.new.names chosen k.gathered.sets p g }
{
    if set_clear(sets, &so_far.rows, g, p) {
        return;
    }
    mend_members(so_far, w, sets, g, p);
}

// The pairs of p and all senders that were gathered.
fn mend_receiver(so_far: &mut Progress, w: &Weighing, sets: &Sets, p: Side)
    requires receiver { Receiver w.now p }
    requires stale { (chosen : List ℕ) × Stale (beside w.now so_far.old.rows) so_far.old.names chosen sets.now }
    ensures grew { GrewBeside w.now so_far.old so_far.new }
    ensures noted { (chosen : List ℕ) → Stale (beside w.now so_far.old.rows) so_far.old.names chosen sets.now
        → AllNoted (beside w.now so_far.new.rows) so_far.new.names chosen p }
{
    for g in 0..12 {
        mend_set(so_far, w, sets, g, p);
    }
}

// ---- receivers alike

// What is sent gets the rows of what all senders send that were gathered and that are a live pair with p.
fn join_all(sent: &mut [u64; 32], rows: &[u64; 1024], w: &Weighing, sets: &Sets, p: Side)
    requires receiver { Receiver w.now p }
    requires links { LinksSenders w.now sets.now.links }
    ensures { Gained (beside w.now rows.now) p sent.old sent.new }
{
    for set in 0..12 {
        join_members(sent, rows, w, sets, set, p);
    }
}

// The rows of r's parameters have all that is sent.
fn has_all(rows: &[u64; 1024], sent: &[u64; 32], r: Record) -> bool
    requires { SentRows rows.now r }
    ensures { IsTrue result ↔ ((m : ℕ) → m < r.arity → has_at rows.now r sent.now m ≡ true) }
{
    (0..r.arity).all(|m| marks::contained(sent, m, rows, usize::from(r.args[m])))
}

// Node j weighs no more than node i. The loop has no way out, so that several balances are compared at once.
fn no_heavier(w: &Weighing, i: usize, j: usize) -> bool
    requires { HalfRow w.now.loads.now w.now.balances i × HalfRow w.now.loads.now w.now.balances j }
    ensures { result ≡ every w.now.balances (no_heavier w.now.loads.now i j) }
{
    let mut light = true;
    for k in 0..w.balances {
        let own = loads::load_at(w.loads, i, k);
        let other = loads::load_at(w.loads, j, k);
        light &= !loads::less(own, other);
    }
    light
}

// r receives what p does: what is live beside p is live beside r.
fn hears(rows: &[u64; 1024], w: &Weighing, p: Side, r: Side) -> bool
    requires { Receiver w.now p × Reads w.now.array.bytes.now w.now.array.trailer r.number r.node }
    ensures { result ≡ true → Hears rows.now w.now.loads.now w.now.balances p r }
{
    records::receives(r.node)
        && r.node.arity == p.node.arity
        && marks::contained(rows, p.node.name, rows, r.node.name)
        && no_heavier(w, p.number, r.number)
}

// What live senders send to p is added to the rows of r's parameters, where r hears what p does.
fn send_on(so_far: &mut Progress, sent: &[u64; 32], w: &Weighing, p: Side, r: Side)
    requires receiver { Receiver w.now p × Reads w.now.array.bytes.now w.now.array.trailer r.number r.node }
    requires only { Only (beside w.now so_far.old.rows) p sent.now }
    ensures { GrewBeside w.now so_far.old so_far.new }
{
    if hears(&so_far.rows, w, p, r) {
        add_args(so_far, sent, r.node);
    }
}

// What live senders send to p goes to every receiver from p on that hears what p does.
fn spread(so_far: &mut Progress, sent: &[u64; 32], w: &Weighing, p: Side)
    requires receiver { Receiver w.now p }
    requires only { Only (beside w.now so_far.old.rows) p sent.now }
    ensures { GrewBeside w.now so_far.old so_far.new }
{
    for i in p.number..w.array.trailer.nodes {
        let r = Side {
            number: i,
            node: w.array.node_at(i),
        };
        send_on(so_far, sent, w, p, r);
    }
}

// What live senders send to p goes to every receiver from p on that hears them too: where many receive alike, one look at each sender will do. Where p
// lacks nothing of it, the nodes are not gone through.
fn mend_alike(so_far: &mut Progress, w: &Weighing, sets: &Sets, p: Side)
    requires receiver { Receiver w.now p }
    requires links { LinksSenders w.now sets.now.links }
    ensures { GrewBeside w.now so_far.old so_far.new }
{
    let mut sent = [0u64; 32];
    join_all(&mut sent, &so_far.rows, w, sets, p);
    if has_all(&so_far.rows, &sent, p.node) {
        return;
    }
    spread(so_far, &sent, w, p);
}

// ---- nodes, by large sets and by small ones

// Node i, where it is a receiver with parameters.
fn receiver_at(w: &Weighing, i: usize) -> Option<Side>
    requires { i < w.now.array.trailer.nodes }
    ensures { MatchOption result (figures_of 3 w.now.balances (side_of w.now i).node ≡ 0) (λ p. Receiver w.now p × (p ≡ side_of w.now i)) }
{
    let p = Side {
        number: i,
        node: w.array.node_at(i),
    };
    if pairs::figures(PairRule::Third.number(), w.balances, p.node) == 0 {
        return None;
    }
    Some(p)
}

// Receiver p is out of the scope's reach, or no sender of a large set has to be looked at beside it.
fn receiver_clear(scope: &Scope, rows: &[u64; 1024], large: &Sets, p: Side) -> bool
    requires { (p.node.name < 256) × SentRows rows.now p.node }
    ensures { result ≡ true → marked scope.now.reach 0 p.node.name ≡ scope.now.on
        → every 12 (set_clear large.now.unions large.now.arities rows.now p) ≡ true }
{
    marks::is_marked(&scope.reach, 0, p.node.name) != scope.on || sets_clear(large, rows, p)
}

// Node i is clear, or is so once what its senders send went to all receivers alike.
fn settled(scope: &Scope, so_far: &mut Progress, w: &Weighing, large: &Sets, i: usize) -> bool
    requires { (i < w.now.array.trailer.nodes) × Stale (beside w.now so_far.old.rows) so_far.old.names scope.now.chosen large.now }
    ensures grew { GrewBeside w.now so_far.old so_far.new }
    ensures noted { result ≡ true
        → NodeNoted (beside w.now so_far.new.rows) so_far.new.names scope.now.chosen scope.now.reach scope.now.on i }
{
    let Some(p) = receiver_at(w, i) else {
        return true;
    };
    if receiver_clear(scope, &so_far.rows, large, p) {
        return true;
    }
    mend_alike(so_far, w, large, p);
    receiver_clear(scope, &so_far.rows, large, p)
}

// The pairs of node i, where it receives in the scope's reach, and all senders that were gathered: large sets are asked before small ones.
fn mend_node(
    scope: &Scope,
    so_far: &mut Progress,
    w: &Weighing,
    large: &Sets,
    small: &Sets,
    i: usize,
)
    requires below { i < w.now.array.trailer.nodes }
    requires large { Stale (beside w.now so_far.old.rows) so_far.old.names scope.now.chosen large.now }
    requires small { Stale (beside w.now so_far.old.rows) so_far.old.names scope.now.chosen small.now }
    ensures grew { GrewBeside w.now so_far.old so_far.new }
    ensures noted { NodeNoted (beside w.now so_far.new.rows) so_far.new.names scope.now.chosen scope.now.reach scope.now.on i }
{
    let Some(p) = receiver_at(w, i) else {
        return;
    };
    if receiver_clear(scope, &so_far.rows, large, p) {
        return;
    }
    mend_receiver(so_far, w, small, p);
}

// The scope's pairs, by sets by arity, and by what one receiver is sent, up to the first node that these do not settle. Answers that node.
fn sweep_large(
    scope: &Scope,
    so_far: &mut Progress,
    w: &Weighing,
    large: &mut Sets,
) -> Option<usize>
    requires { Vacant large.old }
    ensures node { left_from w.now.array.trailer.nodes result ≤ w.now.array.trailer.nodes }
    ensures grew { GrewBeside w.now so_far.old so_far.new }
    ensures swept { Swept (beside w.now so_far.new.rows) so_far.new.names scope.now.chosen scope.now.reach scope.now.on
        (left_from w.now.array.trailer.nodes result) }
    ensures large { Stale (beside w.now so_far.new.rows) so_far.new.names scope.now.chosen large.new }
{
    large.gather(
        PairRule::Third.number(),
        false,
        &scope.chosen,
        &w.array,
        w.balances,
        &so_far.rows,
        w.loads,
    );
    for i in 0..w.array.trailer.nodes {
        if !settled(scope, so_far, w, large, i) {
            return Some(i);
        }
    }
    None
}

// The same from node `from` on, by small sets and one by one, where large sets are not clear. Rule 3 asks for no needs; the sets have them for rule 4.
fn sweep_small(from: usize, scope: &Scope, so_far: &mut Progress, w: &Weighing, large: &Sets)
    requires large { Stale (beside w.now so_far.old.rows) so_far.old.names scope.now.chosen large.now }
    requires swept { Swept (beside w.now so_far.old.rows) so_far.old.names scope.now.chosen scope.now.reach scope.now.on from }
    ensures grew { GrewBeside w.now so_far.old so_far.new }
    ensures all_swept { Swept (beside w.now so_far.new.rows) so_far.new.names scope.now.chosen scope.now.reach scope.now.on w.now.array.trailer.nodes }
{
    let mut small = senders::NO_SENDERS;
    small.gather(
        PairRule::Third.number(),
        true,
        &scope.chosen,
        &w.array,
        w.balances,
        &so_far.rows,
        w.loads,
    );
    for i in from..w.array.trailer.nodes {
        mend_node(scope, so_far, w, large, &small, i);
    }
}

// The scope's pairs. Small sets are gathered only where large ones leave a node.
fn sweep(scope: &Scope, so_far: &mut Progress, w: &Weighing)
    ensures grew { GrewBeside w.now so_far.old so_far.new }
    ensures swept { Swept (beside w.now so_far.new.rows) so_far.new.names scope.now.chosen scope.now.reach scope.now.on w.now.array.trailer.nodes }
{
    let mut large = senders::NO_SENDERS;
    if let Some(from) = sweep_large(scope, so_far, w, &mut large) {
        sweep_small(from, scope, so_far, w, &large);
    }
}

// A pass: the pairs that use a name whose row changed in the pass before: receivers on such a name beside every sender, then the other receivers beside
// senders that use one.
fn pass(so_far: &mut Progress, w: &Weighing)
    requires { Clean (beside w.now so_far.old.rows) so_far.old.names }
    ensures grew { Grew (RuleThree (beside w.now so_far.old.rows)) so_far.old.rows (replicate 4 0) so_far.new.rows so_far.new.names }
    ensures clean { Clean (beside w.now so_far.new.rows) so_far.new.names }
{
    let old = so_far.names;
    so_far.names = [0; 4];
    let reached = Scope {
        chosen: senders::EVERY_NAME,
        reach: old,
        on: true,
    };
    let others = Scope {
        chosen: old,
        reach: old,
        on: false,
    };
    sweep(&reached, so_far, w);
    sweep(&others, so_far, w);
}

// The first look at all pairs.
fn first_pass(so_far: &mut Progress, w: &Weighing)
    ensures grew { Grew (RuleThree (beside w.now so_far.old.rows)) so_far.old.rows (replicate 4 0) so_far.new.rows so_far.new.names }
    ensures clean { Clean (beside w.now so_far.new.rows) so_far.new.names }
{
    so_far.names = [0; 4];
    let all = Scope {
        chosen: senders::EVERY_NAME,
        reach: senders::EVERY_NAME,
        on: true,
    };
    sweep(&all, so_far, w);
}

// Sets what rule 3 asks for, until no row changes.
fn mend_rows(so_far: &mut Progress, w: &Weighing)
    ensures { Finished (beside w.now so_far.old.rows) so_far.new.rows }
{
    let none = [0u64; 4];
    first_pass(so_far, w);
    while !marks::contained(&so_far.names, 0, &none, 0) {
        pass(so_far, w);
    }
}

// Sets what rule 1 asks for.
fn own_marks(rows: &mut [u64; 1024], array: &ArrayFile)
    requires { array.now.trailer.names ≤ 256 }
    ensures { OwnMarked (array_in array.now) array.now.trailer.names rows.old rows.new }
{
    let news = frees::opened(array);
    for o in 0..array.trailer.names {
        let mut own = [0u64; 4];
        marks::mark_if(&mut own, marks::is_marked(&news, 0, o), o);
        marks::join(rows, o, &own, 0);
    }
}

// Writes the mended table into the output, and answers the number of bits set.
pub fn mend_table(output: &mut [u8], array: &ArrayFile, table: &TableFile) -> usize
    requires { IsRead array.now.bytes.now array.now.trailer × IsTable array.now.bytes.now array.now.trailer table.now.bytes.now table.now.sizes
        × (length table.now.bytes.now ≤ length output.old) }
    ensures value { result ≡ bits_set (array_in array.now) (table_in table.now).row (mended (array_in array.now) (table_in table.now)) }
    ensures output_after { output.new
        ≡ put 0 (rewritten table.now.sizes (mended (array_in array.now) (table_in table.now)) table.now.bytes.now) output.old }
{
    let mut rows = [0u64; 1024];
    let mut loads = [0u32; 24578];
    let mut bounds = [0u32; 24];
    flows::flow_rows(&mut rows, table.bytes, table.sizes);
    lists::fill_lists(&mut loads, &mut bounds, array, table);
    own_marks(&mut rows, array);
    let mut so_far = Progress {
        rows,
        names: [0; 4],
    };
    let w = Weighing {
        array: *array,
        balances: table.sizes.balances,
        loads: &loads,
        bounds: &bounds,
    };
    mend_rows(&mut so_far, &w);
    flows::write_table(output, table.bytes, &so_far.rows, table.sizes);
    flows::new_bits(table.bytes, &so_far.rows, table.sizes)
}
