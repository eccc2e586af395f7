// Live pairs, and rules 3 and 4 as one search over receiver, sender and a last figure.
// Promises the model's pairs over the array that the file stands for and the table that the checker's own lists stand for: rows of marks beside a
// weighing, which is the file with the loads of all nodes in all balances and the bounds. A receiver's differences are worked out before its senders
// are looked at, and not for each of them. Depends on loads, arrays, records, marks, model and laws.
#![tactic(auto)]

ghost use Rattle.std.specs.Prelude.{◌≡◌, true, false, not, ◌&&◌, ℕ, ◌-◌, ◌<◌, ◌≤◌, length, eqb};
ghost use Rattle.laws.specs.Search.{every};
ghost use Rattle.model.specs.Tree.{is_agent};
ghost use Rattle.records.specs.Record.{node_of, array_of};
ghost use Rattle.pairs.specs.Pairs.{IsWeighed, list_table, HalfRow, rule_number, Screened, placed, pairs_of, SmallFigure, figures_of};
ghost use Rattle.pairs.specs.Pairs.{gone_of, meets, argument_holds, need_of, capped, Differences, fits_beside, gives_to, live_by, holds_by, all_hold_by};
ghost use Rattle.pairs.specs.Pairs.{NameRow, ArgumentRows, NeedThere, Gives, Figures, Rooms};

use records::{ArrayFile, Record, Trailer};

// The rules that compare both sides of a live pair: 3 its arguments, 4 its balances.
#[derive(Clone, Copy, Debug, PartialEq, Eq)]
pub enum PairRule {
    Third,
    Fourth,
}

// Every number names one of them, as in the definitions, which ask for 3 alone.
impl From<u8> for PairRule {
    ghost from_gives = { λ number rule. eqb (rule_number rule) 3 ≡ eqb number 3 };

    fn from(number: u8) -> PairRule {
        if number == 3 {
            PairRule::Third
        } else {
            PairRule::Fourth
        }
    }
}

impl PairRule {
    // Its number in 01, by which the searches below are asked.
    pub fn number(self) -> u8
        ensures { result ≡ rule_number self }
    {
        match self {
            PairRule::Third => 3,
            PairRule::Fourth => 4,
        }
    }
}

// An array file that was read, weighed in so many balances: the loads of all its nodes, and the bounds.
#[derive(Clone, Copy)]
pub struct Weighing<'a> {
    pub array: ArrayFile<'a>,
    pub balances: usize,
    pub loads: &'a [u32],
    pub bounds: &'a [u32],
    ghost is_weighed: { IsWeighed array.bytes.now array.trailer balances loads.now bounds.now },
}

// The place of a broken rule: receiver, sender and the last figure, which counts from 0.
#[derive(Clone, Copy, Debug, PartialEq, Eq)]
pub struct Place {
    pub receiver: usize,
    pub sender: usize,
    pub figure: usize,
}

// One side of a pair: a node's number and its record.
#[derive(Clone, Copy)]
pub struct Side {
    pub number: usize,
    pub node: Record,
}

// The differences of a receiver in all balances: what it gives, and one more than what a sender may weigh beside it.
#[derive(Clone, Copy)]
pub struct Margins {
    pub gives: [u32; 24],
    pub rooms: [u32; 24],
}

// q sends, by p's arity, on a channel that may be p's.
pub fn meet(rows: &[u64], p: Side, q: Side) -> bool
    requires { (is_agent (node_of p.node) ≡ true) × NameRow rows.now p × NameRow rows.now q }
    ensures { result ≡ meets rows.now p q }
{
    records::sends(q.node)
        && p.node.arity == q.node.arity
        && marks::shares(rows, p.node.name, rows, q.node.name)
}

// How many figures the rule of this number looks at: 0 where the node is no receiver, since its pairs have none.
pub fn figures(number: u8, balances: usize, r: Record) -> usize
    ensures { result ≡ figures_of number balances r }
{
    if !records::receives(r) {
        return 0;
    }
    match PairRule::from(number) {
        PairRule::Third => r.arity,
        PairRule::Fourth => balances,
    }
}

// Rule 3 at argument n: the sent name's row is contained in the parameter's.
fn argument_holds(rows: &[u64], p: Side, q: Side, n: usize) -> bool
    requires { ArgumentRows rows.now p q n }
    ensures { result ≡ argument_holds rows.now p q n }
{
    let sent = q.node.args;
    let bound = p.node.args;
    marks::contained(rows, usize::from(sent[n]), rows, usize::from(bound[n]))
}

// What goes of a receiver's weight: an in's goes whole, a resource's stays.
pub fn gone(stays: bool, weight: u32) -> u32
    ensures { (result ≡ gone_of stays weight) × (result ≤ weight) }
{
    if stays { 0 } else { weight }
}

// A bound, or what no two weights reach together.
fn cap(bound: u32) -> u32
    ensures { (result ≡ capped bound) × (result ≤ 131071) }
{
    bound.min(131071)
}

// The differences of receiver p. It, and what asks a pair alone, takes lists and no weighing: what they ask is less than a weighing says. Lengths stand as a clause, since the type of a result tells no caller's proof.
// Part of its callers, since what it answers is 192 bytes.
#[inline(always)]
pub fn differences(balances: usize, loads: &[u32], bounds: &[u32], p: Side) -> Margins
    requires few { (length bounds.now ≡ 24) × (balances ≤ 24) }
    requires half_row { HalfRow loads.now balances p.number × HalfRow loads.now balances p.node.left }
    ensures many { (length result.gives ≡ 24) × (length result.rooms ≡ 24) }
    ensures are { Differences balances loads.now bounds.now p result.gives result.rooms }
{
    let stays = records::is_resource(p.node);
    let mut gives = [0u32; 24];
    let mut rooms = [0u32; 24];
    for k in 0..balances {
        let weight = loads::load_at(loads, p.number, k);
        let next = loads::load_at(loads, p.node.left, k);
        gives[k] = (65536 + gone(stays, weight)).saturating_sub(next);
        rooms[k] = (cap(bounds[k]) + 1).saturating_sub(weight);
    }
    Margins { gives, rooms }
}

// No balance has the weights of the receiver and of node j above its bound. The loop has no way out, so that several balances are compared at once.
pub fn fits_beside(balances: usize, loads: &[u32], rooms: &[u32], j: usize) -> bool
    requires { Rooms balances loads.now rooms.now j }
    ensures { result ≡ every balances (fits_beside loads.now rooms.now j) }
{
    let mut fits = true;
    for k in 0..balances {
        fits &= loads::less(loads::load_at(loads, j, k), rooms[k]);
    }
    fits
}

// Receiver p and q are a live pair.
fn live(balances: usize, rows: &[u64], loads: &[u32], rooms: &[u32], p: Side, q: Side) -> bool
    requires rooms { Rooms balances loads.now rooms.now q.number }
    requires node_value { (is_agent (node_of p.node) ≡ true) × NameRow rows.now p × NameRow rows.now q }
    ensures { result ≡ live_by rows.now loads.now rooms.now balances p q }
{
    meet(rows, p, q) && fits_beside(balances, loads, rooms, q.number)
}

// What sender j with continuation r needs of a receiver in balance k.
pub fn need(loads: &[u32], j: usize, r: usize, k: usize) -> u32
    requires { NeedThere loads.now j r k }
    ensures { (result ≡ need_of loads.now j r k) × (result < 268435456) }
{
    loads::load_at(loads, r, k) + 65536 - loads::load_at(loads, j, k)
}

// Rule 4 at balance k, for sender j with continuation r: the receiver gives what it needs.
fn balance_holds(loads: &[u32], gives: &[u32], j: usize, r: usize, k: usize) -> bool
    requires { Gives loads.now gives.now j r k }
    ensures { result ≡ gives_to loads.now gives.now j r k }
{
    !loads::less(gives[k], need(loads, j, r, k))
}

// Rule 4 in every balance, without a way out of the loop.
fn balances_hold(balances: usize, loads: &[u32], gives: &[u32], j: usize, r: usize) -> bool
    requires { (k : ℕ) → k < balances → Gives loads.now gives.now j r k }
    ensures { result ≡ every balances (gives_to loads.now gives.now j r) }
{
    let mut holds = true;
    for k in 0..balances {
        holds &= balance_holds(loads, gives, j, r, k);
    }
    holds
}

// Rule 3 at every argument, without a way out of the loop too.
fn arguments_hold(rows: &[u64], p: Side, q: Side) -> bool
    requires { (m : ℕ) → m < p.node.arity → ArgumentRows rows.now p q m }
    ensures { result ≡ every p.node.arity (argument_holds rows.now p q) }
{
    let mut holds = true;
    for n in 0..p.node.arity {
        holds &= argument_holds(rows, p, q, n);
    }
    holds
}

// The rule holds at every figure of the pair.
fn all_hold(
    rule: PairRule,
    balances: usize,
    rows: &[u64],
    loads: &[u32],
    gives: &[u32],
    p: Side,
    q: Side,
) -> bool
    requires { Figures (rule_number rule) balances rows.now loads.now gives.now p q }
    ensures { result ≡ all_hold_by (rule_number rule) balances rows.now loads.now gives.now p q }
{
    match rule {
        PairRule::Third => arguments_hold(rows, p, q),
        PairRule::Fourth => balances_hold(balances, loads, gives, q.number, q.node.left),
    }
}

// The rule holds at figure n of the live pair p, q.
fn figure_holds(
    rule: PairRule,
    w: &Weighing,
    rows: &[u64],
    gives: &[u32],
    p: Side,
    q: Side,
    n: usize,
) -> bool
    requires { (eqb (rule_number rule) 3 ≡ true → ArgumentRows rows.now p q n)
        × (eqb (rule_number rule) 3 ≡ false → Gives w.now.loads.now gives.now q.number q.node.left n) }
    ensures { result ≡ holds_by (rule_number rule) rows.now w.now.loads.now gives.now p q n }
{
    match rule {
        PairRule::Third => argument_holds(rows, p, q, n),
        PairRule::Fourth => balance_holds(w.loads, gives, q.number, q.node.left, n),
    }
}

// The pair is live, and breaks the rule of this number. Balances that would end its life are looked at last. For the filter, which asks this of many pairs; the
// search below asks for the place, of few.
pub fn breaks(
    number: u8,
    balances: usize,
    rows: &[u64],
    loads: &[u32],
    gives: &[u32],
    rooms: &[u32],
    p: Side,
    q: Side,
) -> bool
    requires rooms { Rooms balances loads.now rooms.now q.number }
    requires node_value { (is_agent (node_of p.node) ≡ true) × NameRow rows.now p × NameRow rows.now q }
    requires figures { meets rows.now p q ≡ true → Figures number balances rows.now loads.now gives.now p q }
    ensures { result ≡ live_by rows.now loads.now rooms.now balances p q
        && not (all_hold_by number balances rows.now loads.now gives.now p q) }
{
    meet(rows, p, q)
        && !all_hold(PairRule::from(number), balances, rows, loads, gives, p, q)
        && fits_beside(balances, loads, rooms, q.number)
}

// Rule 3 or 4, by its number: the first live pair that breaks it, lowest receiver, then lowest sender, then the last figure. Nothing is found below receiver
// `from`.
pub fn first_pair(number: u8, w: &Weighing, rows: &[u64; 1024], from: usize) -> Option<Place>
    requires { (from ≤ w.now.array.trailer.nodes) × Screened number (array_of w.now.array.bytes.now w.now.array.trailer)
        (list_table rows.now w.now.loads.now w.now.bounds.now w.now.balances) from }
    ensures result_value { placed number result ≡ pairs_of number (array_of w.now.array.bytes.now w.now.array.trailer)
        (list_table rows.now w.now.loads.now w.now.bounds.now w.now.balances) }
    ensures small_figure { SmallFigure result }
{
    let rule = PairRule::from(number);
    let nodes = w.array.trailer.nodes;
    let mut answer = None;
    'receiver: for i in from..nodes {
        let p = Side {
            number: i,
            node: w.array.node_at(i),
        };
        let count = figures(number, w.balances, p.node);
        if count == 0 {
            continue 'receiver;
        }
        let margins = differences(w.balances, w.loads, w.bounds, p);
        'sender: for j in 0..nodes {
            let q = Side {
                number: j,
                node: w.array.node_at(j),
            };
            if !live(w.balances, rows, w.loads, &margins.rooms, p, q) {
                continue 'sender;
            }
            // In rule 3 the last figure is an argument, in rule 4 a balance.
            'balance: for n in 0..count {
                if !figure_holds(rule, w, rows, &margins.gives, p, q, n) {
                    answer = Some(Place {
                        receiver: i,
                        sender: j,
                        figure: n,
                    });
                    break 'receiver;
                }
            }
        }
    }
    answer
}
