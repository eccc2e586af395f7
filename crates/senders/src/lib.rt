// Twelve sets of senders that use a marked name, in lists that the caller lends: for each set the arities, the rows of the channels and of what is sent,
// all together, and the largest need in each balance; and the senders of each set, linked.
// Promises that each of these senders is in one set, that its set keeps what it asks of a receiver, and that the links pass every sender of a set.
// Which set a sender is in is free. Depends on pairs (a side, what it needs), loads, arrays, records, marks, model and laws.
#![tactic(auto)]

ghost use Rattle.std.specs.Prelude.{◌≡◌, ◌⊎◌, ◌↔◌, IsTrue, ℕ, List, get_or, true, false, ◌+◌, ◌<◌, ◌≤◌, eqb, length, replicate};
ghost use Rattle.marks.specs.Marks.{marked};
ghost use Rattle.model.specs.Memory.{is_out};
ghost use Rattle.records.specs.Record.{node_of};
ghost use Rattle.arrays.specs.Agents.{Reads};
ghost use Rattle.pairs.specs.Pairs.{rule_number, setting, Given};
ghost use Rattle.senders.specs.Sets.{sends_by, arity_mark, sent_row, family, Room, Vacant, link, Gathered};
ghost use Rattle.senders.specs.Sets.{HalfNeeds, NeedsGrow, RowsGrow, Grown, SentKept, NeedsKept, Covers, SentRows, NeedsThere, Askable};

use pairs::{PairRule, Side};
use records::{ArrayFile, Record};

// A row with every mark.
pub const EVERY_NAME: [u64; 4] = [u64::MAX; 4];

// ---- which set a sender is in

// The set of a node whose record is r: by its arity or, where it is to be fine, by its channel, of which eight senders in order are in one set and
// the next eight in another.
fn set_of(seen: &mut [u8; 256], fine: bool, r: Record) -> usize
    ensures { (result < 12) × (length seen.new ≡ 256) }
{
    if !fine {
        return r.arity % 12;
    }
    let c = r.name % 256;
    let before = usize::from(seen[c]);
    seen[c] = std::num::wrapping_add_u8(seen[c], 1);
    (c + before / 8) % 12
}

// ---- which senders are gathered

// A marked name is among those that q sends.
fn sends_marked(names: &[u64; 4], array: &ArrayFile, q: Side) -> bool
    requires { Reads array.now.bytes.now array.now.trailer q.number q.node × (q.node.arity ≤ 8) }
    ensures { IsTrue result ↔ ((m : ℕ) × (m < q.node.arity) × (marked names.now 0 (get_or q.node.args m 0) ≡ true)) }
{
    (0..q.node.arity).any(|n| marks::is_marked(names, 0, array.arg_at(q.number, n)))
}

// q sends, and uses a marked name.
fn sends_by(names: &[u64; 4], array: &ArrayFile, q: Side) -> bool
    requires reads { Reads array.now.bytes.now array.now.trailer q.number q.node }
    requires name_bound { is_out (node_of q.node) ≡ true → (q.node.name < 256) × (q.node.arity ≤ 8) }
    ensures { result ≡ sends_by names.now q.node }
{
    records::sends(q.node)
        && (marks::is_marked(names, 0, q.node.name) || sends_marked(names, array, q))
}

// ---- what a set keeps, and where

// The mark of arity n in set g.
pub fn arity_mark(g: usize, n: usize) -> usize
    requires { (g < 12) × (n ≤ 8) }
    ensures { result ≡ arity_mark g n }
{
    16 * g + n
}

// The row of what set g sends as argument m; row g is that of its channels.
pub fn sent_row(g: usize, m: usize) -> usize
    requires { (g < 12) × (m < 8) }
    ensures { result ≡ sent_row g m }
{
    12 + (8 * g + m)
}

// The entry of set g's last sender, above those of all nodes.
pub fn last_link(g: usize) -> usize
    requires { g < 12 }
    ensures { result ≡ 1024 + g }
{
    1024 + g
}

// The greater of an entry and a need; by `loads::less` and not by `max`, since a machine compares several signed numbers at once.
fn greater(x: u32, need: u32) -> u32
    requires { (x < 1073741824) × (need < 1073741824) }
    ensures { (x ≤ result) × (need ≤ result) × (result < 1073741824) × ((result ≡ x) ⊎ (result ≡ need)) }
{
    if loads::less(x, need) { need } else { x }
}

// Set g keeps what sender q needs.
fn join_needs(needs: &mut [u32; 288], g: usize, balances: usize, loads: &[u32], q: Side)
    requires { HalfNeeds needs.old × (g < 12) × NeedsThere balances loads.now q }
    ensures { NeedsGrow needs.old needs.new × NeedsKept balances loads.now needs.new g q }
{
    for k in 0..balances {
        let need = pairs::need(loads, q.number, q.node.left, k);
        let at = loads::entry(g, k);
        needs[at] = greater(needs[at], need);
    }
}

// Set g keeps the rows of what sender q sends. Each argument is read alone: the arguments of a record together would be copied to the stack first.
fn join_sent(unions: &mut [u64; 432], g: usize, rows: &[u64; 1024], array: &ArrayFile, q: Side)
    requires { (g < 12) × SentRows rows.now q.node × Reads array.now.bytes.now array.now.trailer q.number q.node }
    ensures { RowsGrow unions.old unions.new × SentKept rows.now unions.new g q.node }
{
    for m in 0..q.node.arity {
        let row = sent_row(g, m);
        marks::join(unions, row, rows, array.arg_at(q.number, m));
    }
}

// The lists of all sets: the largest need in each balance, the rows of channels and of what is sent, the arities, and the links.
#[derive(Drop)]
pub struct Sets {
    pub needs: [u32; 288],
    pub unions: [u64; 432],
    pub arities: [u64; 4],
    pub links: [u16; 1036],
}

// Sets without a sender.
pub const NO_SENDERS: Sets = Sets {
    needs: [0; 288],
    unions: [0; 432],
    arities: [0; 4],
    links: [0; 1036],
};

impl Sets {
    // Set g keeps what the rule looks at.
    fn join_figures(
        &mut self,
        rule: PairRule,
        g: usize,
        array: &ArrayFile,
        balances: usize,
        rows: &[u64; 1024],
        loads: &[u32],
        q: Side,
    )
        requires room { Room (family self.old) × (g < 12) }
        requires asked { Reads array.now.bytes.now array.now.trailer q.number q.node × Askable balances rows.now loads.now q }
        ensures grown { Grown (family self.old) (family self.new) × (self.new.links ≡ self.old.links) }
        ensures kept { (eqb (rule_number rule) 3 ≡ true → SentKept rows.now self.new.unions g q.node)
            × (eqb (rule_number rule) 3 ≡ false → NeedsKept balances loads.now self.new.needs g q) }
    {
        match rule {
            PairRule::Third => join_sent(&mut self.unions, g, rows, array, q),
            PairRule::Fourth => join_needs(&mut self.needs, g, balances, loads, q),
        }
    }

    // Set g keeps q.
    fn keep(
        &mut self,
        rule: PairRule,
        g: usize,
        array: &ArrayFile,
        balances: usize,
        rows: &[u64; 1024],
        loads: &[u32],
        q: Side,
    )
        requires room { Room (family self.old) × (g < 12) }
        requires asked { Reads array.now.bytes.now array.now.trailer q.number q.node × Askable balances rows.now loads.now q }
        ensures grown { Grown (family self.old) (family self.new) × (self.new.links ≡ self.old.links) }
        ensures covers { (bounds : List ℕ) → Covers (rule_number rule)
            (setting array.now.bytes.now array.now.trailer balances rows.now loads.now bounds) (family self.new) g q }
    {
        marks::mark_if(&mut self.arities, true, arity_mark(g, q.node.arity));
        marks::join(&mut self.unions, g, rows, q.node.name);
        self.join_figures(rule, g, array, balances, rows, loads, q);
    }

    // Node q comes before the senders of set g so far. A link is a node's number and 1, and 0 is the end: 16 bits a node, in a list of fixed length.
    fn link(&mut self, g: usize, q: usize)
        requires { (g < 12) × (q < 1024) }
        ensures { self.new ≡ record self.old { links = link self.old.links g q } }
    {
        let at = last_link(g);
        let last = self.links[at];
        self.links[q] = last;
        self.links[at] = (q + 1) as u16;
    }

    // All senders that use a marked name, for the rule of this number: each is kept by its set, and linked. Bounds are not looked at: the lists are those
    // of a setting, whatever its bounds, so that this takes no weighing.
    pub fn gather(
        &mut self,
        number: u8,
        fine: bool,
        names: &[u64; 4],
        array: &ArrayFile,
        balances: usize,
        rows: &[u64; 1024],
        loads: &[u32],
    )
        requires given { (bounds : List ℕ) × Given (setting array.now.bytes.now array.now.trailer balances rows.now loads.now bounds) }
        requires vacant { Vacant self.old }
        ensures { (bounds : List ℕ) → Gathered number (setting array.now.bytes.now array.now.trailer balances rows.now loads.now bounds)
            names.now (family self.new) self.new.links }
    {
        let rule = PairRule::from(number);
        let mut seen = [0u8; 256];
        for i in 0..array.trailer.nodes {
            let q = Side {
                number: i,
                node: array.node_at(i),
            };
            if !sends_by(names, array, q) {
                continue;
            }
            let g = set_of(&mut seen, fine, q.node);
            self.keep(rule, g, array, balances, rows, loads, q);
            self.link(g, i);
        }
    }
}
