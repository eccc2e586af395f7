// Which receiver is the first that may be in a live pair that breaks rule 3 or 4: sets of senders are asked before single senders.
// Promises that nothing is found below it: its contract goes one way, and the search over pairs says the rest. Depends on senders (the sets), pairs
// (a weighing, a pair alone), loads, arrays, records, marks, model and laws. The lists of the sets take 6,744 bytes of stack.
#![tactic(auto)]

ghost use Rattle.std.specs.Prelude.{◌≡◌, true, ◌<◌, ◌≤◌, length};
ghost use Rattle.laws.specs.Search.{clear, every};
ghost use Rattle.marks.specs.Marks.{HasRow};
ghost use Rattle.pairs.specs.Pairs.{rule_number, pairs_at, Screened};
ghost use Rattle.pairs.specs.Weighing.{array_weighed, table_beside};
ghost use Rattle.senders.specs.Sets.{SentRows};
ghost use Rattle.filter.specs.Filter.{may_come, arg_inside, need_met, figures_pass, ArgRows, NeedRows};
ghost use Rattle.filter.specs.Sieve.{rule_in, Sieves, Receives, LinkedSound, ListedSound, AllSound};

use pairs::{PairRule, Side, Weighing};
use records::Record;
use senders::{EVERY_NAME, NO_SENDERS, Sets};

// A sender of set g may reach receiver p.
pub fn may_come(unions: &[u64], arities: &[u64], rows: &[u64], g: usize, p: Side) -> bool
    requires { (g < 12) × (p.node.arity ≤ 8) × (length arities.now ≡ 4) × HasRow unions.now g × HasRow rows.now p.node.name }
    ensures { result ≡ may_come unions.now arities.now rows.now g p }
{
    marks::is_marked(arities, 0, senders::arity_mark(g, p.node.arity))
        && marks::shares(unions, g, rows, p.node.name)
}

// Rule 3 beside all that set g sends, without a way out of the loop.
pub fn args_inside(unions: &[u64], rows: &[u64], g: usize, r: Record) -> bool
    requires { (g < 12) × ArgRows unions.now rows.now g r }
    ensures { result ≡ every r.arity (arg_inside unions.now rows.now g r.args) }
{
    let args = r.args;
    let mut inside = true;
    for m in 0..r.arity {
        inside &= marks::contained(unions, senders::sent_row(g, m), rows, usize::from(args[m]));
    }
    inside
}

// Rule 4 beside all that set g needs, for receiver i with continuation l. The loop has no way out, so that several balances are compared at once.
fn needs_met(w: &Weighing, sets: &Sets, g: usize, stays: bool, i: usize, l: usize) -> bool
    requires { NeedRows w.now.balances sets.now.needs w.now.loads.now g i l }
    ensures { result ≡ every w.now.balances (need_met sets.now.needs w.now.loads.now g stays i l) }
{
    let mut met = true;
    for k in 0..w.balances {
        let given = 65536 + pairs::gone(stays, loads::load_at(w.loads, i, k));
        let needed = loads::load_at(w.loads, l, k) + loads::load_at(&sets.needs, g, k);
        met &= !loads::less(given, needed);
    }
    met
}

// Sets of all senders, which receivers are asked of; where it is deep, the senders of a set that does not pass are looked at one by one. One type for both,
// as all but that branch is the same.
// That the sets are those of the senders stays a clause: of which sets they are there may be several proofs, and a ghost field has one.
#[derive(Clone, Copy)]
struct Sieve<'a> {
    rule: PairRule,
    w: &'a Weighing<'a>,
    rows: &'a [u64; 1024],
    sets: &'a Sets,
    deep: bool,
}

impl Sieve<'_> {
    // The rule beside all that set g sends or needs.
    fn figures_pass(&self, g: usize, p: Side) -> bool
        requires { (g < 12) × SentRows self.now.rows.now p.node
            × NeedRows self.now.w.now.balances self.now.sets.now.needs self.now.w.now.loads.now g p.number p.node.left }
        ensures { result ≡ figures_pass (rule_in self.now) self.now.w.now.balances self.now.sets.now.needs self.now.sets.now.unions
            self.now.rows.now self.now.w.now.loads.now g p }
    {
        let rows = self.rows;
        match self.rule {
            PairRule::Third => args_inside(&self.sets.unions, rows, g, p.node),
            PairRule::Fourth => needs_met(
                self.w,
                self.sets,
                g,
                records::is_resource(p.node),
                p.number,
                p.node.left,
            ),
        }
    }

    // No sender that the links of set g pass breaks the rule with p. A link that does not lead down ends the search, and then nothing is said.
    fn members_pass(&self, g: usize, p: Side) -> bool
        requires sieves { Sieves self.now × (g < 12) }
        requires receives { Receives self.now p }
        ensures { result ≡ true → LinkedSound self.now p g }
    {
        let rows = self.rows;
        let margins = pairs::differences(self.w.balances, self.w.loads, self.w.bounds, p);
        let mut end = self.w.array.trailer.nodes;
        // Links lead from node to node, so that no range goes over them.
        let mut next = usize::from(self.sets.links[senders::last_link(g)]);
        while 0 < next {
            let j = next - 1;
            if end <= j {
                return false;
            }
            let q = Side {
                number: j,
                node: self.w.array.node_at(j),
            };
            if pairs::breaks(
                self.rule.number(),
                self.w.balances,
                rows,
                self.w.loads,
                &margins.gives,
                &margins.rooms,
                p,
                q,
            ) {
                return false;
            }
            end = j;
            next = usize::from(self.sets.links[j]);
        }
        true
    }

    // Set g passes: none of its senders may come, or the rule holds beside all of them together, or, where it is asked for, beside each.
    fn set_passes(&self, g: usize, p: Side) -> bool
        requires sieves { Sieves self.now × (g < 12) }
        requires receives { Receives self.now p }
        ensures { result ≡ true → ListedSound self.now p g }
    {
        let rows = self.rows;
        if !may_come(&self.sets.unions, &self.sets.arities, rows, g, p) {
            return true;
        }
        if self.figures_pass(g, p) {
            return true;
        }
        self.deep && self.members_pass(g, p)
    }

    // Every set passes: no sender breaks the rule with p.
    fn passes(&self, p: Side) -> bool
        requires sieves { Sieves self.now }
        requires receives { Receives self.now p }
        ensures { result ≡ true → AllSound self.now p }
    {
        // `(0..12).all(..)` was tried: what `set_passes` ensures does not reach the proof through the closure.
        for g in 0..12 {
            if !self.set_passes(g, p) {
                return false;
            }
        }
        true
    }

    // Nothing is found at node i: it has no figures, or every set passes.
    fn node_passes(&self, i: usize) -> bool
        requires { Sieves self.now × (i < self.now.w.now.array.trailer.nodes) }
        ensures { result ≡ true → pairs_at (rule_in self.now) (array_weighed self.now.w.now)
            (table_beside self.now.w.now self.now.rows.now) i ≡ clear }
    {
        let p = Side {
            number: i,
            node: self.w.array.node_at(i),
        };
        if pairs::figures(self.rule.number(), self.w.balances, p.node) == 0 {
            return true;
        }
        self.passes(p)
    }

    // The first node from `from` on that does not pass, or the number of nodes: the search over pairs starts there either way.
    fn sift(&self, from: usize) -> usize
        requires { Sieves self.now × (from ≤ self.now.w.now.array.trailer.nodes)
            × Screened (rule_in self.now) (array_weighed self.now.w.now) (table_beside self.now.w.now self.now.rows.now) from }
        ensures { (result ≤ self.now.w.now.array.trailer.nodes)
            × Screened (rule_in self.now) (array_weighed self.now.w.now) (table_beside self.now.w.now self.now.rows.now) result }
    {
        let nodes = self.w.array.trailer.nodes;
        for i in from..nodes {
            if !self.node_passes(i) {
                return i;
            }
        }
        nodes
    }
}

// The first node from `from` on that does not pass when sets of senders are asked, by arity or, where it goes deep, by channel and one by one; the number of
// nodes where each passes.
fn ask(from: usize, rule: PairRule, w: &Weighing, rows: &[u64; 1024], deep: bool) -> usize
    requires { (from ≤ w.now.array.trailer.nodes)
        × Screened (rule_number rule) (array_weighed w.now) (table_beside w.now rows.now) from }
    ensures { (result ≤ w.now.array.trailer.nodes)
        × Screened (rule_number rule) (array_weighed w.now) (table_beside w.now rows.now) result }
{
    let mut sets = NO_SENDERS;
    sets.gather(
        rule.number(),
        deep,
        &EVERY_NAME,
        &w.array,
        w.balances,
        rows,
        w.loads,
    );
    let sieve = Sieve {
        rule,
        w,
        rows,
        sets: &sets,
        deep,
    };
    sieve.sift(from)
}

// The first node that may be the receiver of a live pair which breaks the rule of this number: nothing is found below it. Without a balance rule 4 has no
// figures.
// Where none is left it is the number of nodes, from which the search over pairs may start too.
pub fn first_suspect(number: u8, w: &Weighing, rows: &[u64; 1024]) -> usize
    ensures { (result ≤ w.now.array.trailer.nodes)
        × Screened number (array_weighed w.now) (table_beside w.now rows.now) result }
{
    let rule = PairRule::from(number);
    let unweighed = w.balances == 0;
    if rule == PairRule::Fourth && unweighed {
        return w.array.trailer.nodes;
    }
    let from = ask(0, rule, w, rows, false);
    if from == w.array.trailer.nodes {
        return from;
    }
    ask(from, rule, w, rows, true)
}
