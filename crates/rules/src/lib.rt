// The five rules in number order, over an array file and a table file that were read.
// Promises the model's verdict over the array and the table that the bytes stand for. Depends on filter and pairs (rules 3 and 4), flows,
// lists and loads (the checker's own lists), claims (a set's first), layout, frees (the names that news open), arrays, records, marks, wire, model and laws.
// The lists take 106,600 bytes of stack.
#![tactic(auto)]

ghost use Rattle.std.specs.Prelude.{◌≡◌};
ghost use Rattle.model.specs.Rules as M;
ghost use Rattle.records.specs.ArrayFile.{array_in};
ghost use Rattle.arrays.specs.File.{IsRead};
ghost use Rattle.layout.specs.Table.{IsTable};
ghost use Rattle.layout.specs.TableFile.{table_in};
ghost use Rattle.pairs.specs.Pairs.{rule_number, pairs_of};
ghost use Rattle.pairs.specs.Weighing.{array_weighed, table_beside};
ghost use Rattle.rules.specs.Ruling.{ruled, rule_below, own_marked, root_fits, claim_holds, set_holds, ClaimListed, ClaimsListed, AllListed, claimed};

use layout::TableFile;
use model::Claim;
use pairs::{PairRule, Weighing};
use records::ArrayFile;

// The first broken rule with its place figures. An argument counts from 1, as 01 has it.
#[derive(Clone, Copy, Debug, PartialEq, Eq)]
pub enum Broken {
    Rule1(usize),
    Rule2(usize),
    Rule3(usize, usize, usize),
    Rule4(usize, usize, usize),
    Rule5(usize),
}

// Rule 1.
fn first_rule(w: &Weighing, rows: &[u64; 1024]) -> Result<(), Broken>
    ensures { ruled result ≡ rule_below w.now.array.trailer.names 1 (own_marked (array_weighed w.now) rows.now) }
{
    let news = frees::opened(&w.array);
    for o in 0..w.array.trailer.names {
        let opened = marks::is_marked(&news, 0, o);
        let own = marks::is_marked(rows, o, o);
        if opened && !own {
            return Err(Broken::Rule1(o));
        }
    }
    Ok(())
}

// Rule 2.
fn second_rule(w: &Weighing) -> Result<(), Broken>
    ensures { ruled result ≡ rule_below w.now.balances 2 (root_fits w.now.loads.now w.now.bounds.now) }
{
    for k in 0..w.balances {
        if w.bounds[k] < loads::load_at(w.loads, 0, k) {
            return Err(Broken::Rule2(k));
        }
    }
    Ok(())
}

// Rule 3 or 4.
fn pair_rule(rule: PairRule, w: &Weighing, rows: &[u64; 1024]) -> Result<(), Broken>
    ensures { ruled result ≡ pairs_of (rule_number rule) (array_weighed w.now) (table_beside w.now rows.now) }
{
    let number = rule.number();
    let from = filter::first_suspect(number, w, rows);
    match pairs::first_pair(number, w, rows, from) {
        None => Ok(()),
        Some(p) => Err(match rule {
            PairRule::Third => Broken::Rule3(p.receiver, p.sender, p.figure + 1),
            PairRule::Fourth => Broken::Rule4(p.receiver, p.sender, p.figure),
        }),
    }
}

// A claim alone follows from its balance: its agent's weight × (most + 1) exceeds the bound.
fn claim_holds(x: Claim, w: &Weighing) -> bool
    requires { ClaimListed w.now.loads.now w.now.bounds.now x }
    ensures { result ≡ claim_holds w.now.loads.now w.now.bounds.now x }
{
    let weight = u64::from(loads::load_at(w.loads, x.agent, x.balance));
    u64::from(w.bounds[x.balance]) < weight * (x.most as u64 + 1)
}

// Rule 5. A set is met where each of its claims holds alone, since they agree in most and balance (30). Its claims lie side by side (31), so
// that the first claim that fails alone is of the first set that is not met.
fn fifth_rule(table: &TableFile, w: &Weighing) -> Result<(), Broken>
    requires { ClaimsListed table.now.bytes.now table.now.sizes w.now.loads.now w.now.bounds.now }
    ensures { ruled result ≡ rule_below table.now.sizes.claims 5 (set_holds (table_in table.now)
        (λ e. claim_holds w.now.loads.now w.now.bounds.now ((table_in table.now).claim e))) }
{
    for c in 0..table.sizes.claims {
        if !claim_holds(table.claim(c), w) {
            let set_first = claims::first_claim(table, c);
            return Err(Broken::Rule5(set_first));
        }
    }
    Ok(())
}

// The five rules, over the checker's own lists and the claims of the file.
fn all_rules(w: &Weighing, rows: &[u64; 1024], table: &TableFile) -> Result<(), Broken>
    requires { AllListed table.now.bytes.now table.now.sizes w.now.loads.now w.now.bounds.now }
    ensures { ruled result ≡ M.verdict (array_weighed w.now)
        (claimed (table_beside w.now rows.now) table.now.bytes.now table.now.sizes) }
{
    first_rule(w, rows)?;
    second_rule(w)?;
    pair_rule(PairRule::Third, w, rows)?;
    pair_rule(PairRule::Fourth, w, rows)?;
    fifth_rule(table, w)
}

// The verdict on a table that was read beside an array that was read: the first broken rule, or that none is broken.
pub fn judge(array: &ArrayFile, table: &TableFile) -> Result<(), Broken>
    requires { IsRead array.now.bytes.now array.now.trailer
        × IsTable array.now.bytes.now array.now.trailer table.now.bytes.now table.now.sizes }
    ensures { ruled result ≡ M.verdict (array_in array.now) (table_in table.now) }
{
    let mut rows = [0u64; 1024];
    let mut loads = [0u32; 24578];
    let mut bounds = [0u32; 24];
    flows::flow_rows(&mut rows, table.bytes, table.sizes);
    lists::fill_lists(&mut loads, &mut bounds, array, table);
    let w = Weighing {
        array: *array,
        balances: table.sizes.balances,
        loads: &loads,
        bounds: &bounds,
    };
    all_rules(&w, &rows, table)
}
