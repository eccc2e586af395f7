// Claims, their sets and their order: refusals 21, 30 and 31, and the first claim of a set.
// Promises refusal21, refusal30 and refusal31 of layout, and FirstOf. Depends on layout, records, model and laws.
#![tactic(auto)]

ghost use Rattle.std.specs.Prelude.{◌≡◌, ◌<◌};
ghost use Rattle.laws.specs.Search.{clear, first};
ghost use Rattle.model.specs.Formed.{refuse};
ghost use Rattle.model.specs.Rules.{comes_after};
ghost use Rattle.records.specs.ArrayFile.{array_in};
ghost use Rattle.records.specs.Record.{found_of};
ghost use Rattle.layout.specs.Table.{table_of, claim_fits, agrees, set_fits, in_order, refusal21, refusal30, refusal31, ClaimsLie};
ghost use Rattle.layout.specs.TableFile.{table_in};
ghost use Rattle.claims.specs.Sets.{FirstOf};

use layout::{Sizes, TableFile};
use model::Claim;
use records::{ArrayFile, Reason, Refusal};

// A claim names an agent and a balance.
fn claim_fits(array: &ArrayFile, balances: usize, x: Claim) -> bool
    ensures { result ≡ claim_fits (array_in array.now) balances x }
{
    records::is_agent(array.node_or_stop(x.agent)) & (x.balance < balances)
}

// Refusal 21.
pub fn bad_claim(array: &ArrayFile, table: &TableFile) -> Result<(), Refusal>
    ensures { found_of result ≡ refusal21 (array_in array.now) (table_in table.now) }
{
    records::first_failing(table.sizes.claims, Reason::Claim, |c| {
        claim_fits(array, table.sizes.balances, table.claim(c))
    })
}

// The first claim of claim c's set, in a table beside its sizes.
pub fn first_of_set(table: &[u8], z: Sizes, c: usize) -> usize
    requires { ClaimsLie table.now z × (c < z.claims) }
    ensures { FirstOf (table_of table.now z) c result }
{
    let set = layout::read_claim(table, z, c).set;
    if set == 0 {
        return c;
    }
    // No range: the search ends at c itself, and with a test of where it is 256 sets take 1.4 times as long.
    let mut d: usize = 0;
    while layout::read_claim(table, z, d).set != set {
        d += 1;
    }
    d
}

// The same of a table file.
pub fn first_claim(table: &TableFile, c: usize) -> usize
    requires { c < table.now.sizes.claims }
    ensures { FirstOf (table_in table.now) c result }
{
    first_of_set(table.bytes, table.sizes, c)
}

// Two claims agree in most and in balance.
fn claims_agree(x: Claim, y: Claim) -> bool
    ensures { result ≡ agrees x y }
{
    (x.most, x.balance) == (y.most, y.balance)
}

// Claim c agrees with its set's first. It then agrees with all of the set before it, where these were passed.
fn set_fits(table: &TableFile, c: usize) -> bool
    requires { c < table.now.sizes.claims }
    ensures { first c (λ d. refuse 30 d (set_fits (table_in table.now) d)) ≡ clear → result ≡ set_fits (table_in table.now) c }
{
    let first = first_claim(table, c);
    claims_agree(table.claim(c), table.claim(first))
}

// Refusal 30.
pub fn bad_set(table: &TableFile) -> Result<(), Refusal>
    ensures { found_of result ≡ refusal30 (table_in table.now) }
{
    records::first_failing(
        table.sizes.claims,
        Reason::Set,
        |later| set_fits(table, later),
    )
}

// Claim y comes after claim x.
fn comes_after(y: Claim, x: Claim) -> bool
    ensures { result ≡ comes_after y x }
{
    (x.set, x.agent, x.most, x.balance) < (y.set, y.agent, y.most, y.balance)
}

// Claim c comes after its predecessor. Claim 0 has none.
fn in_order(table: &TableFile, c: usize) -> bool
    requires { c < table.now.sizes.claims }
    ensures { result ≡ in_order (table_in table.now) c }
{
    if c == 0 {
        return true;
    }
    comes_after(table.claim(c), table.claim(c - 1))
}

// Refusal 31.
pub fn bad_order(table: &TableFile) -> Result<(), Refusal>
    ensures { found_of result ≡ refusal31 (table_in table.now) }
{
    records::first_failing(
        table.sizes.claims,
        Reason::Order,
        |next| in_order(table, next),
    )
}
