// Balances: refusal 20.
// Promises refusal20 of layout. Depends on layout, records, wire, model and laws. The marks of agents take 1,024 bytes of stack.
#![tactic(auto)]

ghost use Rattle.std.specs.Prelude.{◌≡◌, false, ◌&&◌, ◌||◌, ℕ, ◌+◌, ◌*◌, ◌≤◌, ◌<◌, ◌%◌, length, get_or, eqb};
ghost use Rattle.laws.specs.Search.{every};
ghost use Rattle.model.specs.Tree.{node_at, is_agent};
ghost use Rattle.records.specs.ArrayFile.{array_in};
ghost use Rattle.records.specs.Record.{found_of};
ghost use Rattle.layout.specs.Table.{balance_at, weight_at, refusal20, Laid};
ghost use Rattle.weights.specs.Weights.{marked_fit, padding_zero};

use layout::TableFile;
use records::{ArrayFile, Reason, Refusal};

// Which nodes are agents, found once for all balances.
fn mark_agents(array: &ArrayFile) -> [bool; 1024]
    ensures { (i : ℕ) → i < array.now.trailer.nodes → get_or result i false ≡ is_agent (node_at (array_in array.now) i) }
{
    let mut agents = [false; 1024];
    for i in 0..array.trailer.nodes {
        agents[i] = records::is_agent(array.node_or_stop(i));
    }
    agents
}

// In the balance at `at`, only nodes that are marked have a weight. All are read, so that a machine can compare several at once.
fn weights_fit(agents: &[bool], table: &[u8], at: usize) -> bool
    requires { at + 4 + 2 * length agents.now ≤ length table.now }
    ensures { result ≡ marked_fit agents.now table.now at }
{
    let mut fits = true;
    for (i, agent) in agents.iter().enumerate() {
        fits &= *agent | (wire::u16_at(table, at + 4 + 2 * i) == 0);
    }
    fits
}

// The padding of the balance at `at` is zero, where it has any.
fn padding_fits(nodes: usize, table: &[u8], at: usize) -> bool
    requires { at + 4 + 2 * (nodes + nodes % 2) ≤ length table.now }
    ensures { result ≡ padding_zero nodes table.now at }
{
    nodes % 2 == 0 || wire::u16_at(table, at + 4 + 2 * nodes) == 0
}

// Balance k of a table with so many nodes, of which those that are agents are marked.
fn balance_fits(agents: &[bool], table: &TableFile, k: usize) -> bool
    requires { (k < table.now.sizes.balances) × (length agents.now ≡ table.now.sizes.nodes) }
    ensures { let at = balance_at table.now.sizes k in
        result ≡ marked_fit agents.now table.now.bytes.now at && padding_zero (length agents.now) table.now.bytes.now at }
{
    let at = table.sizes.balance_at(k);
    weights_fit(agents, table.bytes, at) & padding_fits(agents.len(), table.bytes, at)
}

// Refusal 20. Without a balance no node is looked at.
pub fn bad_balance(array: &ArrayFile, table: &TableFile) -> Result<(), Refusal>
    requires { Laid array.now.trailer table.now.bytes.now table.now.sizes }
    ensures { found_of result ≡ refusal20 (array_in array.now) table.now.bytes.now table.now.sizes }
{
    if table.sizes.balances == 0 {
        return Ok(());
    }
    let agents = mark_agents(array);
    let nodes = &agents[..array.trailer.nodes];
    records::first_failing(
        table.sizes.balances,
        Reason::Balance,
        |k| balance_fits(nodes, table, k),
    )
}
