// The parts of a table file: sizes, offsets, and the table that the bytes stand for.
// Promises equations with specs/Table, which also holds refusals 13 to 21, 30 and 31. Depends on records, wire, model and laws.
#![tactic(auto)]

ghost use Rattle.std.specs.Prelude.{◌≡◌, ℕ, ◌≤◌, ◌<◌, length, get_or};
ghost use Rattle.layout.specs.Table.{table_form, row_size, most_balances, sizes_of, balance_size, balance_at, claim_at, claim_of, ClaimsLie};

use model::Claim;
use records::Trailer;

// A format of table files, by its letters. `Other` is one that no letters name, by a caller's number; refusal 14 keeps it out.
#[derive(Clone, Copy, Debug, PartialEq, Eq)]
pub enum Form {
    Pic1,
    Other(usize),
}

// M, N, K and Q, and which format the letters name, if any.
#[derive(Clone, Copy)]
pub struct Sizes {
    pub nodes: usize,
    pub names: usize,
    pub balances: usize,
    pub claims: usize,
    pub form: Option<Form>,
}

// A table file beside its sizes, by which its rows, balances and claims lie in it. That its elements are bytes is said for proofs: a slice in a struct
// does not tell them.
#[derive(Clone, Copy)]
pub struct TableFile<'a> {
    pub bytes: &'a [u8],
    pub sizes: Sizes,
    ghost lies: { ClaimsLie bytes.now sizes },
    ghost are_bytes: { (i : ℕ) → get_or bytes.now i 0 < 256 },
}

// The format that the letters name.
fn table_form(letters: u32) -> Option<Form>
    ensures { result ≡ table_form letters }
{
    if letters == 826493264 {
        Some(Form::Pic1)
    } else {
        None
    }
}

// The sizes that the two trailers say.
pub fn read_sizes(t: Trailer, table: &[u8]) -> Sizes
    requires { 28 ≤ length table.now }
    ensures { result ≡ sizes_of t table.now }
{
    let len = table.len();
    Sizes {
        nodes: t.nodes,
        names: t.names,
        balances: wire::u16_at(table, len - 16),
        claims: wire::u16_at(table, len - 14),
        form: table_form(wire::u32_at(table, len - 4)),
    }
}

impl Sizes {
    // How many bytes a flow row takes.
    pub fn row_size(self) -> usize
        ensures { result ≡ row_size self.form }
    {
        32
    }

    // The greatest K.
    pub fn most_balances(self) -> usize
        ensures { result ≡ most_balances self.form }
    {
        24
    }

    // How many bytes a balance takes.
    fn balance_size(self) -> usize
        requires { self.nodes ≤ 1024 }
        ensures { result ≡ balance_size self }
    {
        4 + 2 * (self.nodes + self.nodes % 2)
    }

    // Where balance k stands.
    pub fn balance_at(self, k: usize) -> usize
        requires { (self.nodes ≤ 1024) × (self.names ≤ 256) × (k ≤ 24) }
        ensures { result ≡ balance_at self k }
    {
        self.row_size() * self.names + k * self.balance_size()
    }

    // Where claim c stands.
    pub fn claim_at(self, c: usize) -> usize
        requires { (self.nodes ≤ 1024) × (self.names ≤ 256) × (self.balances ≤ 24) × (c ≤ 256) }
        ensures { result ≡ claim_at self c }
    {
        self.balance_at(self.balances) + 8 * c
    }
}

// Claim c of a table beside its sizes.
pub fn read_claim(table: &[u8], z: Sizes, c: usize) -> Claim
    requires { ClaimsLie table.now z × (c < z.claims) }
    ensures { result ≡ claim_of table.now (claim_at z c) }
{
    let at = z.claim_at(c);
    Claim {
        agent: wire::u16_at(table, at),
        most: wire::u16_at(table, at + 2),
        balance: wire::u16_at(table, at + 4),
        set: wire::u16_at(table, at + 6),
    }
}

impl TableFile<'_> {
    // Claim c.
    pub fn claim(&self, c: usize) -> Claim
        requires { c < self.now.sizes.claims }
        ensures { result ≡ claim_of self.now.bytes.now (claim_at self.now.sizes c) }
    {
        read_claim(self.bytes, self.sizes, c)
    }
}
