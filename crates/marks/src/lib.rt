// Rows of 256 marks, each in four 64-bit words of a list of rows: test, set, share, contain, copy, join. A row is asked for by its number; where it
// stands is said here. Promises equations with specs/Marks. Depends on laws and wire.
#![tactic(auto)]

ghost use Rattle.std.specs.Prelude.{◌≡◌, ◌/◌, ◌<◌, length, get_or, set};
ghost use Rattle.marks.specs.Marks.{word_at, HasRow, marked, mark_if, words_share, word_inside, share, inside, Copied, join_word, Joined};

// Word w of row u.
pub fn word_at(rows: &[u64], u: usize, w: usize) -> u64
    requires { HasRow rows.now u × (w < 4) }
    ensures { result ≡ get_or rows.now (word_at u w) 0 }
{
    rows[4 * u + w]
}

// Writes word w of row u.
pub fn set_word(rows: &mut [u64], u: usize, w: usize, x: u64)
    requires { HasRow rows.old u × (w < 4) }
    ensures { rows.new ≡ set rows.old (word_at u w) x }
{
    rows[4 * u + w] = x;
}

// The mark of name v in row u.
pub fn is_marked(rows: &[u64], u: usize, v: usize) -> bool
    requires { word_at u (v / 64) < length rows.now }
    ensures { result ≡ marked rows.now u v }
{
    (rows[4 * u + v / 64] >> (v % 64)) % 2 == 1
}

// Marks name v in row 0 where `on` is true: what a record's test answers, so that callers need no branch.
pub fn mark_if(row: &mut [u64], on: bool, v: usize)
    requires { v / 64 < length row.old }
    ensures { row.new ≡ mark_if row.old on v }
{
    if on {
        row[v / 64] |= 1 << (v % 64);
    }
}

// Word w of row u of one list and of row v of another: they have a bit in common. This and the next differ in their test, and so in their laws.
fn words_share(one: &[u64], u: usize, other: &[u64], v: usize, w: usize) -> bool
    requires { HasRow one.now u × HasRow other.now v × (w < 4) }
    ensures { result ≡ words_share one.now u other.now v w }
{
    let x = word_at(one, u, w);
    let y = word_at(other, v, w);
    x & y != 0
}

// Word w of row u of one list and of row v of another: every bit of the first is a bit of the second.
fn word_inside(one: &[u64], u: usize, other: &[u64], v: usize, w: usize) -> bool
    requires { HasRow one.now u × HasRow other.now v × (w < 4) }
    ensures { result ≡ word_inside one.now u other.now v w }
{
    let x = word_at(one, u, w);
    let y = word_at(other, v, w);
    x & y == x
}

// Row u of one list and row v of the other have a mark in common. A loop here and below: `any` and `all` over the words were tried, their proof did not close.
pub fn shares(one: &[u64], u: usize, other: &[u64], v: usize) -> bool
    requires { HasRow one.now u × HasRow other.now v }
    ensures { result ≡ share one.now u other.now v }
{
    let mut found = false;
    for w in 0..4 {
        found |= words_share(one, u, other, v, w);
    }
    found
}

// Every mark of row u of one list is a mark of row v of the other.
pub fn contained(one: &[u64], u: usize, other: &[u64], v: usize) -> bool
    requires { HasRow one.now u × HasRow other.now v }
    ensures { result ≡ inside one.now u other.now v }
{
    let mut inside = true;
    for w in 0..4 {
        inside &= word_inside(one, u, other, v, w);
    }
    inside
}

// Row u of one list has the marks of word w of row v of the other, beside its own.
fn join_word(one: &mut [u64], u: usize, other: &[u64], v: usize, w: usize)
    requires { HasRow one.old u × HasRow other.now v × (w < 4) }
    ensures { one.new ≡ join_word one.old u other.now v w }
{
    let x = word_at(one, u, w);
    let y = word_at(other, v, w);
    set_word(one, u, w, x | y);
}

// Row u, alone.
fn row_at(rows: &[u64], u: usize) -> [u64; 4]
    requires { HasRow rows.now u }
    ensures { Copied rows.now u result }
{
    *rows[4 * u..4 * u + 4].first_chunk().unwrap()
}

// Row u of one list has the marks of row v of the other, beside its own. Row v is read before a word is written, so that a machine joins several words
// at once.
pub fn join(one: &mut [u64], u: usize, other: &[u64], v: usize)
    requires { HasRow one.old u × HasRow other.now v }
    ensures { Joined one.old one.new u other.now v }
{
    let row = row_at(other, v);
    for w in 0..4 {
        join_word(one, u, &row, 0, w);
    }
}
