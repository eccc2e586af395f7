// One node's record of 16 bytes, what it stands for, the answers of refusals, and the search for the first.
// Promises equations with specs/Record; the kinds, by name, are tests of the node that a record stands for (specs/Kinds).
// Depends on wire (numbers), model (what a record stands for) and laws.
#![tactic(auto)]

ghost use Rattle.std.specs.Prelude.{◌≡◌, not, ◌||◌, ℕ, ◌+◌, ◌<◌, ◌≤◌, length, get_or, Bool};
ghost use Rattle.laws.specs.Search.{first};
ghost use Rattle.model.specs.Formed.{refuse};
ghost use Rattle.model.specs.Tree.{is_agent, node_at};
ghost use Rattle.model.specs.Memory.{is_out, is_resource};
ghost use Rattle.records.specs.Record.{found_of, number_of, kind_of, record_at, record_of, RecordsFit, node_of, array_of};
ghost use Rattle.records.specs.FirstFailing.{Tells};
ghost use Rattle.records.specs.Kinds.{is_stop, is_new_node, is_par, is_choice, is_receiver};

use std::error::Error;
use std::fmt;

// Why a call is refused, in the order of 01's numbers; a request's come last.
#[derive(Clone, Copy, Debug, PartialEq, Eq)]
pub enum Reason {
    ArrayLength = 1,
    ArrayLetters = 2,
    ArraySizes = 3,
    ArrayParts = 4,
    ArraySum = 5,
    Shape = 6,
    Unused = 7,
    Child = 8,
    Parent = 9,
    Name = 10,
    Binding = 11,
    Reach = 12,
    TableLength = 13,
    TableLetters = 14,
    TableSizes = 15,
    TableParts = 16,
    TableSum = 17,
    OtherArray = 18,
    Row = 19,
    Balance = 20,
    Claim = 21,
    Choices = 22,
    Lists = 23,
    Position = 24,
    Roles = 25,
    Arities = 26,
    Channels = 27,
    Threads = 28,
    Markers = 29,
    Set = 30,
    Order = 31,
    Output = 32,
}

impl Reason {
    // Its number in 01 and 02.
    pub fn number(self) -> u8
        ensures { result ≡ number_of self }
    {
        self as u8
    }

    // A refusal for this reason, with the place that it names.
    pub fn at(self, place: usize) -> Refusal
        ensures { result ≡ record { reason = self; place = place } }
    {
        Refusal {
            reason: self,
            place,
        }
    }
}

// A refusal: its reason and the place, 0 where none is named.
#[derive(Clone, Copy, Debug, PartialEq, Eq)]
pub struct Refusal {
    pub reason: Reason,
    pub place: usize,
}

// A refusal that names no place.
impl From<Reason> for Refusal {
    ghost from_gives = { λ reason r. r ≡ record { reason = reason; place = 0 } };

    fn from(reason: Reason) -> Refusal {
        reason.at(0)
    }
}

// As `judge` and `walk` print it.
impl fmt::Display for Refusal {
    fn fmt<W: fmt::Write>(&self, f: &mut fmt::Formatter<W>) -> fmt::Result {
        write!(f, "refused {} {}", self.reason.number(), self.place)
    }
}

impl Error for Refusal {}

// The refusal at the first number below n that does not pass, which is its place. What passes at a number may rest on those before it, which passed.
pub fn first_failing<F: Fn(usize) -> bool>(
    n: usize,
    reason: Reason,
    passes: F,
) -> Result<(), Refusal>
    requires { (i : ℕ) → i < n → F.pre passes i }
    ensures { (p : ℕ → Bool) → Tells (F.post passes) n (number_of reason) p → found_of result ≡ first n (λ i. refuse (number_of reason) i (p i)) }
{
    for i in 0..n {
        if !passes(i) {
            return Err(reason.at(i));
        }
    }
    Ok(())
}

// A format of array files, by its letters. `Other` is one that no letters name, by a caller's number; refusal 2 keeps it out.
#[derive(Clone, Copy, Debug, PartialEq, Eq)]
pub enum Form {
    Pis1,
    Other(usize),
}

// What an array file's trailer says: where the records start, the numbers of nodes and names, the word sum, and which format the letters
// name, if any.
#[derive(Clone, Copy)]
pub struct Trailer {
    pub start: usize,
    pub nodes: usize,
    pub names: usize,
    pub sum: u32,
    pub form: Option<Form>,
}

// An array file beside its trailer, by which its records lie in it: up to 1,024 nodes and 256 names.
#[derive(Clone, Copy)]
pub struct ArrayFile<'a> {
    pub bytes: &'a [u8],
    pub trailer: Trailer,
    ghost fits: { RecordsFit bytes.now trailer },
    ghost few_nodes: { trailer.nodes ≤ 1024 },
    ghost few_names: { trailer.names ≤ 256 },
    ghost are_bytes: { (k : ℕ) → get_or bytes.now k 0 < 256 },
}

// What a node is, by 01's kinds; `Other` is a number above 6, by how much it is above 7. Such a record reads as a resource; refusal 6 keeps it out.
#[derive(Clone, Copy, Debug, PartialEq, Eq)]
pub enum Kind {
    Stop,
    New,
    Par,
    Choice,
    Out,
    In,
    Resource,
    Other(usize),
}

// A record's first byte.
impl From<u8> for Kind {
    ghost from_gives = { λ number kind. kind ≡ kind_of number };

    fn from(number: u8) -> Kind {
        match number {
            0 => Kind::Stop,
            1 => Kind::New,
            2 => Kind::Par,
            3 => Kind::Choice,
            4 => Kind::Out,
            5 => Kind::In,
            6 => Kind::Resource,
            above => Kind::Other(usize::from(above - 7)),
        }
    }
}

// Any number.
impl From<usize> for Kind {
    ghost from_gives = { λ number kind. kind ≡ kind_of number };

    fn from(number: usize) -> Kind {
        if number < 7 {
            Kind::from(number as u8)
        } else {
            Kind::Other(number - 7)
        }
    }
}

#[derive(Clone, Copy)]
pub struct Record {
    pub kind: Kind,
    pub arity: usize,
    pub left: usize,
    pub right: usize,
    pub name: usize,
    pub pad: u8,
    pub args: [u8; 8],
}

// The record at `at`.
fn record_at(s: &[u8], at: usize) -> Record
    requires { at + 15 < length s.now }
    ensures { result ≡ record_at s.now at }
{
    Record {
        kind: Kind::from(s[at]),
        arity: usize::from(s[at + 1]),
        left: wire::u16_at(s, at + 2),
        right: wire::u16_at(s, at + 4),
        name: usize::from(s[at + 6]),
        pad: s[at + 7],
        args: wire::bytes_at(s, at + 8),
    }
}

// Node i's record. This and the next two ask that the records fit, which is less than an array file says.
pub fn node_at(file: &[u8], t: Trailer, i: usize) -> Record
    requires { RecordsFit file.now t × (i < t.nodes) }
    ensures { result ≡ record_of file.now t i }
{
    record_at(file, t.start + 16 * i)
}

// Argument n of node i, read alone.
pub fn arg_at(file: &[u8], t: Trailer, i: usize, n: usize) -> usize
    requires { RecordsFit file.now t × (i < t.nodes) × (n < 8) }
    ensures { (result ≡ get_or (record_of file.now t i).args n 0) × (result < 256) }
{
    usize::from(file[t.start + 16 * i + 8 + n])
}

// Node i's record, and past the last node a stop's: there is nothing.
pub fn node_or_stop(file: &[u8], t: Trailer, i: usize) -> Record
    requires { RecordsFit file.now t }
    ensures { node_of result ≡ node_at (array_of file.now t) i }
{
    if t.nodes <= i {
        return Record {
            kind: Kind::Stop,
            arity: 0,
            left: 0,
            right: 0,
            name: 0,
            pad: 0,
            args: [0; 8],
        };
    }
    node_at(file, t, i)
}

// The same of an array file, as the other crates ask for them.
impl ArrayFile<'_> {
    pub fn node_at(&self, i: usize) -> Record
        requires { i < self.now.trailer.nodes }
        ensures { result ≡ record_of self.now.bytes.now self.now.trailer i }
    {
        node_at(self.bytes, self.trailer, i)
    }

    pub fn arg_at(&self, i: usize, n: usize) -> usize
        requires { (i < self.now.trailer.nodes) × (n < 8) }
        ensures { (result ≡ get_or (record_of self.now.bytes.now self.now.trailer i).args n 0) × (result < 256) }
    {
        arg_at(self.bytes, self.trailer, i, n)
    }

    pub fn node_or_stop(&self, i: usize) -> Record
        ensures { node_of result ≡ node_at (array_of self.now.bytes.now self.now.trailer) i }
    {
        node_or_stop(self.bytes, self.trailer, i)
    }
}

// ---- kinds by name

pub fn is_stop(r: Record) -> bool
    ensures { result ≡ is_stop (node_of r) }
{
    matches!(r.kind, Kind::Stop)
}

// Opens a channel: a new.
pub fn is_new(r: Record) -> bool
    ensures { result ≡ is_new_node (node_of r) }
{
    matches!(r.kind, Kind::New)
}

pub fn is_par(r: Record) -> bool
    ensures { result ≡ is_par (node_of r) }
{
    matches!(r.kind, Kind::Par)
}

pub fn is_choice(r: Record) -> bool
    ensures { result ≡ is_choice (node_of r) }
{
    matches!(r.kind, Kind::Choice)
}

// Has a left child: all but a stop.
pub fn continues(r: Record) -> bool
    ensures { result ≡ not (is_stop (node_of r)) }
{
    !is_stop(r)
}

// Has a right child too: par and choice.
pub fn branches(r: Record) -> bool
    ensures { result ≡ is_par (node_of r) || is_choice (node_of r) }
{
    matches!(r.kind, Kind::Par | Kind::Choice)
}

// Out, in or resource.
pub fn is_agent(r: Record) -> bool
    ensures { result ≡ is_agent (node_of r) }
{
    matches!(
        r.kind,
        Kind::Out | Kind::In | Kind::Resource | Kind::Other(_)
    )
}

// An out.
pub fn sends(r: Record) -> bool
    ensures { result ≡ is_out (node_of r) }
{
    matches!(r.kind, Kind::Out)
}

// In or resource.
pub fn receives(r: Record) -> bool
    ensures { result ≡ is_receiver (node_of r) }
{
    matches!(r.kind, Kind::In | Kind::Resource | Kind::Other(_))
}

pub fn is_resource(r: Record) -> bool
    ensures { result ≡ is_resource (node_of r) }
{
    matches!(r.kind, Kind::Resource | Kind::Other(_))
}
