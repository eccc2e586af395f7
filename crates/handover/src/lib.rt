// The front page: every public entry with its whole contract. Whoever reads this file and the definitions that it cites knows all
// that is promised. No entry has a `requires`; each answers every byte string. Bodies are thin. Depends on every crate below.
//
//   read_array   specs/Front: refusals 1 to 12, or what the trailer says
//   remark       specs/File of arrays: the leading part of the caller's own slice
//   read_table   specs/Front: refusals 1 to 21, 30 and 31, or the sizes; a table that is read has its claims in their one order, and no other
//                that is read beside the same array has the same rows, balances and claims
//   check        specs/Front: refusals 1 to 21, 30 and 31, the first broken rule and its place, or held; held exactly when the five rules hold
//                (demand 2), and then demand 3
//   mend         specs/Mending: refusals 1 to 21, 30, 31 and 32, or the number of bits set; the output holds the table with the smallest rows that
//                contain the given ones and meet rules 1 and 3
//   start        specs/Engine: refusals 1 to 12, 22, 28, or the thread count; the list holds the calculus' start
//   step         specs/Engine: refusals 1 to 12, 22 to 29, or the new counts; the lists hold the calculus' next configuration
//   walk         specs/Engine: refusals 1 to 12, 22, 23, or the ending, the steps made and the counts
//   stride       specs/Engine: that walk told step by step: each step's two agents and the marker number of the receiver's continuation, then
//                the ending and the steps made; refusals as for the walk
//
// The numbers that each may refuse by are in specs/Refusals.
//
// `check` takes about 140 KiB of stack and `mend` about 150 (measured), for lists of their own and the table of reaching names. `start`, `step`, `walk`
// and `stride` take up to about 240 KiB (measured), for the table of free names, the marks of marker entries and a frame for each new, par and
// choice on the deepest path of one unfolding, at most 640.
#![tactic(auto)]

ghost use Rattle.std.specs.Prelude.{◌≡◌, [], ◌-◌, MatchResult};
ghost use Rattle.model.specs.Memory.{memory};
ghost use Rattle.laws.specs.Search.{hit};
ghost use Rattle.records.specs.Record.{told};
ghost use Rattle.arrays.specs.File.{remark_of};
ghost use Rattle.handover.specs.Front.{ArrayPromise, TablePromise, Judges};
ghost use Rattle.handover.specs.Mending.{MendPromise};
ghost use Rattle.handover.specs.Engine.{start_refusal, StartPromise, StepPromise, WalkPromise, StridePromise};
ghost use Rattle.handover.specs.Bodies.{verdict_of, told_of, Admitted};

use engine::{Allowance, Stride, Turn, Walk};
use layout::{Sizes, TableFile};
use lent::Counts;
use model::Ending;
use records::{ArrayFile, Reason, Refusal, Trailer};
use rules::Broken;
use std::fmt;

// Held with M, N, K, Q and the format, or the first broken rule with its place figures. A case for each of 01's answers: a broken rule is what was asked for
// and no refusal, so that a Result would call it an error.
#[derive(Clone, Copy)]
pub enum Verdict {
    Held(Sizes),
    Rule1(usize),
    Rule2(usize),
    Rule3(usize, usize, usize),
    Rule4(usize, usize, usize),
    Rule5(usize),
}

// As `judge` prints it.
impl fmt::Display for Verdict {
    fn fmt<W: fmt::Write>(&self, f: &mut fmt::Formatter<W>) -> fmt::Result {
        match self {
            Verdict::Held(z) => {
                write!(
                    f,
                    "held {} {} {} {}",
                    z.nodes, z.names, z.balances, z.claims
                )
            }
            Verdict::Rule1(o) => write!(f, "rule 1 {o}"),
            Verdict::Rule2(k) => write!(f, "rule 2 {k}"),
            Verdict::Rule3(p, q, n) => write!(f, "rule 3 {p} {q} {n}"),
            Verdict::Rule4(p, q, k) => write!(f, "rule 4 {p} {q} {k}"),
            Verdict::Rule5(c) => write!(f, "rule 5 {c}"),
        }
    }
}

// One step of a walk as it is told, or its ending with the steps made. An ending is told like a step and is no error, so this is no Result.
#[derive(Clone, Copy)]
pub enum Told {
    Made(Turn),
    Ended(Ending, u32),
}

// Reads an array file.
pub fn read_array(file: &[u8]) -> Result<Trailer, Refusal>
    ensures { ArrayPromise file.now result }
{
    arrays::read_array(file)
}

// The remark of an array file: a part of the caller's own file, empty after a refusal.
pub fn remark(file: &[u8]) -> &[u8]
    ensures { (result.now ≡ remark_of file.now) × (result.ref_ptr ≡ file.entry.ref_ptr) }
{
    arrays::remark(file)
}

// Reads a table file beside its array file.
pub fn read_table(array: &[u8], table: &[u8]) -> Result<Sizes, Refusal>
    ensures { TablePromise array.now table.now result }
{
    tables::read_table(array, table)
}

// The verdict that a ruling is, of a table with these sizes, which held alone takes.
fn verdict_of(ruling: Result<(), Broken>, z: Sizes) -> Verdict
    ensures { result ≡ verdict_of ruling z }
{
    match ruling {
        Ok(()) => Verdict::Held(z),
        Err(Broken::Rule1(o)) => Verdict::Rule1(o),
        Err(Broken::Rule2(k)) => Verdict::Rule2(k),
        Err(Broken::Rule3(p, q, n)) => Verdict::Rule3(p, q, n),
        Err(Broken::Rule4(p, q, k)) => Verdict::Rule4(p, q, k),
        Err(Broken::Rule5(c)) => Verdict::Rule5(c),
    }
}

// Judges a table against its array.
pub fn check(array: &[u8], table: &[u8]) -> Result<Verdict, Refusal>
    ensures { Judges array.now table.now result }
{
    let array = arrays::open(array)?;
    tables::check_table(&array, table)?;
    let z = layout::read_sizes(array.trailer, table);
    let read = TableFile {
        bytes: table,
        sizes: z,
    };
    Ok(verdict_of(rules::judge(&array, &read), z))
}

// Sets the bits that rules 1 and 3 ask for, and writes the mended table. A refusal changes no byte.
pub fn mend(array: &[u8], table: &[u8], output: &mut [u8]) -> Result<usize, Refusal>
    ensures { MendPromise array.now table.now output.old result output.new }
{
    let file = arrays::open(array)?;
    tables::check_table(&file, table)?;
    if output.len() < table.len() {
        return Err(Reason::Output.into());
    }
    let z = layout::read_sizes(file.trailer, table);
    let read = TableFile {
        bytes: table,
        sizes: z,
    };
    Ok(mending::mend_table(output, &file, &read))
}

// An array file that was read beside 128 choice bytes, or refusals 1 to 12 and 22.
fn admit<'a>(array: &'a [u8], choices: &[u8]) -> Result<ArrayFile<'a>, Refusal>
    ensures { MatchResult result
        (λ file. Admitted array.now choices.now file.bytes.now file.trailer)
        (λ refusal. start_refusal array.now choices.now ≡ hit (told refusal)) }
{
    let file = arrays::open(array)?;
    if choices.len() != 128 {
        return Err(Reason::Choices.into());
    }
    Ok(file)
}

// Writes the start into the thread list. A refusal changes no word.
pub fn start(array: &[u8], choices: &[u8], threads: &mut [u32]) -> Result<usize, Refusal>
    ensures { StartPromise array.now choices.now (memory threads.old 0 [] 0) result threads.new }
{
    let file = admit(array, choices)?;
    let started = engine::start(&file, choices, threads)?;
    Ok(started.counts.threads)
}

// Makes one step on the lists. A refusal changes no word.
pub fn step(
    array: &[u8],
    choices: &[u8],
    threads: &mut [u32],
    markers: &mut [u16],
    counts: Counts,
    receiver: usize,
    sender: usize,
) -> Result<Counts, Refusal>
    ensures { StepPromise array.now choices.now
        (memory threads.old counts.threads markers.old counts.markers)
        receiver sender result threads.new markers.new }
{
    let file = admit(array, choices)?;
    let made = engine::step(&file, choices, threads, markers, counts, receiver, sender)?;
    Ok(made.counts)
}

// Walks from ready pair to ready pair, at most `allowed` steps. A refusal changes no word.
pub fn walk(
    array: &[u8],
    choices: &[u8],
    threads: &mut [u32],
    markers: &mut [u16],
    counts: Counts,
    allowed: u32,
) -> Result<Walk, Refusal>
    ensures { WalkPromise array.now choices.now
        (memory threads.old counts.threads markers.old counts.markers)
        allowed result threads.new markers.new }
{
    let file = admit(array, choices)?;
    let walked = engine::walk_lists(&file, choices, threads, markers, counts, allowed)?;
    Ok(walked)
}

// What is told of a turn of the walk.
fn told_of(stride: Stride, allowance: Allowance) -> Told
    ensures { result ≡ told_of stride (allowance.allowed - allowance.left) }
{
    match stride {
        Stride::Ended(e) => Told::Ended(e, allowance.made()),
        Stride::Made(t) => Told::Made(t),
    }
}

// The walk told step by step: makes its next step and tells it, or how it ended and the steps made. A refusal and an ending change no word.
pub fn stride(
    array: &[u8],
    choices: &[u8],
    threads: &mut [u32],
    markers: &mut [u16],
    counts: Counts,
    allowance: Allowance,
) -> Result<Told, Refusal>
    ensures { StridePromise array.now choices.now
        (memory threads.old counts.threads markers.old counts.markers)
        allowance result threads.new markers.new }
{
    let file = admit(array, choices)?;
    let strode = engine::next_turn(&file, choices, threads, markers, counts, allowance)?;
    Ok(told_of(strode, allowance))
}
