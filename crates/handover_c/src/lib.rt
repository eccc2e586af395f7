// The entries for C, as include/handover.h declares them. Each calls the front page's entry of the same name and returns its answer as one
// number, by the definitions in specs/Packed. Nothing is decided here. Depends on the front page and the crates whose types it names.
//
// A slice passes as a pointer and its length in elements; see the header for what a caller must see to.
#![tactic(auto)]

ghost use Rattle.std.specs.Prelude.{◌+◌, ◌*◌, ◌^◌, ◌≤◌, ◌<◌, ◌≡◌, [], length};
ghost use Rattle.records.specs.Record.{number_of};
ghost use Rattle.arrays.specs.File.{remark_of};
ghost use Rattle.model.specs.Memory.{memory};
ghost use Rattle.handover.specs.Front.{outcome_of, says};
ghost use Rattle.handover.specs.Refusals.{said, TableNumber, MendNumber, StartNumber, StepNumber, WalkNumber};
ghost use Rattle.handover_c.specs.Packed.{packed_reply, packed_outcome, packed_mend, packed_start, packed_step, packed_walk, denied, counted, ending};
ghost use Rattle.handover_c.specs.Packed.{FitsReply, FitsOutcome, FitsMend, FitsCounts, FitsStart, FitsStep, FitsWalk};
ghost use Rattle.handover_c.specs.Packed.{ChecksInC, MendsInC, StartsInC, StepsInC, WalksInC};

use engine::Walk;
use handover::Verdict;
use lent::Counts;
use model::Ending;
use records::Refusal;

// A rule's number with the figures of its place.
fn pack_rule(number: u64, first: usize, second: usize, third: usize) -> u64
    requires { (number < 2 ^ 8) × (first < 2 ^ 16) × (second < 2 ^ 16) × (third < 2 ^ 16) }
    ensures { result ≡ number + (2 ^ 8 * first + 2 ^ 24 * second + 2 ^ 40 * third) }
{
    number + (256 * first as u64 + 16777216 * second as u64 + 1099511627776 * third as u64)
}

// A refusal's number with its place.
fn pack_refusal(r: Refusal) -> u64
    requires { (number_of r.reason ≤ 39) × (r.place < 2 ^ 16) }
    ensures { result ≡ denied (number_of r.reason) r.place }
{
    100 + u64::from(r.reason.number()) + 256 * r.place as u64
}

// A code with the counts and the steps made.
fn pack_counts(code: u64, counts: Counts, steps: u32) -> u64
    requires { (code < 2 ^ 8) × FitsCounts counts.threads counts.markers }
    ensures { result ≡ counted code counts.threads counts.markers steps }
{
    code + 256 * counts.threads as u64 + 262144 * counts.markers as u64 + 4294967296 * steps as u64
}

// The code of an ending.
fn ending_code(e: Ending) -> u64
    ensures { (result ≡ ending e) × (result < 3) }
{
    match e {
        Ending::Quiet => 0,
        Ending::Spent => 1,
        Ending::Full => 2,
    }
}

// A verdict's number.
fn pack_verdict(v: Verdict) -> u64
    requires { FitsOutcome (outcome_of v) }
    ensures { result ≡ packed_outcome (outcome_of v) }
{
    match v {
        Verdict::Held(_z) => 0,
        Verdict::Rule1(o) => pack_rule(1, o, 0, 0),
        Verdict::Rule2(k) => pack_rule(2, k, 0, 0),
        Verdict::Rule3(p, q, n) => pack_rule(3, p, q, n),
        Verdict::Rule4(p, q, k) => pack_rule(4, p, q, k),
        Verdict::Rule5(c) => pack_rule(5, c, 0, 0),
    }
}

// The numbers of the answers, one function for each, since each has a definition of its own (specs/Packed). The checker's.
fn pack_check(x: Result<Verdict, Refusal>) -> u64
    requires { FitsReply FitsOutcome TableNumber (says x) }
    ensures { result ≡ packed_reply packed_outcome (says x) }
{
    match x {
        Ok(v) => pack_verdict(v),
        Err(r) => pack_refusal(r),
    }
}

// The number of a mending's answer.
fn pack_mend(x: Result<usize, Refusal>) -> u64
    requires { FitsReply FitsMend MendNumber (said x) }
    ensures { result ≡ packed_reply packed_mend (said x) }
{
    match x {
        Ok(bits) => 256 * bits as u64,
        Err(r) => pack_refusal(r),
    }
}

// The number of a start's answer.
fn pack_start(x: Result<usize, Refusal>) -> u64
    requires { FitsReply FitsStart StartNumber (said x) }
    ensures { result ≡ packed_reply packed_start (said x) }
{
    match x {
        Ok(threads) => pack_counts(
            0,
            Counts {
                threads,
                markers: 0,
            },
            0,
        ),
        Err(r) => pack_refusal(r),
    }
}

// The number of a step's answer.
fn pack_step(x: Result<Counts, Refusal>) -> u64
    requires { FitsReply FitsStep StepNumber (said x) }
    ensures { result ≡ packed_reply packed_step (said x) }
{
    match x {
        Ok(counts) => pack_counts(0, counts, 1),
        Err(r) => pack_refusal(r),
    }
}

// The number of a walk's answer.
fn pack_walk(x: Result<Walk, Refusal>) -> u64
    requires { FitsReply FitsWalk WalkNumber (said x) }
    ensures { result ≡ packed_reply packed_walk (said x) }
{
    match x {
        Ok(w) => {
            let e = w.ending;
            pack_counts(ending_code(e), w.counts, w.steps)
        }
        Err(r) => pack_refusal(r),
    }
}

// Judges a table against its array: 0 for held, else the rule or the refusal with its place.
#[unsafe(no_mangle)]
pub extern "C" fn handover_check(array: &[u8], table: &[u8]) -> u64
    ensures { ChecksInC array.now table.now result }
{
    pack_check(handover::check(array, table))
}

// Writes the mended table into the output. A refusal changes no byte.
#[unsafe(no_mangle)]
pub extern "C" fn handover_mend(array: &[u8], table: &[u8], output: &mut [u8]) -> u64
    ensures { MendsInC array.now table.now output.old result output.new }
{
    let answer = handover::mend(array, table, output);
    pack_mend(answer)
}

// Writes the start into the thread list. A refusal changes no word.
#[unsafe(no_mangle)]
pub extern "C" fn handover_start(array: &[u8], choices: &[u8], threads: &mut [u32]) -> u64
    ensures { StartsInC array.now choices.now (memory threads.old 0 [] 0) result threads.new }
{
    let answer = handover::start(array, choices, threads);
    pack_start(answer)
}

// Makes one step on the lists. A refusal changes no word.
#[unsafe(no_mangle)]
pub extern "C" fn handover_step(
    array: &[u8],
    choices: &[u8],
    threads: &mut [u32],
    thread_count: usize,
    markers: &mut [u16],
    marker_count: usize,
    receiver: usize,
    sender: usize,
) -> u64
    ensures { StepsInC array.now choices.now (memory threads.old thread_count markers.old marker_count)
        receiver sender result threads.new markers.new }
{
    let answer = handover::step(
        array,
        choices,
        threads,
        markers,
        Counts {
            threads: thread_count,
            markers: marker_count,
        },
        receiver,
        sender,
    );
    pack_step(answer)
}

// Walks from ready pair to ready pair, at most `allowed` steps. A refusal changes no word.
#[unsafe(no_mangle)]
pub extern "C" fn handover_walk(
    array: &[u8],
    choices: &[u8],
    threads: &mut [u32],
    thread_count: usize,
    markers: &mut [u16],
    marker_count: usize,
    allowed: u32,
) -> u64
    ensures { WalksInC array.now choices.now (memory threads.old thread_count markers.old marker_count)
        allowed result threads.new markers.new }
{
    let answer = handover::walk(
        array,
        choices,
        threads,
        markers,
        Counts {
            threads: thread_count,
            markers: marker_count,
        },
        allowed,
    );
    pack_walk(answer)
}

// The length of the array's remark, 0 after a refusal.
#[unsafe(no_mangle)]
pub extern "C" fn handover_remark(array: &[u8]) -> usize
    ensures { result ≡ length (remark_of array.now) }
{
    handover::remark(array).len()
}
