// walk: reads an array from standard input and walks it, every choice to the left, at most 100 steps, with room for 128 threads and 1,024
// markers. Writes a line for each step (the receiver's agent, the sender's agent, the marker number of the receiver's continuation) and
// last the ending and the steps. Thin: the library decides each step and the ending, and counts; this program prints what it is told.
#![tactic(auto)]

use engine::Allowance;
use handover::Told;
use lent::Counts;
use records::Refusal;

// The walk from the start, told step by step.
fn print_walk(rt: &impl Print, array: &[u8], threads: &mut [u32]) -> Result<(), Refusal> {
    let choices = [0u8; 128];
    let mut markers = [0u16; 4096];
    let mut counts = Counts {
        threads: handover::start(array, &choices, threads)?,
        markers: 0,
    };
    let mut allowance = Allowance::new(100);
    loop {
        let told = handover::stride(array, &choices, threads, &mut markers, counts, allowance)?;
        match told {
            Told::Ended(ending, steps) => {
                let _ = println!(rt; "{ending} {steps}");
                return Ok(());
            }
            Told::Made(turn) => {
                let _ = println!(rt; "{} {} {}", turn.receiver, turn.sender, turn.marker);
                counts = turn.counts;
                allowance = turn.allowance;
            }
        }
    }
}

// The walk of an array of at most 62 names: 128 threads take 128 × (2 + N) words.
fn print_array(rt: &impl Print, array: &[u8]) -> Result<(), Refusal> {
    let names = handover::read_array(array)?.names;
    if 62 < names {
        let _ = println!(rt; "too many names");
        return Ok(());
    }
    let mut threads = [0u32; 8192];
    print_walk(rt, array, &mut threads[..128 * (2 + names)])
}

fn main(rt: HostRuntime) {
    let mut array = [0u8; lines::ARRAY_ROOM];
    let array = lines::read_full(&mut rt.stdin(), &mut array);
    if let Err(refusal) = print_array(&rt, array) {
        lines::print_refused(&rt, refusal.reason.number(), refusal.place);
    }
}
