// The step engine on the lists of an array that was read: start, step, and the walk of first ready pairs.
// Promises the model's start, step and walk. Depends on steps, lent, ready, threads, markers, unfolds, frees, arrays, records, wire,
// model and laws. The free names of all nodes are worked out once per call, into 32,768 bytes of the engine's own.
#![tactic(auto)]

ghost use Rattle.std.specs.Prelude.{◌≡◌, true, ◌+◌, ◌*◌, ◌-◌, ◌<◌, length, get_or, replicate};
ghost use Rattle.model.specs.Calculus.{choices_of};
ghost use Rattle.model.specs.Numbers.{nobody};
ghost use Rattle.model.specs.Memory.{threads_in, formed, walk_in, try, turn_in, next_in};
ghost use Rattle.records.specs.ArrayFile.{array_in};
ghost use Rattle.arrays.specs.File.{IsRead};
ghost use Rattle.lent.specs.Lent.{lent_of};
ghost use Rattle.steps.specs.Steps.{Fires};
ghost use Rattle.ready.specs.Ready.{meeting};
ghost use Rattle.engine.specs.Engine.{Begins, FiresChecked, Strides, walked_of, WalkedAs, Turns};

use lent::Counts;
use model::Ending;
use ready::Pair;
use records::{ArrayFile, Reason};
use steps::Fired;
use unfolds::Ground;

// The steps that a walk may make in all, and how many of them are left.
#[derive(Clone, Copy)]
pub struct Allowance {
    pub allowed: u32,
    pub left: u32,
}

impl Allowance {
    // The allowance of a walk that has made no step yet.
    pub fn new(allowed: u32) -> Allowance
        ensures { result ≡ record { allowed = allowed; left = allowed } }
    {
        Allowance {
            allowed,
            left: allowed,
        }
    }

    // The allowance after one step more.
    pub fn spend(self) -> Allowance
        requires { 0 < self.left }
        ensures { result ≡ record { allowed = self.allowed; left = self.left - 1 } }
    {
        Allowance {
            left: self.left - 1,
            ..self
        }
    }

    // The steps made so far; none where more are left than were allowed.
    pub fn made(self) -> u32
        ensures { result ≡ self.allowed - self.left }
    {
        self.allowed.saturating_sub(self.left)
    }
}

// One step of a walk: the receiver's and the sender's agent, the marker number of the receiver's continuation, and what the next step goes by:
// the counts after it and the lessened allowance.
#[derive(Clone, Copy)]
pub struct Turn {
    pub receiver: usize,
    pub sender: usize,
    pub marker: u32,
    pub counts: Counts,
    pub allowance: Allowance,
}

// The walk's next step, or why there is none. An enum of its own: an end is told like a step, and is no error as in a Result.
#[derive(Clone, Copy)]
pub enum Stride {
    Ended(Ending),
    Made(Turn),
}

// How a walk ended, the steps it made, and the counts it left.
#[derive(Clone, Copy)]
pub struct Walk {
    pub ending: Ending,
    pub steps: u32,
    pub counts: Counts,
}

// The start, with an environment where no name holds anything.
fn start_with(ground: &Ground, threads: &mut [u32], env: &mut [u32]) -> Result<Fired, Reason>
    requires { env.old ≡ replicate ground.now.array.trailer.names 0 }
    ensures { Begins ground.now.array.bytes.now ground.now.array.trailer ground.now.choices.now threads.old result threads.new }
{
    let total = ground.count_threads(0, 0, env, 0);
    if !lent::threads_fit(threads, ground.array.trailer.names, total) {
        return Err(Reason::Threads);
    }
    ground.unfold_node(0, 0, env, threads, 0);
    Ok(Fired {
        counts: Counts {
            threads: total,
            markers: 0,
        },
        marker: 0,
    })
}

// Writes the start, or refuses it by 28.
pub fn start(array: &ArrayFile, choices: &[u8], threads: &mut [u32]) -> Result<Fired, Reason>
    requires { IsRead array.now.bytes.now array.now.trailer × (length choices.now ≡ 128) }
    ensures { Begins array.now.bytes.now array.now.trailer choices.now threads.old result threads.new }
{
    let mut frees = [0u64; 4096];
    frees::fill_frees(&mut frees, array);
    let ground = Ground {
        array: *array,
        frees: &frees,
        choices,
    };
    let mut env = [0u32; 256];
    let n = array.trailer.names;
    start_with(&ground, threads, &mut env[..n])
}

// A step on well-formed lists: what it leaves, or 24 to 29.
fn step_formed(
    ground: &Ground,
    threads: &mut [u32],
    markers: &mut [u16],
    counts: Counts,
    pair: Pair,
) -> Result<Fired, Reason>
    requires { formed (array_in ground.now.array) (lent_of threads.old markers.old counts) ≡ true }
    ensures { Fires ground.now.array.bytes.now ground.now.array.trailer ground.now.choices.now threads.old markers.old counts
        pair.receiver pair.sender result threads.new markers.new }
{
    let count = counts.threads;
    if (count <= pair.receiver) | (count <= pair.sender) {
        return Err(Reason::Position);
    }
    ready::pair_refusal(&ground.array, threads, pair)?;
    steps::fire(ground, threads, markers, counts, pair)
}

// A step of threads r and s, two numbers as the front page's `step` takes them: what it leaves, or 23 to 29.
pub fn step(
    array: &ArrayFile,
    choices: &[u8],
    threads: &mut [u32],
    markers: &mut [u16],
    counts: Counts,
    r: usize,
    s: usize,
) -> Result<Fired, Reason>
    requires { IsRead array.now.bytes.now array.now.trailer × (length choices.now ≡ 128) }
    ensures { FiresChecked array.now.bytes.now array.now.trailer choices.now threads.old markers.old counts r s
        result threads.new markers.new }
{
    let mut frees = [0u64; 4096];
    if !lent::lists_formed(&mut frees, array, threads, markers, counts) {
        return Err(Reason::Lists);
    }
    let ground = Ground {
        array: *array,
        frees: &frees,
        choices,
    };
    let pair = Pair {
        receiver: r,
        sender: s,
    };
    step_formed(&ground, threads, markers, counts, pair)
}

// The step of a ready pair as one turn of the walk.
fn pair_turn(
    ground: &Ground,
    threads: &mut [u32],
    markers: &mut [u16],
    counts: Counts,
    pair: Pair,
    allowance: Allowance,
) -> Stride
    requires counts_value { formed (array_in ground.now.array) (lent_of threads.old markers.old counts) ≡ true
        × (pair.receiver < counts.threads) × (pair.sender < counts.threads) }
    requires nobody_value { meeting (array_in ground.now.array)
        (get_or (threads_in ground.now.array.trailer.names counts.threads threads.old) pair.receiver nobody)
        (get_or (threads_in ground.now.array.trailer.names counts.threads threads.old) pair.sender nobody) ≡ 0 }
    requires left_nonzero { 0 < allowance.left }
    ensures { Strides (array_in ground.now.array) allowance (lent_of threads.old markers.old counts)
        (turn_in (array_in ground.now.array) (lent_of threads.old markers.old counts)
        (try (choices_of ground.now.choices.now) pair.receiver pair.sender))
        result threads.new markers.new }
{
    let width = 2 + ground.array.trailer.names;
    let receiver = threads[pair.receiver * width] as usize;
    let sender = threads[pair.sender * width] as usize;
    let lessened = allowance.spend();
    let fired = steps::fire(ground, threads, markers, counts, pair);
    match fired {
        Err(_reason) => Stride::Ended(Ending::Full),
        Ok(made) => Stride::Made(Turn {
            receiver,
            sender,
            marker: made.marker,
            counts: made.counts,
            allowance: lessened,
        }),
    }
}

// One turn of the walk on well-formed lists.
fn stride_formed(
    ground: &Ground,
    threads: &mut [u32],
    markers: &mut [u16],
    counts: Counts,
    allowance: Allowance,
) -> Stride
    requires { formed (array_in ground.now.array) (lent_of threads.old markers.old counts) ≡ true }
    ensures { Strides (array_in ground.now.array) allowance (lent_of threads.old markers.old counts)
        (next_in (array_in ground.now.array) (choices_of ground.now.choices.now) allowance.left
        (lent_of threads.old markers.old counts))
        result threads.new markers.new }
{
    let Some(pair) = ready::first_ready(&ground.array, threads, counts.threads) else {
        return Stride::Ended(Ending::Quiet);
    };
    if allowance.left == 0 {
        return Stride::Ended(Ending::Spent);
    }
    pair_turn(ground, threads, markers, counts, pair, allowance)
}

// The walk on well-formed lists. The allowance passes from step to step.
fn walk_formed(
    ground: &Ground,
    threads: &mut [u32],
    markers: &mut [u16],
    counts: Counts,
    allowed: u32,
) -> Walk
    requires { formed (array_in ground.now.array) (lent_of threads.old markers.old counts) ≡ true }
    ensures { walked_of result threads.new markers.new
        ≡ walk_in (array_in ground.now.array) (choices_of ground.now.choices.now) allowed
        (lent_of threads.old markers.old counts) }
{
    let mut allowance = Allowance::new(allowed);
    let mut used = counts;
    loop {
        let stride = stride_formed(ground, threads, markers, used, allowance);
        match stride {
            Stride::Ended(ending) => {
                return Walk {
                    ending,
                    steps: allowance.made(),
                    counts: used,
                };
            }
            Stride::Made(turn) => {
                used = turn.counts;
                allowance = turn.allowance;
            }
        }
    }
}

// The walk: how it ended, or 23.
pub fn walk_lists(
    array: &ArrayFile,
    choices: &[u8],
    threads: &mut [u32],
    markers: &mut [u16],
    counts: Counts,
    allowed: u32,
) -> Result<Walk, Reason>
    requires { IsRead array.now.bytes.now array.now.trailer × (length choices.now ≡ 128) }
    ensures { WalkedAs (array_in array.now) (choices_of choices.now) allowed
        (lent_of threads.old markers.old counts) result threads.new markers.new }
{
    let mut frees = [0u64; 4096];
    if !lent::lists_formed(&mut frees, array, threads, markers, counts) {
        return Err(Reason::Lists);
    }
    let ground = Ground {
        array: *array,
        frees: &frees,
        choices,
    };
    Ok(walk_formed(&ground, threads, markers, counts, allowed))
}

// One turn of the walk: an ending or the step made, or 23.
pub fn next_turn(
    array: &ArrayFile,
    choices: &[u8],
    threads: &mut [u32],
    markers: &mut [u16],
    counts: Counts,
    allowance: Allowance,
) -> Result<Stride, Reason>
    requires { IsRead array.now.bytes.now array.now.trailer × (length choices.now ≡ 128) }
    ensures { Turns (array_in array.now) (choices_of choices.now) allowance
        (lent_of threads.old markers.old counts) result threads.new markers.new }
{
    let mut frees = [0u64; 4096];
    if !lent::lists_formed(&mut frees, array, threads, markers, counts) {
        return Err(Reason::Lists); // told step by step
    }
    let ground = Ground {
        array: *array,
        frees: &frees,
        choices,
    };
    Ok(stride_formed(&ground, threads, markers, counts, allowance))
}
