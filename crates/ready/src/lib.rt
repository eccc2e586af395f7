// Pairs of threads: whether a receiver and a sender are ready, and the first pair that is.
// Promises equations with refusals 25 to 27 of the model's attempt. Depends on arrays, records, wire, model and laws.
#![tactic(auto)]

ghost use Rattle.std.specs.Prelude.{◌≡◌, true, ℕ, ◌+◌, ◌*◌, ◌<◌, ◌≤◌, length, get_or, drop, slice_set};
ghost use Rattle.laws.specs.Lists.{one};
ghost use Rattle.model.specs.Tree.{node_at, is_agent};
ghost use Rattle.model.specs.Calculus.{Choices};
ghost use Rattle.model.specs.Memory.{thread_in, threads_in};
ghost use Rattle.records.specs.ArrayFile.{array_in};
ghost use Rattle.arrays.specs.File.{IsRead};
ghost use Rattle.ready.specs.Ready.{Acts, act_at, told, meet, FirstSender, NoneReady, Seen, meeting, first_meeting, found_pair};

use records::{ArrayFile, Reason};

// Two threads by their positions.
#[derive(Clone, Copy, Debug, PartialEq, Eq)]
pub struct Pair {
    pub receiver: usize,
    pub sender: usize,
}

// What a thread does: whether its agent receives or sends, the arity, and the word of its channel.
#[derive(Clone, Copy)]
struct Act {
    receives: bool,
    sends: bool,
    arity: usize,
    channel: u32,
}

// The threads in use on an array that was read: the first `count` of the words, each an agent's.
#[derive(Clone, Copy)]
struct Threads<'a> {
    array: ArrayFile<'a>,
    words: &'a [u32],
    count: usize,
    ghost read: { IsRead array.bytes.now array.trailer },
    ghost few: { count ≤ 256 },
    ghost acts: { (i : ℕ) → i < count → Acts array.bytes.now array.trailer words.now i },
}

// The senders among the first `seen` threads: their positions, the first `noted` of `at`, in rising order.
#[derive(Clone, Copy)]
struct Senders {
    at: [u8; 256],
    noted: usize,
    seen: usize,
}

impl Senders {
    // The next thread is seen: its position is stored, and stays there if the thread sends.
    fn see(&mut self, q: Act)
        requires { (self.old.noted ≤ self.old.seen) × (self.old.seen < 256) }
        ensures { self.new ≡ record {
          at = slice_set self.old.at self.old.noted self.old.seen;
          noted = self.old.noted + one q.sends;
          seen = self.old.seen + 1;
        } }
    {
        self.at[self.noted] = self.seen as u8;
        self.noted += usize::from(q.sends);
        self.seen += 1;
    }
}

// What thread i does.
fn act_at(array: &ArrayFile, threads: &[u32], i: usize) -> Act
    requires { IsRead array.now.bytes.now array.now.trailer × Acts array.now.bytes.now array.now.trailer threads.now i }
    ensures { result ≡ act_at array.now.bytes.now array.now.trailer threads.now i }
{
    let at = i * (2 + array.trailer.names);
    let r = array.node_at(threads[at] as usize);
    Act {
        receives: records::receives(r),
        sends: records::sends(r),
        arity: r.arity,
        channel: threads[at + 2 + r.name],
    }
}

// Whether the receiver and the sender are ready, else 25 to 27.
fn meets(p: Act, q: Act) -> Result<(), Reason>
    ensures { told result ≡ meet p q }
{
    if !(p.receives & q.sends) {
        return Err(Reason::Roles);
    }
    if p.arity != q.arity {
        return Err(Reason::Arities);
    }
    if !((p.channel != 0) & (p.channel == q.channel)) {
        return Err(Reason::Channels);
    }
    Ok(())
}

// Whether the two threads of a pair are ready, else 25 to 27.
pub fn pair_refusal(array: &ArrayFile, threads: &[u32], pair: Pair) -> Result<(), Reason>
    requires { IsRead array.now.bytes.now array.now.trailer × Acts array.now.bytes.now array.now.trailer threads.now pair.receiver
        × Acts array.now.bytes.now array.now.trailer threads.now pair.sender }
    ensures { told result ≡ meeting (array_in array.now)
        (thread_in array.now.trailer.names (drop (pair.receiver * (2 + array.now.trailer.names)) threads.now))
        (thread_in array.now.trailer.names (drop (pair.sender * (2 + array.now.trailer.names)) threads.now)) }
{
    let p = act_at(array, threads, pair.receiver);
    let q = act_at(array, threads, pair.sender);
    meets(p, q)
}

impl Threads<'_> {
    // The first noted sender that is ready with receiver p.
    fn first_noted(&self, p: Act, senders: &Senders) -> Option<usize>
        requires { Seen self.now.array.bytes.now self.now.array.trailer self.now.words.now self.now.count senders.now }
        ensures { FirstSender self.now.array.bytes.now self.now.array.trailer self.now.words.now senders.now.seen p result }
    {
        for place in &senders.at[..senders.noted] {
            let s = usize::from(*place);
            let q = act_at(&self.array, self.words, s);
            if meets(p, q).is_ok() {
                return Some(s);
            }
        }
        None
    }

    // The first sender among the threads not seen yet that is ready with receiver p.
    fn first_unseen(&self, p: Act, senders: &mut Senders) -> Option<usize>
        requires seen { Seen self.now.array.bytes.now self.now.array.trailer self.now.words.now self.now.count senders.old }
        requires none { NoneReady self.now.array.bytes.now self.now.array.trailer self.now.words.now p senders.old.seen }
        ensures { FirstSender self.now.array.bytes.now self.now.array.trailer self.now.words.now self.now.count p result
            × Seen self.now.array.bytes.now self.now.array.trailer self.now.words.now self.now.count senders.new }
    {
        for s in senders.seen..self.count {
            let q = act_at(&self.array, self.words, s);
            senders.see(q);
            if meets(p, q).is_ok() {
                return Some(s);
            }
        }
        None
    }

    // The first sender that is ready with receiver p: among the noted ones, then among the threads not seen yet.
    fn first_sender(&self, p: Act, senders: &mut Senders) -> Option<usize>
        requires { Seen self.now.array.bytes.now self.now.array.trailer self.now.words.now self.now.count senders.old }
        ensures { FirstSender self.now.array.bytes.now self.now.array.trailer self.now.words.now self.now.count p result
            × Seen self.now.array.bytes.now self.now.array.trailer self.now.words.now self.now.count senders.new }
    {
        if !p.receives {
            return None;
        }
        if let Some(s) = self.first_noted(p, senders) {
            return Some(s);
        }
        self.first_unseen(p, senders)
    }
}

// The first ready pair: lowest receiver, then lowest sender. Senders are noted as they are seen, so that each further receiver
// is compared with them alone.
// The list comes whole with a count and not cut to it: it is lent so to every call, and a cut would be one slice more in each clause.
pub fn first_ready(array: &ArrayFile, threads: &[u32], count: usize) -> Option<Pair>
    requires read { IsRead array.now.bytes.now array.now.trailer × (count ≤ 256) × (count * (2 + array.now.trailer.names) ≤ length threads.now) }
    requires by_index { (i : ℕ) → i < count
        → is_agent (node_at (array_in array.now) (get_or threads.now (i * (2 + array.now.trailer.names)) 0)) ≡ true }
    ensures { (ch : Choices) → found_pair result ch
        ≡ first_meeting (array_in array.now) (threads_in array.now.trailer.names count threads.now) count ch }
{
    let list = Threads {
        array: *array,
        words: threads,
        count,
    };
    let mut senders = Senders {
        at: [0; 256],
        noted: 0,
        seen: 0,
    };
    for receiver in 0..count {
        let p = act_at(array, threads, receiver);
        if let Some(sender) = list.first_sender(p, &mut senders) {
            return Some(Pair { receiver, sender });
        }
    }
    None
}
