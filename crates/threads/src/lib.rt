// Threads in a lent list of words: copied, bound, moved together, and checked by the names of the array (the part of refusal 23 that is
// about threads). Promises equations with the model's threads. Depends on frees, arrays, records, marks, model and laws.
#![tactic(auto)]

ghost use Rattle.std.specs.Prelude.{◌≡◌, map, ℕ, ◌+◌, ◌*◌, ◌<◌, ◌≤◌, length, get_or, take, drop};
ghost use Rattle.laws.specs.Search.{every};
ghost use Rattle.laws.specs.Lists.{All, put};
ghost use Rattle.marks.specs.Marks.{HasRow, marked};
ghost use Rattle.model.specs.Tree.{is_new};
ghost use Rattle.model.specs.Calculus.{bind, keep};
ghost use Rattle.model.specs.Memory.{thread_in, threads_in, words_of, thread_formed};
ghost use Rattle.records.specs.Record.{args_of, array_of};
ghost use Rattle.arrays.specs.File.{IsRead};
ghost use Rattle.frees.specs.Frees.{AllFree};
ghost use Rattle.threads.specs.Threads.{remains, word_ok, threads_formed};

use records::{ArrayFile, Record};

// ---- words moved and copied

// Copies words from index `from` of a list over all of another.
pub fn copy_words(threads: &[u32], from: usize, env: &mut [u32])
    requires { from + length env.old ≤ length threads.now }
    ensures { env.new ≡ take (length env.old) (drop from threads.now) }
{
    env.copy_from_slice(&threads[from..from + env.len()]);
}

// Moves one thread down. Before the first that goes, threads are in place.
fn move_down(threads: &mut [u32], from: usize, to: usize, width: usize)
    requires { (to ≤ from) × (from + width ≤ length threads.old) }
    ensures { threads.new ≡ put to (take width (drop from threads.old)) threads.old }
{
    if to < from {
        threads.copy_within(from..from + width, to);
    }
}

// Moves the threads that stay together, in order. Nothing is written past the words that they use.
pub fn keep_threads(
    threads: &mut [u32],
    names: usize,
    count: usize,
    r: usize,
    s: usize,
    resource: bool,
)
    requires { (count * (2 + names) ≤ length threads.old) × (names ≤ 256) × (count ≤ 256) }
    ensures { threads.new
        ≡ put 0 (words_of (keep (remains resource r s) (threads_in names count threads.old))) threads.old }
{
    let width = 2 + names;
    let mut to: usize = 0;
    // a loop and no chain: a turn writes where later ones read
    for i in 0..count {
        let stays = (i != s) & (resource | (i != r));
        if stays {
            move_down(threads, i * width, to, width);
            to += width;
        }
    }
}

// ---- parameters

// Binds the parameters of record p to the words that `sent` has for the arguments of record q.
pub fn bind_params(p: Record, q: Record, sent: &[u32], env: &mut [u32])
    requires arity_value { (p.arity ≡ q.arity) × (p.arity ≤ 8) }
    requires all { All (λ y. y < length env.old) (args_of p) × All (λ z. z < length sent.now) (args_of q) }
    ensures { env.new ≡ bind (args_of p) (map (λ z. get_or sent.now z 0) (args_of q)) env.old }
{
    for k in (0..p.arity).rev() {
        env[usize::from(p.args[k])] = sent[usize::from(q.args[k])];
    }
}

// ---- well formed

// The names of an array that was read: which are free in each node, and which news open.
#[derive(Clone, Copy)]
pub struct Names<'a> {
    pub array: ArrayFile<'a>,
    pub frees: &'a [u64],
    pub news: [u64; 4],
    ghost read: { IsRead array.bytes.now array.trailer },
    ghost rows: { length frees.now ≡ 4096 },
    ghost free: { AllFree frees.now (array_of array.bytes.now array.trailer) },
    ghost opened: { (o : ℕ) → marked news 0 o ≡ is_new (array_of array.bytes.now array.trailer) o },
}

// A name's word is 0 exactly where the name isn't free, and otherwise its new is among those opened and its marker number at most
// `listed`.
fn word_formed(news: &[u64; 4], listed: usize, free: bool, x: u32) -> bool
    ensures { result ≡ word_ok (marked news.now 0) listed free x }
{
    if !free {
        return x == 0;
    }
    if x == 0 {
        return false;
    }
    let opening = (x - 1) as usize;
    let new = opening / 65536;
    if 256 <= new {
        return false;
    }
    let opens = marks::is_marked(news, 0, new);
    opens & (opening % 65536 <= listed)
}

impl Names<'_> {
    // The words of all names are well formed for agent i.
    fn names_formed(&self, listed: usize, i: usize, words: &[u32]) -> bool
        requires { HasRow self.now.frees.now i × (length words.now ≤ 256) }
        ensures { result ≡ every (length words.now) (λ v.
            word_ok (marked self.now.news 0) listed (marked self.now.frees.now i v) (get_or words.now v 0)) }
    {
        words.iter().enumerate().all(|(v, word)| word_formed(
            &self.news,
            listed,
            marks::is_marked(self.frees, i, v),
            *word,
        ))
    }

    // A thread is well formed.
    fn thread_formed(&self, listed: usize, thread: &[u32]) -> bool
        requires { length thread.now ≡ 2 + self.now.array.trailer.names }
        ensures { result ≡ thread_formed (array_of self.now.array.bytes.now self.now.array.trailer) listed
            (thread_in self.now.array.trailer.names thread.now) }
    {
        let i = thread[0] as usize;
        let r = self.array.node_or_stop(i);
        if !records::is_agent(r) {
            return false;
        }
        if listed < thread[1] as usize {
            return false;
        }
        self.names_formed(listed, i, &thread[2..])
    }

    // The first `count` threads are well formed.
    pub fn threads_formed(&self, listed: usize, threads: &[u32], count: usize) -> bool
        requires { (count ≤ 256) × (count * (2 + self.now.array.trailer.names) ≤ length threads.now) }
        ensures { result ≡ threads_formed (array_of self.now.array.bytes.now self.now.array.trailer)
            (threads_in self.now.array.trailer.names count threads.now) count listed }
    {
        let width = 2 + self.array.trailer.names;
        threads[..count * width]
            .chunks_exact(width)
            .all(|thread| self.thread_formed(listed, thread))
    }
}
