// The ground that start, step and walk go by, and unfolding a node on it into threads: counted, and written in place where there is room.
// Recursive; the environment is changed at a new and put back. Promises the words and the number of the model's threads.
// Depends on frees, arrays, records, marks, model and laws.
#![tactic(auto)]

ghost use Rattle.std.specs.Prelude.{◌≡◌, cond, [], ◌∷◌, ◌+◌, ◌*◌, ◌/◌, ◌<◌, ◌≤◌, min, length};
ghost use Rattle.laws.specs.Lists.{put};
ghost use Rattle.marks.specs.Marks.{HasRow, marked};
ghost use Rattle.model.specs.Calculus.{choices_of, cut_from};
ghost use Rattle.model.specs.Memory.{words, opening};
ghost use Rattle.unfolds.specs.Unfold.{Prepared, Unfolds, unfolded, Written};

use records::{ArrayFile, Record};

// What start, step and walk go by: an array that was read, the free names of its nodes, and 128 choice bytes.
#[derive(Clone, Copy)]
pub struct Ground<'a> {
    pub array: ArrayFile<'a>,
    pub frees: &'a [u64],
    pub choices: &'a [u8],
    ghost prepared: { Prepared array.bytes.now array.trailer frees.now choices.now },
}

// The child that choice node i, whose record is r, goes to.
fn chosen(choices: &[u8], i: usize, r: Record) -> usize
    requires { i / 8 < length choices.now }
    ensures { result ≡ cond (choices_of choices.now i) r.right r.left }
{
    if (choices[i / 8] >> (i % 8)) % 2 == 1 {
        return r.right;
    }
    r.left
}

// The word of name v, opened under a marker.
fn opened_word(v: usize, marker: u32) -> u32
    requires { (v < 256) × (marker < 65536) }
    ensures { result ≡ opening v marker }
{
    1 + 65536 * (v as u32) + marker
}

// Writes the words of the names from index `at` on, cut to those marked in row i.
fn write_names(frees: &[u64], i: usize, env: &[u32], threads: &mut [u32], at: usize)
    requires { HasRow frees.now i × (length env.now ≤ 256) × (at + length env.now ≤ length threads.old) }
    ensures { threads.new ≡ put at (cut_from (words []) (marked frees.now i) 0 env.now) threads.old }
{
    for (v, word) in env.iter().enumerate() {
        let on = marks::is_marked(frees, i, v);
        threads[at + v] = if on { *word } else { 0 };
    }
}

// Writes a thread of node i from index `at` on.
fn write_thread(frees: &[u64], i: usize, marker: u32, env: &[u32], threads: &mut [u32], at: usize)
    requires { HasRow frees.now i × (i < 1024) × (length env.now ≤ 256) × (at + 2 + length env.now ≤ length threads.old) }
    ensures { threads.new
        ≡ put at (i ∷ marker ∷ cut_from (words []) (marked frees.now i) 0 env.now) threads.old }
{
    threads[at] = i as u32;
    threads[at + 1] = marker;
    write_names(frees, i, env, threads, at + 2);
}

// Writes it as thread k of the list, where there is room. It takes an index and no part of the list: a thread past its end has none.
fn place_thread(frees: &[u64], i: usize, marker: u32, env: &[u32], threads: &mut [u32], k: usize)
    requires { HasRow frees.now i × (i < 1024) × (length env.now ≤ 256) × (k ≤ 257) }
    ensures { k * (2 + length env.now) + (2 + length env.now) ≤ length threads.old → threads.new
        ≡ put (k * (2 + length env.now))
        (i ∷ marker ∷ cut_from (words []) (marked frees.now i) 0 env.now) threads.old }
{
    let width = 2 + env.len();
    let at = k * width;
    if at + width <= threads.len() {
        write_thread(frees, i, marker, env, threads, at);
    }
}

impl Ground<'_> {
    // Writes the threads of node i under a marker and an environment as thread k and those behind it, where there is room for all, and
    // returns how many threads there are then; 257 stands for more than 256.
    pub fn unfold_node(
        &self,
        i: usize,
        marker: u32,
        env: &mut [u32],
        threads: &mut [u32],
        k: usize,
    ) -> usize
        requires { Unfolds self.now.array.trailer i marker env.old k }
        ensures { (env.new ≡ env.old) × Written (2 + self.now.array.trailer.names)
            (unfolded self.now.array.bytes.now self.now.array.trailer self.now.choices.now i marker env.old) threads.old threads.new k result }
    {
        let r = self.array.node_at(i);
        if records::is_stop(r) {
            return k;
        }
        if records::is_new(r) {
            let v = r.name;
            let old = env[v];
            env[v] = opened_word(v, marker);
            let end = self.unfold_node(r.left, marker, env, threads, k);
            env[v] = old;
            return end;
        }
        if records::is_par(r) {
            let mid = self.unfold_node(r.left, marker, env, threads, k);
            return self.unfold_node(r.right, marker, env, threads, mid);
        }
        if records::is_choice(r) {
            let side = chosen(self.choices, i, r);
            return self.unfold_node(side, marker, env, threads, k);
        }
        place_thread(self.frees, i, marker, env, threads, k);
        (k + 1).min(257)
    }

    // The number alone: how many threads there are with those of node i behind k others.
    pub fn count_threads(&self, i: usize, marker: u32, env: &mut [u32], k: usize) -> usize
        requires { Unfolds self.now.array.trailer i marker env.old k }
        ensures { (env.new ≡ env.old) × (result ≡ min 257
            (k + length (unfolded self.now.array.bytes.now self.now.array.trailer self.now.choices.now i marker env.old))) }
    {
        let mut nowhere = [0u32; 1];
        self.unfold_node(i, marker, env, &mut nowhere, k)
    }
}
