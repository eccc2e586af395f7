// The step of a ready pair, made in place on lent lists, or refused by 28 or 29 with every word as it was: the marker is found, the
// parameters bound and the threads counted before anything is written.
// Promises the model's step of the lists. Depends on lent, unfolds, threads, ready, markers, frees, arrays, records, wire, model and laws.
#![tactic(auto)]

ghost use Rattle.std.specs.Prelude.{◌≡◌, true, cond, ◌+◌, ◌*◌, ◌-◌, ◌<◌, ◌≤◌, min, length, get_or};
ghost use Rattle.laws.specs.Lists.{put};
ghost use Rattle.model.specs.Numbers.{nobody};
ghost use Rattle.model.specs.Memory.{threads_in, entries_in, words_of, thread_room, marker_room, formed};
ghost use Rattle.records.specs.ArrayFile.{array_in};
ghost use Rattle.markers.specs.Markers.{entry_of};
ghost use Rattle.ready.specs.Ready.{meeting};
ghost use Rattle.lent.specs.Lent.{lent_of};
ghost use Rattle.steps.specs.Steps.{Lies, Met, Meets, Binds, Bound, MarkerTold, entry_at, meeting_at, advanced, Makes, Fires};

use lent::Counts;
use markers::Entry;
use ready::Pair;
use records::{ArrayFile, Reason, Record, Trailer};
use unfolds::Ground;

// What a start or a step leaves: the counts after it, and the marker number of the receiver's continuation, 0 after a start.
#[derive(Clone, Copy)]
pub struct Fired {
    pub counts: Counts,
    pub marker: u32,
}

// A receiver and a sender: their positions, and the records of their agents.
#[derive(Clone, Copy)]
struct Meeting {
    receiver: usize,
    sender: usize,
    p: Record,
    q: Record,
}

// The marker of the receiver's continuation: its number, and its entry where it is a new one.
#[derive(Clone, Copy)]
struct NextMarker {
    number: u32,
    added: Option<Entry>,
}

// ---- what the step goes by

// The entry of a resource's new marker, from the words of the two threads at `at` and `from`.
fn entry_of(threads: &[u32], at: usize, from: usize) -> Entry
    requires at_in_bounds { (at + 1 < length threads.now) × (from + 1 < length threads.now) }
    requires at_bound { (get_or threads.now at 0 < 65536) × (get_or threads.now (at + 1) 0 < 65536) }
    requires from_bound { (get_or threads.now from 0 < 65536) × (get_or threads.now (from + 1) 0 < 65536) }
    ensures { entry_of result ≡ entry_at threads.now at from }
{
    Entry {
        resource: threads[at] as u16,
        out: threads[from] as u16,
        left: threads[at + 1] as u16,
        right: threads[from + 1] as u16,
    }
}

// The marker that the receiver's continuation runs under: an in's as it is, a resource's own, listed or to be added.
fn marker_for(
    t: Trailer,
    threads: &[u32],
    markers: &[u16],
    counts: Counts,
    m: Meeting,
) -> NextMarker
    requires { Met t threads.now counts m × (4 * counts.markers ≤ length markers.now) }
    ensures { MarkerTold t threads.now (entries_in counts.markers markers.now) m result }
{
    let width = 2 + t.names;
    let at = m.receiver * width;
    if !records::is_resource(m.p) {
        return NextMarker {
            number: threads[at + 1],
            added: None,
        };
    }
    let listed = counts.markers;
    let entry = entry_of(threads, at, m.sender * width);
    match markers::find_entry(markers, listed, entry) {
        Some(k) => NextMarker {
            number: (k + 1) as u32,
            added: None,
        },
        None => NextMarker {
            number: (listed + 1) as u32,
            added: Some(entry),
        },
    }
}

// The environments of the two continuations: the sender's as its thread has it, the receiver's with the parameters bound.
// Two parameters here and below: with a struct of both, each function would promise besides that it keeps the same two borrows.
fn bind_both(t: Trailer, threads: &[u32], m: Meeting, near: &mut [u32], far: &mut [u32])
    requires binds { Binds t threads.now m }
    requires near_len { (length near.old ≡ t.names) × (length far.old ≡ t.names) }
    ensures { Bound t threads.now m near.new far.new }
{
    let width = 2 + t.names;
    threads::copy_words(threads, m.receiver * width + 2, near);
    threads::copy_words(threads, m.sender * width + 2, far);
    threads::bind_params(m.p, m.q, far, near);
}

// How many of `count` threads stay.
fn kept_count(count: usize, resource: bool) -> usize
    requires { 2 ≤ count }
    ensures { result ≡ count - cond resource 1 2 }
{
    if resource { count - 1 } else { count - 2 }
}

// ---- the step: counted, and written

// How many threads there are after the step; 257 stands for more than 256.
fn count_after(
    ground: &Ground,
    threads: &[u32],
    counts: Counts,
    m: Meeting,
    marker: u32,
    near: &mut [u32],
    far: &mut [u32],
) -> usize
    requires meets { Meets ground.now.array.bytes.now ground.now.array.trailer threads.now counts m × (marker < 65536) }
    requires bound { Bound ground.now.array.trailer threads.now m near.old far.old }
    ensures { (near.new ≡ near.old) × (far.new ≡ far.old) × (result ≡ min 257 (length
        (advanced ground.now.array.bytes.now ground.now.array.trailer ground.now.choices.now threads.now counts.threads m marker))) }
{
    let other = threads[m.sender * (2 + ground.array.trailer.names) + 1];
    let kept = kept_count(counts.threads, records::is_resource(m.p));
    let mid = ground.count_threads(m.p.left, marker, near, kept);
    ground.count_threads(m.q.left, other, far, mid)
}

// Writes the threads after the step, which fit.
fn write_after(
    ground: &Ground,
    threads: &mut [u32],
    counts: Counts,
    m: Meeting,
    marker: u32,
    near: &mut [u32],
    far: &mut [u32],
)
    requires meets { Meets ground.now.array.bytes.now ground.now.array.trailer threads.old counts m × (marker < 65536) }
    requires bound { Bound ground.now.array.trailer threads.old m near.old far.old }
    requires marker_len_bound { length
        (advanced ground.now.array.bytes.now ground.now.array.trailer ground.now.choices.now threads.old counts.threads m marker)
        ≤ thread_room ground.now.array.trailer.names threads.old }
    ensures { threads.new ≡ put 0 (words_of
        (advanced ground.now.array.bytes.now ground.now.array.trailer ground.now.choices.now threads.old counts.threads m marker)) threads.old }
{
    let names = ground.array.trailer.names;
    let other = threads[m.sender * (2 + names) + 1];
    let resource = records::is_resource(m.p);
    let kept = kept_count(counts.threads, resource);
    threads::keep_threads(
        threads,
        names,
        counts.threads,
        m.receiver,
        m.sender,
        resource,
    );
    let mid = ground.unfold_node(m.p.left, marker, near, threads, kept);
    ground.unfold_node(m.q.left, other, far, threads, mid);
}

// The step of a meeting, or its refusal by 28 or 29. Near and far are room for the two environments.
fn fire_meeting(
    ground: &Ground,
    threads: &mut [u32],
    markers: &mut [u16],
    counts: Counts,
    m: Meeting,
    near: &mut [u32],
    far: &mut [u32],
) -> Result<Fired, Reason>
    requires meets { Meets ground.now.array.bytes.now ground.now.array.trailer threads.old counts m }
    requires markers_bound { (counts.markers ≤ marker_room markers.old)
        × (length near.old ≡ ground.now.array.trailer.names) × (length far.old ≡ ground.now.array.trailer.names) }
    ensures { Makes ground.now.array.bytes.now ground.now.array.trailer ground.now.choices.now threads.old markers.old counts m
        result threads.new markers.new }
{
    let t = ground.array.trailer;
    let marker = marker_for(t, threads, markers, counts, m);
    bind_both(t, threads, m, near, far);
    let number = marker.number;
    let total = count_after(ground, threads, counts, m, number, near, far);
    if !lent::threads_fit(threads, t.names, total) {
        return Err(Reason::Threads);
    }
    let listed = counts.markers + usize::from(marker.added.is_some());
    if !lent::markers_fit(markers, listed) {
        return Err(Reason::Markers);
    }
    if let Some(entry) = marker.added {
        markers::add_entry(markers, counts.markers, entry);
    }
    write_after(ground, threads, counts, m, number, near, far);
    Ok(Fired {
        counts: Counts {
            threads: total,
            markers: listed,
        },
        marker: number,
    })
}

// The records of the two agents, with their positions.
fn meeting_at(array: &ArrayFile, threads: &[u32], pair: Pair) -> Meeting
    requires { Lies array.now.trailer threads.now pair.receiver × Lies array.now.trailer threads.now pair.sender }
    ensures { result ≡ meeting_at array.now.bytes.now array.now.trailer threads.now pair.receiver pair.sender }
{
    let width = 2 + array.trailer.names;
    let i = threads[pair.receiver * width] as usize;
    let j = threads[pair.sender * width] as usize;
    Meeting {
        receiver: pair.receiver,
        sender: pair.sender,
        p: array.node_at(i),
        q: array.node_at(j),
    }
}

// The step of a ready pair, or its refusal by 28 or 29.
pub fn fire(
    ground: &Ground,
    threads: &mut [u32],
    markers: &mut [u16],
    counts: Counts,
    pair: Pair,
) -> Result<Fired, Reason>
    requires counts_value { formed (array_in ground.now.array) (lent_of threads.old markers.old counts) ≡ true
        × (pair.receiver < counts.threads) × (pair.sender < counts.threads) }
    requires nobody_value { meeting (array_in ground.now.array)
        (get_or (threads_in ground.now.array.trailer.names counts.threads threads.old) pair.receiver nobody)
        (get_or (threads_in ground.now.array.trailer.names counts.threads threads.old) pair.sender nobody) ≡ 0 }
    ensures { Fires ground.now.array.bytes.now ground.now.array.trailer ground.now.choices.now threads.old markers.old counts
        pair.receiver pair.sender result threads.new markers.new }
{
    let m = meeting_at(&ground.array, threads, pair);
    let mut near = [0u32; 256];
    let mut far = [0u32; 256];
    let n = ground.array.trailer.names;
    fire_meeting(
        ground,
        threads,
        markers,
        counts,
        m,
        &mut near[..n],
        &mut far[..n],
    )
}
