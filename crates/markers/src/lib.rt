// The marker list: entries of four numbers, found, appended and checked (the part of refusal 23 that is about markers).
// Promises equations with the model's entries. Depends on records, marks, model and laws.
// A check takes 32,768 bytes of stack for one mark per place of an entry: only an entry whose place is marked already is searched
// for among the earlier ones.
#![tactic(auto)]

ghost use Rattle.std.specs.Prelude.{◌≡◌, ◌+◌, ◌*◌, ◌<◌, ◌≤◌, length, drop, MatchOption};
ghost use Rattle.laws.specs.Search.{every};
ghost use Rattle.laws.specs.Lists.{put};
ghost use Rattle.model.specs.Numbers.{same_entry, position};
ghost use Rattle.model.specs.Memory.{entry_in, entries_in, entry_numbers, entry_formed, unlike};
ghost use Rattle.records.specs.Record.{array_of};
ghost use Rattle.markers.specs.Markers.{entry_of, slot_of, Seen, listed, entries_formed};

use records::ArrayFile;

// A marker entry: resource, out, and the numbers of their markers.
#[derive(Clone, Copy, PartialEq, Eq)]
pub struct Entry {
    pub resource: u16,
    pub out: u16,
    pub left: u16,
    pub right: u16,
}

// Entry k.
pub fn entry_at(markers: &[u16], k: usize) -> Entry
    requires { 4 * k + 3 < length markers.now }
    ensures { entry_of result ≡ entry_in (drop (4 * k) markers.now) }
{
    let [resource, out, left, right] = *markers[4 * k..4 * k + 4].first_chunk::<4>().unwrap();
    Entry {
        resource,
        out,
        left,
        right,
    }
}

// Entry k equals e.
fn is_entry(markers: &[u16], k: usize, e: Entry) -> bool
    requires { 4 * k + 3 < length markers.now }
    ensures { result ≡ same_entry (entry_in (drop (4 * k) markers.now)) (entry_of e) }
{
    entry_at(markers, k) == e
}

// Where an entry stands first among the first `count`.
pub fn find_entry(markers: &[u16], count: usize, e: Entry) -> Option<usize>
    requires { 4 * count ≤ length markers.now }
    ensures { MatchOption result (position (entry_of e) (entries_in count markers.now) ≡ count)
        (λ k. (k < count) × (position (entry_of e) (entries_in count markers.now) ≡ k)) }
{
    (0..count).find(|k| is_entry(markers, *k, e))
}

// Writes entry `count`.
pub fn add_entry(markers: &mut [u16], count: usize, e: Entry)
    requires { 4 * count + 3 < length markers.old }
    ensures { markers.new ≡ put (4 * count) (entry_numbers (entry_of e)) markers.old }
{
    let at = 4 * count;
    markers[at..at + 4].copy_from_slice(&[e.resource, e.out, e.left, e.right]);
}

// The place of an entry's mark.
fn slot_of(e: Entry) -> usize
    ensures { (result ≡ slot_of (entry_of e)) × (result < 262144) }
{
    let resource = 40503 * usize::from(e.resource);
    let out = 30011 * usize::from(e.out);
    let left = 25117 * usize::from(e.left);
    let right = 17389 * usize::from(e.right);
    (resource + out + left + right) % 262144
}

// Entry k has a resource, an out and two numbers below its own.
fn entry_formed(array: &ArrayFile, k: usize, e: Entry) -> bool
    ensures { result ≡ entry_formed (array_of array.now.bytes.now array.now.trailer) k (entry_of e) }
{
    let resource = array.node_or_stop(usize::from(e.resource));
    let out = array.node_or_stop(usize::from(e.out));
    let below = (usize::from(e.left) <= k) & (usize::from(e.right) <= k);
    records::is_resource(resource) & (records::sends(out) & below)
}

// One of the first k entries equals e, whose place is `slot`: none does where no entry has marked that place.
fn is_listed(seen: &[u64], slot: usize, markers: &[u16], k: usize, e: Entry) -> bool
    requires seen_len { (length seen.now ≡ 4096) × (slot < 262144) × (slot ≡ slot_of (entry_of e)) }
    requires k_in_bounds { (4 * k ≤ length markers.now) × Seen seen.now markers.now k }
    ensures { result ≡ listed markers.now k (entry_of e) }
{
    marks::is_marked(seen, 0, slot) && find_entry(markers, k, e).is_some()
}

// No two of the first `count` entries are equal.
fn entries_unlike(markers: &[u16], count: usize) -> bool
    requires { 4 * count ≤ length markers.now }
    ensures { result ≡ every count (unlike (entries_in count markers.now)) }
{
    if count == 0 {
        return true;
    }
    // not cleared where no entry is looked at
    let mut seen = [0u64; 4096];
    // a loop and no chain: a turn marks what later ones ask
    for k in 0..count {
        let e = entry_at(markers, k);
        let slot = slot_of(e);
        if is_listed(&seen, slot, markers, k, e) {
            return false;
        }
        marks::mark_if(&mut seen, true, slot);
    }
    true
}

// The first `count` entries are well formed.
pub fn entries_formed(array: &ArrayFile, markers: &[u16], count: usize) -> bool
    requires { 4 * count ≤ length markers.now }
    ensures { result ≡ entries_formed (array_of array.now.bytes.now array.now.trailer) (entries_in count markers.now) count }
{
    (0..count).all(|k| entry_formed(array, k, entry_at(markers, k)))
        && entries_unlike(markers, count)
}
