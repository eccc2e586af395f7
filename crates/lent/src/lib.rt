// The two lent lists: how many threads and markers are in use, whether so many fit, and refusal 23: whether the lists are well formed.
// Promises the model's limits and its `formed`. Depends on threads, markers, frees, arrays, records, model and laws.
#![tactic(auto)]

ghost use Rattle.std.specs.Prelude.{◌≡◌, ◌≤◌, leb, length};
ghost use Rattle.model.specs.Memory.{thread_room, marker_room, formed};
ghost use Rattle.records.specs.Record.{array_of};
ghost use Rattle.arrays.specs.File.{IsRead};
ghost use Rattle.frees.specs.Frees.{AllFree};
ghost use Rattle.lent.specs.Lent.{lent_of};

use records::ArrayFile;
use threads::Names;

// How many threads and markers are in use. The lists stand beside it and not in it: C's entries and the front page take and give them so.
#[derive(Clone, Copy)]
pub struct Counts {
    pub threads: usize,
    pub markers: usize,
}

// So many threads fit the list.
pub fn threads_fit(threads: &[u32], names: usize, count: usize) -> bool
    requires { names ≤ 256 }
    ensures { result ≡ leb count (thread_room names threads.now) }
{
    count <= (threads.len() / (2 + names)).min(256)
}

// So many markers fit the list.
pub fn markers_fit(markers: &[u16], count: usize) -> bool
    ensures { result ≡ leb count (marker_room markers.now) }
{
    count <= (markers.len() / 4).min(4096)
}

// The lent configuration is well formed, by the names of its array: both counts fit the lists, and so do the threads and the marker
// entries.
fn well_formed(names: &Names, threads: &[u32], markers: &[u16], counts: Counts) -> bool
    ensures { result ≡ formed (array_of names.now.array.bytes.now names.now.array.trailer) (lent_of threads.now markers.now counts) }
{
    let array = names.array;
    threads_fit(threads, array.trailer.names, counts.threads)
        && markers_fit(markers, counts.markers)
        && names.threads_formed(counts.markers, threads, counts.threads)
        && markers::entries_formed(&array, markers, counts.markers)
}

// Refusal 23: whether the lent configuration is well formed. The free names of all nodes are worked out for it, into `frees`.
pub fn lists_formed(
    frees: &mut [u64],
    array: &ArrayFile,
    threads: &[u32],
    markers: &[u16],
    counts: Counts,
) -> bool
    requires { IsRead array.now.bytes.now array.now.trailer × (length frees.old ≡ 4096) }
    ensures { AllFree frees.new (array_of array.now.bytes.now array.now.trailer)
        × (result ≡ formed (array_of array.now.bytes.now array.now.trailer) (lent_of threads.now markers.now counts)) }
{
    frees::fill_frees(frees, array);
    let names = Names {
        array: *array,
        frees,
        news: frees::opened(array),
    };
    well_formed(&names, threads, markers, counts)
}
