// The array reader: refusals 1 to 12 in checking order, and the remark.
// Promises specs/File, for every byte string; proofs/Laws says what later crates may take from a file that was read.
// Depends on scans (one pass that a file without a refusal passes), the crates that check one refusal each (fields, counts, scopes), records, wire, model
// and laws.
#![tactic(auto)]

ghost use Rattle.std.specs.Prelude.{◌≡◌, ◌<◌, ◌≤◌, length, IfOk};
ghost use Rattle.records.specs.Record.{answered, found_of};
ghost use Rattle.arrays.specs.File.{array_form, trailer_of, from6, read_array, remark_of, IsRead};
ghost use Rattle.arrays.specs.Opened.{trailer_in};

use records::{ArrayFile, Form, Reason, Refusal, Trailer};

// The format that the letters name.
fn array_form(letters: u32) -> Option<Form>
    ensures { result ≡ array_form letters }
{
    if letters == 827541840 {
        Some(Form::Pis1)
    } else {
        None
    }
}

// What the last 16 bytes say.
fn read_trailer(file: &[u8]) -> Trailer
    requires { 16 ≤ length file.now }
    ensures { (result ≡ trailer_of file.now) × (result.start < 4294967296) }
{
    let len = file.len();
    Trailer {
        start: wire::u32_at(file, len - 16) as usize,
        nodes: wire::u16_at(file, len - 12),
        names: wire::u16_at(file, len - 10),
        sum: wire::u32_at(file, len - 8),
        form: array_form(wire::u32_at(file, len - 4)),
    }
}

// Refusals 6 to 12: one pass says that there is none; else they are looked for one after another.
fn check_records(array: &ArrayFile) -> Result<(), Refusal>
    ensures { found_of result ≡ from6 array.now.bytes.now array.now.trailer }
{
    if scans::passes(array) {
        return Ok(());
    }
    fields::bad_shape(array)?;
    fields::bad_unused(array)?;
    fields::bad_child(array)?;
    counts::bad_parent(array)?;
    fields::bad_name(array)?;
    counts::bad_binding(array)?;
    scopes::bad_reach(array)
}

// Opens an array file: refusals 1 to 5 here, then those of its records.
pub fn open(bytes: &[u8]) -> Result<ArrayFile<'_>, Refusal>
    ensures answer { answered (trailer_in result) ≡ read_array bytes.now }
    ensures file { IfOk result (λ a. (a.bytes.now ≡ bytes.now) × (a.bytes.ref_ptr ≡ bytes.entry.ref_ptr) × IsRead bytes.now a.trailer) }
{
    let len = bytes.len();
    if !((16 <= len) & (len <= 17424) & (len % 4 == 0)) {
        return Err(Reason::ArrayLength.into());
    }
    let trailer = read_trailer(bytes);
    if trailer.form != Some(Form::Pis1) {
        return Err(Reason::ArrayLetters.into());
    }
    if !((1 <= trailer.nodes) & (trailer.nodes <= 1024) & (trailer.names <= 256)) {
        return Err(Reason::ArraySizes.into());
    }
    if !((trailer.start <= 1024) & (trailer.start + 16 * trailer.nodes + 16 == len)) {
        return Err(Reason::ArrayParts.into());
    }
    if trailer.sum != wire::word_sum(bytes, (len - 8) / 4) {
        return Err(Reason::ArraySum.into());
    }
    let array = ArrayFile { bytes, trailer };
    check_records(&array)?;
    Ok(array)
}

// Reads an array file.
pub fn read_array(file: &[u8]) -> Result<Trailer, Refusal>
    ensures { answered result ≡ read_array file.now }
{
    Ok(open(file)?.trailer)
}

// The remark: the leading part of the caller's own file, or an empty part after a refusal.
pub fn remark(file: &[u8]) -> &[u8]
    ensures { (result.now ≡ remark_of file.now) × (result.ref_ptr ≡ file.entry.ref_ptr) }
{
    match read_array(file) {
        Ok(t) => {
            let start = t.start;
            &file[..start]
        }
        Err(_) => &file[..0],
    }
}
