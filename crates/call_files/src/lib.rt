// Scripts of engine calls: the parts and commands of a script file, and check numbers of lists. For the test program `calls` alone.
// Promises safety, and the bounds that its callers need. Depends on std alone.
#![tactic(auto)]

ghost use Rattle.std.specs.Prelude.{◌*◌, ◌<◌, ◌≤◌, length, IfSome};

// A counted part of a script: how many things it has, their bytes, and what stands behind it.
#[derive(Clone, Copy)]
pub struct Part<'a> {
    pub count: usize,
    pub bytes: &'a [u8],
    pub rest: &'a [u8],
}

// A command with its operands.
#[derive(Clone, Copy)]
pub enum Command {
    Start,
    Step { receiver: usize, sender: usize },
    Walk { allowed: u32 },
    Stride { allowed: u32, left: u32 },
    Counts { threads: usize, markers: usize },
    Word { index: usize, value: u32 },
    Number { index: usize, value: u16 },
    Lists,
}

// A little-endian number of a script, and what stands behind it.
pub trait Number: Copy + Into<u32> {
    fn take(s: &[u8]) -> Option<(Self, &[u8])>
        ensures { IfSome result (λ p. length p.1.now < length s.now) };
}

impl Number for u16 {
    fn take(s: &[u8]) -> Option<(u16, &[u8])> {
        let (bytes, rest) = s.split_first_chunk()?;
        Some((u16::from_le_bytes(*bytes), rest))
    }
}

impl Number for u32 {
    fn take(s: &[u8]) -> Option<(u32, &[u8])> {
        let (bytes, rest) = s.split_first_chunk()?;
        Some((u32::from_le_bytes(*bytes), rest))
    }
}

// The next two words.
fn take_words(s: &[u8]) -> Option<(u32, u32, &[u8])>
    ensures { IfSome result (λ p. length p.2.now < length s.now) }
{
    let (x, rest) = u32::take(s)?;
    let (y, rest) = u32::take(rest)?;
    Some((x, y, rest))
}

// A position or a count: the largest word stands for the largest that a call takes.
pub fn position(n: usize) -> usize {
    if n == u32::MAX as usize {
        usize::MAX
    } else {
        n
    }
}

// The next two words as positions or counts.
pub fn take_positions(s: &[u8]) -> Option<(usize, usize, &[u8])>
    ensures { IfSome result (λ p. length p.2.now < length s.now) }
{
    let (x, y, rest) = take_words(s)?;
    Some((position(x as usize), position(y as usize), rest))
}

// The next part, of at most so many things of `size` bytes each, padded to whole words. None where the script is cut there, or asks for more.
pub fn take_part(s: &[u8], most: usize, size: usize) -> Option<Part<'_>>
    requires { size ≤ 4 }
    ensures { IfSome result (λ p. p.count ≤ most) }
{
    let (count, rest) = u32::take(s)?;
    let count = count as usize;
    if most < count {
        return None;
    }
    let length = size * count;
    let (bytes, rest) = rest.split_at_checked(length.next_multiple_of(4))?;
    Some(Part {
        count,
        bytes: &bytes[..length],
        rest,
    })
}

// The next command, and what stands behind it. None where it is cut or unknown, or has a number that is too large.
pub fn take_command(s: &[u8]) -> Option<(Command, &[u8])>
    ensures { IfSome result (λ p. length p.1.now < length s.now) }
{
    let (op, rest) = u32::take(s)?;
    match op {
        0 => Some((Command::Start, rest)),
        1 => {
            let (receiver, sender, rest) = take_positions(rest)?;
            Some((Command::Step { receiver, sender }, rest))
        }
        2 => {
            let (allowed, rest) = u32::take(rest)?;
            Some((Command::Walk { allowed }, rest))
        }
        3 => {
            let (allowed, left, rest) = take_words(rest)?;
            Some((Command::Stride { allowed, left }, rest))
        }
        4 => {
            let (threads, markers, rest) = take_positions(rest)?;
            Some((Command::Counts { threads, markers }, rest))
        }
        5 => {
            let (index, value, rest) = take_words(rest)?;
            let index = index as usize;
            Some((Command::Word { index, value }, rest))
        }
        6 => {
            let (index, value, rest) = take_words(rest)?;
            let index = index as usize;
            let value = u16::try_from(value).ok()?;
            Some((Command::Number { index, value }, rest))
        }
        7 => Some((Command::Lists, rest)),
        _ => None,
    }
}

// Fills a list with the numbers that the bytes are, one behind the other.
pub fn fill<T: Number>(list: &mut [T], bytes: &[u8]) {
    let mut rest = bytes;
    for place in list.iter_mut() {
        if let Some((number, behind)) = T::take(rest) {
            *place = number;
            rest = behind;
        }
    }
}

// A check number of a list.
pub fn check<T: Number>(list: &[T]) -> u32 {
    list.iter().fold(7, |h: u32, x| h.wrapping_mul(31).wrapping_add((*x).into()))
}

// Puts a number in its place in a list. None where the list has no such place.
pub fn set<T: Number>(list: &mut [T], index: usize, value: T) -> Option<()> {
    *list.get_mut(index)? = value;
    Some(())
}
