// calls FILE ..: follows the script in each file and writes a line for each call of the step engine: the file's name, the call, its answer,
// and a check number for each of the two lists. Its run over data/ is the engine's test from outside.
//
// A script is little-endian. It has the array file, the choice bytes, the words of the thread list and the 16-bit numbers of the marker list,
// each behind its count (32 bits) and padded to 4 bytes; the two counts in use; then commands, each a number and its operands (32 bits each):
//
//   0 start     1 step receiver sender      2 walk allowed          3 stride allowed left
//   4 counts threads markers                5 word index value      6 number index value      7 print lists
//
// A position or a count of 4294967295 stands for the largest that a call takes. A script that does not fit, that is cut, or that has an unknown
// command or an index past its list is a bad script; the commands before that place are followed. A file that can't be opened is one too.
#![tactic(auto)]

use call_files::Command;
use engine::{Allowance, Turn, Walk};
use handover::Told;
use lent::Counts;
use records::Refusal;
use std::fmt::Display;
use std::rt::Files;

// A script as it is followed: its file's name, what its calls are lent, and the counts that the next one is told.
#[derive(Drop)]
struct Script<'a, 't, 'm> {
    path: &'a [u8],
    array: &'a [u8],
    choices: &'a [u8],
    threads: &'t mut [u32],
    markers: &'m mut [u16],
    counts: Counts,
}

fn print_list<T: Display>(rt: &impl Print, list: &[T]) {
    for x in list {
        let _ = print!(rt; " {x}");
    }
}

impl Script<'_, '_, '_> {
    // The line's beginning.
    fn print_name(&self, rt: &impl Print, call: &str) {
        lines::print_text(rt, self.path);
        let _ = print!(rt; " {call}");
    }

    // The line's end.
    fn print_checks(&self, rt: &impl Print) {
        let threads = call_files::check(self.threads);
        let markers = call_files::check(self.markers);
        let _ = println!(rt; " {threads} {markers}");
    }

    fn print_lists(&self, rt: &impl Print) {
        self.print_name(rt, "lists");
        print_list(rt, self.threads);
        let _ = print!(rt; " |");
        print_list(rt, self.markers);
        let _ = println!(rt);
    }

    // A refusal, after which the next call is told the counts of before.
    fn refused(&self, rt: &impl Print, refusal: Refusal) -> Counts {
        lines::print_refusal(rt, refusal.reason.number(), refusal.place);
        self.counts
    }

    fn start(&mut self, rt: &impl Print) {
        self.print_name(rt, "start ");
        let answer = handover::start(self.array, self.choices, self.threads);
        self.counts = match answer {
            Ok(threads) => {
                let _ = print!(rt; "started {threads}");
                Counts {
                    threads,
                    markers: 0,
                }
            }
            Err(refusal) => self.refused(rt, refusal),
        };
        self.print_checks(rt);
    }

    fn step(&mut self, rt: &impl Print, receiver: usize, sender: usize) {
        self.print_name(rt, "step ");
        let answer = handover::step(
            self.array,
            self.choices,
            self.threads,
            self.markers,
            self.counts,
            receiver,
            sender,
        );
        self.counts = match answer {
            Ok(made) => {
                let _ = print!(rt; "stepped {} {}", made.threads, made.markers);
                made
            }
            Err(refusal) => self.refused(rt, refusal),
        };
        self.print_checks(rt);
    }

    fn walk(&mut self, rt: &impl Print, allowed: u32) {
        self.print_name(rt, "walk ");
        let answer = handover::walk(
            self.array,
            self.choices,
            self.threads,
            self.markers,
            self.counts,
            allowed,
        );
        self.counts = match answer {
            Ok(walk) => print_walk(rt, walk),
            Err(refusal) => self.refused(rt, refusal),
        };
        self.print_checks(rt);
    }

    fn stride(&mut self, rt: &impl Print, allowance: Allowance) {
        self.print_name(rt, "stride ");
        let answer = handover::stride(
            self.array,
            self.choices,
            self.threads,
            self.markers,
            self.counts,
            allowance,
        );
        self.counts = match answer {
            Ok(Told::Made(turn)) => print_turn(rt, turn),
            Ok(Told::Ended(ending, steps)) => {
                let _ = print!(rt; "{ending} {steps}");
                self.counts
            }
            Err(refusal) => self.refused(rt, refusal),
        };
        self.print_checks(rt);
    }

    // Follows one command. None where it names an index past its list.
    fn perform(&mut self, rt: &impl Print, command: Command) -> Option<()> {
        match command {
            Command::Start => self.start(rt),
            Command::Step { receiver, sender } => self.step(rt, receiver, sender),
            Command::Walk { allowed } => self.walk(rt, allowed),
            Command::Stride { allowed, left } => self.stride(rt, Allowance { allowed, left }),
            Command::Counts { threads, markers } => self.counts = Counts { threads, markers },
            Command::Word { index, value } => call_files::set(self.threads, index, value)?,
            Command::Number { index, value } => call_files::set(self.markers, index, value)?,
            Command::Lists => self.print_lists(rt),
        }
        Some(())
    }

    // Follows the commands. None at one that is none.
    fn follow(&mut self, rt: &impl Print, commands: &[u8]) -> Option<()> {
        let mut rest = commands;
        while !rest.is_empty() {
            let (command, behind) = call_files::take_command(rest)?;
            self.perform(rt, command)?;
            rest = behind;
        }
        Some(())
    }
}

// A walk that was made, and the counts after it.
fn print_walk(rt: &impl Print, walk: Walk) -> Counts {
    let _ = print!(rt;
        "walked {} {} {} {}",
        walk.ending, walk.steps, walk.counts.threads, walk.counts.markers
    );
    walk.counts
}

// A step that was told, and the counts after it.
fn print_turn(rt: &impl Print, turn: Turn) -> Counts {
    let counts = turn.counts;
    let allowance = turn.allowance;
    let _ = print!(rt; "made {} {} {}", turn.receiver, turn.sender, turn.marker);
    let _ = print!(rt;
        " {} {} {} {}",
        counts.threads, counts.markers, allowance.allowed, allowance.left
    );
    counts
}

// Takes the script apart and follows it. None where it is bad. The lists lent are as long as the longest that a script may have.
fn run(
    rt: &impl Print,
    path: &[u8],
    s: &[u8],
    threads: &mut [u32],
    markers: &mut [u16],
) -> Option<()> {
    if s.len() % 4 != 0 {
        return None;
    }
    let array = call_files::take_part(s, 20000, 1)?;
    let choices = call_files::take_part(array.rest, 1000, 1)?;
    let words = call_files::take_part(choices.rest, threads.len(), 4)?;
    let numbers = call_files::take_part(words.rest, markers.len(), 2)?;
    let (threads_in_use, markers_in_use, commands) = call_files::take_positions(numbers.rest)?;
    let threads = &mut threads[..words.count];
    let markers = &mut markers[..numbers.count];
    call_files::fill(threads, words.bytes);
    call_files::fill(markers, numbers.bytes);
    let mut script = Script {
        path,
        array: array.bytes,
        choices: choices.bytes,
        threads,
        markers,
        counts: Counts {
            threads: threads_in_use,
            markers: markers_in_use,
        },
    };
    script.follow(rt, commands)
}

// One byte more than the longest script is enough: a longer file then is cut to a length that is no multiple of 4.
fn run_file(rt: &(impl Files + Print), path: &[u8]) {
    let mut file = [0u8; 400001];
    let mut threads = [0u32; 66560];
    let mut markers = [0u16; 16500];
    let script = lines::read_file(rt, path, &mut file);
    if run(rt, path, script, &mut threads, &mut markers).is_none() {
        lines::print_text(rt, path);
        lines::print_text(rt, b" bad script\n");
    }
}

fn main(rt: HostRuntime) {
    lines::each_argument(&rt, |path| run_file(&rt, path));
}
