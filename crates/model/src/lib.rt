// The model: what a reader must believe, and the theorems over it. Definitions in specs/, in the order and the words of
// document 01; theorems in proofs/; no code but a claim's numbers and the names of the endings. Depends on laws alone.
//
//   specs/Tree      the array, its process tree, free names, loads         ("The array file", "The five rules")
//   specs/Formed    refusals 8 to 12, and what an array that passes them is ("Refusals, in checking order")
//   specs/Calculus  markers, configurations, start, attempts, lists of attempts ("Configurations and steps", "The list in demand 3")
//   specs/Numbers   markers by number, as lent memory holds them           ("Configurations and steps")
//   specs/Memory    lent lists, refusals 22 and 23, start, step and walk on them ("Configurations and steps")
//   specs/Rules     the table, sets of claims, live pairs, the five rules, the verdict ("The five rules")
//   specs/Safe      what an accepted table says of a configuration         ("The list in demand 3")
//
//   proofs/Verdict  the verdict is held exactly when the rules hold; a broken verdict names the first broken rule and place
//   proofs/Sets     sets of claims: rule 5 claim by claim, the set's first claim, its agents' counts added up, and 01's single claim
//   proofs/Closed   the root of a well-formed array has no free name
//   proofs/Safety   demand 3
//   proofs/Words    an attempt on words is the attempt of the calculus on the marker trees that they stand for
//   proofs/Engine   start, step and walk on lent lists are those of the calculus, and keep what refusal 23 asks
//   proofs/Told     the walk told step by step is the walk, and each step that is told is the calculus'
//   proofs/Cases    the marked cases of 01, by computation
#![tactic(auto)]

use std::fmt;

// A claim's four numbers. Declared here, so that definitions and readers speak of the same.
#[derive(Clone, Copy)]
pub struct Claim {
    pub agent: usize,
    pub most: usize,
    pub balance: usize,
    pub set: usize,
}

// Why a walk ended, by 01's names. Declared here, so that definitions, engine and answers speak of the same three.
#[derive(Clone, Copy)]
pub enum Ending {
    Quiet,
    Spent,
    Full,
}

// As `walk` prints it.
impl fmt::Display for Ending {
    fn fmt<W: fmt::Write>(&self, f: &mut fmt::Formatter<W>) -> fmt::Result {
        f.write_str(match self {
            Ending::Quiet => "quiet",
            Ending::Spent => "spent",
            Ending::Full => "full",
        })
    }
}
