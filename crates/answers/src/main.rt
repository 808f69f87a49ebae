// Answers questions: a line of standard output for each line of standard input.
#![tactic(auto)]

mod choices;
mod fields;
mod floors;
mod lines;
mod lists;
mod nodes;
mod questions;
mod refusals;
mod rewrites;
mod tokens;
mod write;

use std::io;

fn main(rt: HostRuntime) -> io::Result<()> {
    lines::serve(&rt)
}
