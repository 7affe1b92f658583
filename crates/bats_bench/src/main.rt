//! Runs each row kernel once on fixed rows and prints a digest of what it leaves. With the word `time` it times each
//! kernel beside a plain copy of as many bytes, and with the word `solves` the receiving and solving of packets beside as many
//! row operations as solving does.
#![tactic(auto)]

use std::env::Env;
use std::marker::Brand;
use std::sync::ledger::Blank;
use std::{env, io};

mod digests;
mod draws;
mod sending;
mod solving;
mod timing;

// What is printed.
#[derive(Clone, Copy)]
enum Task {
    Digests,
    Times,
    SolveTimes,
}

// What the first word of the command line asks for.
fn asked<R: Env + AllocGlobal>(rt: &R) -> io::Result<Task> {
    let Some(word) = env::args(rt)?.nth(1) else {
        return Ok(Task::Digests);
    };
    Ok(match word.as_str() {
        "time" => Task::Times,
        "solves" => Task::SolveTimes,
        _ => Task::Digests,
    })
}

fn main(rt: HostRuntime) -> io::Result<()> {
    match asked(&rt)? {
        Task::Digests => digests::print_digests::<Brand, HostRuntime>(&rt, Blank::new(1)),
        Task::Times => timing::print_all_times(&rt),
        Task::SolveTimes => solving::print_solve_times::<Brand, Brand, HostRuntime>(
            &rt,
            Blank::new(1),
            Blank::new(1),
        ),
    }
}
