//! What is said of an answer, by each command that solves.
ghost use Rattle.std.specs.Prelude.{◌≡◌, ◌++◌, codes, string_bytes, IfOk};
ghost use Rattle.std.specs.Fmt.{decimal};
ghost use Rattle.tool_sink.specs.Answers.{answer_line, answer_status, counts_text};

use bats_decode::Solved;
use bats_model::Answer;
use std::alloc::{AllocError, Global};
use tool_run::{Finish, Status};

// The notes line of a file that was found, for so many packets received and kept, and so many
// inactive symbols.
fn file_line(
    alloc: Global,
    name: &str,
    length: u64,
    packets: u64,
    kept: u32,
    inactive: u32,
) -> Result<String, AllocError>
    ensures { IfOk result (λ line. string_bytes line
        ≡ name.now ++ (codes ": file length=" ++ (decimal length ++ counts_text packets kept inactive))) }
{
    format!(in alloc;
        "{name}: file length={length} packets={packets} kept={kept} inactive={inactive}\n"
    )
}

// The notes line where no file agrees.
fn inconsistent_line(
    alloc: Global,
    name: &str,
    packets: u64,
    kept: u32,
    inactive: u32,
) -> Result<String, AllocError>
    ensures { IfOk result (λ line. string_bytes line
        ≡ name.now ++ (codes ": inconsistent" ++ counts_text packets kept inactive)) }
{
    format!(in alloc; "{name}: inconsistent packets={packets} kept={kept} inactive={inactive}\n")
}

// The notes line where two files agree, which differ in this symbol.
fn need_more_line(
    alloc: Global,
    name: &str,
    at_symbol: u32,
    packets: u64,
    kept: u32,
    inactive: u32,
) -> Result<String, AllocError>
    ensures { IfOk result (λ line. string_bytes line
        ≡ name.now ++ (codes ": need-more open=" ++ (decimal at_symbol ++ counts_text packets kept inactive))) }
{
    format!(in alloc;
        "{name}: need-more open={at_symbol} packets={packets} kept={kept} inactive={inactive}\n"
    )
}

// The notes line of an answer, from the name of the command on, for so many packets received and kept, and so many
// inactive symbols.
fn answer_line(
    alloc: Global,
    name: &str,
    answer: &Answer,
    packets: u64,
    kept: u32,
    inactive: u32,
) -> Result<String, AllocError>
    ensures { IfOk result (λ line. string_bytes line ≡ answer_line name.now packets kept inactive answer.now) }
{
    match answer {
        Answer::File(file) => file_line(alloc, name, file.len() as u64, packets, kept, inactive),
        Answer::Inconsistent => inconsistent_line(alloc, name, packets, kept, inactive),
        Answer::NeedMore { at_symbol, .. } => {
            need_more_line(alloc, name, *at_symbol, packets, kept, inactive)
        }
    }
}

/// The status of an answer.
pub fn status_of_answer(answer: &Answer) -> Status
    ensures { result ≡ answer_status answer.now }
{
    match answer {
        Answer::File(_) => Status::Done,
        Answer::Inconsistent => Status::Inconsistent,
        Answer::NeedMore { .. } => Status::NeedMore,
    }
}

/// How a run of the command of this name ends that found this answer.
pub fn finish_of(alloc: Global, name: &str, solved: &Solved) -> Result<Finish, AllocError>
    ensures status { IfOk result (λ finish. finish.status ≡ answer_status solved.now.answer) }
    ensures line { IfOk result (λ finish. string_bytes finish.line
        ≡ answer_line name.now solved.now.packets solved.now.kept solved.now.inactive solved.now.answer) }
{
    let line = answer_line(
        alloc,
        name,
        &solved.answer,
        solved.packets,
        solved.kept,
        solved.inactive,
    )?;
    Ok(Finish {
        status: status_of_answer(&solved.answer),
        line,
    })
}
