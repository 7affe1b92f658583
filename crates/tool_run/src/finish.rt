ghost use Rattle.std.specs.Prelude.{◌≡◌, string_bytes, IfOk};

use crate::status::Status;
use std::alloc::{AllocError, Global};

/// How a command ends whose whole output was written, before it is flushed: its status, and its notes line with its line
/// feed.
#[derive(Debug, Drop)]
pub struct Finish {
    pub status: Status,
    pub line: String,
}

/// The end of a command that refuses its words or its input: this status and this notes line.
pub fn refusal(alloc: Global, status: Status, line: &str) -> Result<Finish, AllocError>
    ensures status { IfOk result (λ finish. finish.status ≡ status) }
    ensures line { IfOk result (λ finish. string_bytes finish.line ≡ line.now) }
{
    Ok(Finish {
        status,
        line: String::from_str(alloc, line)?,
    })
}
