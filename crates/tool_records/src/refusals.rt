//! How a run ends whose input is refused.
ghost use Rattle.std.specs.Prelude.{◌≡◌, ◌++◌, string_bytes, codes, IfOk};
ghost use Rattle.tool_run.specs.declared.status.Status.TheVariants as statuses;
ghost use Rattle.tool_run.specs.Attempt.{IsOfEnding};
ghost use Rattle.tool_records.specs.Reading.{field_word, tag_word, place_line, refusal_line, refusal_status};
ghost use Rattle.tool_records.specs.steps.Kept.{FinishesUnopened};

use bats_model::{HeaderField, ReadEnd};
use std::alloc::{AllocError, Global};
use tool_run::{Finish, Status, Stop, refusal};

// The word of a header's field.
fn field_text(field: HeaderField) -> &'static str
    ensures { result.now ≡ field_word field }
{
    match field {
        HeaderField::Magic => "magic",
        HeaderField::Version => "version",
        HeaderField::BatchSize => "m",
        HeaderField::Mode => "mode",
        HeaderField::SymbolSize => "t",
        HeaderField::Length => "length",
    }
}

// The reason of a header whose field breaks its rule.
fn field_reason(alloc: Global, field: HeaderField) -> Result<String, AllocError>
    ensures { IfOk result (λ reason. string_bytes reason ≡ codes "bad-header field=" ++ field_word field) }
{
    let word = field_text(field);
    format!(in alloc; "bad-header field={word}")
}

// The reason of a byte that begins no record.
fn tag_reason(alloc: Global, byte: u8) -> Result<String, AllocError>
    ensures { IfOk result (λ reason. string_bytes reason ≡ tag_word byte) }
{
    let digits = hex::encode(alloc, [byte])?;
    let text = digits.as_str();
    format!(in alloc; "bad-tag byte={text}")
}

// How a run ends whose input is refused at this offset for this reason.
fn refusal_at(alloc: Global, at: u64, reason: &str) -> Result<Finish, AllocError>
    ensures status { IfOk result (λ finish. finish.status ≡ statuses.Input) }
    ensures line { IfOk result (λ finish. string_bytes finish.line ≡ place_line at reason.now) }
{
    let line = format!(in alloc; "bats: input at={at} {reason}\n")?;
    Ok(Finish {
        status: Status::Input,
        line,
    })
}

/// How a run ends whose input is refused so, as a walk tells it.
pub fn input_refusal(alloc: Global, end: ReadEnd) -> Result<Finish, AllocError>
    requires { IsOfEnding (refusal_status end) }
    ensures status { IfOk result (λ finish. finish.status ≡ refusal_status end) }
    ensures line { IfOk result (λ finish. string_bytes finish.line ≡ refusal_line end) }
{
    match end {
        ReadEnd::NoHeader => refusal_at(alloc, 0, "no-header"),
        ReadEnd::BadHeader { field } => refusal_at(alloc, 0, field_reason(alloc, field)?.as_str()),
        ReadEnd::BadTag { at, byte } => refusal_at(alloc, at, tag_reason(alloc, byte)?.as_str()),
        ReadEnd::OtherSession { at } => refusal_at(alloc, at, "other-session"),
        ReadEnd::Truncated { at } => refusal_at(alloc, at, "truncated"),
        ReadEnd::TooManyRecords => refusal(alloc, Status::Limit, "bats: limit records\n"),
        ReadEnd::Memory | ReadEnd::ReadFault => unreachable!(),
    }
}

/// How a run ends whose input has no first header, as `Reader::open` tells it.
pub fn unopened(alloc: Global, end: ReadEnd) -> Result<Finish, Stop>
    ensures { FinishesUnopened end result }
{
    match end {
        ReadEnd::Memory => Err(Stop::Memory),
        ReadEnd::ReadFault => Err(Stop::ReadFault),
        _ => Ok(input_refusal(alloc, end)?),
    }
}
