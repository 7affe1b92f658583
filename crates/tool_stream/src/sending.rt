//! Sends the outputs of a relay, batch by batch.
ghost use Rattle.std.specs.Prelude.{ℕ, ◌≡◌, ◌<◌, ◌≤◌, ◌+◌, ◌++◌, length, OnOk, IfOk};
ghost use Rattle.std.specs.Result.{result_err};
ghost use Rattle.bats_model.specs.Records.{header_record};
ghost use Rattle.bats_batch.specs.Held.{batch_at, kept_at};
ghost use Rattle.bats_relay.specs.Mixer.{HasSentOne, max_outputs, sent_of};
ghost use Rattle.bats_relay.specs.Rule.{IsRule};
ghost use Rattle.tool_run.specs.Writes.{Writes};
ghost use Rattle.tool_stream.specs.Relay.{most_outputs, output_count};
ghost use Rattle.tool_stream.specs.steps.Sending.{HasSentOf, HasSentNoneFrom, IsAnsweredBy, batch_records, held_records, output_record, place_count, place_records, sent_count};

use crate::keeping::Intake;
use bats_io::Sink;
use bats_model::Session;
use bats_relay::{Mixer, Rule, extra_outputs, fixed_outputs};
use tool_records::{write_header, write_packet};
use tool_run::Stop;

// Writes the record of the next output of a held batch.
fn send_output<O: Sink>(
    output: &mut O,
    session: &Session,
    mixer: &mut Mixer,
    number: u32,
) -> Result<(), Stop>
    requires session { mixer.old.held.session ≡ session.now }
    requires held { 0 < length (kept_at mixer.old.held.batches number) }
    requires room { sent_of mixer.old number < max_outputs }
    ensures written { Writes (O.state output.old) (O.state output.new)
        (output_record session.now mixer.old.seed number (kept_at mixer.old.held.batches number) (sent_of mixer.old number))
        (result_err result) }
    ensures sent { OnOk result (HasSentOne number mixer.old mixer.new) }
{
    match mixer.next_of(number)? {
        Some(packet) => write_packet(output, session, &packet),
        None => unreachable!(),
    }
}

// Writes the records of so many outputs of a held batch, of which none was made before.
fn send_batch<O: Sink>(
    output: &mut O,
    session: &Session,
    mixer: &mut Mixer,
    number: u32,
    count: u32,
) -> Result<(), Stop>
    requires session { mixer.old.held.session ≡ session.now }
    requires held { 0 < length (kept_at mixer.old.held.batches number) }
    requires unsent { sent_of mixer.old number ≡ 0 }
    requires count { count ≤ most_outputs }
    ensures written { Writes (O.state output.old) (O.state output.new)
        (batch_records session.now mixer.old.seed number (kept_at mixer.old.held.batches number) count)
        (result_err result) }
    ensures sent { OnOk result (HasSentOf number count mixer.old mixer.new) }
{
    'outputs: while mixer.sent(number) < count {
        send_output(output, session, mixer, number)?;
    }
    Ok(())
}

// Writes the records of as many outputs as the rule says of the held batch at this place. The answer is their number.
fn send_place<F: Fn(u32) -> u32, O: Sink>(
    output: &mut O,
    session: &Session,
    mixer: &mut Mixer,
    rule: &Rule<F>,
    place: u32,
) -> Result<u32, Stop>
    requires rule { IsRule F.pre F.post rule.now }
    requires cap { rule.now.cap ≤ most_outputs }
    requires session { mixer.old.held.session ≡ session.now }
    requires place { place < length mixer.old.held.batches }
    requires unsent { HasSentNoneFrom mixer.old place }
    ensures written { (answers : ℕ → ℕ) → IsAnsweredBy (F.post rule.now.closure) answers
        → Writes (O.state output.old) (O.state output.new)
        (place_records session.now mixer.old.seed answers mixer.old.held.batches place)
        (result_err result) }
    ensures count { (answers : ℕ → ℕ) → IsAnsweredBy (F.post rule.now.closure) answers
        → IfOk result (λ count. count ≡ place_count answers mixer.old.held.batches place) }
    ensures within { IfOk result (λ count. count ≤ most_outputs) }
    ensures held { OnOk result (mixer.new.held ≡ mixer.old.held) }
    ensures seed { OnOk result (mixer.new.seed ≡ mixer.old.seed) }
    ensures sent { OnOk result (HasSentNoneFrom mixer.new (place + 1)) }
{
    let held = mixer.held();
    let number = held.batch_at(place);
    let _rising = held.batches();
    let _at_most = session.m();
    let count = rule.count(held.basis_at(place).rank());
    send_batch(output, session, mixer, number, count)?;
    Ok(count)
}

// Writes the records of as many outputs of each held batch as the rule says, numbers of batches rising. The answer is
// the number of all outputs.
fn send_batches<F: Fn(u32) -> u32, O: Sink>(
    output: &mut O,
    session: &Session,
    mixer: &mut Mixer,
    rule: &Rule<F>,
) -> Result<u32, Stop>
    requires rule { IsRule F.pre F.post rule.now }
    requires cap { rule.now.cap ≤ most_outputs }
    requires session { mixer.old.held.session ≡ session.now }
    requires unsent { HasSentNoneFrom mixer.old 0 }
    ensures written { (answers : ℕ → ℕ) → IsAnsweredBy (F.post rule.now.closure) answers
        → Writes (O.state output.old) (O.state output.new)
        (held_records session.now mixer.old.seed answers mixer.old.held.batches)
        (result_err result) }
    ensures count { (answers : ℕ → ℕ) → IsAnsweredBy (F.post rule.now.closure) answers
        → IfOk result (λ count. count ≡ sent_count answers mixer.old.held.batches) }
    ensures held { OnOk result (mixer.new.held ≡ mixer.old.held) }
{
    let mut sent = 0;
    'batches: for place in 0..mixer.held().batches() {
        sent += send_place(output, session, mixer, rule, place)?;
    }
    Ok(sent)
}

// Writes the header record, and then the outputs.
fn send<F: Fn(u32) -> u32, O: Sink>(
    output: &mut O,
    intake: &mut Intake,
    rule: &Rule<F>,
) -> Result<u32, Stop>
    requires rule { IsRule F.pre F.post rule.now }
    requires cap { rule.now.cap ≤ most_outputs }
    requires session { intake.old.mixer.held.session ≡ intake.old.session }
    requires unsent { HasSentNoneFrom intake.old.mixer 0 }
    ensures written { (answers : ℕ → ℕ) → IsAnsweredBy (F.post rule.now.closure) answers
        → Writes (O.state output.old) (O.state output.new)
        (header_record intake.old.session
        ++ held_records intake.old.session intake.old.mixer.seed answers intake.old.mixer.held.batches)
        (result_err result) }
    ensures count { (answers : ℕ → ℕ) → IsAnsweredBy (F.post rule.now.closure) answers
        → IfOk result (λ count. count ≡ sent_count answers intake.old.mixer.held.batches) }
    ensures held { OnOk result (intake.new.mixer.held ≡ intake.old.mixer.held) }
    ensures packets { intake.new.packets ≡ intake.old.packets }
{
    write_header(output, &intake.session)?;
    send_batches(output, &intake.session, &mut intake.mixer, rule)
}

/// Writes the header record and then, for each held batch, numbers rising, the records of its outputs: `count` of them,
/// or with `extra` as many as its rank and `count` more. The answer is the number of outputs.
pub fn send_by_rule<O: Sink>(
    output: &mut O,
    intake: &mut Intake,
    extra: bool,
    count: u32,
) -> Result<u32, Stop>
    requires count { count ≤ 64 }
    requires session { intake.old.mixer.held.session ≡ intake.old.session }
    requires unsent { HasSentNoneFrom intake.old.mixer 0 }
    ensures written { Writes (O.state output.old) (O.state output.new)
        (header_record intake.old.session
        ++ held_records intake.old.session intake.old.mixer.seed (output_count intake.old.session extra count) intake.old.mixer.held.batches)
        (result_err result) }
    ensures count { IfOk result (λ sent. sent ≡ sent_count (output_count intake.old.session extra count) intake.old.mixer.held.batches) }
    ensures held { OnOk result (intake.new.mixer.held ≡ intake.old.mixer.held) }
    ensures packets { intake.new.packets ≡ intake.old.packets }
{
    let m = intake.session.m();
    if extra {
        let rule = Rule::new(u32::from(m) + count, move |rank: u32| {
            extra_outputs(m, count, rank)
        });
        send(output, intake, &rule)
    } else {
        let rule = Rule::new(count, move |rank: u32| fixed_outputs(count, rank));
        send(output, intake, &rule)
    }
}
