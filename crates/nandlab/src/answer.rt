// What is written for a request to the bytes that it is given.
ghost use Rattle.std.specs.Prelude.{◌≡◌, ◌<◌, ◌≤◌, IfOk, IfErr};
ghost use Rattle.headline_laws.specs.TableBlocks.{HaveTableBlocks};
ghost use Rattle.headline_model.specs.Headline.{IsReplayOf};
ghost use Rattle.plan_grammar.specs.Canonical.{canonical_text};
ghost use Rattle.plan_grammar.specs.Grammar.{IsPlan};
ghost use Rattle.plan_grammar.specs.Meaning.{plan_of};
ghost use Rattle.nandlab.specs.Answer.{Answers, IsNoPlan, IsRefusalOf, Serves};
ghost use Rattle.nandlab.specs.Refusal.{IfText, input_kind, refusal_line};
ghost use Rattle.nandlab.specs.Words.{HasStrength};
ghost use Rattle.nandlab.specs.declared.refusal.Refusal.TheVariants.{Memory};

use crate::refusal::{Refusal, input_kind, kind_name};
use crate::request::Request;
use crate::status::Status;
use bus_script::{ScriptError, illegal_text, run_script};
use code_words::{InputRefusal, decode_units, encode_units, step_refusal, unit_refusal};
use made_replay::made_summary;
use nand_model::Bytes;
use plan_replay::replay_report;
use plan_text::{Plan, PlanError, PlanKind, put_plan, read_plan};
use std::alloc::{AllocError, Global};

/// A text to write, and the status of the call where all of it is written.
#[derive(Drop)]
pub struct Answer {
    pub status: Status,
    pub text: Bytes,
}

// The line that refuses a plan or a script.
fn refusal_text(alloc: Global, line: u32, kind: PlanKind) -> Result<Bytes, AllocError>
    ensures { IfOk result (λ text. text ≡ refusal_line line kind) }
{
    let name = kind_name(kind);
    let text = format!(in alloc; "line {line}: {name}\n")?;
    Bytes::from_slice(alloc, text.as_bytes())
}

// The plan that the bytes are.
fn plan_read(alloc: Global, bytes: &[u8]) -> Result<Plan, Refusal>
    ensures plan { IfOk result (IsPlan bytes.now) }
    ensures table_blocks { IfOk result (λ plan. HaveTableBlocks (plan_of plan)) }
    ensures refused { IfErr result (λ refusal. IfText refusal (IsNoPlan bytes.now)) }
{
    match read_plan(alloc, bytes) {
        Ok(plan) => Ok(plan),
        Err(PlanError::Refused { line, kind }) => {
            let text = refusal_text(alloc, line, kind)?;
            Err(Refusal::Text(text))
        }
        Err(PlanError::Memory) => Err(Refusal::Memory),
    }
}

// What `check` writes: the canonical text of the plan.
fn checked(alloc: Global, bytes: &[u8]) -> Result<Bytes, Refusal>
    ensures text { IfOk result (Serves Request.Check bytes.now) }
    ensures refused { IfErr result (λ refusal. IfText refusal
        (IsRefusalOf Request.Check bytes.now)) }
{
    let plan = plan_read(alloc, bytes)?;
    let mut text = Bytes::filled(alloc, 0, 0)?;
    put_plan(&mut text, &plan)?;
    Ok(text)
}

// What `replay` writes: the report of the plan's replay.
fn replayed(alloc: Global, bytes: &[u8]) -> Result<Bytes, Refusal>
    ensures text { IfOk result (Serves Request.Replay bytes.now) }
    ensures refused { IfErr result (λ refusal. IfText refusal
        (IsRefusalOf Request.Replay bytes.now)) }
{
    let plan = plan_read(alloc, bytes)?;
    Ok(replay_report(alloc, &plan)?)
}

// What `bus` writes: what the script does at a new chip.
fn bus_answer(alloc: Global, bytes: &[u8]) -> Result<Bytes, Refusal>
    ensures text { IfOk result (Serves Request.Bus bytes.now) }
    ensures refused { IfErr result (λ refusal. IfText refusal (IsRefusalOf Request.Bus bytes.now)) }
{
    match run_script(alloc, bytes) {
        Ok(text) => Ok(text),
        Err(ScriptError::Refused { line: at, kind }) => {
            let text = refusal_text(alloc, at, kind)?;
            Err(Refusal::Text(text))
        }
        Err(ScriptError::Illegal { cycle }) => {
            let text = illegal_text(alloc, cycle)?;
            Err(Refusal::Text(text))
        }
        Err(ScriptError::Memory) => Err(Refusal::Memory),
    }
}

// The line that refuses an input of steps or units.
fn input_text(alloc: Global, why: InputRefusal) -> Result<Bytes, AllocError>
    ensures { IfOk result (λ text. text ≡ refusal_line 0 (input_kind why)) }
{
    refusal_text(alloc, 0, input_kind(why))
}

// What `encode14` writes: the steps, each followed by its stored parity.
fn encoded(alloc: Global, t: u32, bytes: &[u8]) -> Result<Bytes, Refusal>
    requires { (0 < t) × (t ≤ 16) }
    ensures text { IfOk result (Serves (Request.Encode t) bytes.now) }
    ensures refused { IfErr result (λ refusal. IfText refusal
        (IsRefusalOf (Request.Encode t) bytes.now)) }
{
    match step_refusal(bytes) {
        None => Ok(encode_units(alloc, t, bytes)?),
        Some(why) => {
            let text = input_text(alloc, why)?;
            Err(Refusal::Text(text))
        }
    }
}

// What `decode14` writes: how each unit was read, and its step.
fn decoded(alloc: Global, t: u32, bytes: &[u8]) -> Result<Bytes, Refusal>
    requires { (0 < t) × (t ≤ 16) }
    ensures text { IfOk result (Serves (Request.Decode t) bytes.now) }
    ensures refused { IfErr result (λ refusal. IfText refusal
        (IsRefusalOf (Request.Decode t) bytes.now)) }
{
    match unit_refusal(t, bytes) {
        None => Ok(decode_units(alloc, t, bytes)?),
        Some(why) => {
            let text = input_text(alloc, why)?;
            Err(Refusal::Text(text))
        }
    }
}

// What a request writes of the bytes that it is given.
fn served(alloc: Global, request: Request, bytes: &[u8]) -> Result<Bytes, Refusal>
    requires { HasStrength request }
    ensures text { IfOk result (Serves request bytes.now) }
    ensures refused { IfErr result (λ refusal. IfText refusal (IsRefusalOf request bytes.now)) }
{
    match request {
        Request::Check => checked(alloc, bytes),
        Request::Replay | Request::Run => replayed(alloc, bytes),
        Request::Make(n) => Ok(made_summary(alloc, n)?),
        Request::Bus => bus_answer(alloc, bytes),
        Request::Encode(t) => encoded(alloc, t, bytes),
        Request::Decode(t) => decoded(alloc, t, bytes),
    }
}

/// What is written for a request that is given these bytes, and its status: what it writes of them,
/// or the line that refuses them.
pub fn answer_to(alloc: Global, request: Request, bytes: &[u8]) -> Result<Answer, AllocError>
    requires { HasStrength request }
    ensures { IfOk result (λ answer. Answers request bytes.now answer.status answer.text) }
{
    let (status, text) = match served(alloc, request, bytes) {
        Ok(text) => (Status::Fine, text),
        Err(Refusal::Text(text)) => (Status::PlanRefused, text),
        Err(Refusal::Memory) => return Err(AllocError),
    };
    Ok(Answer { status, text })
}
