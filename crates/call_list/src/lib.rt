// A list of calls in numbers, performed on the operations one after the other: what a host did can be kept and done again, and demand 3's claim over a
// list of calls is a claim about this function. (Of lists that lend no other entity cells: that is between two such lists.) The numbers of pairs that a call
// writes together stand in a list of their own.
#![tactic(auto)]

ghost use Rattle.std.specs.Prelude.{◌≡◌, true, ◌+◌, ◌*◌, ◌<◌, ◌≤◌, length, is_some, IfSome};
ghost use Rattle.std.proofs.lemmas.List.Edits.{sets};
ghost use Rattle.definition.specs.File.{records};
ghost use Rattle.definition.specs.Load.{program_of};
ghost use Rattle.progs.specs.Contexts.{config};
ghost use Rattle.call_list.specs.Encoding.{write_numbered, call_numbered, write_formed, formed_numbered, call_of, IsWithin, formed_at, all_true, well_formed, call_in, refused_reply, numbered_reply, numbered_read, checked_reply, read_reply, statement_reply, run_reply, after_all, replies, performed, replied_of, answering, handover_reply, after_call, outcome_of};

use definition::refusal::Refusal;
use definition::{Handover, RunAnswer, StatementAnswer};
use functions::fetch;
use progs::ExecutionContext;
use server::{Ran, Stepped};

// The words of answers. Numbers and no enum: an exported function gives them.
pub const ACCEPTED: u32 = 0;

pub const ENDED: u32 = 1;

pub const SPENT: u32 = 2;

pub const REFUSED: u32 = 3;

pub const BUILTIN: u32 = 4;

pub const OPCODE: u32 = 5;

// The context after a call, and its answer in three numbers.
#[repr(C)]
#[derive(Clone, Copy)]
pub struct Replied {
    pub context: ExecutionContext,
    pub word: u32,
    pub detail: u32,
    pub count: u32,
}

// A list with a call that is malformed, or with more calls than there is room for answers: none is performed.
#[derive(Clone, Copy, Debug, PartialEq, Eq)]
pub struct Malformed;

// A call of a list, which is kept in numbers, as a host can write them down.
#[derive(Clone, Copy, Debug, PartialEq, Eq)]
enum Call {
    Enter(i64),
    Step,
    Run { target: i64, limit: i64 },
    CarryOn,
    Abandon(i64),
    Read(i64),
    Write { address: i64, value: u32 },
    // Pairs that are written together: of the numbers beside the list those from `first` on, so many.
    WriteAll { first: usize, count: usize },
}

fn reply(context: ExecutionContext, word: u32, detail: u32, count: u32) -> Replied
    ensures { result ≡ answering context (record { word = word; detail = detail; count = count }) }
{
    Replied {
        context,
        word,
        detail,
        count,
    }
}

// A refusal by its number, whichever number it is.
pub fn reply_refused(context: ExecutionContext, number: u8) -> Replied
    ensures { result ≡ answering context (refused_reply number) }
{
    reply(context, REFUSED, u32::from(number), 0)
}

// An answer whose refusal is a number, whichever number it is.
pub fn reply_answer(context: ExecutionContext, answer: Result<(), u8>) -> Replied
    ensures { result ≡ answering context (numbered_reply answer) }
{
    match answer {
        Ok(()) => reply(context, ACCEPTED, 0, 0),
        Err(number) => reply_refused(context, number),
    }
}

pub fn reply_read(context: ExecutionContext, answer: Result<u32, u8>) -> Replied
    ensures { result ≡ answering context (numbered_read answer) }
{
    match answer {
        Ok(value) => reply(context, ACCEPTED, value, 0),
        Err(number) => reply_refused(context, number),
    }
}

// The answer of an operation.
pub fn reply_checked(context: ExecutionContext, answer: Result<(), Refusal>) -> Replied
    ensures { result ≡ answering context (checked_reply answer) }
{
    reply_answer(context, answer.map_err(Refusal::number))
}

// What an operation gives.
pub fn reply_value(context: ExecutionContext, answer: Result<u32, Refusal>) -> Replied
    ensures { result ≡ answering context (read_reply answer) }
{
    reply_read(context, answer.map_err(Refusal::number))
}

// By a `match`, here and below: what an answer holds differs from case to case.
fn reply_handover(context: ExecutionContext, handed: Handover, count: u32) -> Replied
    ensures { result ≡ answering context (handover_reply handed count) }
{
    match handed {
        Handover::Builtin(n) => reply(context, BUILTIN, n, count),
        Handover::Opcode(n) => reply(context, OPCODE, n, count),
    }
}

pub fn reply_statement(s: Stepped) -> Replied
    ensures { result ≡ answering s.context (statement_reply s.answer) }
{
    match s.answer {
        StatementAnswer::Completed => reply(s.context, ACCEPTED, 0, 0),
        StatementAnswer::Refused(n) => reply_refused(s.context, n),
        StatementAnswer::HandedOver(h) => reply_handover(s.context, h, 0),
    }
}

pub fn reply_run(ran: Ran) -> Replied
    ensures { result ≡ answering ran.context (run_reply ran.answer ran.count) }
{
    match ran.answer {
        RunAnswer::Ended => reply(ran.context, ENDED, 0, ran.count),
        RunAnswer::Spent => reply(ran.context, SPENT, 0, ran.count),
        RunAnswer::Refused(n) => reply(ran.context, REFUSED, u32::from(n), ran.count),
        RunAnswer::HandedOver(h) => reply_handover(ran.context, h, ran.count),
    }
}

// The pairs of call 7, if the numbers beside the list have them.
fn pairs_of(a: i64, b: i64, numbers: &[i64]) -> Option<Call>
    ensures formed { is_some result ≡ write_formed numbers.now 7 a b }
    ensures call { IfSome result (λ k. (call_of numbers.now k ≡ write_numbered numbers.now 7 a b) × IsWithin numbers.now k) }
{
    let first = fetch::place_of(numbers.len() + 1, a);
    if numbers.len() < first {
        return None;
    }
    let count = fetch::place_of(numbers.len() + 1 - first, b);
    if numbers.len() - first < count {
        return None;
    }
    Some(Call::WriteAll { first, count })
}

// The call that three numbers name, if they are well formed: a value to be written is a cell's, numbers of pairs are there.
#[tactic(auto, using(crate::proofs::Lists::no_call), unfolding(crate::specs::Encoding::formed_numbered))]
fn call_of(kind: usize, a: i64, b: i64, numbers: &[i64]) -> Option<Call>
    ensures formed { is_some result ≡ formed_numbered numbers.now kind a b }
    ensures call { IfSome result (λ k. (call_of numbers.now k ≡ call_numbered numbers.now kind a b) × IsWithin numbers.now k) }
{
    match kind {
        0 => Some(Call::Enter(a)),
        1 => Some(Call::Step),
        2 => Some(Call::Run {
            target: a,
            limit: b,
        }),
        3 => Some(Call::CarryOn),
        4 => Some(Call::Abandon(a)),
        5 => Some(Call::Read(a)),
        6 => u32::try_from(b)
            .ok()
            .map(|value| Call::Write { address: a, value }),
        7 => pairs_of(a, b, numbers),
        _ => None,
    }
}

// The call whose numbers are at a place of a list.
#[tactic(auto, unfolding(crate::specs::Encoding::formed_at, crate::specs::Encoding::call_in))]
fn call_at(calls: &[i64], numbers: &[i64], at: usize) -> Option<Call>
    requires { at + 2 < length calls.now }
    ensures formed { is_some result ≡ formed_at calls.now numbers.now at }
    ensures call { IfSome result (λ k. (call_of numbers.now k ≡ call_in calls.now numbers.now at) × IsWithin numbers.now k) }
{
    let kind = fetch::place_of(8, calls[at]);
    call_of(kind, calls[at + 1], calls[at + 2], numbers)
}

#[tactic(auto, using(crate::proofs::Lists::formed_stops, crate::proofs::Lists::formed_on, crate::proofs::Lists::formed_end, crate::proofs::Lists::formed_start))]
fn all_formed(calls: &[i64], numbers: &[i64], n: usize) -> bool
    requires { 3 * n ≤ length calls.now }
    ensures { result ≡ all_true (records (formed_at calls.now numbers.now) 3 n 0) }
{
    for i in 0..n {
        if call_at(calls, numbers, 3 * i).is_none() {
            return false;
        }
    }
    true
}

#[tactic(auto, using(crate::proofs::Replies::answered, crate::proofs::Replies::read, crate::proofs::Replies::stepped, crate::proofs::Replies::ran))]
fn perform(
    context: ExecutionContext,
    call: Call,
    file: &[u8],
    numbers: &[i64],
    cells: &mut [u32],
    store: &mut [u32],
    entities: &mut [u32],
) -> Replied
    requires { IsWithin numbers.now call }
    ensures { replied_of result cells.new store.new entities.new ≡ after_call (program_of file.now) (call_of numbers.now call) (config context cells.old store.old entities.old) }
{
    let mut now = context;
    match call {
        Call::Enter(function) => {
            let answer = now.enter(file, function, cells, store, entities);
            reply_checked(now, answer)
        }
        Call::Step => reply_statement(server::statement(now, file, cells, store, entities)),
        Call::Run { target, limit } => {
            reply_run(server::run(now, file, target, limit, cells, store, entities))
        }
        Call::CarryOn => {
            let answer = now.carry_on(file, cells, store, entities);
            reply_checked(now, answer)
        }
        Call::Abandon(target) => {
            let answer = now.abandon(file, target, cells, store, entities);
            reply_checked(now, answer)
        }
        Call::Read(address) => {
            let answer = now.read(file, address, cells, store, entities);
            reply_value(now, answer)
        }
        Call::Write { address, value } => {
            let answer = now.write(file, address, value, cells, store, entities);
            reply_checked(now, answer)
        }
        Call::WriteAll { first, count } => {
            let pairs = &numbers[first..first + count];
            let answer = now.write_all(file, pairs, cells, store, entities);
            reply_checked(now, answer)
        }
    }
}

// Three numbers to each call, room for three of answer, and the numbers of each well formed.
#[tactic(auto, unfolding(crate::specs::Encoding::well_formed))]
fn well_formed(calls: &[i64], numbers: &[i64], room: usize) -> bool
    ensures { result ≡ well_formed calls.now numbers.now room }
{
    calls.len() % 3 == 0 && calls.len() <= room && all_formed(calls, numbers, calls.len() / 3)
}

// What is lent comes as plain slices, as in the C interface. Performs the n calls, whose numbers are well formed.
fn perform_all(
    context: &mut ExecutionContext,
    file: &[u8],
    calls: &[i64],
    numbers: &[i64],
    n: usize,
    answers: &mut [u32],
    cells: &mut [u32],
    store: &mut [u32],
    entities: &mut [u32],
)
    requires n_in_bounds { (3 * n ≤ length calls.now) × (3 * n ≤ length answers.old) }
    requires n_value { all_true (records (formed_at calls.now numbers.now) 3 n 0) ≡ true }
    ensures entities_after { config context.new cells.new store.new entities.new ≡ after_all (program_of file.now) (records (call_in calls.now numbers.now) 3 n 0) (config context.old cells.old store.old entities.old) }
    ensures answers_after { answers.new ≡ sets answers.old 0 (replies (program_of file.now) (records (call_in calls.now numbers.now) 3 n 0) (config context.old cells.old store.old entities.old)) }
{
    for i in 0..n {
        let at = 3 * i;
        let Some(call) = call_at(calls, numbers, at) else {
            unreachable!()
        };
        let done = perform(*context, call, file, numbers, cells, store, entities);
        answers[at] = done.word;
        answers[at + 1] = done.detail;
        answers[at + 2] = done.count;
        *context = done.context;
    }
}

// Performs a list of calls, three numbers to a call, and puts three numbers of answer to each at the front of `answers`.
#[tactic(auto, using(crate::proofs::Whole::fits, crate::proofs::Whole::each), unfolding(crate::specs::Encoding::performed))]
pub fn perform_calls(
    context: &mut ExecutionContext,
    file: &[u8],
    calls: &[i64],
    numbers: &[i64],
    answers: &mut [u32],
    cells: &mut [u32],
    store: &mut [u32],
    entities: &mut [u32],
) -> Result<(), Malformed>
    ensures { outcome_of result context.new answers.new cells.new store.new entities.new ≡ performed (program_of file.now) calls.now numbers.now (config context.old cells.old store.old entities.old) answers.old }
{
    if !well_formed(calls, numbers, answers.len()) {
        return Err(Malformed);
    }
    let n = calls.len() / 3;
    perform_all(
        context, file, calls, numbers, n, answers, cells, store, entities,
    );
    Ok(())
}
