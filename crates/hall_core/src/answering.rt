//! The step of a hall in which a service answers a call.

ghost use Rattle.std.specs.Prelude.{◌≡◌, ◌<◌, ◌≤◌, List, false, length, map, IfOk, OnOk, OnErr, IfSome, OnSome, IfNone};
ghost use Rattle.thrift_value.specs.TreeOf.{tree_of};
ghost use Rattle.host_model.specs.Journal.{after_call};
ghost use Rattle.call_rules.specs.Answers.{plain_answer};
ghost use Rattle.call_rules.specs.PlainCalls.{IsPlainCall, IsPlainValue, IsPlainAnswer};
ghost use Rattle.call_rules.specs.Handling.{ServiceState, handled, service_after, handler_rules};
ghost use Rattle.machine_model.specs.HallRule as rule;
ghost use Rattle.machine_model.specs.SeenHall.{SeenGives};
ghost use Rattle.hall_core.specs.Meant.{ServedHall, with_services};
ghost use Rattle.hall_core.specs.Answered.{IsAnswerOf, answered_so};
ghost use Rattle.hall_core.specs.Asked.{answer_of};

use crate::operation::HallReply;
use call_rules::{Answer, Call, Entry, Handler, Journal, Key};
use std::alloc::{AllocError, Global};
use streams::Failed;
use thrift_value::Value;

/// What a handler does for a hall. A handler may be sent to other threads, which a step asks nothing of.
pub(crate) trait AnswersCalls: Drop {
    // Its service.
    ghost state: { Self → ServiceState };

    /// Answers a call.
    fn answer_to(
        &mut self,
        alloc: Global,
        method: &[u8],
        args: &Value,
    ) -> Result<Answer, AllocError>
        ensures answered { IfOk result (λ answer. plain_answer answer ≡ (handled (state self.old) method.now (tree_of args.now)).answer) }
        ensures moved { OnOk result (state self.new ≡ service_after (state self.old) method.now (tree_of args.now)) }
        ensures plain { IsPlainValue (tree_of args.now) → IfOk result (λ answer. IsPlainAnswer (plain_answer answer)) }
        ensures err { OnErr result (state self.new ≡ state self.old) };
}

impl<H: Handler> AnswersCalls for H {
    ghost state = { λ h. H.service h };

    fn answer_to(
        &mut self,
        alloc: Global,
        method: &[u8],
        args: &Value,
    ) -> Result<Answer, AllocError> {
        self.answer(alloc, method, args)
    }
}

/// Lets the handler of the call's slot answer it.
fn answered<A: AnswersCalls>(
    alloc: Global,
    handlers: &mut [A],
    call: &Call,
) -> Result<Answer, AllocError>
    requires slot { call.now.slot < length handlers.old }
    requires plain { IsPlainCall call.now }
    ensures answer { IfOk result (λ answer. IsAnswerOf (map A.state handlers.old) call.now (plain_answer answer)) }
    ensures moved { OnOk result (map A.state handlers.new ≡ after_call handler_rules (map A.state handlers.old) call.now) }
    ensures plain { IfOk result (λ answer. IsPlainAnswer (plain_answer answer)) }
    ensures err { OnErr result (map A.state handlers.new ≡ map A.state handlers.old) }
{
    let handler = &mut handlers[call.slot as usize];
    handler.answer_to(alloc, call.method.as_slice(), &call.args)
}

/// A copy of an answer, in memory of its own.
fn copied(alloc: Global, answer: &Answer) -> Result<Answer, AllocError>
    ensures { IfOk result (λ copy. plain_answer copy ≡ plain_answer answer.now) }
{
    match answer {
        Answer::Success(value) => Ok(Answer::Success(value.try_clone(alloc)?)),
        Answer::Empty => Ok(Answer::Empty),
        Answer::Throws(id, exception) => Ok(Answer::Throws(*id, exception.try_clone(alloc)?)),
        Answer::Broken => Ok(Answer::Broken),
    }
}

/// What is replied where the call was entered or not, and its answer copied or not.
fn replied(entered: Result<(), Failed>, copy: Result<Answer, AllocError>) -> HallReply
    ensures { answer_of result ≡ answered_so entered copy }
{
    match entered {
        Err(_) => HallReply::JournalFault,
        Ok(()) => match copy {
            Ok(answer) => HallReply::Applied(answer),
            Err(_) => HallReply::NoMemory,
        },
    }
}

/// The answer to a call, where the journal has room to enter it and there is memory for it.
fn answered_with_room<A: AnswersCalls, J: Journal>(
    alloc: Global,
    handlers: &mut [A],
    journal: &mut J,
    call: &Call,
) -> Option<Answer>
    requires slot { call.now.slot < length handlers.old }
    requires plain { IsPlainCall call.now }
    ensures told { J.told journal.new ≡ J.told journal.old }
    ensures faults { J.faults journal.new ≡ J.faults journal.old }
    ensures torn { J.torn journal.new ≡ J.torn journal.old }
    ensures none { IfNone result (map A.state handlers.new ≡ map A.state handlers.old) }
    ensures room { OnSome result (1 ≤ J.room journal.new) }
    ensures answer { IfSome result (λ answer. IsAnswerOf (map A.state handlers.old) call.now (plain_answer answer)) }
    ensures moved { OnSome result (map A.state handlers.new ≡ after_call handler_rules (map A.state handlers.old) call.now) }
    ensures plain { IfSome result (λ answer. IsPlainAnswer (plain_answer answer)) }
{
    let Ok(()) = journal.reserve() else {
        return None;
    };
    match answered(alloc, handlers, call) {
        Ok(answer) => Some(answer),
        Err(_) => None,
    }
}

/// Enters a call with its answer in the journal. The answer is copied before, since the entry takes it.
fn enter<J: Journal>(
    alloc: Global,
    journal: &mut J,
    broken: &mut bool,
    key: Key,
    call: Call,
    answer: Answer,
) -> HallReply
    requires whole { J.torn journal.old ≡ false }
    requires room { 1 ≤ J.room journal.old }
    requires call { IsPlainCall call }
    requires answer { IsPlainAnswer (plain_answer answer) }
    ensures torn { broken.new ≡ J.torn journal.new }
    ensures gives { (hall : ServedHall) (old new : List ServiceState) → IsAnswerOf old call (plain_answer answer) → new ≡ after_call handler_rules old call → SeenGives handler_rules
        (with_services hall old (J.told journal.old) (J.faults journal.old) false) (rule.apply key call) (answer_of result)
        (with_services hall new (J.told journal.new) (J.faults journal.new) broken.new) }
{
    let copy = copied(alloc, &answer);
    let entered = journal.append(Entry { key, call, answer });
    *broken = entered.is_err();
    replied(entered, copy)
}

/// Lets the call be answered, and enters it in the journal.
fn apply<A: AnswersCalls, J: Journal>(
    alloc: Global,
    handlers: &mut [A],
    journal: &mut J,
    broken: &mut bool,
    key: Key,
    call: Call,
) -> HallReply
    requires torn { broken.old ≡ J.torn journal.old }
    requires slot { call.slot < length handlers.old }
    requires plain { IsPlainCall call }
    ensures torn { broken.new ≡ J.torn journal.new }
    ensures gives { (hall : ServedHall) → SeenGives handler_rules
        (with_services hall (map A.state handlers.old) (J.told journal.old) (J.faults journal.old) broken.old) (rule.apply key call) (answer_of result)
        (with_services hall (map A.state handlers.new) (J.told journal.new) (J.faults journal.new) broken.new) }
{
    if *broken {
        return HallReply::Broken;
    }
    match answered_with_room(alloc, handlers, journal, &call) {
        Some(answer) => enter(alloc, journal, broken, key, call, answer),
        None => HallReply::NoMemory,
    }
}

/// The same among handlers that stand in a list.
#[inline(never)]
pub(crate) fn apply_with<A: AnswersCalls, J: Journal>(
    alloc: Global,
    handlers: &mut Vec<A>,
    journal: &mut J,
    broken: &mut bool,
    key: Key,
    call: Call,
) -> HallReply
    requires torn { broken.old ≡ J.torn journal.old }
    requires slot { call.slot < length handlers.old.items }
    requires plain { IsPlainCall call }
    ensures torn { broken.new ≡ J.torn journal.new }
    ensures gives { (hall : ServedHall) → SeenGives handler_rules
        (with_services hall (map A.state handlers.old.items) (J.told journal.old) (J.faults journal.old) broken.old) (rule.apply key call) (answer_of result)
        (with_services hall (map A.state handlers.new.items) (J.told journal.new) (J.faults journal.new) broken.new) }
{
    apply(alloc, handlers.as_mut_slice(), journal, broken, key, call)
}
