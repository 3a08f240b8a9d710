//! The decision on a payload.

ghost use Rattle.std.specs.Prelude.{◌≡◌};
ghost use Rattle.host_model.specs.DeskRules.{Invoke};
ghost use Rattle.thrift_value.specs.TreeOf.{tree_of};
ghost use Rattle.call_rules.specs.Answers.{plain_decision};
ghost use Rattle.schema.specs.SchemaOf.{plain_function};
ghost use Rattle.call_model.specs.Decisions.{is_sent_oneway, is_silent};

use crate::arguments::{ArgumentFault, arguments_at};
use crate::failures::{FailureText, bad_arguments, no_method, no_service};
use crate::frames::failure_frame;
use crate::functions::function_by_name;
use crate::names::{BoundService, name_parts, service_asked};
use crate::office::Office;
use call_rules::{Call, Decision};
use envelope::{HeadFault, LentHead, lend_head};
use schema::FnDesc;
use std::alloc::{AllocError, Global};
use streams::Bytes;
use thrift_value::{ByteText, Value};

/// The type of a message whose sender waits for no reply.
const ONEWAY: u8 = 4;

impl Office {
    ghost use Rattle.std.specs.Prelude.{◌≡◌, ◌≤◌, ◌<◌, ◌^◌, ◌+◌, length, false, IfOk};
    ghost use Rattle.std.specs.Option.{option_map, option_copied};
    ghost use Rattle.thrift_value.specs.TreeOf.{tree_of};
    ghost use Rattle.call_rules.specs.Answers.{plain_decision};
    ghost use Rattle.call_rules.specs.Desks.{longest_payload};
    ghost use Rattle.schema.specs.SchemaOf.{schema_of, plain_function};
    ghost use Rattle.schema.specs.Sound.{IsSound, IsPlaceIn};
    ghost use Rattle.call_model.specs.Arguments.{arguments_at};
    ghost use Rattle.call_model.specs.Failures.{bad_arguments, no_method, no_service};
    ghost use Rattle.call_model.specs.Decisions.{call_made, decided_on_function, decided_on_head, decided_on_service, decision, is_sent_oneway, is_silent, refused};
    ghost use Rattle.call_model.specs.Names.{function_asked, method_part, service_asked};
    ghost use Rattle.processor.specs.Offices.{plain_office};
    ghost use Rattle.processor.specs.Seen.{argument_fault_text, bound_of, failure_of};

    /// A message that makes no call: its sender is told why.
    #[tactic(auto, unfolding(call_model::specs::Decisions::refused))]
    fn refuse(
        &self,
        alloc: Global,
        head: &LentHead<'_>,
        failure: &FailureText,
    ) -> Result<Decision, AllocError>
        requires name { length head.now.name ≤ longest_payload }
        requires text { length failure.now.text.items ≤ longest_payload + 100 }
        ensures { IfOk result (λ d. plain_decision d ≡ refused self.now.protocol head.now false (failure_of failure.now)) }
    {
        let framed = failure_frame(alloc, self.protocol, head, failure)?;
        Ok(Decision::Reply(Bytes::new(framed)))
    }

    /// A message whose service isn't bound.
    #[tactic(auto, unfolding(call_model::specs::Decisions::refused))]
    #[inline(never)]
    fn refuse_service(&self, alloc: Global, head: &LentHead<'_>) -> Result<Decision, AllocError>
        requires name { length head.now.name ≤ longest_payload }
        ensures { IfOk result (λ d. plain_decision d ≡ refused self.now.protocol head.now (is_sent_oneway head.now) (no_service head.now.name)) }
    {
        if is_sent_oneway(head) {
            return Ok(Decision::Silent);
        }
        let failure = no_service(alloc, head.name())?;
        self.refuse(alloc, head, &failure)
    }

    /// A message whose method its service hasn't.
    #[tactic(auto, unfolding(call_model::specs::Decisions::refused))]
    #[inline(never)]
    fn refuse_method(
        &self,
        alloc: Global,
        head: &LentHead<'_>,
        method: &[u8],
    ) -> Result<Decision, AllocError>
        requires name { length head.now.name ≤ longest_payload }
        requires method { method.now ≡ method_part head.now.name }
        ensures { IfOk result (λ d. plain_decision d ≡ refused self.now.protocol head.now (is_sent_oneway head.now) (no_method (method_part head.now.name))) }
    {
        if is_sent_oneway(head) {
            return Ok(Decision::Silent);
        }
        let failure = no_method(alloc, method)?;
        self.refuse(alloc, head, &failure)
    }

    /// A message whose arguments are at fault.
    #[tactic(auto, unfolding(call_model::specs::Decisions::refused))]
    #[inline(never)]
    fn refuse_arguments(
        &self,
        alloc: Global,
        head: &LentHead<'_>,
        silent: bool,
        fault: ArgumentFault,
    ) -> Result<Decision, AllocError>
        requires sound { IsSound (schema_of self.now.schema) }
        requires name { length head.now.name ≤ longest_payload }
        ensures { IfOk result (λ d. plain_decision d
            ≡ refused self.now.protocol head.now silent (bad_arguments (argument_fault_text (schema_of self.now.schema) fault))) }
    {
        if silent {
            return Ok(Decision::Silent);
        }
        let failure = bad_arguments(alloc, &self.schema, fault)?;
        self.refuse(alloc, head, &failure)
    }

    /// The call of a function, by its arguments.
    fn call(
        &self,
        alloc: Global,
        payload: &[u8],
        head: &LentHead<'_>,
        method: &[u8],
        bound: BoundService,
        function: &FnDesc,
    ) -> Result<Decision, AllocError>
        requires sound { IsSound (schema_of self.now.schema) }
        requires place { IsPlaceIn (schema_of self.now.schema).structs function.now.args }
        requires name { length head.now.name ≤ longest_payload }
        requires method { method.now ≡ method_part head.now.name }
        requires within { head.now.behind ≤ length payload.now }
        ensures { IfOk result (λ d. plain_decision d ≡ call_made (plain_office self.now) head.now (bound_of bound) (plain_function function.now)
            (arguments_at (schema_of self.now.schema) self.now.protocol function.now.args payload.now head.now.behind)) }
    {
        let method = method.to_vec(alloc)?;
        self.call_with(alloc, payload, head, ByteText::new(method), bound, function)
    }

    /// The same with the method's name, which is copied first, so that no arguments are let go for want of memory.
    #[tactic(auto, unfolding(call_model::specs::Decisions::refused))]
    fn call_with(
        &self,
        alloc: Global,
        payload: &[u8],
        head: &LentHead<'_>,
        method: ByteText,
        bound: BoundService,
        function: &FnDesc,
    ) -> Result<Decision, AllocError>
        requires sound { IsSound (schema_of self.now.schema) }
        requires place { IsPlaceIn (schema_of self.now.schema).structs function.now.args }
        requires name { length head.now.name ≤ longest_payload }
        requires method { method ≡ method_part head.now.name }
        requires within { head.now.behind ≤ length payload.now }
        ensures { IfOk result (λ d. plain_decision d ≡ call_made (plain_office self.now) head.now (bound_of bound) (plain_function function.now)
            (arguments_at (schema_of self.now.schema) self.now.protocol function.now.args payload.now head.now.behind)) }
    {
        let silent = is_silent(head, function);
        match arguments_at(
            alloc,
            &self.schema,
            &self.bindings.needed,
            self.protocol,
            function.args,
            payload,
            head.behind(),
        )? {
            Ok(args) => Ok(invoked(bound.slot, method, args, silent)),
            Err(fault) => self.refuse_arguments(alloc, head, silent, fault),
        }
    }

    /// The decision where this service is asked for.
    #[tactic(auto, unfolding(call_model::specs::Decisions::decided_on_function))]
    fn decide_on_function(
        &self,
        alloc: Global,
        payload: &[u8],
        head: &LentHead<'_>,
        method: &[u8],
        bound: BoundService,
    ) -> Result<Decision, AllocError>
        requires sound { IsSound (schema_of self.now.schema) }
        requires name { length head.now.name ≤ longest_payload }
        requires method { method.now ≡ method_part head.now.name }
        requires within { head.now.behind ≤ length payload.now }
        ensures { IfOk result (λ d. plain_decision d ≡ decided_on_function (plain_office self.now) payload.now head.now (bound_of bound)
            (function_asked (plain_office self.now) (bound_of bound) head.now.name)) }
    {
        let tables = self.bindings.tables.as_slice();
        match function_by_name(&self.schema, tables, bound.service, method) {
            Some(function) => self.call(alloc, payload, head, method, bound, function),
            None => self.refuse_method(alloc, head, method),
        }
    }

    /// The decision where this is the head.
    #[tactic(auto, unfolding(call_model::specs::Decisions::decided_on_service))]
    fn decide_on_service(
        &self,
        alloc: Global,
        payload: &[u8],
        head: &LentHead<'_>,
    ) -> Result<Decision, AllocError>
        requires sound { IsSound (schema_of self.now.schema) }
        requires few { length self.now.bindings.names < 2 ^ 32 }
        requires name { length head.now.name ≤ longest_payload }
        requires within { head.now.behind ≤ length payload.now }
        ensures { IfOk result (λ d. plain_decision d ≡ decided_on_service (plain_office self.now) payload.now head.now
            (service_asked self.now.bindings.default_slot self.now.bindings.names head.now.name)) }
    {
        let parts = name_parts(head.name());
        match service_asked(
            self.bindings.default_slot,
            self.bindings.names.as_slice(),
            parts.service,
        ) {
            Some(bound) => self.decide_on_function(alloc, payload, head, parts.method, bound),
            None => self.refuse_service(alloc, head),
        }
    }

    /// What is decided on a payload.
    #[tactic(auto, unfolding(call_model::specs::Decisions::decided_on_head))]
    pub(crate) fn decided(&self, alloc: Global, payload: &[u8]) -> Result<Decision, AllocError>
        requires sound { IsSound (schema_of self.now.schema) }
        requires few { length self.now.bindings.names < 2 ^ 32 }
        requires short { length payload.now ≤ longest_payload }
        ensures { IfOk result (λ d. plain_decision d ≡ decision (plain_office self.now) payload.now) }
    {
        match lend_head(self.protocol, payload) {
            Ok(head) => self.decide_on_service(alloc, payload, &head),
            Err(HeadFault::Envelope(fault)) => Ok(Decision::Close(fault)),
            Err(HeadFault::NoMemory) => Err(AllocError),
        }
    }
}

/// The call of a method at a slot.
fn invoked(slot: u32, method: ByteText, args: Value, silent: bool) -> Decision
    ensures { plain_decision result ≡ Invoke (record { slot = slot; method = method; args = tree_of args; silent = silent }) }
{
    Decision::Invoke(Call {
        slot,
        method,
        args,
        silent,
    })
}

/// Whether the sender of a message waits for no reply.
fn is_sent_oneway(head: &LentHead<'_>) -> bool
    ensures { result ≡ is_sent_oneway head.now }
{
    head.kind() == ONEWAY
}

/// Whether a call gets no reply.
fn is_silent(head: &LentHead<'_>, function: &FnDesc) -> bool
    ensures { result ≡ is_silent head.now (plain_function function.now) }
{
    if is_sent_oneway(head) {
        return true;
    }
    function.oneway
}
