//! The reply to a call.

use crate::failures::{no_result, too_large};
use crate::frames::{SIZE_BYTES, failure_frame, opened, with_size};
use crate::functions::function_by_name;
use crate::names::{BoundService, name_parts, service_asked};
use crate::office::Office;
use crate::results::{ResultField, put_result, result_field, room_in};
use call_rules::Answer;
use envelope::{HeadFault, LentHead, lend_head, write_head};
use schema::FnDesc;
use std::alloc::{AllocError, Global};

/// Room for the head of a reply beside its name, and for a short result or what stands around bytes and elements.
const REPLY_ROOM: usize = 64;

/// The type of a reply.
const REPLY: u8 = 2;

impl Office {
    ghost use Rattle.std.specs.Prelude.{◌≡◌, ◌≤◌, ◌<◌, ◌^◌, ◌+◌, ◌++◌, ◌∷◌, [], length, Some, IfOk};
    ghost use Rattle.call_rules.specs.Answers.{plain_answer};
    ghost use Rattle.call_rules.specs.Desks.{longest_payload};
    ghost use Rattle.schema.specs.SchemaOf.{schema_of, plain_function};
    ghost use Rattle.schema.specs.Sound.{IsSound};
    ghost use Rattle.call_model.specs.Failures.{no_result, too_large};
    ghost use Rattle.call_model.specs.Decisions.{failure_frame};
    ghost use Rattle.call_model.specs.Replies.{reply_text, reply_of, reply_of_function, reply_of_service, reply_to_head, result_fields, result_frame, within_frame};
    ghost use Rattle.call_model.specs.Names.{function_asked, method_part, service_asked};
    ghost use Rattle.processor.specs.Offices.{plain_office};
    ghost use Rattle.processor.specs.Results.{HasSmallField, lent_fields};
    ghost use Rattle.processor.specs.Seen.{bound_of};

    /// The frame that tells that a call has no result.
    #[inline(never)]
    fn without_result(
        &self,
        alloc: Global,
        head: &LentHead<'_>,
        method: &[u8],
    ) -> Result<Vec<u8>, AllocError>
        requires name { length head.now.name ≤ longest_payload }
        requires method { method.now ≡ method_part head.now.name }
        ensures { IfOk result (λ framed. framed.items ≡ failure_frame self.now.protocol head.now (no_result (method_part head.now.name))) }
    {
        let failure = no_result(alloc, method)?;
        failure_frame(alloc, self.protocol, head, &failure)
    }

    /// The frame that tells that a result is too large.
    #[inline(never)]
    fn above_frame(&self, alloc: Global, head: &LentHead<'_>) -> Result<Vec<u8>, AllocError>
        requires name { length head.now.name ≤ longest_payload }
        ensures { IfOk result (λ framed. framed.items ≡ failure_frame self.now.protocol head.now too_large) }
    {
        let failure = too_large(alloc)?;
        failure_frame(alloc, self.protocol, head, &failure)
    }

    /// The frame of a result's struct.
    #[tactic(auto, unfolding(call_model::specs::Replies::within_frame))]
    fn with_result(
        &self,
        alloc: Global,
        head: &LentHead<'_>,
        method: &[u8],
        field: ResultField<'_>,
    ) -> Result<Vec<u8>, AllocError>
        requires most { self.now.max_frame ≤ longest_payload }
        requires name { length head.now.name ≤ longest_payload }
        requires method { method.now ≡ method_part head.now.name }
        requires sizes { HasSmallField field }
        ensures { IfOk result (λ framed. framed.items
            ≡ within_frame (plain_office self.now) head.now (reply_text self.now.protocol head.now (lent_fields field.entry))) }
    {
        let framed = self.open_reply(alloc, head, method, field)?;
        if framed.len() - SIZE_BYTES > self.max_frame as usize {
            return self.above_frame(alloc, head);
        }
        Ok(with_size(framed))
    }

    /// A reply with its struct, behind four bytes for its size.
    #[tactic(auto, unfolding(call_model::specs::Replies::reply_head))]
    fn open_reply(
        &self,
        alloc: Global,
        head: &LentHead<'_>,
        method: &[u8],
        field: ResultField<'_>,
    ) -> Result<Vec<u8>, AllocError>
        requires name { length head.now.name ≤ longest_payload }
        requires method { method.now ≡ method_part head.now.name }
        requires sizes { HasSmallField field }
        ensures { IfOk result (λ framed. framed.items ≡ 0 ∷ 0 ∷ 0 ∷ 0 ∷ reply_text self.now.protocol head.now (lent_fields field.entry)) }
    {
        let room = REPLY_ROOM + method.len() + room_in(field);
        let mut framed = opened(alloc, room)?;
        write_head(self.protocol, method, REPLY, head.id(), &mut framed)?;
        put_result(self.protocol, field, &mut framed)?;
        Ok(framed)
    }

    /// The frame for an answer of a function.
    #[tactic(auto, unfolding(call_model::specs::Replies::result_frame))]
    fn reply_to_answer(
        &self,
        alloc: Global,
        head: &LentHead<'_>,
        method: &[u8],
        function: &FnDesc,
        answer: &Answer,
    ) -> Result<Vec<u8>, AllocError>
        requires sound { IsSound (schema_of self.now.schema) }
        requires most { self.now.max_frame ≤ longest_payload }
        requires name { length head.now.name ≤ longest_payload }
        requires method { method.now ≡ method_part head.now.name }
        ensures { IfOk result (λ framed. framed.items ≡ result_frame (plain_office self.now) head.now
            (result_fields (schema_of self.now.schema).structs (plain_function function.now) (plain_answer answer.now))) }
    {
        match result_field(&self.schema, &self.bindings.needed, function, answer) {
            Some(field) => self.with_result(alloc, head, method, field),
            None => self.without_result(alloc, head, method),
        }
    }

    /// The frame for an answer of a function of this service.
    #[tactic(auto, unfolding(call_model::specs::Replies::reply_of_function))]
    fn reply_of_bound(
        &self,
        alloc: Global,
        head: &LentHead<'_>,
        method: &[u8],
        bound: BoundService,
        answer: &Answer,
    ) -> Result<Vec<u8>, AllocError>
        requires sound { IsSound (schema_of self.now.schema) }
        requires most { self.now.max_frame ≤ longest_payload }
        requires name { length head.now.name ≤ longest_payload }
        requires method { method.now ≡ method_part head.now.name }
        ensures { IfOk result (λ framed. framed.items ≡ reply_of_function (plain_office self.now) head.now (plain_answer answer.now)
            (function_asked (plain_office self.now) (bound_of bound) head.now.name)) }
    {
        let tables = self.bindings.tables.as_slice();
        match function_by_name(&self.schema, tables, bound.service, method) {
            Some(function) => self.reply_to_answer(alloc, head, method, function, answer),
            None => Ok(Vec::new(alloc)),
        }
    }

    /// The frame for an answer to a message with this head.
    #[tactic(auto, unfolding(call_model::specs::Replies::reply_of_service))]
    fn reply_to_message(
        &self,
        alloc: Global,
        head: &LentHead<'_>,
        answer: &Answer,
    ) -> Result<Vec<u8>, AllocError>
        requires sound { IsSound (schema_of self.now.schema) }
        requires few { length self.now.bindings.names < 2 ^ 32 }
        requires most { self.now.max_frame ≤ longest_payload }
        requires name { length head.now.name ≤ longest_payload }
        ensures { IfOk result (λ framed. framed.items ≡ reply_of_service (plain_office self.now) head.now (plain_answer answer.now)
            (service_asked self.now.bindings.default_slot self.now.bindings.names head.now.name)) }
    {
        let parts = name_parts(head.name());
        match service_asked(
            self.bindings.default_slot,
            self.bindings.names.as_slice(),
            parts.service,
        ) {
            Some(bound) => self.reply_of_bound(alloc, head, parts.method, bound, answer),
            None => Ok(Vec::new(alloc)),
        }
    }

    /// The frame that goes back for a payload whose call had this answer.
    #[tactic(auto, unfolding(call_model::specs::Replies::reply_to_head))]
    pub(crate) fn replied(
        &self,
        alloc: Global,
        payload: &[u8],
        answer: &Answer,
    ) -> Result<Vec<u8>, AllocError>
        requires sound { IsSound (schema_of self.now.schema) }
        requires few { length self.now.bindings.names < 2 ^ 32 }
        requires most { self.now.max_frame ≤ longest_payload }
        requires short { length payload.now ≤ longest_payload }
        ensures { IfOk result (λ framed. framed.items ≡ reply_of (plain_office self.now) payload.now (plain_answer answer.now)) }
    {
        match lend_head(self.protocol, payload) {
            Ok(head) => self.reply_to_message(alloc, &head, answer),
            Err(HeadFault::Envelope(_)) => Ok(Vec::new(alloc)),
            Err(HeadFault::NoMemory) => Err(AllocError),
        }
    }
}
