//! The frame that asks for a call.

ghost use Rattle.std.specs.Prelude.{◌≡◌};
ghost use Rattle.schema.specs.SchemaOf.{plain_function};
ghost use Rattle.client_desk.specs.Asking.{asked_type};

use crate::arguments::{may_go_out, put_args};
use crate::ask_fault::AskFault;
use crate::client::Client;
use crate::frames::{SIZE_BYTES, opened, with_size};
use envelope::write_head;
use schema::FnDesc;
use std::alloc::{AllocError, Global};
use struct_skew::a_found_function_is_sound;
use thrift_value::Value;

/// The type of a call.
const CALL: u8 = 1;

/// The type of a call without a reply.
const ONEWAY: u8 = 4;

/// Room for the head of a call beside its name, and for short arguments.
const CALL_ROOM: usize = 64;

/// The type of a message that asks for a function's call.
fn asked_type(function: &FnDesc) -> u8
    ensures { result ≡ asked_type (plain_function function.now) }
{
    if function.oneway { ONEWAY } else { CALL }
}

impl Client {
    ghost use Rattle.std.specs.Prelude.{◌≡◌, ◌≤◌, ◌∷◌, length, true, Some, IfOk};
    ghost use Rattle.call_rules.specs.Desks.{longest_payload};
    ghost use Rattle.schema.specs.SchemaOf.{schema_of, plain_function};
    ghost use Rattle.schema.specs.Sound.{IsSound, IsPlaceIn};
    ghost use Rattle.thrift_value.specs.TreeOf.{tree_of};
    ghost use Rattle.client_desk.specs.Asking.{asked_frame, asked_name, asked_of_function, call_message, frame_within, AsksOrNoMemory, GoesOut};
    ghost use Rattle.client_desk.specs.ClientOf.{plain_client};

    /// The name of a message that asks for a method's call, where the service's stands in front.
    fn service_and_method(&self, alloc: Global, method: &[u8]) -> Result<Vec<u8>, AllocError>
        requires { self.now.named ≡ true }
        ensures { IfOk result (λ name. name.items ≡ asked_name (plain_client self.now) method.now) }
    {
        let service = self.name.as_slice();
        let mut name = Vec::with_capacity(alloc, service.len() + 1 + method.len())?;
        name.extend_from_slice(service)?;
        name.push(b':')?;
        name.extend_from_slice(method)?;
        Ok(name)
    }

    /// The payload of a message of this name, behind four bytes for its size.
    #[tactic(auto, unfolding(crate::specs::Asking::call_message))]
    fn open_call(
        &self,
        alloc: Global,
        name: &[u8],
        function: &FnDesc,
        args: &Value,
        id: i32,
    ) -> Result<Vec<u8>, AllocError>
        requires name { length name.now ≤ longest_payload }
        requires args { GoesOut (tree_of args.now) }
        ensures { IfOk result (λ framed. framed.items
            ≡ 0 ∷ 0 ∷ 0 ∷ 0 ∷ call_message self.now.protocol name.now (plain_function function.now) (tree_of args.now) id) }
    {
        let mut framed = opened(alloc, CALL_ROOM + name.len())?;
        write_head(self.protocol, name, asked_type(function), id, &mut framed)?;
        put_args(self.protocol, args, &mut framed)?;
        Ok(framed)
    }

    /// The frame of a message of this name. Where the name alone is too long, nothing is written.
    fn ask_under(
        &self,
        alloc: Global,
        name: &[u8],
        function: &FnDesc,
        args: &Value,
        id: i32,
    ) -> Result<Vec<u8>, AskFault>
        requires most { self.now.max_frame ≤ longest_payload }
        requires args { GoesOut (tree_of args.now) }
        ensures { AsksOrNoMemory (λ framed. framed.items) result
            (frame_within self.now.max_frame (call_message self.now.protocol name.now (plain_function function.now) (tree_of args.now) id)) }
    {
        if name.len() > self.max_frame as usize {
            return Err(AskFault::TooLarge);
        }
        let framed = self.open_call(alloc, name, function, args, id)?;
        if framed.len() - SIZE_BYTES > self.max_frame as usize {
            return Err(AskFault::TooLarge);
        }
        Ok(with_size(framed))
    }

    /// The frame of a message with arguments that may go out.
    fn ask_checked(
        &self,
        alloc: Global,
        function: &FnDesc,
        method: &[u8],
        args: &Value,
        id: i32,
    ) -> Result<Vec<u8>, AskFault>
        requires most { self.now.max_frame ≤ longest_payload }
        requires args { GoesOut (tree_of args.now) }
        ensures { AsksOrNoMemory (λ framed. framed.items) result (frame_within self.now.max_frame
            (call_message self.now.protocol (asked_name (plain_client self.now) method.now) (plain_function function.now) (tree_of args.now) id)) }
    {
        if self.named {
            let name = self.service_and_method(alloc, method)?;
            return self.ask_under(alloc, name.as_slice(), function, args, id);
        }
        self.ask_under(alloc, method, function, args, id)
    }

    /// The frame that asks for a function's call.
    fn ask_function(
        &self,
        alloc: Global,
        function: &FnDesc,
        method: &[u8],
        args: &Value,
        id: i32,
    ) -> Result<Vec<u8>, AskFault>
        requires sound { IsSound (schema_of self.now.schema) }
        requires most { self.now.max_frame ≤ longest_payload }
        requires place { IsPlaceIn (schema_of self.now.schema).structs function.now.args }
        ensures { AsksOrNoMemory (λ framed. framed.items) result
            (asked_of_function (plain_client self.now) method.now (tree_of args.now) id (Some (plain_function function.now))) }
    {
        let may = may_go_out(alloc, &self.schema, function.args, args)?;
        if may {
            return self.ask_checked(alloc, function, method, args, id);
        }
        Err(AskFault::Unfit)
    }

    /// The frame that asks for a method's call with these arguments, under a sequence id (Thrift RPC specification, 'Request'). The
    /// arguments are written as they are: a field that isn't there isn't sent.
    pub fn ask(
        &self,
        alloc: Global,
        method: &[u8],
        args: &Value,
        id: i32,
    ) -> Result<Vec<u8>, AskFault>
        ensures exact { AsksOrNoMemory (λ framed. framed.items) result (asked_frame (plain_client self.now) method.now (tree_of args.now) id) }
    {
        a_found_function_is_sound();
        match self.schema.function(self.service, method) {
            Some(function) => self.ask_function(alloc, function, method, args, id),
            None => Err(AskFault::NoMethod),
        }
    }
}
