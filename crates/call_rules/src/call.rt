//! Calls, answers and the entries of a journal.

use host_model::Key;
use std::marker::Model;
use thrift_value::{ByteText, Value};

/// A call of a service.
#[derive(Drop)]
pub struct Call {
    /// The place of the service among those that are bound.
    pub slot: u32,
    /// The method's name, without the service's.
    pub method: ByteText,
    /// The struct of the arguments.
    pub args: Value,
    /// Whether it gets no reply.
    pub silent: bool,
}

impl Model for Call {
    ghost use Rattle.thrift_value.specs.TreeOf.{tree_of};
    ghost use Rattle.call_rules.specs.PlainCalls.{PlainCall, plain_call_code};

    ghost Value = { PlainCall };

    ghost coded = { plain_call_code };

    ghost view = { λ call. record { slot = call.slot; method = call.method; args = tree_of call.args; silent = call.silent } };
}

/// What a call is answered with.
#[derive(Drop)]
pub enum Answer {
    /// A value.
    Success(Value),
    /// Nothing: there is no result, or no value for it.
    Empty,
    /// An exception that the function declares, by its id.
    Throws(i16, Value),
    /// The service can't answer; the caller is told no more.
    Broken,
}

/// An entry of a journal: a call and its answer, under the key of the frame that asked for it.
#[derive(Drop)]
pub struct Entry {
    pub key: Key,
    pub call: Call,
    pub answer: Answer,
}

impl Model for Entry {
    ghost use Rattle.call_rules.specs.Entries.{CallEntry, call_entry_code};

    ghost Value = { CallEntry };

    ghost coded = { call_entry_code };

    ghost use Rattle.call_rules.specs.Answers.{plain_answer};

    ghost view = { λ entry. record { key = entry.key; call = entry.call; answer = plain_answer entry.answer } };
}
