//! A desk with one service, that replies with a payload's first byte.

use call_rules::{Answer, Call, Decision, Desk};
use conn_table::Limits;
use std::alloc::{AllocError, Global};
use thrift_value::{ByteText, Fields, Value};

/// The limits of all runs: one payload of the longest that the desk takes is admitted at a time.
pub(crate) const LIMITS: Limits = Limits {
    max_frame: 8,
    read_budget: 8,
};

/// A desk whose payloads all make the same call, but that it is silent where their first byte is 1. It replies with their first byte.
#[derive(Clone, Copy)]
pub(crate) struct ByteDesk {}

impl Desk for ByteDesk {
    ghost use Rattle.serving_tests.specs.ByteDesk.{byte_desk, byte_desk_holds};

    ghost meaning = { λ _. byte_desk };

    fn decide(&self, alloc: Global, payload: &[u8]) -> Result<Decision, AllocError> {
        let [first, ..] = payload else {
            return Ok(Decision::Silent);
        };
        let method = vec![in alloc; b'p']?;
        Ok(Decision::Invoke(Call {
            slot: 0,
            method: ByteText::new(method),
            args: Value::Struct(Fields::new(Vec::new(alloc))),
            silent: *first == 1,
        }))
    }

    fn reply(
        &self,
        alloc: Global,
        payload: &[u8],
        _answer: &Answer,
    ) -> Result<Vec<u8>, AllocError> {
        let [first, ..] = payload else {
            return Ok(vec![in alloc; 0, 0, 0, 1, 0]?);
        };
        Ok(vec![in alloc; 0, 0, 0, 1, *first]?)
    }

    ghost holds = { λ desk. byte_desk_holds };
}
