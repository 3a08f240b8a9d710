//! Entries for tests.

ghost use Rattle.std.specs.Prelude.{IfOk};
ghost use Rattle.call_rules.specs.PlainCalls.{IsPlainCall, IsPlainAnswer};

use call_rules::{Answer, Call, Entry, Key};
use std::alloc::{AllocError, Global};
use thrift_value::{ByteText, Fields, Value};

/// A call of `p` without arguments and without a result: frame `i` of connection 0.
pub(crate) fn ping(alloc: Global, i: u64) -> Result<Entry, AllocError>
    ensures call { IfOk result (λ e. IsPlainCall e.call) }
    ensures answer { IfOk result (λ e. IsPlainAnswer e.answer) }
{
    let mut method = Vec::new(alloc);
    method.push(b'p')?;
    Ok(Entry {
        key: Key { c: 0, i },
        call: Call {
            slot: 0,
            method: ByteText::new(method),
            args: Value::Struct(Fields::new(Vec::new(alloc))),
            silent: false,
        },
        answer: Answer::Empty,
    })
}

/// The same of frame 0, answered with so many bytes.
pub(crate) fn long_ping(alloc: Global, count: usize) -> Result<Entry, AllocError>
    ensures call { IfOk result (λ e. IsPlainCall e.call) }
    ensures answer { IfOk result (λ e. IsPlainAnswer e.answer) }
{
    let bytes = vec![in alloc; b'x'; count]?;
    let Entry { key, call, .. } = ping(alloc, 0)?;
    Ok(Entry {
        key,
        call,
        answer: Answer::Success(Value::Bytes(ByteText::new(bytes))),
    })
}
