//! Tests of messages without frames: what a reader of them (`stream_reader`) makes of bytes in pieces.
#![tactic(auto)]

#[cfg(test)]
mod messages;
