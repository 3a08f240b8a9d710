//! Workers may be sent to other threads, with a booth and a doorbell that they share, where the hall's journal may be sent.

use crate::door::Door;
use crate::worker::Worker;
use call_rules::{Handler, Journal};
use hall_core::Hall;
use seat_booth::Booth;

fn may_be_sent<T: Send>(_value: &T) {}

fn may_be_shared<T: Sync>(_value: &T) {}

/// It does nothing: that it is proved says which types cross threads.
pub fn crosses<H: Handler, J: Journal + Send>(
    worker: &Worker<Hall<H, J>>,
    booth: &Booth<Hall<H, J>>,
    door: &Door,
) {
    may_be_sent(worker);
    may_be_shared(booth);
    may_be_shared(door);
}
