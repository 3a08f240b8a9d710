//! A booth may be sent to other threads and shared by them, and a seat sent, for every object that may be sent. Nothing is asked of what the object is made of, nor of its operations and replies.
use crate::booth::{Booth, Seat};
use crate::object::Object;

fn may_be_sent<T: Send>(_value: &T) {}

fn may_be_shared<T: Sync>(_value: &T) {}

/// It does nothing: that it is proved says which types cross threads.
pub fn crosses<O: Object + Send>(booth: &Booth<O>, seat: &Seat<O>) {
    may_be_sent(booth);
    may_be_shared(booth);
    may_be_sent(seat);
}
