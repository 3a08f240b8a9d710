//! What the loop holds while it serves, and what it stands on.

use crate::buffer::Buffer;
use conn_table::Limits;
use hall_pool::{Door, Worker};
use loop_conns::LoopConnections;
use outside::Links;
use seat_booth::{Booth, Object, Seat};
use std::alloc::Global;
use std::snapshot::Snapshot;

/// What serves: a desk, a gate that jobs pass, and the limits.
#[derive(Drop)]
pub(crate) struct Host<'a, D, G> {
    pub alloc: Global,
    pub desk: &'a D,
    pub gate: &'a G,
    pub limits: Limits,
}

/// What a loop stands on, and doesn't change.
#[derive(Drop)]
pub(crate) struct Run<'a, O: Object, D, G, L: Links> {
    pub alloc: Global,
    /// The booth round the hall.
    pub booth: &'a Booth<O>,
    pub desk: &'a D,
    pub gate: &'a G,
    /// The door at which workers wait.
    pub door: &'a Door,
    /// The bell of the links, which the loop itself rings where it leaves outcomes for later.
    pub bell: &'a L::Bell,
    /// The links as they came in.
    pub first: Snapshot<L>,
    pub limits: Limits,
    /// Workers run on threads of their own, so the loop makes no turns itself.
    pub crewed: bool,
}

/// What a loop holds. Its clauses speak of `conns`, `seat` and `own` (`specs/Going.antt`).
#[derive(Drop)]
pub(crate) struct Serving<O: Object> {
    pub conns: LoopConnections,
    /// Seat 0, whose calls are the loop's.
    pub seat: Seat<O>,
    /// The loop's own worker, which makes turns where no other does.
    pub own: Worker<O>,
    /// The connections whose frames found no room, the longest waiting first.
    pub held: Vec<u32>,
    /// Into which connections are read.
    pub buffer: Buffer,
}
