//! A job, as it waits in a hall and as a worker holds it.

use call_rules::Key;
use std::marker::Model;
use streams::Bytes;

/// A payload, under the key of its frame.
#[derive(Drop)]
pub struct Job {
    pub key: Key,
    pub payload: Bytes,
}

impl Model for Job {
    ghost use Rattle.machine_model.specs.HallState.{Job};
    ghost use Rattle.machine_model.specs.HallRule.{job_of};

    ghost Value = { Job };

    ghost view = { λ j. job_of j.key j.payload };
}
