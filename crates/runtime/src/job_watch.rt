// Who is told when a worker runs a job.

use std::sync::Wait;

/// What `work` tells before a job is run, and when what came of it was taken in: of this node, the nth one from 0. A test may hold
/// a worker up in it.
pub trait JobWatch {
    fn before_run<R: Wait>(&self, rt: &R, node: u8, nth: u64);

    fn after_install<R: Wait>(&self, rt: &R, node: u8, nth: u64);
}

/// Nobody is told, and nobody watches.
#[derive(Drop)]
pub struct NoWatch;

impl JobWatch for NoWatch {
    fn before_run<R: Wait>(&self, _rt: &R, _node: u8, _nth: u64) {}

    fn after_install<R: Wait>(&self, _rt: &R, _node: u8, _nth: u64) {}
}
