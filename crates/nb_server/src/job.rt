use crate::worker::{Worker, WorkerEnd};

/// How far a worker is.
#[derive(Drop)]
pub enum Stage<S> {
    /// It has no pass of its own, and waits for the first one.
    Waits,
    /// It has a pass to ask with.
    Asks(S),
    /// It ran with this pass, to this end.
    Ran(S, WorkerEnd),
}

/// What a thread is to do.
#[derive(Drop)]
pub struct Job<S, P, C> {
    pub worker: Worker<P, C>,
    /// The worker's number.
    pub number: u32,
    pub stage: Stage<S>,
}
