/// Where a session passes a gate.
#[derive(Clone, Copy)]
pub enum Point {
    /// Before the turn that answers a request.
    BeforeTurn,
    /// Behind the writing of its reply.
    AfterReply,
}

/// What holds a session up at a point of its way. Sessions in many threads pass one gate.
pub trait Gate: Sync {
    /// Worker number `worker` passes, in its session number `session`, both from 0. No contract says what happens.
    fn at(&self, worker: u32, session: u32, point: Point);
}

/// A gate that holds nobody up.
#[derive(Clone, Copy)]
pub struct OpenGate;

impl Gate for OpenGate {
    fn at(&self, _worker: u32, _session: u32, _point: Point) {}
}
