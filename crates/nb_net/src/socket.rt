ghost use Rattle.std.specs.Prelude.{◌≡◌, ◌<◌, ◌≤◌, ◌+◌, ℕ, Bool, false, IsTrue, List, Option, length};
ghost use Rattle.nb_net.specs.Socket.{SocketReadGives, SocketWriteGives, Settings, StaysSet, Times};
ghost use Rattle.nb_net.specs.declared.socket.SocketRead.TheVariants as reads;
ghost use Rattle.nb_net.specs.declared.socket.SocketWrite.TheVariants as writes;
ghost use Rattle.nb_net.specs.declared.socket.DialOut.TheVariants as dials;
ghost use Rattle.nb_net.specs.declared.socket.SetOut.TheVariants as sets;
ghost use Rattle.nb_net.specs.declared.socket.AcceptOut.TheVariants as accepts;

/// What one read of a socket gives.
#[derive(Clone, Copy)]
pub enum SocketRead {
    /// So many bytes, at least one, stand at the front of the buffer.
    Got(usize),
    /// The peer sends no more.
    End,
    /// The read was interrupted before it gave a byte.
    Interrupted,
    /// The read failed, or waited too long.
    Failed,
}

/// What one write of a socket gives.
#[derive(Clone, Copy)]
pub enum SocketWrite {
    /// So many bytes from the front of the piece were sent, at least one.
    Took(usize),
    /// The write was interrupted before it sent a byte.
    Interrupted,
    /// The write failed, or waited too long, and sent nothing.
    Failed,
}

/// What setting an option of a socket gives.
#[derive(Clone, Copy)]
pub enum SetOut {
    /// It is set.
    Done,
    /// It failed.
    Failed,
}

/// A connected stream of bytes, by the calls of the system that a [`TcpLink`](crate::TcpLink) makes, one each.
pub trait Socket: Drop {
    /// The bytes that are still to come; None where the socket does not tell.
    ghost left: { Self → Option (List ℕ) };

    /// The bytes that were sent; None where the socket does not tell.
    ghost sent: { Self → Option (List ℕ) };

    /// How it is set.
    ghost settings: { Settings Self };

    /// It could not be set.
    ghost refused: { Self → Type 0 };

    /// The moment that it told last, and until when its last read waited.
    ghost times: { Self → Times };

    /// The other side ended it, or it is gone.
    ghost gone: { Self → Type 0 };

    /// It was asked whether the other side ended it, and that was not seen.
    ghost open_seen: { Self → Type 0 };

    /// A read or a write of it failed.
    ghost broken: { Self → Type 0 };

    /// The moment now, in milliseconds since some start: a clock that never goes back.
    fn now(&mut self) -> u64
        ensures told { times self.new ≡ record (times self.old) { moment = result } }
        ensures left { left self.new ≡ left self.old }
        ensures sent { sent self.new ≡ sent self.old }
        // what was set is set still
        ensures set { StaysSet settings self.old self.new };

    /// Takes the next bytes, at most as many as `buf` holds, to the front of `buf`. It waits for them until the moment `until`, and
    /// fails behind it.
    fn read(&mut self, buf: &mut [u8], until: u64) -> SocketRead
        requires { 0 < length buf.old }
        ensures gives { SocketReadGives (left self.old) (left self.new) (length buf.old) buf.new result }
        ensures broken { result ≡ reads.Failed → broken self.new }
        ensures until { times self.new ≡ record (times self.old) { until = until } }
        ensures sent { sent self.new ≡ sent self.old }
        // what was set is set still
        ensures set { StaysSet settings self.old self.new };

    /// Sends bytes from the front of `piece`, not always all.
    fn write(&mut self, piece: &[u8]) -> SocketWrite
        requires { 0 < length piece.now }
        ensures gives { SocketWriteGives (sent self.old) (sent self.new) piece.now result }
        ensures broken { result ≡ writes.Failed → broken self.new }
        ensures left { left self.new ≡ left self.old }
        ensures times { times self.new ≡ times self.old }
        // what was set is set still
        ensures set { StaysSet settings self.old self.new };

    /// Sends its end behind all that was sent, unless the connection is gone: no more is sent.
    fn shut_down(&mut self)
        ensures shut { settings.shut self.new }
        ensures left { left self.new ≡ left self.old }
        ensures sent { sent self.new ≡ sent self.old }
        // what was set is set still
        ensures set { StaysSet settings self.old self.new };

    /// Whether the other side ended it, and no byte is left, or it is gone: seen without waiting.
    fn has_ended(&mut self) -> bool
        ensures gone { IsTrue result → gone self.new }
        ensures open { result ≡ false → open_seen self.new }
        ensures left { left self.new ≡ left self.old }
        ensures sent { sent self.new ≡ sent self.old }
        // what was set is set still
        ensures set { StaysSet settings self.old self.new };

    /// Makes it send each write at once (TCP_NODELAY).
    fn set_prompt(&mut self) -> SetOut
        ensures done { result ≡ sets.Done → settings.prompt self.new }
        ensures refused { result ≡ sets.Failed → refused self.new }
        ensures left { left self.new ≡ left self.old }
        ensures sent { sent self.new ≡ sent self.old }
        // what was set is set still
        ensures set { StaysSet settings self.old self.new };

    /// Makes it ask a peer that is silent whether it is there, and end where no answer comes (SO_KEEPALIVE, by [`ALIVE_IDLE`](crate::ALIVE_IDLE) and its like).
    fn set_alive(&mut self) -> SetOut
        ensures done { result ≡ sets.Done → settings.alive self.new }
        ensures refused { result ≡ sets.Failed → refused self.new }
        ensures left { left self.new ≡ left self.old }
        ensures sent { sent self.new ≡ sent self.old }
        // what was set is set still
        ensures set { StaysSet settings self.old self.new };

    /// Makes a write fail that sends no byte for so many milliseconds.
    fn set_write_limit(&mut self, millis: u32) -> SetOut
        requires { 0 < millis }
        ensures done { result ≡ sets.Done → settings.writes_within self.new millis }
        ensures refused { result ≡ sets.Failed → refused self.new }
        ensures left { left self.new ≡ left self.old }
        ensures sent { sent self.new ≡ sent self.old }
        ensures prompt { settings.prompt self.old → settings.prompt self.new }
        ensures alive { settings.alive self.old → settings.alive self.new };
}

/// What one look for a connection gives.
#[derive(Drop)]
pub enum AcceptOut<S> {
    /// A connection.
    Joined(S),
    /// It failed for a cause of one connection, which is gone, or was interrupted: the next one may give another.
    Aborted,
    /// It failed for a cause of the listener, or of the system.
    Failed,
}

/// Where connections come from, by the calls of the system that a [`TcpPort`](crate::TcpPort) makes, one each.
pub trait Listener: Drop {
    /// What it gives.
    type Joined: Socket;

    /// How often it was asked for a connection; a listener need not count.
    ghost asked: { Self → ℕ };

    /// A call of it failed.
    ghost broken: { Self → Type 0 };

    /// It listens: where it does not, who comes is refused.
    ghost listens: { Self → Bool };

    /// Waits for a connection.
    fn accept(&mut self) -> AcceptOut<Self::Joined>
        ensures asked { asked self.new ≤ asked self.old + 1 }
        ensures broken { result ≡ accepts.Failed → broken self.new }
        ensures listens { listens self.new ≡ listens self.old };

    /// Closes it: who waits is refused, and so is who comes.
    fn close(&mut self)
        ensures closed { listens self.new ≡ false }
        ensures asked { asked self.new ≡ asked self.old };
}

/// What a dial gives.
#[derive(Drop)]
pub enum DialOut<S> {
    /// A connection.
    Joined(S),
    /// It failed, or waited too long.
    Failed,
}

/// Who dials one address, by the call of the system that a [`DialLink`](crate::DialLink) makes.
pub trait Dialler: Drop {
    /// What it gives.
    type Joined: Socket;

    /// How often it dialled; a dialler need not count.
    ghost dialled: { Self → ℕ };

    /// Its last dial waited for so many milliseconds at most.
    ghost within: { Self → ℕ → Type 0 };

    /// A dial of it failed.
    ghost failed: { Self → Type 0 };

    /// Dials, and waits for so many milliseconds at most.
    fn dial(&mut self, millis: u32) -> DialOut<Self::Joined>
        requires { 0 < millis }
        ensures dialled { dialled self.new ≤ dialled self.old + 1 }
        ensures within { within self.new millis }
        ensures failed { result ≡ dials.Failed → failed self.new };
}
