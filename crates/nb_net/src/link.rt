ghost use Rattle.std.specs.Prelude.{◌≡◌, ◌⊎◌, ◌<◌, ◌≤◌, IfOk, IfErr, IfSome, IsTrue, false, length};
ghost use Rattle.nb_port.specs.Faults.{Rose};
ghost use Rattle.nb_port.specs.declared.source.ReadOut.TheVariants as read_outs;
ghost use Rattle.nb_port.specs.declared.sink.WriteOut.TheVariants as write_outs;
ghost use Rattle.nb_port.specs.Source.{ReadGives};
ghost use Rattle.nb_port.specs.Sink.{WriteGives};
ghost use Rattle.nb_link.specs.Link.{LinkReads, LinkWrites};
ghost use Rattle.nb_net.specs.Socket.{StaysSet};
ghost use Rattle.nb_net.specs.Waits.{bytes_since};
ghost use Rattle.nb_net.specs.Adapters.{IsSet, IsFresh, Waited, DropsRest, HasEnded, Fails, link_over};
ghost use Rattle.nb_net.specs.declared.socket.SetOut.TheVariants as sets;

use crate::limits::{Limits, MAX_DROPPED, PARTY};
use crate::place::{Place, START};
use crate::socket::{SetOut, Socket, SocketRead, SocketWrite};
use crate::std_socket::StdSocket;
use nb_link::Link;
use nb_port::{ReadOut, WriteOut};
use std::marker::Model;
use std::net::TcpStream;

/// A link over a socket, which waits no longer than its limits allow.
pub struct TcpLink<S: Socket> {
    pub(crate) socket: S,
    pub(crate) limits: Limits,
    place: Place,
    since: Option<u64>,
    pub(crate) read_faults: u64,
    pub(crate) write_faults: u64,
}

impl<S: Socket> Drop for TcpLink<S> {
    fn drop(self) {
        let Self {
            socket: _,
            limits: _,
            place: _,
            since: _,
            read_faults: _,
            write_faults: _,
        } = self;
    }
}

impl<S: Socket> Model for TcpLink<S> {
    ghost use Rattle.std.specs.Prelude.{◌<◌};
    ghost use Rattle.nb_net.specs.Adapters.{SocketLink, IsSet};

    ghost Value = { SocketLink S };

    ghost view = { λ l. record {
      socket = l.socket;
      limits = l.limits;
      place = l.place;
      since = l.since;
      read_faults = l.read_faults;
      write_faults = l.write_faults;
    } };

    ghost invariant = { λ l. IsSet S.settings l.limits.write l.socket };
}

impl TcpLink<StdSocket> {
    /// A link over a stream that a buyer or a seller dialled; None where the stream could not be set.
    pub fn over(stream: TcpStream) -> Option<TcpLink<StdSocket>>
        ensures { IfSome result (λ link. IsFresh PARTY link) }
    {
        TcpLink::of(StdSocket::over(stream), PARTY).ok()
    }
}

impl<S: Socket> TcpLink<S> {
    /// A link over `socket` that waits so, of which no call failed. A socket that could not be set comes back, with the bytes that it had.
    pub fn of(socket: S, limits: Limits) -> Result<TcpLink<S>, S>
        requires { 0 < limits.write }
        // after Ok: the socket is set as that of a link
        ensures set { IfOk result (λ link. IsSet S.settings limits.write link.socket) }
        ensures fresh { IfOk result (λ link. IsFresh limits link) }
        // after Ok: the bytes left and sent are those that the socket told before
        ensures bytes { IfOk result (λ link. (S.left link.socket ≡ S.left socket) × (S.sent link.socket ≡ S.sent socket)) }
        // after Err: the socket comes back with the bytes that it had, and could not be set. Of a socket of std that says nothing
        ensures err { IfErr result (λ s. S.refused s × (S.left s ≡ S.left socket) × (S.sent s ≡ S.sent socket)) }
    {
        let mut socket = socket;
        match set_up(&mut socket, limits.write) {
            SetOut::Done => Ok(TcpLink {
                socket,
                limits,
                place: START,
                since: None,
                read_faults: 0,
                write_faults: 0,
            }),
            SetOut::Failed => Err(socket),
        }
    }

    /// Ends the link: sends its end behind all that was written, and then reads and drops what still comes, until the other side's end,
    /// a failure, [`Limits::end`] or [`MAX_DROPPED`]. A system that closes a connection with input unread throws away what was written and
    /// not yet read by the other side.
    pub fn end(&mut self)
        ensures ended { HasEnded S.left S.sent S.times S.settings S.broken self.old self.new }
    {
        self.socket.shut_down();
        let until = self.socket.now().saturating_add(u64::from(self.limits.end));
        drop_rest(&mut self.socket, &mut self.read_faults, until);
    }
}

impl<S: Socket> TcpLink<S> {
    // Whether the other side ended it, seen without waiting.
    pub(crate) fn has_ended(&mut self) -> bool
        ensures gone { IsTrue result → S.gone self.new.socket }
        ensures open { result ≡ false → S.open_seen self.new.socket }
        ensures same { link_over S.left S.sent self.new ≡ link_over S.left S.sent self.old }
        ensures waits { (self.new.limits ≡ self.old.limits) × (self.new.place ≡ self.old.place) × (self.new.since ≡ self.old.since) }
    {
        self.socket.has_ended()
    }

    // Counts a write that fails without a call of the system.
    pub(crate) fn count_write(&mut self)
        ensures rose { Rose self.old.write_faults self.new.write_faults }
        ensures count { self.old.write_faults ≤ self.new.write_faults }
        ensures same { self.new ≡ record self.old { write_faults = self.new.write_faults } }
    {
        self.write_faults = self.write_faults.saturating_add(1);
    }

    // Goes on over the socket of a link that is new; its own counts stay.
    pub(crate) fn go_on_over(&mut self, link: TcpLink<S>)
        ensures { self.new ≡ record link { read_faults = self.old.read_faults; write_faults = self.old.write_faults } }
    {
        let TcpLink {
            socket,
            limits,
            place,
            since,
            read_faults: _,
            write_faults: _,
        } = link;
        *self = TcpLink {
            socket,
            limits,
            place,
            since,
            read_faults: self.read_faults,
            write_faults: self.write_faults,
        };
    }
}

impl<S: Socket> Link for TcpLink<S> {
    ghost seen = { λ l. link_over S.left S.sent l };

    fn read(&mut self, buf: &mut [u8]) -> ReadOut
        requires { 0 < length buf.old }
        // as the trait says; it tells the bytes that its socket tells
        ensures reads { LinkReads (link_over S.left S.sent self.old) (link_over S.left S.sent self.new) (length buf.old) buf.new result }
        // it failed only where a call of its socket did, or its count of failed reads is at its last value
        ensures only { result ≡ read_outs.Failed → Fails (S.broken self.new.socket) self.new.read_faults }
        // its socket waited as long as the limits allow at this place
        ensures waited { Waited S.times self.old self.new buf.new result }
        // the socket stays set as that of a link
        ensures set { IsSet S.settings self.new.limits.write self.new.socket }
    {
        let since = match self.since {
            Some(since) => since,
            None => self.socket.now(),
        };
        let until = since.saturating_add(self.place.span(self.limits));
        let out = read_counted(&mut self.socket, &mut self.read_faults, buf, until);
        self.since = Some(since);
        if let ReadOut::Bytes(n) = out {
            let old = self.place;
            self.place = old.after(&buf[..n]);
            self.since = since_after(old, self.place, n, since);
        }
        out
    }

    fn write(&mut self, piece: &[u8]) -> WriteOut
        requires { 0 < length piece.now }
        // as the trait says
        ensures writes { LinkWrites (link_over S.left S.sent self.old) (link_over S.left S.sent self.new) piece.now result }
        // it failed only where a call of its socket did, or its count of failed writes is at its last value
        ensures only { result ≡ write_outs.Failed → Fails (S.broken self.new.socket) self.new.write_faults }
        // what it waits for, and since when, is as before
        ensures waits { (self.new.limits ≡ self.old.limits) × (self.new.place ≡ self.old.place) × (self.new.since ≡ self.old.since) }
        // the socket stays set as that of a link
        ensures set { IsSet S.settings self.new.limits.write self.new.socket }
    {
        write_counted(&mut self.socket, &mut self.write_faults, piece)
    }
}

// Since when the next bytes are waited for, behind n bytes: as before where they are of the frame that had begun, and else from the next read on.
fn since_after(old: Place, new: Place, n: usize, since: u64) -> Option<u64>
    ensures { result ≡ bytes_since old new n since }
{
    if 0 < old.had && new.had == old.had.saturating_add(n as u64) {
        Some(since)
    } else {
        None
    }
}

// Sets a socket as that of a link.
fn set_up<S: Socket>(socket: &mut S, write: u32) -> SetOut
    requires { 0 < write }
    ensures done { result ≡ sets.Done → IsSet S.settings write socket.new }
    ensures refused { result ≡ sets.Failed → S.refused socket.new }
    ensures left { S.left socket.new ≡ S.left socket.old }
    ensures sent { S.sent socket.new ≡ S.sent socket.old }
{
    match socket.set_prompt() {
        SetOut::Done => {}
        SetOut::Failed => return SetOut::Failed,
    }
    match socket.set_alive() {
        SetOut::Done => {}
        SetOut::Failed => return SetOut::Failed,
    }
    match socket.set_write_limit(write) {
        SetOut::Done => SetOut::Done,
        SetOut::Failed => SetOut::Failed,
    }
}

// Reads and drops the rest of a socket that was shut down, until a moment.
fn drop_rest<S: Socket>(socket: &mut S, faults: &mut u64, until: u64)
    requires { S.settings.shut socket.old }
    ensures drops { DropsRest (S.broken socket.new) (S.left socket.old) (S.left socket.new) faults.old faults.new }
    ensures until { (S.times socket.new).until ≡ until }
    ensures moment { (S.times socket.new).moment ≡ (S.times socket.old).moment }
    ensures sent { S.sent socket.new ≡ S.sent socket.old }
    ensures set { StaysSet S.settings socket.old socket.new }
    ensures count { faults.old ≤ faults.new }
{
    let mut buf = [0u8; 16_384];
    let mut room = MAX_DROPPED;
    'dropping: while room > 0 {
        let most = room.min(buf.len());
        match read_counted(socket, faults, &mut buf[..most], until) {
            ReadOut::Bytes(n) => room -= n,
            ReadOut::End | ReadOut::Failed => return,
        }
    }
}

// One read of `socket` that is not interrupted, and waits until a moment. `faults` counts those that failed.
fn read_counted<S: Socket>(socket: &mut S, faults: &mut u64, buf: &mut [u8], until: u64) -> ReadOut
    requires { 0 < length buf.old }
    ensures gives { ReadGives faults.old faults.new (S.left socket.old) (S.left socket.new) (length buf.old) buf.new result }
    ensures only { result ≡ read_outs.Failed → Fails (S.broken socket.new) faults.new }
    ensures until { (S.times socket.new).until ≡ until }
    ensures moment { (S.times socket.new).moment ≡ (S.times socket.old).moment }
    ensures sent { S.sent socket.new ≡ S.sent socket.old }
    ensures set { StaysSet S.settings socket.old socket.new }
    ensures count { faults.old ≤ faults.new }
{
    for _ in 0..u64::MAX {
        match socket.read(buf, until) {
            SocketRead::Got(n) => return ReadOut::Bytes(n),
            SocketRead::End => return ReadOut::End,
            SocketRead::Interrupted => *faults = faults.saturating_add(1),
            SocketRead::Failed => {
                *faults = faults.saturating_add(1);
                return ReadOut::Failed;
            }
        }
    }
    ReadOut::Failed
}

// One write to `socket` that is not interrupted. `faults` counts those that failed.
fn write_counted<S: Socket>(socket: &mut S, faults: &mut u64, piece: &[u8]) -> WriteOut
    requires { 0 < length piece.now }
    ensures gives { WriteGives faults.old faults.new (S.sent socket.old) (S.sent socket.new) piece.now result }
    ensures only { result ≡ write_outs.Failed → Fails (S.broken socket.new) faults.new }
    ensures left { S.left socket.new ≡ S.left socket.old }
    ensures times { S.times socket.new ≡ S.times socket.old }
    ensures set { StaysSet S.settings socket.old socket.new }
    ensures count { faults.old ≤ faults.new }
{
    for _ in 0..u64::MAX {
        match socket.write(piece) {
            SocketWrite::Took(n) => return WriteOut::Took(n),
            SocketWrite::Interrupted => *faults = faults.saturating_add(1),
            SocketWrite::Failed => {
                *faults = faults.saturating_add(1);
                return WriteOut::Failed;
            }
        }
    }
    WriteOut::Failed
}
