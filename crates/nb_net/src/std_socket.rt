ghost use Rattle.std.specs.Prelude.{◌≡◌, ⊤, None, Some, if◌then◌else◌};
ghost use Rattle.nb_net.specs.Socket.{passing, is_among, is_there};

use crate::limits::{ALIVE_BETWEEN, ALIVE_IDLE, ALIVE_TRIES};
use crate::socket::{
    AcceptOut, DialOut, Dialler, Listener, SetOut, Socket, SocketRead, SocketWrite,
};
use libc::net;
use std::io;
use std::io::{Read, Write};
use std::net::{Net, Shutdown, SocketAddr, TcpListener, TcpStream};
use std::os::fd::AsRawFd;
use std::time::Duration;

/// A connected stream of std.
pub struct StdSocket {
    stream: TcpStream,
    // what it was told last, and asked for
    moment: u64,
    until: u64,
}

impl Drop for StdSocket {
    fn drop(self) {
        let Self {
            stream: _,
            moment: _,
            until: _,
        } = self;
    }
}

impl StdSocket {
    /// The stream.
    pub fn over(stream: TcpStream) -> StdSocket
        ensures { result.stream ≡ stream }
    {
        StdSocket {
            stream,
            moment: 0,
            until: 0,
        }
    }
}

impl Socket for StdSocket {
    ghost left = { λ _. None };

    ghost sent = { λ _. None };

    ghost settings = { record { prompt = λ _. ⊤; alive = λ _. ⊤; writes_within = λ _ _. ⊤; shut = λ _. ⊤ } };

    ghost refused = { λ _. ⊤ };

    ghost times = { λ s. record { moment = s.moment; until = s.until } };

    ghost gone = { λ _. ⊤ };

    ghost open_seen = { λ _. ⊤ };

    ghost broken = { λ _. ⊤ };

    fn now(&mut self) -> u64 {
        self.moment = monotonic();
        self.moment
    }

    fn read(&mut self, buf: &mut [u8], until: u64) -> SocketRead {
        self.until = until;
        let left = Duration::from_millis(until.saturating_sub(monotonic()));
        if left.is_zero() || self.stream.set_read_timeout(Some(left)).is_err() {
            return SocketRead::Failed;
        }
        match self.stream.read(buf) {
            Ok(0) => SocketRead::End,
            Ok(n) => SocketRead::Got(n),
            Err(error) if error.kind() == io::ErrorKind::Interrupted => SocketRead::Interrupted,
            Err(_) => SocketRead::Failed,
        }
    }

    fn write(&mut self, piece: &[u8]) -> SocketWrite {
        match self.stream.write(piece) {
            Ok(n) if n > 0 => SocketWrite::Took(n),
            Err(error) if error.kind() == io::ErrorKind::Interrupted => SocketWrite::Interrupted,
            _ => SocketWrite::Failed,
        }
    }

    fn shut_down(&mut self) {
        let _ = self.stream.shutdown(Shutdown::Write);
    }

    fn has_ended(&mut self) -> bool {
        let peeked = match self.stream.set_nonblocking(true) {
            Ok(()) => self.stream.peek(&mut [0u8; 1]),
            Err(error) => Err(error),
        };
        match (peeked, self.stream.set_nonblocking(false)) {
            (Ok(n), Ok(())) => n == 0,
            (Err(error), Ok(())) => error.kind() != io::ErrorKind::WouldBlock,
            (_, Err(_)) => true,
        }
    }

    fn set_prompt(&mut self) -> SetOut {
        done_if(self.stream.set_nodelay(true).is_ok())
    }

    fn set_alive(&mut self) -> SetOut {
        let fd = self.stream.as_raw_fd();
        let idle = number(ALIVE_IDLE);
        let between = number(ALIVE_BETWEEN);
        let tries = number(ALIVE_TRIES);
        let all = unsafe {
            net::setsockopt(fd, net::IPPROTO_TCP, net::TCP_KEEPIDLE, &idle, 4) == 0
                && net::setsockopt(fd, net::IPPROTO_TCP, net::TCP_KEEPINTVL, &between, 4) == 0
                && net::setsockopt(fd, net::IPPROTO_TCP, net::TCP_KEEPCNT, &tries, 4) == 0
                && net::setsockopt(fd, net::SOL_SOCKET, net::SO_KEEPALIVE, &number(1), 4) == 0
        };
        done_if(all)
    }

    fn set_write_limit(&mut self, millis: u32) -> SetOut {
        let limit = Duration::from_millis(u64::from(millis));
        done_if(self.stream.set_write_timeout(Some(limit)).is_ok())
    }
}

// The milliseconds of the system's clock that never goes back: the last that there are where it is not told, so that nothing is waited for.
fn monotonic() -> u64 {
    let mut time = libc::types::timespec {
        tv_sec: 0,
        tv_nsec: 0,
    };
    if libc::clock_gettime(libc::CLOCK_MONOTONIC, &mut time) != 0 {
        return u64::MAX;
    }
    let seconds = time.tv_sec.unsigned_abs().saturating_mul(1_000);
    seconds.saturating_add(time.tv_nsec.unsigned_abs() / 1_000_000)
}

// A number as the value of an option: an int of C, in the first 4 of 16 bytes.
fn number(n: u8) -> [u8; 16] {
    let mut value = [0u8; 16];
    value[..4].copy_from_slice(&i32::from(n).to_ne_bytes());
    value
}

/// A listener of std, until it is closed.
pub struct StdListener {
    listener: Option<TcpListener>,
}

impl Drop for StdListener {
    fn drop(self) {
        let Self { listener: _ } = self;
    }
}

impl StdListener {
    /// The listener.
    pub fn over(listener: TcpListener) -> StdListener
        ensures { result ≡ record { listener = Some listener } }
    {
        StdListener {
            listener: Some(listener),
        }
    }
}

impl Listener for StdListener {
    type Joined = StdSocket;

    ghost asked = { λ _. 0 };

    ghost broken = { λ _. ⊤ };

    ghost listens = { λ l. is_there l.listener };

    fn accept(&mut self) -> AcceptOut<StdSocket> {
        let Some(listener) = &self.listener else {
            return AcceptOut::Failed;
        };
        match listener.accept() {
            Ok((stream, _)) => AcceptOut::Joined(StdSocket::over(stream)),
            Err(error) => match error.raw_os_error() {
                Some(code) if passes(code.unsigned_abs()) => AcceptOut::Aborted,
                _ => AcceptOut::Failed,
            },
        }
    }

    /// What is dropped is closed.
    fn close(&mut self) {
        self.listener = None;
    }
}

/// Who dials an address over the network of a runtime.
#[derive(Drop)]
pub struct StdDialler<R: Net<Stream = TcpStream> + Drop> {
    rt: R,
    address: SocketAddr,
}

impl<R: Net<Stream = TcpStream> + Drop> StdDialler<R> {
    /// Who dials this address.
    pub fn over(rt: R, address: SocketAddr) -> StdDialler<R>
        ensures { result ≡ record { rt = rt; address = address } }
    {
        StdDialler { rt, address }
    }
}

impl<R: Net<Stream = TcpStream> + Drop> Dialler for StdDialler<R> {
    type Joined = StdSocket;

    ghost dialled = { λ _. 0 };

    ghost within = { λ _ _. ⊤ };

    ghost failed = { λ _. ⊤ };

    /// Where nobody listens at an address, the system may join who dials it to itself. That is no connection.
    fn dial(&mut self, millis: u32) -> DialOut<StdSocket> {
        let limit = Duration::from_millis(u64::from(millis));
        match TcpStream::connect_timeout(&self.rt, &self.address, limit) {
            Ok(stream) => {
                if is_joined_to_itself(&stream) {
                    return DialOut::Failed;
                }
                DialOut::Joined(StdSocket::over(stream))
            }
            Err(_) => DialOut::Failed,
        }
    }
}

// Whether both ends of a stream have one address.
fn is_joined_to_itself(stream: &TcpStream) -> bool {
    match (stream.local_addr(), stream.peer_addr()) {
        (Ok(here), Ok(there)) => here == there,
        _ => false,
    }
}

// The errors of a look for a connection that are that connection's, by Linux's numbers; and EINTR.
const EPERM: u32 = 1;

const EINTR: u32 = 4;

const ENONET: u32 = 64;

const EPROTO: u32 = 71;

const ENOPROTOOPT: u32 = 92;

const EOPNOTSUPP: u32 = 95;

const ENETDOWN: u32 = 100;

const ENETUNREACH: u32 = 101;

const ECONNABORTED: u32 = 103;

const ECONNRESET: u32 = 104;

const ETIMEDOUT: u32 = 110;

const EHOSTDOWN: u32 = 112;

const EHOSTUNREACH: u32 = 113;

// Whether a look for a connection that failed so says nothing of the listener.
fn passes(code: u32) -> bool
    ensures { result ≡ is_among code passing }
{
    matches!(
        code,
        EPERM
            | EINTR
            | ENONET
            | EPROTO
            | ENOPROTOOPT
            | EOPNOTSUPP
            | ENETDOWN
            | ENETUNREACH
            | ECONNABORTED
            | ECONNRESET
            | ETIMEDOUT
            | EHOSTDOWN
            | EHOSTUNREACH
    )
}

// What setting an option gives that worked, or failed.
fn done_if(worked: bool) -> SetOut
    ensures { result ≡ (if worked then SetOut.Done else SetOut.Failed) }
{
    if worked { SetOut::Done } else { SetOut::Failed }
}
