// Links and ports: over sockets and listeners that fail in turn, and over real ones.

ghost use Rattle.std.specs.Prelude.{◌<◌, IfOk};

use nb_link::{Link, Port, PortOut};
use nb_net::{
    AcceptOut, DialLink, HOUSE, Limits, Listener, PARTY, SetOut, Socket, SocketRead, SocketWrite,
    StdDialler, StdListener, StdSocket, TcpLink, TcpPort,
};
use nb_port::{ReadOut, WriteOut};
use std::io::{Read, Write};
use std::net::{Shutdown, SocketAddr, TcpListener, TcpStream};
use std::test::Fail;
use std::thread;
use std::time::Duration;

// No read or write waits for long.
const SHORT: Limits = Limits {
    first: 200,
    between: 200,
    frame: 200,
    more: 0,
    write: 200,
    end: 500,
    dial: 5_000,
};

// Nothing is late but the end of a link.
const PATIENT: Limits = Limits {
    first: 60_000,
    between: 60_000,
    frame: 60_000,
    more: 0,
    write: 60_000,
    end: 500,
    dial: 60_000,
};

// Is interrupted, has two bytes, is at its end, and then fails; takes what it is given in the same way, two bytes at a time, and
// then nothing. Each option may be set but the one numbered `unset`.
#[derive(Drop)]
struct FlakySocket {
    reads: u32,
    writes: u32,
    options: u32,
    unset: u32,
    until: u64,
}

fn flaky_socket(unset: u32) -> FlakySocket {
    FlakySocket {
        reads: 0,
        writes: 0,
        options: 0,
        unset,
        until: 0,
    }
}

impl FlakySocket {
    fn set(&mut self) -> SetOut {
        self.options = self.options.saturating_add(1);
        if self.options == self.unset {
            SetOut::Failed
        } else {
            SetOut::Done
        }
    }
}

impl Socket for FlakySocket {
    ghost use Rattle.std.specs.Prelude.{⊤, None};

    ghost left = { λ _. None };

    ghost sent = { λ _. None };

    ghost settings = { record { prompt = λ _. ⊤; alive = λ _. ⊤; writes_within = λ _ _. ⊤; shut = λ _. ⊤ } };

    ghost refused = { λ _. ⊤ };

    ghost times = { λ s. record { moment = 0; until = s.until } };

    ghost gone = { λ _. ⊤ };

    ghost open_seen = { λ _. ⊤ };

    ghost broken = { λ _. ⊤ };

    fn now(&mut self) -> u64 {
        0
    }

    fn read(&mut self, buf: &mut [u8], until: u64) -> SocketRead {
        self.until = until;
        self.reads = self.reads.saturating_add(1);
        match self.reads {
            1 => SocketRead::Interrupted,
            2 if buf.len() > 1 => {
                buf[..2].copy_from_slice(b"ab");
                SocketRead::Got(2)
            }
            3 => SocketRead::End,
            _ => SocketRead::Failed,
        }
    }

    fn write(&mut self, piece: &[u8]) -> SocketWrite {
        self.writes = self.writes.saturating_add(1);
        match self.writes {
            1 => SocketWrite::Interrupted,
            2 if piece.len() > 1 => SocketWrite::Took(2),
            _ => SocketWrite::Failed,
        }
    }

    fn set_prompt(&mut self) -> SetOut {
        self.set()
    }

    fn set_alive(&mut self) -> SetOut {
        self.set()
    }

    fn set_write_limit(&mut self, _millis: u32) -> SetOut {
        self.set()
    }

    fn shut_down(&mut self) {}

    fn has_ended(&mut self) -> bool {
        false
    }
}

#[test]
fn a_link_goes_on_behind_an_interrupted_call(rt: HostRuntime) -> Result<(), Fail> {
    let mut link = TcpLink::of(flaky_socket(0), HOUSE).ok().ok_or("no link")?;
    let mut buf = [0u8; 4];
    for wanted in [ReadOut::Bytes(2), ReadOut::End, ReadOut::Failed] {
        assert_eq!(rt; link.read(&mut buf), wanted);
    }
    assert_eq!(rt; &buf, b"ab\0\0");
    for wanted in [WriteOut::Took(2), WriteOut::Failed, WriteOut::Failed] {
        assert_eq!(rt; link.write(b"abc"), wanted);
    }
    Ok(())
}

#[test]
fn there_is_no_link_where_an_option_cannot_be_set(rt: HostRuntime) {
    for unset in 1..4 {
        assert!(rt; TcpLink::of(flaky_socket(unset), HOUSE).is_err());
    }
}

// Two connections are aborted before each that it gives; from its call number `broken` on it fails. It never gives one where
// `barren`.
#[derive(Drop)]
struct BusyListener {
    calls: u32,
    broken: u32,
    barren: bool,
    listens: bool,
    stream: Option<TcpStream>,
}

impl Listener for BusyListener {
    ghost use Rattle.std.specs.Prelude.{⊤};

    type Joined = StdSocket;

    ghost asked = { λ _. 0 };

    ghost broken = { λ _. ⊤ };

    ghost listens = { λ l. l.listens };

    fn accept(&mut self) -> AcceptOut<StdSocket> {
        self.calls = self.calls.saturating_add(1);
        if self.calls >= self.broken {
            return AcceptOut::Failed;
        }
        if self.calls % 3 != 0 || self.barren {
            return AcceptOut::Aborted;
        }
        match self.stream.take() {
            Some(stream) => AcceptOut::Joined(StdSocket::over(stream)),
            None => AcceptOut::Failed,
        }
    }

    fn close(&mut self) {
        self.listens = false;
    }
}

// Whether a busy listener's port gives its link, and how many links are left then.
fn tried(stream: TcpStream, barren: bool, broken: u32) -> (bool, u32) {
    let listener = BusyListener {
        calls: 0,
        broken,
        barren,
        listens: true,
        stream: Some(stream),
    };
    let mut port = TcpPort::of(listener, 1, HOUSE);
    let got = matches!(port.next(), PortOut::Got(_));
    (got, port.left())
}

#[test]
fn a_port_tries_again_behind_an_aborted_connection(rt: HostRuntime) -> Result<(), Fail> {
    let listener = TcpListener::bind(&rt, "127.0.0.1:0")?;
    let stream = TcpStream::connect(&rt, listener.local_addr()?)?;
    for (barren, broken, wanted) in [
        (false, 4, (true, 0)),
        (false, 2, (false, 1)),
        (true, 2_000, (false, 1)),
    ] {
        assert_eq!(rt; tried(stream.try_clone()?, barren, broken), wanted);
    }
    Ok(())
}

// ---- real ones

// Reads from the link once: are these the bytes?
fn reads<L: Link>(link: &mut L, want: &[u8]) -> bool {
    let mut buf = [0u8; 16];
    link.read(&mut buf) == ReadOut::Bytes(want.len()) && &buf[..want.len().min(16)] == want
}

// Reads from the link once: is it at its end?
fn ends<L: Link>(link: &mut L) -> bool {
    link.read(&mut [0u8; 16]) == ReadOut::End
}

// A port over the loopback for so many links, and its address.
fn port_for(rt: &HostRuntime, links: u32) -> Result<(TcpPort<StdListener>, SocketAddr), Fail> {
    let listener = TcpListener::bind(rt, "127.0.0.1:0")?;
    let address = listener.local_addr()?;
    Ok((TcpPort::over(listener, links), address))
}

// A link that is dialled, and its stream.
fn dial(rt: &HostRuntime, address: SocketAddr) -> Result<(TcpLink<StdSocket>, TcpStream), Fail> {
    let stream = TcpStream::connect(rt, address)?;
    let same = stream.try_clone()?;
    Ok((TcpLink::over(stream).ok_or("no link is dialled")?, same))
}

// The next link of a port, which has one out then.
fn next_of(port: &mut TcpPort<StdListener>) -> Result<TcpLink<StdSocket>, Fail>
    ensures { IfOk result (λ link. 0 < port.new.out) }
{
    match port.next() {
        PortOut::Got(link) => Ok(link),
        PortOut::Closed | PortOut::Failed => Err("no link comes".into()),
    }
}

// Whether the stream of a link sends at once, and a write of it waits as long as it may.
fn is_set(stream: &TcpStream) -> Result<bool, Fail> {
    let limit = Some(Duration::from_millis(u64::from(PARTY.write)));
    Ok(stream.nodelay()? && stream.write_timeout()? == limit)
}

// A port over the loopback for so many links that wait so, and its address.
fn port_with(
    rt: &HostRuntime,
    links: u32,
    limits: Limits,
) -> Result<(TcpPort<StdListener>, SocketAddr), Fail>
    requires { 0 < limits.write }
{
    let listener = TcpListener::bind(rt, "127.0.0.1:0")?;
    let address = listener.local_addr()?;
    Ok((
        TcpPort::of(StdListener::over(listener), links, limits),
        address,
    ))
}

// Bytes go both ways, and a link that is taken back ends its connection. A port that gave its links is closed.
#[test]
fn links_carry_bytes_over_the_loopback(rt: HostRuntime) -> Result<(), Fail> {
    let (mut port, address) = port_for(&rt, 1)?;
    let (mut dialled, stream) = dial(&rt, address)?;
    assert!(rt; is_set(&stream)?);
    assert_eq!(rt; dialled.write(b"hello"), WriteOut::Took(5));
    let mut link = next_of(&mut port)?;
    assert!(rt; reads(&mut link, b"hello"));
    assert_eq!(rt; link.write(b"bye"), WriteOut::Took(3));
    assert!(rt; reads(&mut dialled, b"bye"));
    port.back(link);
    assert!(rt; ends(&mut dialled));
    assert!(rt; port.left() == 0 && matches!(port.next(), PortOut::Closed));
    // who comes behind the last link is refused
    assert!(rt; TcpStream::connect(&rt, address).is_err());
    Ok(())
}

// A peer that closes at once, and the port goes on behind it; and one that closes within a frame.
#[test]
fn a_peer_closes(rt: HostRuntime) -> Result<(), Fail> {
    let (mut port, address) = port_for(&rt, 2)?;
    let _ = TcpStream::connect(&rt, address)?.shutdown(Shutdown::Both);
    let mut link = next_of(&mut port)?;
    assert!(rt; ends(&mut link));
    port.back(link);
    let (mut short, stream) = dial(&rt, address)?;
    assert_eq!(rt; short.write(b"NB\x01"), WriteOut::Took(3));
    stream.shutdown(Shutdown::Write)?;
    let mut link = next_of(&mut port)?;
    assert!(rt; reads(&mut link, b"NB\x01") && ends(&mut link) && port.left() == 0);
    Ok(())
}

// Whether one of many writes fails.
fn write_fails<L: Link>(link: &mut L) -> bool {
    let piece = [0u8; 65_536];
    for _ in 0..10_000 {
        if link.write(&piece) == WriteOut::Failed {
            return true;
        }
    }
    false
}

// A peer that sends nothing and never reads: a read and a write wait, and fail.
#[test]
fn a_peer_is_silent(rt: HostRuntime) -> Result<(), Fail> {
    let (mut port, address) = port_with(&rt, 1, SHORT)?;
    let _silent = TcpStream::connect(&rt, address)?;
    let mut link = next_of(&mut port)?;
    assert_eq!(rt; link.read(&mut [0u8; 16]), ReadOut::Failed);
    assert!(rt; write_fails(&mut link));
    Ok(())
}

// A peer that is silent between two frames, and one that sends a byte of a frame now and then: the next byte comes too late, though no
// read waited for long.
#[test]
fn a_peer_drips(rt: HostRuntime) -> Result<(), Fail> {
    let (mut port, address) = port_with(&rt, 2, SHORT)?;
    let mut between = TcpStream::connect(&rt, address)?;
    between.write_all(b"NB\x01\x09\0\0\0\x01?")?;
    let mut link = next_of(&mut port)?;
    assert!(rt; reads(&mut link, b"NB\x01\x09\0\0\0\x01?"));
    assert_eq!(rt; link.read(&mut [0u8; 16]), ReadOut::Failed);
    let mut within = TcpStream::connect(&rt, address)?;
    let mut link = next_of(&mut port)?;
    within.write_all(b"NB\x01")?;
    assert!(rt; reads(&mut link, b"NB\x01"));
    within.write_all(b"\x09")?;
    assert!(rt; reads(&mut link, b"\x09"));
    thread::sleep(&rt, Duration::from_millis(400));
    within.write_all(b"\0")?;
    assert_eq!(rt; link.read(&mut [0u8; 16]), ReadOut::Failed);
    Ok(())
}

// What was written arrives where the link goes back with bytes unread, whether the peer ends its side or not.
#[test]
fn a_reply_arrives_before_unread_bytes(rt: HostRuntime) -> Result<(), Fail> {
    let (mut port, address) = port_with(&rt, 2, PATIENT)?;
    for ends in [true, false] {
        let mut peer = TcpStream::connect(&rt, address)?;
        peer.write_all(&[0u8; 50_000])?;
        if ends {
            peer.shutdown(Shutdown::Write)?;
        }
        let mut link = next_of(&mut port)?;
        assert_eq!(rt; link.write(b"reply"), WriteOut::Took(5));
        port.back(link);
        let mut got = [0u8; 5];
        peer.read_exact(&mut got)?;
        assert_eq!(rt; &got, b"reply");
        assert_eq!(rt; peer.read(&mut got)?, 0);
    }
    Ok(())
}

// A link that dials: dialled once for an exchange, anew for the next one where the other side ended it, between two exchanges or within
// the last one; and not twice for one.
#[test]
fn a_link_dials_anew(rt: HostRuntime) -> Result<(), Fail> {
    let (mut port, address) = port_with(&rt, 4, PATIENT)?;
    let dialler = StdDialler::over(rt.clone()?, address);
    let mut dialled = DialLink::to(dialler, PATIENT)
        .ok()
        .ok_or("no link is dialled")?;
    for _ in 0..2 {
        assert_eq!(rt; dialled.write(b"ask"), WriteOut::Took(3));
        let mut link = next_of(&mut port)?;
        assert!(rt; reads(&mut link, b"ask"));
        assert_eq!(rt; link.write(b"told"), WriteOut::Took(4));
        assert!(rt; reads(&mut dialled, b"told"));
        port.back(link);
    }
    assert_eq!(rt; dialled.write(b"ask"), WriteOut::Took(3));
    let mut link = next_of(&mut port)?;
    assert!(rt; reads(&mut link, b"ask"));
    port.back(link);
    assert!(rt; ends(&mut dialled));
    // it ends while the exchange is written: nothing is dialled within it
    assert_eq!(rt; dialled.write(b"ask"), WriteOut::Took(3));
    let mut link = next_of(&mut port)?;
    assert!(rt; reads(&mut link, b"ask"));
    port.back(link);
    for _ in 0..100 {
        let _ = dialled.write(b"more");
    }
    assert!(rt; !matches!(dialled.read(&mut [0u8; 16]), ReadOut::Bytes(_)));
    // the port gave its links, and is closed
    for _ in 0..2 {
        assert_eq!(rt; dialled.write(b"ask"), WriteOut::Failed);
    }
    Ok(())
}

// Where nobody listens no link is dialled.
#[test]
fn nobody_is_dialled(rt: HostRuntime) -> Result<(), Fail> {
    let (mut port, address) = port_with(&rt, 1, PATIENT)?;
    let _first = TcpStream::connect(&rt, address)?;
    let _given = next_of(&mut port)?;
    let dialler = StdDialler::over(rt.clone()?, address);
    assert!(rt; DialLink::to(dialler, PATIENT).is_err());
    Ok(())
}

// A listener that does not wait has no connection: it says that it failed, and not that a connection was gone, and its port fails.
#[test]
fn a_listener_that_fails_is_told(rt: HostRuntime) -> Result<(), Fail> {
    let listener = TcpListener::bind(&rt, "127.0.0.1:0")?;
    listener.set_nonblocking(true)?;
    let mut twin = StdListener::over(listener.try_clone()?);
    assert!(rt; matches!(twin.accept(), AcceptOut::Failed));
    let mut port = TcpPort::over(listener, 1);
    assert!(rt; matches!(port.next(), PortOut::Failed) && port.left() == 1);
    Ok(())
}
