ghost use Rattle.std.specs.Prelude.{◌≡◌, IfOk, vec_len};
ghost use Rattle.nb_net.specs.Dials.{dialled_told};
ghost use Rattle.nb_platform.specs.Doing.{AllGive, AllPorts, AreNew, FitsWork, IsNewPort};
ghost use Rattle.nb_work.specs.Work.{IsStaffed, IsDialled};

use crate::watched::WatchedLink;
use nb_commands::Job;
use nb_net::{DialLink, PARTY, StdDialler, StdListener, TcpPort};
use nb_server::Worker;
use nb_system::SystemClock;
use nb_words::port_of;
use nb_work::Dials;
use std::io;
use std::net::{SocketAddr, TcpListener};

// A link that a party's program dials, and dials anew where it ended between two exchanges.
type PartyLink = WatchedLink<DialLink<StdDialler<HostRuntime>>>;

// A worker that listens on a port of its own.
type Listening = Worker<TcpPort<StdListener>, SystemClock<HostRuntime>>;

// What the words of a job name.
pub(crate) struct Opened {
    pub(crate) workers: Vec<Listening>,
    pub(crate) dials: Dials<PartyLink>,
}

// Opens what the words of the job name. A terminal is told how many bytes come of a seller.
pub(crate) fn open(rt: &HostRuntime, words: &[String], job: &Job) -> io::Result<Opened>
    requires { FitsWork job.now }
    // there are as many workers as the job says, and the links that it needs
    ensures staffed { IfOk result (λ opened. IsStaffed job.now (vec_len opened.workers)) }
    ensures dialled { IfOk result (λ opened. IsDialled job.now opened.dials) }
    // each port is new, and gives as many links as the job says
    ensures give { IfOk result (λ opened. AllGive (λ port. port.left) (λ port. port.out) (λ port. port.faults) job.now opened.workers.items) }
    // no call of a link failed yet
    ensures fresh { IfOk result (λ opened. AreNew (λ watched. dialled_told watched.link) opened.dials) }
{
    match job {
        Job::Serve { workers, sessions } => Ok(Opened {
            workers: listen(rt, words, *workers, *sessions)?,
            dials: Dials::none(),
        }),
        Job::Buy { .. } => {
            let server = dial(rt, address_at(words, 2)?)?;
            let seller = dial(rt, address_at(words, 3)?)?;
            Ok(Opened {
                workers: Vec::new(rt.alloc()),
                dials: Dials {
                    server: Some(WatchedLink::silent(server)),
                    seller: Some(WatchedLink::told(seller, rt)),
                },
            })
        }
        Job::Sell { links, .. } => {
            let listener = TcpListener::bind(rt, address_at(words, 2)?)?;
            let port = TcpPort::of(StdListener::over(listener), *links, PARTY);
            let server = dial(rt, address_at(words, 3)?)?;
            Ok(Opened {
                workers: one_worker(rt, port)?,
                dials: Dials {
                    server: Some(WatchedLink::silent(server)),
                    seller: None,
                },
            })
        }
    }
}

// The workers of a server, each of which listens on a port of its own: the address's, and those behind it.
fn listen(
    rt: &HostRuntime,
    words: &[String],
    workers: u32,
    sessions: u32,
) -> io::Result<Vec<Listening>>
    ensures all { IfOk result (λ listening. vec_len listening ≡ workers) }
    ensures give { IfOk result (λ listening. AllPorts (λ port. IsNewPort sessions port.left port.out port.faults) listening.items) }
{
    let mut listening = Vec::with_capacity(rt.alloc(), workers as usize)?;
    let mut address = address_at(words, 2)?;
    let first = address.port();
    // no worker listens where one of them has no port
    port_of(first, workers.saturating_sub(1)).ok_or(io::ErrorKind::AddrNotAvailable)?;
    'listening: for worker in 0..workers {
        address.set_port(port_of(first, worker).ok_or(io::ErrorKind::AddrNotAvailable)?);
        let port = TcpPort::over(TcpListener::bind(rt, address)?, sessions);
        let clock = SystemClock::over(rt.clone()?);
        listening.push(Worker { port, clock })?;
    }
    Ok(listening)
}

// The one worker of who sells, over this port.
fn one_worker(rt: &HostRuntime, port: TcpPort<StdListener>) -> io::Result<Vec<Listening>>
    ensures one { IfOk result (λ workers. vec_len workers ≡ 1) }
    ensures give { IfOk result (λ workers. AllPorts (λ own. own ≡ port) workers.items) }
{
    let clock = SystemClock::over(rt.clone()?);
    let mut workers = Vec::with_capacity(rt.alloc(), 1)?;
    workers.push(Worker { port, clock })?;
    Ok(workers)
}

// A link to an address, which is dialled now.
fn dial(rt: &HostRuntime, address: SocketAddr) -> io::Result<DialLink<StdDialler<HostRuntime>>>
    ensures { IfOk result (λ link. (link.link.read_faults ≡ 0) × (link.link.write_faults ≡ 0)) }
{
    match DialLink::to(StdDialler::over(rt.clone()?, address), PARTY) {
        Ok(link) => Ok(link),
        Err(_) => Err(io::ErrorKind::NotConnected.into()),
    }
}

// The address that a word names: numbers, and a port that is not 0.
fn address_at(words: &[String], place: usize) -> io::Result<SocketAddr> {
    let word = words.get(place).ok_or(io::ErrorKind::InvalidInput)?;
    let address: SocketAddr = word.parse().map_err(|_| io::ErrorKind::InvalidInput)?;
    if address.port() == 0 {
        return Err(io::ErrorKind::InvalidInput.into());
    }
    Ok(address)
}
