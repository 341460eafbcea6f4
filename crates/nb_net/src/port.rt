ghost use Rattle.std.specs.Prelude.{◌≡◌, ◌≢◌, ◌⊎◌, ◌<◌, ◌≤◌, ◌+◌, IfSome, None, Some};
ghost use Rattle.nb_port.specs.Faults.{Rose};
ghost use Rattle.nb_link.specs.Port.{NextGives, TakesBack};
ghost use Rattle.nb_net.specs.Adapters.{SocketLink, HasEnded, IsFresh, IfGot, link_over, port_over, listens_for, AllTried};
ghost use Rattle.nb_link.specs.declared.port.PortOut.TheVariants as outs;

use crate::limits::{HOUSE, Limits};
use crate::link::TcpLink;
use crate::socket::{AcceptOut, Listener};
use crate::std_socket::StdListener;
use nb_link::{Port, PortOut};
use std::marker::Model;
use std::net::TcpListener;

/// How often one call of a port looks for a connection.
pub const MAX_TRIES: u32 = u32::MAX;

/// A port over a listener, which gives at most so many links as it was made with. Where none is left its listener is closed: it is closed
/// before the last one is given.
pub struct TcpPort<A: Listener> {
    listener: A,
    limits: Limits,
    left: u32,
    out: u32,
    faults: u64,
}

impl<A: Listener> Drop for TcpPort<A> {
    fn drop(self) {
        let Self {
            listener: _,
            limits: _,
            left: _,
            out: _,
            faults: _,
        } = self;
    }
}

impl<A: Listener> Model for TcpPort<A> {
    ghost use Rattle.std.specs.Prelude.{◌≡◌, ◌<◌, ◌+◌, ◌^◌, false};
    ghost use Rattle.nb_net.specs.Adapters.{ListenerPort};

    ghost Value = { ListenerPort A };

    ghost view = { λ p. record { listener = p.listener; limits = p.limits; left = p.left; out = p.out; faults = p.faults } };

    ghost invariant = { λ p. record {
      few : p.left + p.out < 2 ^ 32;
      closed : p.left ≡ 0 → A.listens p.listener ≡ false;
      writes : 0 < p.limits.write;
    } };
}

impl TcpPort<StdListener> {
    /// A port of a house over `listener`, which gives `links` links.
    pub fn over(listener: TcpListener, links: u32) -> TcpPort<StdListener>
        // the links wait as those of a house
        ensures fresh { (result.limits ≡ HOUSE) × (result.left ≡ links) × (result.out ≡ 0) × (result.faults ≡ 0) }
        // where it gives some links: over this listener
        ensures over { links ≢ 0 → result.listener ≡ record { listener = Some listener } }
    {
        TcpPort::of(StdListener::over(listener), links, HOUSE)
    }
}

impl<A: Listener> TcpPort<A> {
    /// A port over `listener`, which gives `links` links that wait so. No call failed. For no link the listener is closed.
    pub fn of(listener: A, links: u32, limits: Limits) -> TcpPort<A>
        requires { 0 < limits.write }
        // so many links are left, and none is out
        ensures fresh { (result.limits ≡ limits) × (result.left ≡ links) × (result.out ≡ 0) × (result.faults ≡ 0) }
        // where it gives some links: over this listener
        ensures over { links ≢ 0 → result.listener ≡ listener }
        // for no link it is closed
        ensures listens { A.listens result.listener ≡ listens_for links (A.listens listener) }
        ensures asked { A.asked result.listener ≡ A.asked listener }
    {
        let mut listener = listener;
        if links == 0 {
            listener.close();
        }
        TcpPort {
            listener,
            limits,
            left: links,
            out: 0,
            faults: 0,
        }
    }
}

impl<A: Listener + Send> Port for TcpPort<A>
where
    A::Joined: Send,
{
    type Joined = TcpLink<A::Joined>;

    ghost seen = { λ p. port_over A.listens p };

    fn left(&self) -> u32 {
        self.left
    }

    fn next(&mut self) -> PortOut<TcpLink<A::Joined>>
        // as the trait says; where it gives the last link the listener is closed
        ensures gives { NextGives (link_over A.Joined.left A.Joined.sent) (port_over A.listens self.old) (port_over A.listens self.new) result }
        // a link that it gives is one of which nothing was read, and that waits as the port says
        ensures fresh { IfGot result (λ link. IsFresh self.old.limits link) }
        ensures limits { self.new.limits ≡ self.old.limits }
        // it looked for a connection at most so often
        ensures asked { A.asked self.new.listener ≤ A.asked self.old.listener + MAX_TRIES }
        // it failed only where the listener did, or where so many looks gave none that could be set up
        ensures only { result ≡ outs.Failed → A.broken self.new.listener ⊎ AllTried self.old.faults self.new.faults }
        // where no link is left all is as before, and the listener is not asked
        ensures closed { self.old.left ≡ 0 → self.new ≡ self.old }
    {
        if self.left == 0 {
            return PortOut::Closed;
        }
        match next_link(&mut self.listener, self.limits, &mut self.faults) {
            Some(link) => {
                self.left -= 1;
                self.out += 1;
                if self.left == 0 {
                    self.listener.close();
                }
                PortOut::Got(link)
            }
            None => PortOut::Failed,
        }
    }

    /// The link is ended, and then let go.
    fn back(&mut self, link: TcpLink<A::Joined>)
        requires { 0 < self.old.out }
        // as the trait says
        ensures takes { TakesBack (port_over A.listens self.old) (port_over A.listens self.new) (link_over A.Joined.left A.Joined.sent link) }
        // a link came of this one by being ended
        ensures ended { (last : SocketLink A.Joined) × HasEnded A.Joined.left A.Joined.sent A.Joined.times A.Joined.settings A.Joined.broken link last }
    {
        let mut link = link;
        link.end();
        self.out -= 1;
    }
}

// A link over the next connection that was not aborted and could be set up. `faults` counts what failed, and what was aborted.
fn next_link<A: Listener>(
    listener: &mut A,
    limits: Limits,
    faults: &mut u64,
) -> Option<TcpLink<A::Joined>>
    requires { 0 < limits.write }
    ensures fresh { IfSome result (λ link. IsFresh limits link) }
    ensures none { result ≡ None → Rose faults.old faults.new }
    ensures asked { A.asked listener.new ≤ A.asked listener.old + MAX_TRIES }
    ensures only { result ≡ None → A.broken listener.new ⊎ AllTried faults.old faults.new }
    ensures count { faults.old ≤ faults.new }
    ensures listens { A.listens listener.new ≡ A.listens listener.old }
{
    for _ in 0..MAX_TRIES {
        match listener.accept() {
            AcceptOut::Joined(socket) => match TcpLink::of(socket, limits) {
                Ok(link) => return Some(link),
                Err(_) => *faults = faults.saturating_add(1),
            },
            AcceptOut::Aborted => *faults = faults.saturating_add(1),
            AcceptOut::Failed => {
                *faults = faults.saturating_add(1);
                return None;
            }
        }
    }
    None
}
