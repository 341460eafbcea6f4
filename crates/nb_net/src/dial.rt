ghost use Rattle.std.specs.Prelude.{◌≡◌, ◌⊎◌, ◌<◌, ◌||◌, None, true, false, IfOk, IfErr, IfSome, IsTrue, length};
ghost use Rattle.nb_link.specs.Link.{LinkReads, LinkWrites};
ghost use Rattle.nb_net.specs.Adapters.{IsFresh, Waited, link_over};
ghost use Rattle.nb_net.specs.Dials.{dialled_told, ends, DialsOnce, IsOver, NoLink, WritesOn, WritesAnew, DialsAnew, Refuses};

use crate::limits::Limits;
use crate::link::TcpLink;
use crate::socket::{DialOut, Dialler};
use nb_link::Link;
use nb_port::{ReadOut, WriteOut};
use std::marker::Model;

/// A link to one address, which dials it anew at the first write of an exchange where the link is over. An exchange is some
/// writes, and the reads behind them: it ends by a read alone, so that behind a write that failed a read comes first.
pub struct DialLink<D: Dialler> {
    dialler: D,
    link: TcpLink<D::Joined>,
    // the last call was a write
    speaking: bool,
    // the link is over
    over: bool,
}

impl<D: Dialler> Drop for DialLink<D> {
    fn drop(self) {
        let Self {
            dialler: _,
            link: _,
            speaking: _,
            over: _,
        } = self;
    }
}

impl<D: Dialler> Model for DialLink<D> {
    ghost use Rattle.std.specs.Prelude.{◌<◌};
    ghost use Rattle.nb_net.specs.Dials.{DialledLink};

    ghost Value = { DialledLink D D.Joined };

    ghost view = { λ l. record { dialler = l.dialler; link = l.link; speaking = l.speaking; over = l.over } };

    ghost invariant = { λ l. record { dial : 0 < l.link.limits.dial; write : 0 < l.link.limits.write } };
}

impl<D: Dialler> DialLink<D> {
    /// A link that is dialled now. Who dials comes back where that failed, or the connection could not be set.
    pub fn to(dialler: D, limits: Limits) -> Result<DialLink<D>, D>
        requires dial { 0 < limits.dial }
        requires write { 0 < limits.write }
        // after Ok: a link of which nothing was read or written
        ensures fresh { IfOk result (λ l. IsFresh limits l.link × (l.speaking ≡ false) × (l.over ≡ false)) }
        // after Ok: it was dialled once, and the dial waited no longer than it may
        ensures once { IfOk result (λ l. DialsOnce D.dialled D.within limits.dial dialler l.dialler) }
        // after Err: the same, and the dial failed, or gave a socket that could not be set
        ensures failed { IfErr result (λ d. DialsOnce D.dialled D.within limits.dial dialler d × NoLink D.failed D.Joined.refused d) }
    {
        let mut dialler = dialler;
        match dial_once(&mut dialler, limits) {
            Some(link) => Ok(DialLink {
                dialler,
                link,
                speaking: false,
                over: false,
            }),
            None => Err(dialler),
        }
    }

    // Whether the link is over, or seen to be without waiting.
    fn is_over(&mut self) -> bool
        ensures over { IsTrue result → IsOver D.Joined.gone self.old }
        ensures not { result ≡ false → (self.old.over ≡ false) × D.Joined.open_seen self.new.link.socket }
        ensures link { link_over D.Joined.left D.Joined.sent self.new.link ≡ link_over D.Joined.left D.Joined.sent self.old.link }
        ensures waits { (self.new.link.limits ≡ self.old.link.limits) × (self.new.link.place ≡ self.old.link.place) × (self.new.link.since ≡ self.old.link.since) }
        ensures same { (self.new.dialler ≡ self.old.dialler) × (self.new.speaking ≡ self.old.speaking) × (self.new.over ≡ self.old.over) }
    {
        self.over || self.link.has_ended()
    }

    // Dials anew, and writes.
    fn write_anew(&mut self, piece: &[u8]) -> WriteOut
        requires { 0 < length piece.now }
        ensures told { LinkWrites (dialled_told self.old) (dialled_told self.new) piece.now result }
        ensures speaking { self.new.speaking ≡ self.old.speaking }
        ensures anew { WritesAnew (link_over D.Joined.left D.Joined.sent) D.dialled D.within D.failed D.Joined.refused self.old.dialler self.old.link.limits self.old.link.read_faults self.old.link.write_faults self.new piece.now result }
    {
        match dial_once(&mut self.dialler, self.link.limits) {
            Some(link) => {
                self.over = false;
                self.link.go_on_over(link);
                self.link.write(piece)
            }
            None => {
                self.over = true;
                self.link.count_write();
                WriteOut::Failed
            }
        }
    }
}

impl<D: Dialler> Link for DialLink<D> {
    ghost seen = { λ l. dialled_told l };

    fn read(&mut self, buf: &mut [u8]) -> ReadOut
        requires { 0 < length buf.old }
        // as the trait says; it tells its two counts alone
        ensures reads { LinkReads (dialled_told self.old) (dialled_told self.new) (length buf.old) buf.new result }
        // it read the link that it has
        ensures link { LinkReads (link_over D.Joined.left D.Joined.sent self.old.link) (link_over D.Joined.left D.Joined.sent self.new.link) (length buf.old) buf.new result }
        // and waited as that does
        ensures waited { Waited D.Joined.times self.old.link self.new.link buf.new result }
        // a read never dials
        ensures dialler { self.new.dialler ≡ self.old.dialler }
        // the exchange has come to its reads; behind an end or a failure the link is over
        ensures exchange { (self.new.speaking ≡ false) × (self.new.over ≡ (ends result || self.old.over)) }
    {
        self.speaking = false;
        let out = self.link.read(buf);
        if !matches!(out, ReadOut::Bytes(_)) {
            self.over = true;
        }
        out
    }

    fn write(&mut self, piece: &[u8]) -> WriteOut
        requires { 0 < length piece.now }
        // as the trait says
        ensures writes { LinkWrites (dialled_told self.old) (dialled_told self.new) piece.now result }
        ensures speaking { self.new.speaking ≡ true }
        // it wrote over the link that is there; or, first in an exchange over a link that is over, dialled anew; or failed behind such a dial
        ensures dials { WritesOn (link_over D.Joined.left D.Joined.sent) D.Joined.open_seen self.old self.new piece.now result ⊎ (DialsAnew (link_over D.Joined.left D.Joined.sent) D.dialled D.within D.failed D.Joined.refused D.Joined.gone self.old self.new piece.now result ⊎ Refuses self.old self.new result) }
    {
        if self.speaking {
            if self.over {
                self.link.count_write();
                return WriteOut::Failed;
            }
            return self.link.write(piece);
        }
        self.speaking = true;
        if self.is_over() {
            self.write_anew(piece)
        } else {
            self.link.write(piece)
        }
    }
}

// A link over one connection that is dialled.
fn dial_once<D: Dialler>(dialler: &mut D, limits: Limits) -> Option<TcpLink<D::Joined>>
    requires dial { 0 < limits.dial }
    requires write { 0 < limits.write }
    ensures fresh { IfSome result (λ link. IsFresh limits link) }
    ensures none { result ≡ None → NoLink D.failed D.Joined.refused dialler.new }
    ensures once { DialsOnce D.dialled D.within limits.dial dialler.old dialler.new }
{
    match dialler.dial(limits.dial) {
        DialOut::Joined(socket) => TcpLink::of(socket, limits).ok(),
        DialOut::Failed => None,
    }
}
