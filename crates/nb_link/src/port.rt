ghost use Rattle.std.specs.Prelude.{◌≡◌, ◌<◌, IfSome, length};
ghost use Rattle.nb_link.specs.Port.{PortSeen, NextGives, TakesBack};

use crate::link::Link;

/// What a port gives.
#[derive(Drop)]
pub enum PortOut<L> {
    /// A link.
    Got(L),
    /// No link is left.
    Closed,
    /// No link was given, and one may be by the next call.
    Failed,
}

/// Where links come from, one after another, and go back to.
pub trait Port: Send + Drop {
    /// What it gives.
    type Joined: Link + Send;

    /// What it is seen as. Its count never falls. It stays at 2^64 - 1.
    ghost seen: { Self → PortSeen };

    /// How many links it may still give: so many are to come, where they are told.
    fn left(&self) -> u32
        ensures left { result ≡ (seen self.now).left }
        // So many are to come, where they are told.
        ensures told { IfSome (seen self.now).coming (λ links. length links ≡ result) };

    /// Gives the next link. A port that tells whether it listens does so no more where it gives its last one.
    /// It is Closed exactly where none is left, and then all stays; where it fails the count rises, and all else stays.
    fn next(&mut self) -> PortOut<Self::Joined>
        ensures { NextGives Self.Joined.seen (seen self.old) (seen self.new) result };

    /// Takes back a link that it gave. This cannot fail.
    fn back(&mut self, link: Self::Joined)
        requires { 0 < (seen self.old).out }
        ensures { TakesBack (seen self.old) (seen self.new) (Self.Joined.seen link) };
}
