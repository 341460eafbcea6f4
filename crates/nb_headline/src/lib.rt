//! What the house, its parties and its standby promise together.
//!
//! [`laws::headline`] speaks of each run of a real house (`specs/Served.antt`): its turns one after another, on a disk that keeps the contracts of
//! `nb_port`, each of the form that a turn of a desk has; of each world of real parties that is tied to it (`IsTied`); and of each list of events of that world.
//! Tied are they where the first vault keeps what every vault keeps, has nothing in doubt and made the turns; where the world's set-up has Legal entries, and no
//! packet, call or turn; and where behind some of its events the world is at the first vault's entries, with no call at its turn, and has for each request of the
//! turns a packet for the house that asks the same. Of a run and a world that are not tied nothing is said.
//!
//! It has six sentences, each with its name (`Headline` in `specs/Headline.antt`): a stop leaves a prefix of the commits with all that was told, within a turn, between
//! two and behind the last; an order moves its price at most once, and its entry stays; money is conserved; an order is paid exactly where it is payable, its receipts are those of the entry
//! that settles it, and a refusal is true; a key is given exactly where the payment stands, sealed for who asks; replies are those of one list.
//!
//! Of a standby three laws join what `nb_standby` has in its world with what the commands write (`specs/Standby.antt`): the frames that are shipped are of what the world has shipped; code 2
//! is told of none of them, where the standby's list began as a front of the primary's within its cap, with nothing in doubt and what was shipped the primary's;
//! and what is promoted after a stop tells of all that was acknowledged before it.
//!
//! Left to others: inputs, outputs and connections (`nb_run::run`, `nb_session::session`, `nb_server::serve_all`); that all turns of one server are one run: each is
//! of the form of such a turn, their lines stand in one list (`nb_server::serve_all`), and no law joins them; in which order the turns of many callers come; what the
//! next start makes of what a stop left (`nb_vault::Vault::open`), since a run is of one vault; what one party does; what a verdict is (`nb_escrow`).
#![tactic(auto)]

pub mod laws;
