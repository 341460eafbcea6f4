ghost use Rattle.std.specs.Prelude.{◌≡◌, ◌≤◌, ◌+◌, ◌*◌, ◌++◌, ◌∷◌, [], ℕ, List, length, vec_capacity, vec_len};
ghost use Rattle.std.specs.List.{All};
ghost use Rattle.nb_turns.specs.declared.limits.TheConstants.{MAX_REQUESTS};
ghost use Rattle.nb_msgs.specs.ReplyBytes.{joined};
ghost use Rattle.nb_msgs.specs.declared.reply.TheConstants.{REPLY_ROOM};
ghost use Rattle.nb_units.specs.Room.{spare_of};
ghost use Rattle.nb_vault.specs.Asking.{IsWithin, request_of, requests_of};
ghost use Rattle.nb_vault.specs.Vaults.{Keeps, all_of, place_in};
ghost use Rattle.nb_desk.specs.Answers.{Answers};

use nb_escrow::OpenedOrder;
use nb_msgs::Draft;
use nb_port::Disk;
use nb_turn::Chronicle;
use nb_turns::Line;
use nb_vault::{Answer, AnswerAll, AskAt, Origin, Vault};
use std::marker::Model;

/// A vault as the passes of a desk hand it on, with the number of its lines. Contracts see it as the vault.
pub struct DeskVault<D: Disk> {
    vault: Vault<D>,
    count: u64,
}

impl<D: Disk + Drop> Drop for DeskVault<D> {
    fn drop(self) {
        let Self { vault: _, count: _ } = self;
    }
}

impl<D: Disk> Model for DeskVault<D> {
    ghost use Rattle.std.specs.Prelude.{◌≡◌, length};
    ghost use Rattle.nb_vault.specs.Vaults.{Chronicled};

    ghost Value = { Chronicled D };

    ghost view = { λ v. v.vault };

    ghost invariant = { λ v. v.count ≡ length v.vault.lines };
}

impl<D: Disk> Chronicle for DeskVault<D> {
    type Origin = Origin;

    type Line = Line;

    ghost use Rattle.nb_turns.specs.Lines.{maker_of};

    ghost origin = { λ v. v.origin };

    ghost history = { λ v. v.lines };

    ghost maker = { maker_of };

    fn lines(&self) -> u64 {
        self.count
    }
}

impl<D: Disk> DeskVault<D> {
    pub(crate) fn of(vault: Vault<D>) -> DeskVault<D>
        requires { vault.lines ≡ [] }
        ensures { result ≡ vault }
    {
        DeskVault { vault, count: 0 }
    }

    pub(crate) fn into_vault(self) -> Vault<D>
        ensures vault { result ≡ self }
        ensures keeps { Keeps D.tells result }
    {
        let DeskVault { vault, count: _ } = self;
        vault.witness();
        vault
    }

    // Answers one request as the vault does, and counts the lines.
    pub(crate) fn answer(
        &mut self,
        by: u64,
        kind: u8,
        body: &[u8],
        moment: u64,
        out: &mut Vec<u8>,
    ) -> Answer
        requires { REPLY_ROOM ≤ spare_of out.old }
        ensures answers { Answers D.tells self.old self.new by (request_of kind body.now moment ∷ []) (place_in result) out.old.items out.new.items (all_of result) }
        ensures room { vec_capacity out.new ≡ vec_capacity out.old }
    {
        self.vault.witness();
        let answer = self.vault.answer(by, kind, body, moment, out);
        self.count = count_from(&self.vault, self.count);
        answer
    }

    // Answers several requests in one turn as the vault does, and counts the lines.
    pub(crate) fn answer_all(
        &mut self,
        by: u64,
        bytes: &[u8],
        asks: &[AskAt],
        ats: &mut Vec<u64>,
        out: &mut Vec<u8>,
    ) -> AnswerAll
        requires some { 1 ≤ length asks.now }
        requires most { length asks.now ≤ MAX_REQUESTS }
        requires within { All (IsWithin bytes.now) asks.now }
        requires places { vec_len ats.old + length asks.now ≤ vec_capacity ats.old }
        requires room { REPLY_ROOM * length asks.now ≤ spare_of out.old }
        ensures answers { (found : List ℕ) × (ats.new.items ≡ ats.old.items ++ found) × Answers D.tells self.old self.new by (requests_of bytes.now asks.now) found out.old.items out.new.items result }
        ensures room { vec_capacity out.new ≡ vec_capacity out.old }
        ensures places { vec_capacity ats.new ≡ vec_capacity ats.old }
    {
        self.vault.witness();
        let answer = self.vault.answer_all(by, bytes, asks, ats, out);
        self.count = count_from(&self.vault, self.count);
        answer
    }

    // Answers several requests in one turn up to the drafts of their replies as the vault does, and counts the lines.
    pub(crate) fn decide_all(
        &mut self,
        by: u64,
        bytes: &[u8],
        asks: &[AskAt],
        opened: &[Option<OpenedOrder>],
        ats: &mut Vec<u64>,
        drafts: &mut Vec<Draft>,
    ) -> AnswerAll
        requires some { 1 ≤ length asks.now }
        requires most { length asks.now ≤ MAX_REQUESTS }
        requires within { All (IsWithin bytes.now) asks.now }
        requires places { vec_len ats.old + length asks.now ≤ vec_capacity ats.old }
        requires none { drafts.old.items ≡ [] }
        requires room { length asks.now ≤ vec_capacity drafts.old }
        ensures answers { (found : List ℕ) × (ats.new.items ≡ ats.old.items ++ found) × Answers D.tells self.old self.new by (requests_of bytes.now asks.now) found [] (joined drafts.new.items) result }
        ensures few { length drafts.new.items ≤ length asks.now }
        ensures room { vec_capacity drafts.new ≡ vec_capacity drafts.old }
        ensures places { vec_capacity ats.new ≡ vec_capacity ats.old }
    {
        self.vault.witness();
        let answer = self.vault.decide_all(by, bytes, asks, opened, ats, drafts);
        self.count = count_from(&self.vault, self.count);
        answer
    }
}

// How many lines the vault has, which are no fewer than `least`.
fn count_from<D: Disk>(vault: &Vault<D>, least: u64) -> u64
    requires { least ≤ length vault.now.lines }
    ensures { result ≡ length vault.now.lines }
{
    nb_vault::laws::lines_fit::<D>();
    vault.witness();
    let mut count = least;
    while vault.line(count).is_some() {
        count += 1;
    }
    count
}
