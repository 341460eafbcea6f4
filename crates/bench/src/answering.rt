// Requests answered over a journal in a file: each by itself, or up to 32 of them in a turn.

ghost use Rattle.std.specs.Prelude.{◌≡◌, ◌<◌, [], IfOk, IsTrue};
ghost use Rattle.std.specs.List.{All};
ghost use Rattle.nb_vault.specs.Asking.{IsWithin};

use anyhow::anyhow;
use nb_book::SlotHasher;
use nb_endorse::KeptStates;
use nb_escrow::OpenedOrder;
use nb_msgs::{Draft, REPLY_ROOM, write_each};
use nb_port::Clock;
use nb_system::{FileDisk, StdFile, SystemClock};
use nb_turns::MAX_REQUESTS;
use nb_units::NoMemory;
use nb_units::frames::{HEADER, ORDER_REQUEST};
use nb_vault::{Answer, AnswerAll, AskAt, Vault};
use std::alloc::Global;
use std::fs::{File, OpenOptions};
use std::io::Read;

/// Answers the frames on standard input over the journal of this name, so many in a turn, or each by itself where that is 0. What is
/// made is the number of bytes of all replies.
pub fn run(rt: &HostRuntime, name: &str, turn: usize) -> anyhow::Result<usize> {
    let mut vault = opened(rt, name)?;
    let told = answer_given(rt, &mut vault, turn);
    drop(vault);
    told
}

fn answer_given(
    rt: &HostRuntime,
    vault: &mut Vault<FileDisk<StdFile>>,
    turn: usize,
) -> anyhow::Result<usize> {
    let bytes = given(rt)?;
    let asks = asks_now(rt, &bytes)?;
    if turn == 0 {
        answer_each(rt.alloc(), vault, &bytes, asks.as_slice())
    } else {
        answer_turns(rt.alloc(), vault, &bytes, asks.as_slice(), turn)
    }
}

// A vault over the journal of this name.
pub(crate) fn opened(rt: &HostRuntime, name: &str) -> anyhow::Result<Vault<FileDisk<StdFile>>>
    ensures { IfOk result (λ v. v.lines ≡ []) }
{
    let file = OpenOptions::new().read(true).write(true).open(rt, name)?;
    let disk = FileDisk::over(file, File::open(rt, ".")?);
    match Vault::open(rt.alloc(), disk) {
        Ok(vault) => Ok(vault),
        Err((fault, _)) => Err(anyhow!("{fault}")),
    }
}

// What stands on standard input.
pub(crate) fn given(rt: &HostRuntime) -> anyhow::Result<Vec<u8>> {
    let mut bytes = Vec::new(rt.alloc());
    rt.stdin().read_to_end(&mut bytes)?;
    Ok(bytes)
}

// The requests in these frames, all at this moment.
pub(crate) fn asks_now(rt: &HostRuntime, bytes: &[u8]) -> anyhow::Result<Vec<AskAt>> {
    let moment = SystemClock::over(rt.clone()?).now();
    asks_of(rt.alloc(), bytes, moment)
}

// Answers each request by itself.
fn answer_each(
    alloc: Global,
    vault: &mut Vault<FileDisk<StdFile>>,
    bytes: &[u8],
    asks: &[AskAt],
) -> anyhow::Result<usize> {
    let mut out = Vec::new(alloc);
    let mut told = 0usize;
    for ask in asks {
        answer(vault, bytes, ask, &mut out)?;
        told = told.saturating_add(out.len());
    }
    Ok(told)
}

// Answers so many requests in a turn.
fn answer_turns(
    alloc: Global,
    vault: &mut Vault<FileDisk<StdFile>>,
    bytes: &[u8],
    asks: &[AskAt],
    turn: usize,
) -> anyhow::Result<usize>
    requires { 0 < turn }
{
    let mut ats = Vec::new(alloc);
    let mut out = Vec::new(alloc);
    let mut told = 0usize;
    for group in asks.chunks(turn) {
        answer_all(vault, bytes, group, &mut ats, &mut out)?;
        told = told.saturating_add(out.len());
    }
    Ok(told)
}

/// Answers the frames on standard input as [`run`] does, so many in a turn, up to the drafts of their replies, which are written behind the
/// turn with states of keys of the caller's own. Where `opens` says so each order is opened before its turn, as far as its keys are known.
pub fn run_decided(
    rt: &HostRuntime,
    name: &str,
    turn: usize,
    opens: bool,
) -> anyhow::Result<usize> {
    if turn == 0 {
        return Err(anyhow!("a turn has from 1 to 32 requests"));
    }
    let mut vault = opened(rt, name)?;
    let told = decide_given(rt, &mut vault, turn, opens);
    drop(vault);
    told
}

fn decide_given(
    rt: &HostRuntime,
    vault: &mut Vault<FileDisk<StdFile>>,
    turn: usize,
    opens: bool,
) -> anyhow::Result<usize>
    requires { 0 < turn }
{
    let bytes = given(rt)?;
    let asks = asks_now(rt, &bytes)?;
    let Ok(mut caller) = Caller::new(rt.alloc()) else {
        return Err(anyhow!("out of memory"));
    };
    caller.decide_turns(vault, &bytes, asks.as_slice(), turn, opens)
}

// Who asks: the states of keys that it keeps, and the memory of a turn.
#[derive(Drop)]
struct Caller {
    kept: KeptStates,
    memos: Vec<Option<OpenedOrder>>,
    ats: Vec<u64>,
    drafts: Vec<Draft>,
    out: Vec<u8>,
}

impl Caller {
    fn new(alloc: Global) -> Result<Caller, NoMemory> {
        Ok(Caller {
            kept: KeptStates::new(alloc)?,
            memos: Vec::new(alloc),
            ats: Vec::new(alloc),
            drafts: Vec::new(alloc),
            out: Vec::new(alloc),
        })
    }

    // Answers the requests, so many in a turn.
    fn decide_turns(
        &mut self,
        vault: &mut Vault<FileDisk<StdFile>>,
        bytes: &[u8],
        asks: &[AskAt],
        turn: usize,
        opens: bool,
    ) -> anyhow::Result<usize>
        requires { 0 < turn }
    {
        let mut told = 0usize;
        for group in asks.chunks(turn) {
            self.decide_all(vault, bytes, group, opens)?;
            told = told.saturating_add(self.out.len());
        }
        Ok(told)
    }

    // Opens what may be opened of each request.
    fn open_each(&mut self, bytes: &[u8], asks: &[AskAt], hasher: &SlotHasher) -> anyhow::Result<()>
        requires { All (IsWithin bytes.now) asks.now }
    {
        for ask in asks {
            let body = bytes.split_at(ask.start).1.split_at(ask.len).0;
            let memo = if ask.kind == ORDER_REQUEST {
                OpenedOrder::of(body, &self.kept, hasher)
            } else {
                None
            };
            self.memos.push(memo)?;
        }
        Ok(())
    }

    // Answers the requests of a turn, and writes the replies behind it.
    fn decide_all(
        &mut self,
        vault: &mut Vault<FileDisk<StdFile>>,
        bytes: &[u8],
        asks: &[AskAt],
        opens: bool,
    ) -> anyhow::Result<()> {
        self.memos.clear();
        if asks.is_empty() || asks.len() > MAX_REQUESTS || !are_within(bytes, asks) {
            return Err(anyhow!("a turn has from 1 to 32 requests"));
        }
        if opens {
            self.open_each(bytes, asks, &vault.order_hasher())?;
        }
        self.ats.clear();
        self.ats.reserve(MAX_REQUESTS)?;
        self.drafts.clear();
        self.drafts.reserve(MAX_REQUESTS)?;
        self.out.clear();
        self.out.reserve(REPLY_ROOM * MAX_REQUESTS)?;
        let memos = self.memos.as_slice();
        match vault.decide_all(0, bytes, asks, memos, &mut self.ats, &mut self.drafts) {
            AnswerAll::Answered => {}
            _ => return Err(anyhow!("the disk failed")),
        }
        write_each(self.drafts.as_slice(), &mut self.kept, &mut self.out);
        Ok(())
    }
}

// The requests in these frames, one behind the other, all at one moment. A header has the kind in its fourth byte and the number of the
// body's bytes in the four behind it. It ends where no whole frame is left.
fn asks_of(alloc: Global, bytes: &[u8], moment: u64) -> anyhow::Result<Vec<AskAt>> {
    let mut asks = Vec::new(alloc);
    let mut rest = bytes;
    let mut at = 0usize;
    'reading: for _ in 0..u64::MAX {
        if rest.len() < HEADER {
            break 'reading;
        }
        let (header, body) = rest.split_at(HEADER);
        let len = u32::from_be_bytes([header[4], header[5], header[6], header[7]]) as usize;
        if len > body.len() {
            break 'reading;
        }
        let start = at.saturating_add(HEADER);
        asks.push(AskAt {
            kind: header[3],
            start,
            len,
            moment,
        })?;
        at = start.saturating_add(len);
        rest = body.split_at(len).1;
    }
    Ok(asks)
}

// Answers one request.
fn answer(
    vault: &mut Vault<FileDisk<StdFile>>,
    bytes: &[u8],
    ask: &AskAt,
    out: &mut Vec<u8>,
) -> anyhow::Result<()> {
    out.clear();
    out.reserve(REPLY_ROOM)?;
    if ask.start > bytes.len() || ask.len > bytes.len() - ask.start {
        return Err(anyhow!("a body ends behind the bytes"));
    }
    let body = bytes.split_at(ask.start).1.split_at(ask.len).0;
    match vault.answer(0, ask.kind, body, ask.moment, out) {
        Answer::Answered { .. } => Ok(()),
        _ => Err(anyhow!("the disk failed")),
    }
}

// Answers the requests of a turn.
fn answer_all(
    vault: &mut Vault<FileDisk<StdFile>>,
    bytes: &[u8],
    asks: &[AskAt],
    ats: &mut Vec<u64>,
    out: &mut Vec<u8>,
) -> anyhow::Result<()> {
    ats.clear();
    ats.reserve(MAX_REQUESTS)?;
    out.clear();
    out.reserve(REPLY_ROOM * MAX_REQUESTS)?;
    if asks.is_empty() || asks.len() > MAX_REQUESTS || !are_within(bytes, asks) {
        return Err(anyhow!("a turn has from 1 to 32 requests"));
    }
    match vault.answer_all(0, bytes, asks, ats, out) {
        AnswerAll::Answered => Ok(()),
        _ => Err(anyhow!("the disk failed")),
    }
}

// Whether all bodies stand within the bytes.
pub(crate) fn are_within(bytes: &[u8], asks: &[AskAt]) -> bool
    ensures { IsTrue result → All (IsWithin bytes.now) asks.now }
{
    for ask in asks {
        if ask.start > bytes.len() || ask.len > bytes.len() - ask.start {
            return false;
        }
    }
    true
}
