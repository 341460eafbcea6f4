// Four threads that ask one desk.

ghost use Rattle.std.specs.Prelude.{IfOk, IfSome};
ghost use Rattle.nb_desk.specs.Desks.{IsAt};

use crate::callers::{ask_by_two, two_more};
use crate::desks::{ask_one, desk_over};
use crate::house::House;
use crate::names::Request;
use nb_desk::{Desk, Pass};
use nb_entry::Entry;
use nb_lines::Told;
use nb_port::MemDisk;
use nb_turns::Line;
use nb_units::NoMemory;
use std::alloc::Global;
use std::sync::Wait;
use std::thread::{Threads, join};

// The most times that a caller asks for something new.
const MOST_TIMES: u64 = 10_000;

// Where the first fund begins, behind the journal's front of 96 bytes and one item with an enrolment, and how many bytes the item
// of each fund has.
const FIRST_FUND: u64 = 151;

const FUND_BYTES: u64 = 34;

// The places that two callers were told.
type Places = (Option<Vec<u64>>, Option<Vec<u64>>);

// What callers were told.
#[derive(Drop)]
struct Replies {
    // What the first pass was told before them, and behind them all.
    first: Told,
    last: Told,
    // Those of the callers 1 and 2, and 3 and 4.
    low: Places,
    high: Places,
}

// What came of a crowd.
#[derive(Drop)]
struct Crowd {
    replies: Replies,
    disk: MemDisk,
    lines: Vec<Line>,
}

impl House {
    /// `crowd NAME TIMES`: the first pass asks for what enrols; then four callers ask at once, each for so many funds of its own and for each of
    /// them again; then the first pass asks again. What is told of the callers is the same in whichever order they came.
    pub fn crowd<R: Threads + Wait + Sync>(
        &self,
        rt: &R,
        told: &mut Told,
        words: &[&str],
    ) -> Result<(), NoMemory> {
        let [name, times] = words else {
            return told.unclear();
        };
        let times = nb_lines::number(*times).min(MOST_TIMES) as u32;
        match self.names.request(*name) {
            Some(request) => come(rt, told, self.next_disk()?, request, times),
            None => told.unclear(),
        }
    }
}

fn come<R: Threads + Wait + Sync>(
    rt: &R,
    told: &mut Told,
    disk: MemDisk,
    request: &Request,
    times: u32,
) -> Result<(), NoMemory> {
    match gather(rt, told.alloc(), disk, request, times)? {
        Some(crowd) => tell(told, &crowd),
        None => told.unclear(),
    }
}

fn gather<R: Threads + Wait + Sync>(
    rt: &R,
    alloc: Global,
    disk: MemDisk,
    request: &Request,
    times: u32,
) -> Result<Option<Crowd>, NoMemory> {
    let Some((mut desk, pass)) = desk_over(alloc, disk) else {
        return Ok(None);
    };
    match ask_before_and_behind(rt, alloc, &mut desk, pass, request, times)? {
        Some((pass, replies)) => {
            let (disk, lines) = desk.close(rt, pass).into_parts();
            Ok(Some(Crowd {
                replies,
                disk,
                lines,
            }))
        }
        None => Ok(None),
    }
}

fn ask_before_and_behind<R: Threads + Wait + Sync>(
    rt: &R,
    alloc: Global,
    desk: &mut Desk<MemDisk>,
    pass: Pass<MemDisk>,
    request: &Request,
    times: u32,
) -> Result<Option<(Pass<MemDisk>, Replies)>, NoMemory>
    requires { IsAt pass desk.old }
    ensures { IfOk result (λ o. IfSome o (λ r. IsAt r.0 desk.new)) }
{
    let (mut first, mut last) = (Told::new(alloc), Told::new(alloc));
    let pass = ask_one(rt, &mut first, desk, pass, request, false)?;
    let Some((pass, (low, high))) = ask_by_four(rt, alloc, desk, pass, times) else {
        return Ok(None);
    };
    let pass = ask_one(rt, &mut last, desk, pass, request, false)?;
    let replies = Replies {
        first,
        last,
        low,
        high,
    };
    Ok(Some((pass, replies)))
}

// Four callers ask at once.
fn ask_by_four<R: Threads + Wait + Sync>(
    rt: &R,
    alloc: Global,
    desk: &mut Desk<MemDisk>,
    pass: Pass<MemDisk>,
    times: u32,
) -> Option<(Pass<MemDisk>, (Places, Places))>
    requires { IsAt pass desk.old }
    ensures { IfSome result (λ r. IsAt r.0 desk.new) }
{
    let (pass, low) = two_more(desk, pass, 1)?;
    let (pass, high) = two_more(desk, pass, 3)?;
    Some((pass, ask_at_once(rt, alloc, desk, low, high, times)))
}

fn ask_at_once<R: Threads + Wait + Sync>(
    rt: &R,
    alloc: Global,
    desk: &Desk<MemDisk>,
    low: (Pass<MemDisk>, Pass<MemDisk>),
    high: (Pass<MemDisk>, Pass<MemDisk>),
    times: u32,
) -> (Places, Places)
    requires first { IsAt low.0 desk.now }
    requires second { IsAt low.1 desk.now }
    requires third { IsAt high.0 desk.now }
    requires fourth { IsAt high.1 desk.now }
{
    join(
        rt,
        || -> (Option<Vec<u64>>, Option<Vec<u64>>)
            requires first { IsAt low.0 desk.now }
            requires second { IsAt low.1 desk.now }
        { ask_by_two(rt, alloc, desk, low, 1, times) },
        || -> (Option<Vec<u64>>, Option<Vec<u64>>)
            requires first { IsAt high.0 desk.now }
            requires second { IsAt high.1 desk.now }
        { ask_by_two(rt, alloc, desk, high, 3, times) },
    )
}

// The replies; and of each caller the entries that its own lines committed, one behind the other, and the items at the places that it was told.
fn tell(told: &mut Told, crowd: &Crowd) -> Result<(), NoMemory> {
    told.text(crowd.replies.first.as_str())
        .show("\n", &crowd.lines.len())
        .text(" lines; ")
        .text(crowd.replies.last.as_str());
    tell_caller(told, crowd, 1, &crowd.replies.low.0)?;
    tell_caller(told, crowd, 2, &crowd.replies.low.1)?;
    tell_caller(told, crowd, 3, &crowd.replies.high.0)?;
    tell_caller(told, crowd, 4, &crowd.replies.high.1)
}

fn tell_caller(
    told: &mut Told,
    crowd: &Crowd,
    by: u64,
    places: &Option<Vec<u64>>,
) -> Result<(), NoMemory> {
    let committed = committed_by(told.alloc(), &crowd.lines, by)?;
    told.show("\ncaller ", &by)
        .bytes(": committed ", &committed)
        .text("; told ");
    match places {
        Some(places) => tell_items(told, crowd.disk.content(), places),
        None => told.bytes("", &[]).done(),
    }
}

fn tell_items(told: &mut Told, content: &[u8], places: &[u64]) -> Result<(), NoMemory> {
    let items = items_at(told.alloc(), content, places)?;
    told.bytes("", &items).done()
}

// The funds that the lines of a caller committed, in the order of these lines.
fn committed_by(alloc: Global, lines: &[Line], caller: u64) -> Result<Vec<u8>, NoMemory> {
    let mut funds = Vec::new(alloc);
    for line in lines {
        if let Line::Commit { by, entry, .. } = *line {
            if by == caller {
                add_fund(&entry, &mut funds)?;
            }
        }
    }
    Ok(funds)
}

fn add_fund(entry: &Entry, funds: &mut Vec<u8>) -> Result<(), NoMemory> {
    match entry {
        Entry::Fund { .. } => Ok(funds.extend_from_slice(entry.spelled().as_slice())?),
        _ => Ok(()),
    }
}

fn items_at(alloc: Global, content: &[u8], places: &[u64]) -> Result<Vec<u8>, NoMemory> {
    let mut items = Vec::new(alloc);
    for place in places {
        let from = place
            .saturating_sub(1)
            .saturating_mul(FUND_BYTES)
            .saturating_add(FIRST_FUND);
        let rest = content.split_at(content.len().min(from as usize)).1;
        items.extend_from_slice(rest.split_at(rest.len().min(FUND_BYTES as usize)).0)?;
    }
    Ok(items)
}
