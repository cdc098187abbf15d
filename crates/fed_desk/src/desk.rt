//! A desk, and what is fed to it and put out of it.
ghost use Rattle.std.specs.Prelude.{◌≡◌, ◌+◌, ◌++◌, ◌<◌, ◌≤◌, ℕ, true, length, take, drop, min, List, None, Some, IfOk, IfSome, IsErrOf, is_some, option_map};
ghost use Rattle.line_feed.specs.Fed.{Feeds};
ghost use Rattle.script_run.specs.Doors.{engine_of};
ghost use Rattle.script_run.specs.Live.{live_step};
ghost use Rattle.line_run.specs.Run.{RunState};
ghost use Rattle.fed_desk.specs.Runs.{ComesTo, FedCourse, HasCome, Tells, fed_setting, fed_stands};

use crate::lines::Lines;
use crate::running::Running;
use engine::{Inspect, WorldCounts};
use fx_base::NoMemory;
use fx_io::MemSink;
use line_run::Progress;
use std::alloc::Global;

/// A desk: its run, unless that has ended, and what was printed and waits to be put out.
#[derive(Drop)]
pub struct Desk<E: Inspect> {
    pub run: Option<Running<E>>,
    pub text: Vec<u8>,
}

/// Why a desk did not take bytes.
#[derive(Clone, Copy, Debug, PartialEq, Eq)]
pub enum FeedFault {
    /// Memory was refused: the run has ended, and what the bytes printed is lost.
    NoMemory,
    /// They are more than may still come, 2^55 in all: nothing has changed.
    Long,
    /// The run has ended before: nothing has changed.
    Ended,
}

// What goes on of a run behind more bytes, and what these print.
fn go_on<E: Inspect>(
    alloc: Global,
    running: Running<E>,
    bytes: &[u8],
    news: &mut Vec<u8>,
) -> Result<Option<Running<E>>, NoMemory>
    requires { length bytes.now ≤ running.fed.room }
    ensures fed { IfOk result (λ after. Feeds (fed_stands E.stands) (live_step (fed_setting E.gives E.fires E.counts E.made_with E.table running.fed.taker)) bytes.now
        running.fed (option_map (λ it. it.fed) after) news.old.items news.new.items) }
    ensures room { IfOk result (λ after. IfSome after (λ it. it.fed.room + length bytes.now ≡ running.fed.room)) }
    ensures steps { IfOk result (λ after. IfSome after (λ it. live_step (fed_setting E.gives E.fires E.counts E.made_with E.table it.fed.taker)
        ≡ live_step (fed_setting E.gives E.fires E.counts E.made_with E.table running.fed.taker))) }
    ensures program { IfOk result (λ after. IfSome after (λ it. E.made_with (engine_of it.fed.taker.lines) ≡ E.made_with (engine_of running.fed.taker.lines))) }
    ensures table { IfOk result (λ after. IfSome after (λ it. E.table (engine_of it.fed.taker.lines) ≡ E.table (engine_of running.fed.taker.lines))) }
    ensures first { IfOk result (λ after. IfSome after (λ it. it.first ≡ running.first)) }
{
    let Running { fed, first, .. } = running;
    match line_feed::feed::<Lines<E>, MemSink>(alloc, fed, bytes, news)? {
        Some(fed) => Ok(Some(Running { fed, first })),
        None => Ok(None),
    }
}

/// Feeds a desk with bytes, and answers whether its run goes on: it ends where the limit of firings is met. Each line whose end is among them is done, and
/// what it prints waits to be put out; the front of the next is kept.
pub fn feed<E: Inspect>(alloc: Global, desk: &mut Desk<E>, bytes: &[u8]) -> Result<bool, FeedFault>
    ensures fed { IfOk result (λ on. (course : FedCourse) (fed out : List ℕ)
        → HasCome E.stands (fed_setting E.gives E.fires E.counts E.made_with E.table) course fed out desk.old
        → HasCome E.stands (fed_setting E.gives E.fires E.counts E.made_with E.table) course (fed ++ bytes.now) out desk.new) }
    ensures on { IfOk result (λ on. on ≡ is_some desk.new.run) }
    ensures room { IfOk result (λ on. IfSome desk.old.run (λ before. IfSome desk.new.run (λ after. after.fed.room + length bytes.now ≡ before.fed.room))) }
    ensures was { IfOk result (λ on. is_some desk.old.run ≡ true) }
    ensures long_goes { IsErrOf result FeedFault.Long → is_some desk.old.run ≡ true }
    ensures long { IsErrOf result FeedFault.Long → IfSome desk.old.run (λ before. before.fed.room < length bytes.now) }
    ensures unchanged { IsErrOf result FeedFault.Long → desk.new ≡ desk.old }
    ensures ended { IsErrOf result FeedFault.Ended → desk.old.run ≡ None }
    ensures ended_unchanged { IsErrOf result FeedFault.Ended → desk.new ≡ desk.old }
    ensures refused { IsErrOf result FeedFault.NoMemory → desk.new.run ≡ None }
    ensures refused_text { IsErrOf result FeedFault.NoMemory → desk.new.text.items ≡ desk.old.text.items }
{
    let Some(running) = desk.run.take() else {
        return Err(FeedFault::Ended);
    };
    if bytes.len() as u64 > running.fed.room {
        desk.run = Some(running);
        return Err(FeedFault::Long);
    }
    let mut news = Vec::new(alloc);
    let Ok(after) = go_on(alloc, running, bytes, &mut news) else {
        return Err(FeedFault::NoMemory);
    };
    if desk.text.extend_from_slice(&news).is_err() {
        return Err(FeedFault::NoMemory);
    }
    desk.run = after;
    Ok(desk.run.is_some())
}

/// Takes as many first bytes as there is room for, puts them into the front of `out`, and answers how many.
pub fn put_front(bytes: &mut Vec<u8>, out: &mut [u8]) -> usize
    ensures count { result ≡ min (length bytes.old.items) (length out.old) }
    ensures front { take result out.new ++ bytes.new.items ≡ bytes.old.items }
    ensures behind { drop result out.new ≡ drop result out.old }
{
    let count = bytes.len().min(out.len());
    out[..count].copy_from_slice(&bytes[..count]);
    bytes.drain(..count);
    count
}

/// Puts what waits to be put out into the front of `out`, as much as there is room for, and answers how much. It takes no memory, and time that grows with
/// what waits.
pub fn put_out<E: Inspect>(desk: &mut Desk<E>, out: &mut [u8]) -> usize
    ensures put { (course : FedCourse) (fed before : List ℕ)
        → HasCome E.stands (fed_setting E.gives E.fires E.counts E.made_with E.table) course fed before desk.old
        → HasCome E.stands (fed_setting E.gives E.fires E.counts E.made_with E.table) course fed (before ++ take result out.new) desk.new }
    ensures count { result ≡ min (length desk.old.text.items) (length out.old) }
    ensures front { take result out.new ++ desk.new.text.items ≡ desk.old.text.items }
    ensures behind { drop result out.new ≡ drop result out.old }
    ensures run { desk.new.run ≡ desk.old.run }
{
    put_front(&mut desk.text, out)
}

/// How far the run of a desk has come, if it has not ended. Takes no memory.
pub fn progress<E: Inspect>(desk: &Desk<E>) -> Option<Progress>
    ensures told { IfSome result (λ at. (course : FedCourse) (fed out : List ℕ)
        → HasCome E.stands (fed_setting E.gives E.fires E.counts E.made_with E.table) course fed out desk.now
        → (s : RunState) × ComesTo course fed s × (at ≡ s.progress)) }
    ensures goes { is_some result ≡ is_some desk.now.run }
{
    match &desk.run {
        Some(running) => Some(running.fed.at),
        None => None,
    }
}

/// Why a desk does not tell its counts. Nothing has changed.
#[derive(Clone, Copy, Debug, PartialEq, Eq)]
pub enum CountFault {
    NoMemory,
    /// Its run has ended.
    Ended,
}

/// What a desk tells of its run: how far it has come, and the counts of its world.
#[derive(Debug, Drop)]
pub struct Told {
    pub at: Progress,
    pub counts: WorldCounts,
}

/// How far the run of a desk has come, and the counts of its world, between the lines that were fed and the next. It takes memory for the counts alone.
pub fn counts<E: Inspect>(alloc: Global, desk: &Desk<E>) -> Result<Told, CountFault>
    ensures told { IfOk result (λ told. (course : FedCourse) (fed out : List ℕ)
        → HasCome E.stands (fed_setting E.gives E.fires E.counts E.made_with E.table) course fed out desk.now
        → Tells course fed told.at told.counts) }
    ensures goes { IfOk result (λ told. is_some desk.now.run ≡ true) }
    ensures ended { IsErrOf result CountFault.Ended → desk.now.run ≡ None }
{
    let Some(running) = &desk.run else {
        return Err(CountFault::Ended);
    };
    match running.fed.taker.lines.engine().world_counts(alloc) {
        Ok(counts) => Ok(Told {
            at: running.fed.at,
            counts,
        }),
        Err(_) => Err(CountFault::NoMemory),
    }
}
