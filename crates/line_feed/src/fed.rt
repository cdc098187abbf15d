//! A run that is fed.
ghost use Rattle.std.specs.Prelude.{◌≡◌, ◌+◌, ◌++◌, ◌∷◌, [], ◌<◌, ◌≤◌, ◌^◌, ℕ, List, length, IfOk, IfSome, Some};
ghost use Rattle.fx_io.specs.Lines.{HasNoEnd, IsFirstEnd};
ghost use Rattle.rule_world.specs.Worlds.{World};
ghost use Rattle.line_run.specs.Run.{progress_after, state_in};
ghost use Rattle.line_feed.specs.Fed.{Feeds, HasFed, IsBehind, IsReady};

use crate::front::{add_front, ended};
use fx_base::NoMemory;
use fx_io::Sink;
use line_run::{LineTaker, Progress, Turn};
use memchr::memchr;
use std::alloc::Global;

/// A run that is fed.
#[derive(Drop)]
pub struct Fed<T> {
    /// What takes its lines.
    pub taker: T,
    /// How far it has come.
    pub at: Progress,
    /// The front of the line whose end has not come.
    pub front: Vec<u8>,
    /// So many bytes may still come.
    pub room: u64,
}

impl<T> Fed<T> {
    // Between two lines.
    fn new(alloc: Global, taker: T, at: Progress, room: u64) -> Fed<T>
        ensures taker { result.taker ≡ taker }
        ensures at { result.at ≡ at }
        ensures front { result.front.items ≡ [] }
        ensures room { result.room ≡ room }
    {
        Fed {
            taker,
            at,
            front: Vec::new(alloc),
            room,
        }
    }
}

/// A run that has come so far, before the first byte, and that may be fed with so many. Takes no memory.
pub fn begin<T: LineTaker<K>, K: Sink>(alloc: Global, taker: T, at: Progress, room: u64) -> Fed<T>
    ensures fed { (w : World) → T.stands taker w → HasFed T.stands (T.steps taker) (state_in w at) [] [] (Some result) }
    ensures taker { result.taker ≡ taker }
    ensures at { result.at ≡ at }
    ensures room { result.room ≡ room }
{
    Fed::new(alloc, taker, at, room)
}

// Behind one line more.
fn next(at: Progress, bad: bool, left: u64) -> Progress
    requires { at.lines + 1 < 2 ^ 64 }
    ensures { result ≡ progress_after at bad left }
{
    Progress {
        lines: at.lines + 1,
        left,
        faulted: at.faulted || bad,
    }
}

// What goes on behind a line.
fn behind<T: Drop>(alloc: Global, taker: T, at: Progress, turn: Turn, room: u64) -> Option<Fed<T>>
    requires { at.lines + 1 < 2 ^ 64 }
    ensures behind { IsBehind taker at turn result }
    ensures room { IfSome result (λ fed. fed.room ≡ room) }
{
    match turn {
        Turn::Goes(bad, left) => Some(Fed::new(alloc, taker, next(at, bad, left), room)),
        Turn::Saves(bad, left) => Some(Fed::new(alloc, taker, next(at, bad, left), room)),
        Turn::Stops => None,
    }
}

// The place of the first line end.
#[tactic(auto, using(fx_io::proofs::Ends::first_end_found))]
fn first_end(bytes: &[u8]) -> Option<usize>
    ensures { IsFirstEnd bytes.now result }
{
    memchr(b'\n', bytes)
}

// Hands on the line that ends behind these bytes.
fn end_line<T: LineTaker<K>, K: Sink>(
    alloc: Global,
    fed: Fed<T>,
    bytes: &[u8],
    text: &mut Vec<u8>,
) -> Result<Option<Fed<T>>, NoMemory>
    requires none { HasNoEnd bytes.now }
    requires fits { length bytes.now < fed.room }
    requires ready { IsReady T.ready fed }
    ensures fed { IfOk result (λ after. Feeds T.stands (T.steps fed.taker) (bytes.now ++ 10 ∷ []) fed after text.old.items text.new.items) }
    ensures room { IfOk result (λ after. IfSome after (λ it. it.room + (length bytes.now + 1) ≡ fed.room)) }
    ensures ready { IfOk result (λ after. IfSome after (λ it. IsReady T.ready it)) }
    ensures steps { IfOk result (λ after. IfSome after (λ it. T.steps it.taker ≡ T.steps fed.taker)) }
    ensures program { IfOk result (λ after. IfSome after (λ it. T.program it.taker ≡ T.program fed.taker)) }
    ensures table { IfOk result (λ after. IfSome after (λ it. T.table it.taker ≡ T.table fed.taker)) }
{
    let room = fed.room - (bytes.len() as u64 + 1);
    let Fed {
        taker,
        at,
        front,
        ..
    } = fed;
    let mut front = front;
    add_front(&mut front, bytes)?;
    let (taker, turn) = taker.take(alloc, at, ended(front), text)?;
    match turn {
        Some(turn) => Ok(behind(alloc, taker, at, turn, room)),
        None => Ok(None),
    }
}

// Keeps bytes in which no line ends.
fn keep_rest<T: LineTaker<K>, K: Sink>(fed: Fed<T>, rest: &[u8]) -> Result<Fed<T>, NoMemory>
    requires none { HasNoEnd rest.now }
    requires fits { length rest.now ≤ fed.room }
    ensures fed { (text : List ℕ) → IfOk result (λ after. Feeds T.stands (T.steps fed.taker) rest.now fed (Some after) text text) }
    ensures taker { IfOk result (λ after. after.taker ≡ fed.taker) }
    ensures at { IfOk result (λ after. after.at ≡ fed.at) }
    ensures room { IfOk result (λ after. after.room + length rest.now ≡ fed.room) }
{
    let room = fed.room - rest.len() as u64;
    let Fed {
        taker,
        at,
        front,
        ..
    } = fed;
    let mut front = front;
    add_front(&mut front, rest)?;
    Ok(Fed {
        taker,
        at,
        front,
        room,
    })
}

/// Feeds a run with these bytes: hands on each line whose end is among them, appends what these print, and keeps the front of the next. It answers
/// nothing where the run ended, at the limit of its firings. A line that asks to save is done as every other, and no image is put. Where memory is
/// refused the run is lost, and nothing is known of what was appended.
pub fn feed<T: LineTaker<K>, K: Sink>(
    alloc: Global,
    fed: Fed<T>,
    bytes: &[u8],
    text: &mut Vec<u8>,
) -> Result<Option<Fed<T>>, NoMemory>
    requires ready { IsReady T.ready fed }
    requires fits { length bytes.now ≤ fed.room }
    ensures fed { IfOk result (λ after. Feeds T.stands (T.steps fed.taker) bytes.now fed after text.old.items text.new.items) }
    ensures room { IfOk result (λ after. IfSome after (λ it. it.room + length bytes.now ≡ fed.room)) }
    ensures ready { IfOk result (λ after. IfSome after (λ it. IsReady T.ready it)) }
    ensures steps { IfOk result (λ after. IfSome after (λ it. T.steps it.taker ≡ T.steps fed.taker)) }
    ensures program { IfOk result (λ after. IfSome after (λ it. T.program it.taker ≡ T.program fed.taker)) }
    ensures table { IfOk result (λ after. IfSome after (λ it. T.table it.taker ≡ T.table fed.taker)) }
{
    let mut fed = fed;
    let mut from = 0;
    'lines: while let Some(place) = first_end(&bytes[from..]) {
        let end = from + place;
        match end_line::<T, K>(alloc, fed, &bytes[from..end], text)? {
            Some(next) => fed = next,
            None => return Ok(None),
        }
        from = end + 1;
    }
    Ok(Some(keep_rest::<T, K>(fed, &bytes[from..])?))
}
