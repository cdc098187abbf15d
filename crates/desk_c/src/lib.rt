//! The program `desk` for callers in C: a handle in the caller's struct, the bytes of lines in, what they print out as bytes.
//! A handle that is zero is empty. Each export tests what it is given, and requires nothing. Nothing of the outside is used: no files, no streams, no globals,
//! no threads.
#![tactic(auto)]

ghost use Rattle.std.specs.Prelude.{◌≡◌, ◌≢◌, ◌⊎◌, ◌++◌, ◌<◌, ◌≤◌, ℕ, List, codes, length, take, drop, min, true, false, None, IfSome, is_some, option_map};
ghost use Rattle.fed_desk.specs.Images.{IsSaved, IsUnsaved};
ghost use Rattle.fed_desk.specs.Openings.{RefusesRules, RefusesImage};
ghost use Rattle.fed_desk.specs.Runs.{FedCourse};
ghost use Rattle.desk_c.specs.Handles.{EndsWith, HasComeBy, IsOpenBy, TellsC, goes_in, image_given, options_given, room_in, waiting_in};

mod counts;
mod handle;
mod state;

use counts::{Counts, counts_of};
use fed_desk::{CountFault, FeedFault, Options, SaveFault, put_front};
use handle::{Handle, kept, none, taken};
use state::{State, counts_any, feed_any, progress_any, put_out_any, save_any, state_of};
use std::alloc::Global;
use std::mem::replace;

/// The most firings of each fire command that may be asked for.
const EACH_MAX: u64 = 1_000_000;

/// A limit of firings is outside of 1 to 1,000,000.
const BAD_LIMIT: u32 = 2;

/// Memory was refused.
const NO_MEMORY: u32 = 7;

/// An image is refused.
const REFUSED: u32 = 9;

/// More bytes would have been fed than a run may take.
const TOO_LONG: u32 = 8;

/// The run has ended at the limit of firings.
const LIMIT: u32 = 11;

/// The handle is empty, or its run has ended.
const ENDED: u32 = 12;

/// The version of the library.
const VERSION: &[u8] = b"0.1.0";

// No bytes stand for no image.
fn image_of(image: &[u8]) -> Option<&[u8]>
    ensures { option_map (λ it. it.now) result ≡ image_given image.now }
{
    if image.is_empty() { None } else { Some(image) }
}

/// Puts the front of the version into `out`, and how many bytes that is into `written`. It answers 0.
#[unsafe(no_mangle)]
pub extern "C" fn szp_version(out: &mut [u8], written: &mut usize) -> u32
    ensures count { written.new ≡ min 5 (length out.old) }
    ensures text { take written.new out.new ≡ take written.new (codes "0.1.0") }
    ensures behind { drop written.new out.new ≡ drop written.new out.old }
    ensures answers { result ≡ 0 }
{
    let count = VERSION.len().min(out.len());
    out[..count].copy_from_slice(&VERSION[..count]);
    *written = count;
    0
}

/// Opens a handle over the bytes of a rule file: in the empty world, or behind the bytes of an image of the same rules, where there are some. Each fire
/// command makes at most `each` firings, from 1 to 1,000,000; answers are objects of JSON, or lines of text, where `text` is not 0. What the handle
/// held before is let go.
///
/// The status is 0 where the run goes on; 3 where the rules are refused, and 9 where the image is: the line that says why is put out by
/// `szp_output`; 2 where the limit is outside its range, and 7 where memory was refused: the handle is empty then. With 0, 3 and 9 it is to be closed.
#[unsafe(no_mangle)]
pub extern "C" fn szp_open(
    alloc: Global,
    handle: &mut Handle,
    rules: &[u8],
    image: &[u8],
    each: u64,
    text: u32,
) -> u32
    ensures open { result ≡ 0 → IfSome handle.new.state (λ after. IsOpenBy (options_given each text) rules.now (image_given image.now) after.desk) }
    ensures rules { result ≡ 3 → IfSome handle.new.state (λ after. RefusesRules rules.now (waiting_in after.desk)) }
    ensures image { result ≡ 9 → IfSome handle.new.state (λ after. RefusesImage rules.now (image_given image.now) (waiting_in after.desk)) }
    ensures limit { result ≡ 2 → (each < 1) ⊎ (1000000 < each) }
    ensures holds { (result ≡ 0) ⊎ (result ≡ 3) ⊎ (result ≡ 9) → is_some handle.new.state ≡ true }
    ensures empty { (result ≡ 2) ⊎ (result ≡ 7) → handle.new.state ≡ None }
    ensures answers { (result ≡ 0) ⊎ (result ≡ 2) ⊎ (result ≡ 3) ⊎ (result ≡ 7) ⊎ (result ≡ 9) }
{
    let _before = taken(alloc, replace(handle, none()));
    if each < 1 || each > EACH_MAX {
        return BAD_LIMIT;
    }
    let options = Options {
        each,
        text: text != 0,
    };
    let Ok((state, status)) = state_of(alloc, rules, image_of(image), options) else {
        return NO_MEMORY;
    };
    let Ok(state) = Box::new(alloc, state) else {
        return NO_MEMORY;
    };
    let _empty = taken(alloc, replace(handle, kept(state)));
    status
}

// Feeds what lies behind a handle.
fn fed(alloc: Global, state: Box<State>, bytes: &[u8]) -> (Box<State>, u32)
    ensures fed { (result.1 ≡ 0) ⊎ (result.1 ≡ 11) → (course : FedCourse) (before out : List ℕ) → HasComeBy course before out state.value.desk
        → HasComeBy course (before ++ bytes.now) out result.0.value.desk }
    ensures goes { result.1 ≡ 0 → goes_in result.0.value.desk ≡ true }
    ensures ends { (result.1 ≡ 7) ⊎ (result.1 ≡ 11) → goes_in result.0.value.desk ≡ false }
    ensures ended { result.1 ≡ 12 → goes_in state.value.desk ≡ false }
    ensures was { (result.1 ≡ 0) ⊎ (result.1 ≡ 8) ⊎ (result.1 ≡ 11) → goes_in state.value.desk ≡ true }
    ensures long { result.1 ≡ 8 → IfSome (room_in state.value.desk) (λ room. room < length bytes.now) }
    ensures image { result.0.value.image ≡ state.value.image }
    ensures refused { result.1 ≡ 7 → waiting_in result.0.value.desk ≡ waiting_in state.value.desk }
    ensures unchanged { (result.1 ≡ 8) ⊎ (result.1 ≡ 12) → result.0.value ≡ state.value }
    ensures answers { (result.1 ≡ 0) ⊎ (result.1 ≡ 7) ⊎ (result.1 ≡ 8) ⊎ (result.1 ≡ 11) ⊎ (result.1 ≡ 12) }
{
    let mut state = state;
    let status = match feed_any(alloc, &mut state.desk, bytes) {
        Ok(true) => 0,
        Ok(false) => LIMIT,
        Err(FeedFault::NoMemory) => NO_MEMORY,
        Err(FeedFault::Long) => TOO_LONG,
        Err(FeedFault::Ended) => ENDED,
    };
    (state, status)
}

/// Feeds the run behind a handle with bytes of its lines, whole lines or pieces of them. Each line whose end is among them is done, and what it prints waits for
/// `szp_output`; a line whose end never comes is never done.
///
/// The status is 0 where the run goes on; 11 where it ended with these bytes, at the limit of 2^55 firings; 7 where memory was refused: the run has ended, and
/// what was printed before waits still; 8 where more than 2^55 bytes would have been fed, and 12 where the handle is empty or its run has ended
/// before: nothing has changed then.
#[unsafe(no_mangle)]
pub extern "C" fn szp_feed(alloc: Global, handle: &mut Handle, bytes: &[u8]) -> u32
    ensures fed { (result ≡ 0) ⊎ (result ≡ 11) → IfSome handle.old.state (λ before. IfSome handle.new.state (λ after. (course : FedCourse) (fed out : List ℕ)
        → HasComeBy course fed out before.desk → HasComeBy course (fed ++ bytes.now) out after.desk)) }
    ensures goes { result ≡ 0 → IfSome handle.new.state (λ after. goes_in after.desk ≡ true) }
    ensures ends { (result ≡ 7) ⊎ (result ≡ 11) → IfSome handle.new.state (λ after. goes_in after.desk ≡ false) }
    ensures ended { result ≡ 12 → IfSome handle.old.state (λ before. goes_in before.desk ≡ false) }
    ensures was { (result ≡ 0) ⊎ (result ≡ 8) ⊎ (result ≡ 11) → IfSome handle.old.state (λ before. goes_in before.desk ≡ true) }
    ensures long { result ≡ 8 → IfSome handle.old.state (λ before. IfSome (room_in before.desk) (λ room. room < length bytes.now)) }
    ensures image { IfSome handle.old.state (λ before. IfSome handle.new.state (λ after. after.image ≡ before.image)) }
    ensures refused { result ≡ 7 → IfSome handle.old.state (λ before. IfSome handle.new.state (λ after. waiting_in after.desk ≡ waiting_in before.desk)) }
    ensures unchanged { (result ≡ 8) ⊎ (result ≡ 12) → handle.new.state ≡ handle.old.state }
    ensures holds { is_some handle.new.state ≡ is_some handle.old.state }
    ensures empty { handle.old.state ≡ None → (result ≡ 12) }
    ensures answers { (result ≡ 0) ⊎ (result ≡ 7) ⊎ (result ≡ 8) ⊎ (result ≡ 11) ⊎ (result ≡ 12) }
{
    match taken(alloc, replace(handle, none())) {
        None => ENDED,
        Some(state) => {
            let (state, status) = fed(alloc, state, bytes);
            let _empty = taken(alloc, replace(handle, kept(state)));
            status
        }
    }
}

// Puts out what waits behind a handle.
fn put(state: Box<State>, out: &mut [u8]) -> (Box<State>, usize)
    ensures put { (course : FedCourse) (fed before : List ℕ) → HasComeBy course fed before state.value.desk
        → HasComeBy course fed (before ++ take result.1 out.new) result.0.value.desk }
    ensures count { result.1 ≡ min (length (waiting_in state.value.desk)) (length out.old) }
    ensures front { take result.1 out.new ++ waiting_in result.0.value.desk ≡ waiting_in state.value.desk }
    ensures behind { drop result.1 out.new ≡ drop result.1 out.old }
    ensures goes { goes_in result.0.value.desk ≡ goes_in state.value.desk }
    ensures image { result.0.value.image ≡ state.value.image }
{
    let mut state = state;
    let count = put_out_any(&mut state.desk, out);
    (state, count)
}

/// Puts what waits to be put out into the front of `out`, as much as there is room for, and how many bytes that is into `written`. What finds no room waits on.
///
/// The status is 0, or 12 where the handle is empty: nothing is put out then, and `written` is 0.
#[unsafe(no_mangle)]
pub extern "C" fn szp_output(
    alloc: Global,
    handle: &mut Handle,
    out: &mut [u8],
    written: &mut usize,
) -> u32
    ensures put { IfSome handle.old.state (λ before. IfSome handle.new.state (λ after. (course : FedCourse) (fed given : List ℕ)
        → HasComeBy course fed given before.desk → HasComeBy course fed (given ++ take written.new out.new) after.desk)) }
    ensures count { IfSome handle.old.state (λ before. written.new ≡ min (length (waiting_in before.desk)) (length out.old)) }
    ensures front { IfSome handle.old.state (λ before. IfSome handle.new.state (λ after.
        take written.new out.new ++ waiting_in after.desk ≡ waiting_in before.desk)) }
    ensures behind { drop written.new out.new ≡ drop written.new out.old }
    ensures goes { IfSome handle.old.state (λ before. IfSome handle.new.state (λ after. goes_in after.desk ≡ goes_in before.desk)) }
    ensures image { IfSome handle.old.state (λ before. IfSome handle.new.state (λ after. after.image ≡ before.image)) }
    ensures holds { is_some handle.new.state ≡ is_some handle.old.state }
    ensures empty { handle.old.state ≡ None → (result ≡ 12) × (written.new ≡ 0) }
    ensures answers { (result ≡ 0) ⊎ (result ≡ 12) }
{
    match taken(alloc, replace(handle, none())) {
        None => {
            *written = 0;
            ENDED
        }
        Some(state) => {
            let (state, count) = put(state, out);
            let _empty = taken(alloc, replace(handle, kept(state)));
            *written = count;
            0
        }
    }
}

/// Tells of the run behind a handle, between the lines that were fed and the next.
///
/// The status is 0; 7 where memory was refused, and 12 where the handle is empty or its run has ended: `counts` stays as it was then. The handle stays as
/// it was.
#[unsafe(no_mangle)]
pub extern "C" fn szp_counts(alloc: Global, handle: &mut Handle, counts: &mut Counts) -> u32
    ensures told { result ≡ 0 → IfSome handle.old.state (λ before. (course : FedCourse) (fed out : List ℕ) → HasComeBy course fed out before.desk
        → TellsC course fed counts.new) }
    ensures stays { result ≢ 0 → counts.new ≡ counts.old }
    ensures handle { handle.new.state ≡ handle.old.state }
    ensures empty { handle.old.state ≡ None → (result ≡ 12) }
    ensures ended { result ≡ 12 → IfSome handle.old.state (λ before. goes_in before.desk ≡ false) }
    ensures answers { (result ≡ 0) ⊎ (result ≡ 7) ⊎ (result ≡ 12) }
{
    match taken(alloc, replace(handle, none())) {
        None => ENDED,
        Some(state) => {
            let told = counts_any(alloc, &state.desk);
            let _empty = taken(alloc, replace(handle, kept(state)));
            match told {
                Ok(told) => {
                    *counts = counts_of(&told);
                    0
                }
                Err(CountFault::NoMemory) => NO_MEMORY,
                Err(CountFault::Ended) => ENDED,
            }
        }
    }
}

// Makes the image of what lies behind a handle.
fn saved(alloc: Global, state: Box<State>) -> (Box<State>, u32)
    ensures saved { result.1 ≡ 0 → (course : FedCourse) (fed out : List ℕ) → HasComeBy course fed out state.value.desk → IsSaved course fed result.0.value.image.items }
    ensures refused { result.1 ≡ 9 → (course : FedCourse) (fed out : List ℕ) → HasComeBy course fed out state.value.desk → IsUnsaved course fed }
    ensures was { (result.1 ≡ 0) ⊎ (result.1 ≡ 9) → goes_in state.value.desk ≡ true }
    ensures ended { result.1 ≡ 12 → goes_in state.value.desk ≡ false }
    ensures desk { result.0.value.desk ≡ state.value.desk }
    ensures stays { result.1 ≢ 0 → result.0.value ≡ state.value }
    ensures answers { (result.1 ≡ 0) ⊎ (result.1 ≡ 7) ⊎ (result.1 ≡ 9) ⊎ (result.1 ≡ 12) }
{
    let mut state = state;
    let status = match save_any(alloc, &state.desk) {
        Ok(image) => {
            state.image = image;
            0
        }
        Err(SaveFault::NoMemory) => NO_MEMORY,
        Err(SaveFault::Refused) => REFUSED,
        Err(SaveFault::Ended) => ENDED,
    };
    (state, status)
}

/// Makes the image of the run behind a handle, as it is between the lines that were fed and the next; the front of a line whose end has not come is no part of it.
/// `szp_open` goes on behind it. It waits for `szp_image`, in the place of one that was made before, and `size` tells how many bytes it has.
///
/// The status is 0; 7 where memory was refused; 9 where the image is refused, since it has too many bytes or no run could go on from its numbers; 12 where
/// the handle is empty or its run has ended. Nothing has changed then, and `size` stays as it was.
#[unsafe(no_mangle)]
pub extern "C" fn szp_save(alloc: Global, handle: &mut Handle, size: &mut usize) -> u32
    ensures saved { result ≡ 0 → IfSome handle.old.state (λ before. IfSome handle.new.state (λ after. (course : FedCourse) (fed out : List ℕ)
        → HasComeBy course fed out before.desk → IsSaved course fed after.image.items)) }
    ensures size { result ≡ 0 → IfSome handle.new.state (λ after. size.new ≡ length after.image.items) }
    ensures refused { result ≡ 9 → IfSome handle.old.state (λ before. (course : FedCourse) (fed out : List ℕ)
        → HasComeBy course fed out before.desk → IsUnsaved course fed) }
    ensures was { (result ≡ 0) ⊎ (result ≡ 9) → IfSome handle.old.state (λ before. goes_in before.desk ≡ true) }
    ensures ended { result ≡ 12 → IfSome handle.old.state (λ before. goes_in before.desk ≡ false) }
    ensures desk { IfSome handle.old.state (λ before. IfSome handle.new.state (λ after. after.desk ≡ before.desk)) }
    ensures stays { result ≢ 0 → size.new ≡ size.old }
    ensures unchanged { result ≢ 0 → handle.new.state ≡ handle.old.state }
    ensures holds { is_some handle.new.state ≡ is_some handle.old.state }
    ensures empty { handle.old.state ≡ None → (result ≡ 12) }
    ensures answers { (result ≡ 0) ⊎ (result ≡ 7) ⊎ (result ≡ 9) ⊎ (result ≡ 12) }
{
    match taken(alloc, replace(handle, none())) {
        None => ENDED,
        Some(state) => {
            let (state, status) = saved(alloc, state);
            let count = state.image.len();
            let _empty = taken(alloc, replace(handle, kept(state)));
            if status == 0 {
                *size = count;
            }
            status
        }
    }
}

// Puts out the front of the image behind a handle.
fn put_image(state: Box<State>, out: &mut [u8]) -> (Box<State>, usize)
    ensures count { result.1 ≡ min (length state.value.image.items) (length out.old) }
    ensures front { take result.1 out.new ++ result.0.value.image.items ≡ state.value.image.items }
    ensures behind { drop result.1 out.new ≡ drop result.1 out.old }
    ensures desk { result.0.value.desk ≡ state.value.desk }
{
    let mut state = state;
    let count = put_front(&mut state.image, out);
    (state, count)
}

/// Puts what is left of the image that was made last into the front of `out`, as much as there is room for, and how many bytes that is into `written`. What finds
/// no room waits on.
///
/// The status is 0, or 12 where the handle is empty: nothing is put out then, and `written` is 0.
#[unsafe(no_mangle)]
pub extern "C" fn szp_image(
    alloc: Global,
    handle: &mut Handle,
    out: &mut [u8],
    written: &mut usize,
) -> u32
    ensures count { IfSome handle.old.state (λ before. written.new ≡ min (length before.image.items) (length out.old)) }
    ensures front { IfSome handle.old.state (λ before. IfSome handle.new.state (λ after. take written.new out.new ++ after.image.items ≡ before.image.items)) }
    ensures behind { drop written.new out.new ≡ drop written.new out.old }
    ensures desk { IfSome handle.old.state (λ before. IfSome handle.new.state (λ after. after.desk ≡ before.desk)) }
    ensures holds { is_some handle.new.state ≡ is_some handle.old.state }
    ensures empty { handle.old.state ≡ None → (result ≡ 12) × (written.new ≡ 0) }
    ensures answers { (result ≡ 0) ⊎ (result ≡ 12) }
{
    match taken(alloc, replace(handle, none())) {
        None => {
            *written = 0;
            ENDED
        }
        Some(state) => {
            let (state, count) = put_image(state, out);
            let _empty = taken(alloc, replace(handle, kept(state)));
            *written = count;
            0
        }
    }
}

// The status with which a run ends where it stands.
fn status_at(state: &State) -> u32
    ensures ends { result ≤ 1 → (course : FedCourse) (fed out : List ℕ) → HasComeBy course fed out state.now.desk → EndsWith course fed result }
    ensures ended { result ≡ 12 → goes_in state.now.desk ≡ false }
    ensures answers { (result ≤ 1) ⊎ (result ≡ 12) }
{
    match progress_any(&state.desk) {
        Some(at) if at.faulted => 1,
        Some(_) => 0,
        None => ENDED,
    }
}

/// Ends the run behind a handle where it stands, and gives all back that the handle holds: it is empty afterwards. What waits to be put out is lost.
///
/// The status is 0, or 1 where a line that was done was a fault; 12 where the handle was empty or its run had ended before.
#[unsafe(no_mangle)]
pub extern "C" fn szp_close(alloc: Global, handle: &mut Handle) -> u32
    ensures ends { result ≤ 1 → IfSome handle.old.state (λ before. (course : FedCourse) (fed out : List ℕ) → HasComeBy course fed out before.desk
        → EndsWith course fed result) }
    ensures empty { handle.new.state ≡ None }
    ensures none { handle.old.state ≡ None → (result ≡ 12) }
    ensures ended { result ≡ 12 → IfSome handle.old.state (λ before. goes_in before.desk ≡ false) }
    ensures answers { (result ≤ 1) ⊎ (result ≡ 12) }
{
    match taken(alloc, replace(handle, none())) {
        None => ENDED,
        Some(state) => status_at(&state),
    }
}
