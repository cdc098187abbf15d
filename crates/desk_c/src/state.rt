//! What lies behind a handle.
ghost use Rattle.std.specs.Prelude.{◌≡◌, ◌⊎◌, ◌++◌, ◌+◌, ◌<◌, ℕ, List, length, take, drop, min, true, false, IfOk, IfSome, IsErrOf, is_some, option_map};
ghost use Rattle.line_run.specs.Run.{RunState};
ghost use Rattle.fed_desk.specs.Images.{IsSaved, IsUnsaved};
ghost use Rattle.fed_desk.specs.Openings.{RefusesRules, RefusesImage};
ghost use Rattle.fed_desk.specs.Runs.{ComesTo, FedCourse, Tells};
ghost use Rattle.desk_c.specs.Handles.{HasComeBy, IsOpenBy, goes_in, room_in, waiting_in};

use fed_desk::{
    CountFault, Desk, FeedFault, Options, SaveFault, Told, counts, feed, opened, progress, put_out,
    save,
};
use fx_base::NoMemory;
use line_run::Progress;
use session::{DetailedSession, Session};
use std::alloc::Global;

/// A desk with the engine for the form of its answers.
#[derive(Drop)]
pub enum AnyDesk {
    /// Lines of text.
    Text(Desk<Session>),
    /// Objects of JSON.
    Objects(Desk<DetailedSession>),
}

/// What a handle owns: its desk, and what is left of the image that was made last.
#[derive(Drop)]
pub struct State {
    pub desk: AnyDesk,
    pub image: Vec<u8>,
}

/// A desk over the bytes of a rule file, with the status 0; or one whose run never began, and of which the line waits that says why, with the
/// status 3, where the rules are refused, or 9, where the image is.
pub(crate) fn state_of(
    alloc: Global,
    rules: &[u8],
    image: Option<&[u8]>,
    options: Options,
) -> Result<(State, u32), NoMemory>
    ensures open { IfOk result (λ r. r.1 ≡ 0 → IsOpenBy options rules.now (option_map (λ it. it.now) image.entry) r.0.desk) }
    ensures rules { IfOk result (λ r. r.1 ≡ 3 → RefusesRules rules.now (waiting_in r.0.desk)) }
    ensures image { IfOk result (λ r. r.1 ≡ 9 → RefusesImage rules.now (option_map (λ it. it.now) image.entry) (waiting_in r.0.desk)) }
    ensures answers { IfOk result (λ r. (r.1 ≡ 0) ⊎ (r.1 ≡ 3) ⊎ (r.1 ≡ 9)) }
{
    if options.text {
        let (desk, status) = opened::<Session>(alloc, rules, image, options)?;
        let desk = AnyDesk::Text(desk);
        let image = Vec::new(alloc);
        Ok((State { desk, image }, status))
    } else {
        let (desk, status) = opened::<DetailedSession>(alloc, rules, image, options)?;
        let desk = AnyDesk::Objects(desk);
        let image = Vec::new(alloc);
        Ok((State { desk, image }, status))
    }
}

/// Feeds a desk, as `fed_desk::feed`.
pub(crate) fn feed_any(alloc: Global, desk: &mut AnyDesk, bytes: &[u8]) -> Result<bool, FeedFault>
    ensures fed { IfOk result (λ on. (course : FedCourse) (fed out : List ℕ) → HasComeBy course fed out desk.old → HasComeBy course (fed ++ bytes.now) out desk.new) }
    ensures on { IfOk result (λ on. on ≡ goes_in desk.new) }
    ensures was { IfOk result (λ on. goes_in desk.old ≡ true) }
    ensures room { IfOk result (λ on. IfSome (room_in desk.old) (λ before. IfSome (room_in desk.new) (λ after. after + length bytes.now ≡ before))) }
    ensures long { IsErrOf result FeedFault.Long → IfSome (room_in desk.old) (λ room. room < length bytes.now) }
    ensures long_goes { IsErrOf result FeedFault.Long → goes_in desk.old ≡ true }
    ensures unchanged { IsErrOf result FeedFault.Long → desk.new ≡ desk.old }
    ensures ended { IsErrOf result FeedFault.Ended → goes_in desk.old ≡ false }
    ensures ended_unchanged { IsErrOf result FeedFault.Ended → desk.new ≡ desk.old }
    ensures refused { IsErrOf result FeedFault.NoMemory → goes_in desk.new ≡ false }
    ensures refused_text { IsErrOf result FeedFault.NoMemory → waiting_in desk.new ≡ waiting_in desk.old }
{
    match desk {
        AnyDesk::Text(desk) => feed(alloc, desk, bytes),
        AnyDesk::Objects(desk) => feed(alloc, desk, bytes),
    }
}

/// Puts out what waits, as `fed_desk::put_out`.
pub(crate) fn put_out_any(desk: &mut AnyDesk, out: &mut [u8]) -> usize
    ensures put { (course : FedCourse) (fed before : List ℕ) → HasComeBy course fed before desk.old → HasComeBy course fed (before ++ take result out.new) desk.new }
    ensures count { result ≡ min (length (waiting_in desk.old)) (length out.old) }
    ensures front { take result out.new ++ waiting_in desk.new ≡ waiting_in desk.old }
    ensures behind { drop result out.new ≡ drop result out.old }
    ensures goes { goes_in desk.new ≡ goes_in desk.old }
{
    match desk {
        AnyDesk::Text(desk) => put_out(desk, out),
        AnyDesk::Objects(desk) => put_out(desk, out),
    }
}

/// What a desk tells of its run, as `fed_desk::counts`.
pub(crate) fn counts_any(alloc: Global, desk: &AnyDesk) -> Result<Told, CountFault>
    ensures told { IfOk result (λ told. (course : FedCourse) (fed out : List ℕ) → HasComeBy course fed out desk.now → Tells course fed told.at told.counts) }
    ensures goes { IfOk result (λ told. goes_in desk.now ≡ true) }
    ensures ended { IsErrOf result CountFault.Ended → goes_in desk.now ≡ false }
{
    match desk {
        AnyDesk::Text(desk) => counts(alloc, desk),
        AnyDesk::Objects(desk) => counts(alloc, desk),
    }
}

/// The bytes of the image of a desk, as `fed_desk::save`.
pub(crate) fn save_any(alloc: Global, desk: &AnyDesk) -> Result<Vec<u8>, SaveFault>
    ensures saved { IfOk result (λ bytes. (course : FedCourse) (fed out : List ℕ) → HasComeBy course fed out desk.now → IsSaved course fed bytes.items) }
    ensures goes { IfOk result (λ bytes. goes_in desk.now ≡ true) }
    ensures refused { IsErrOf result SaveFault.Refused → (course : FedCourse) (fed out : List ℕ) → HasComeBy course fed out desk.now → IsUnsaved course fed }
    ensures refused_goes { IsErrOf result SaveFault.Refused → goes_in desk.now ≡ true }
    ensures ended { IsErrOf result SaveFault.Ended → goes_in desk.now ≡ false }
{
    match desk {
        AnyDesk::Text(desk) => save(alloc, desk),
        AnyDesk::Objects(desk) => save(alloc, desk),
    }
}

/// How far the run of a desk has come, as `fed_desk::progress`.
pub(crate) fn progress_any(desk: &AnyDesk) -> Option<Progress>
    ensures told { IfSome result (λ at. (course : FedCourse) (fed out : List ℕ) → HasComeBy course fed out desk.now
        → (s : RunState) × ComesTo course fed s × (at ≡ s.progress)) }
    ensures goes { is_some result ≡ goes_in desk.now }
{
    match desk {
        AnyDesk::Text(desk) => progress(desk),
        AnyDesk::Objects(desk) => progress(desk),
    }
}
