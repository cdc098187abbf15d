//! What takes the lines of a live script: commands, with a limit for each fire command, and what is asked beside them.
ghost use Rattle.std.specs.Prelude.{◌≡◌, ◌++◌, ◌+◌, ◌*◌, ◌-◌, ◌<◌, ◌≤◌, ◌^◌, ℕ, List, Option, None, Some, length, map as list_map, option_map, IfOk, OnOk};
ghost use Rattle.fx_io.specs.Answers.{Answers, UsesBytesUp};
ghost use Rattle.rule_model.specs.Lent.{lent};
ghost use Rattle.rule_world.specs.Worlds.{World};
ghost use Rattle.change_resolve.specs.Changes.{type_named};
ghost use Rattle.line_run.specs.Run.{state_in};
ghost use Rattle.line_run.specs.Turns.{Does, EndsAt, HasAtMost, Smaller, StaysReady, Turns};
ghost use Rattle.script_run.specs.Live.{counted as counted_of, counts_step, facts_of_type, live_by, live_step, most_firings, of_type, question_in, question_step, told_facts, told_or_asked};
ghost use Rattle.script_run.specs.Reads.{line_read};
ghost use Rattle.script_run.specs.Run.{is_fire_line};
ghost use Rattle.script_run.specs.Turns.{AllWithin, Within};
ghost use Rattle.script_run.specs.Written.{written_kept};
ghost use Rattle.desk_read.specs.declared.asked.Question.TheVariants.{Counts, Facts, Save};

use crate::fault::LineCode;
use crate::form::Form;
use crate::line_read::{LineRead, read_line};
use crate::obeying::{Obeyed, Obeying, boxed_scratch, close, obey_read};
use crate::written::{push_counts, push_fact, push_fault, push_kept, push_saved};
use answer_json::Counted;
use desk_read::{Question, question};
use engine::{Engine, Inspect, WorldCounts};
use fx_base::{Fact, NoMemory, Text};
use fx_io::Line;
use line_run::{Progress, Turn};
use rule_model::{Program, TypeInfo};
use rule_world::Code;
use std::alloc::Global;

/// The most firings of a live run, those before an image too, and the most bytes of its script: 2^55.
pub const LIVE_MAX: u64 = 36_028_797_018_963_968;

/// An engine that takes the lines of a live script: with a limit for each fire command, with the form of what is answered, and with a file for its
/// image or without.
#[derive(Drop)]
pub struct LiveLines<E: Inspect> {
    obeying: Obeying<E>,
    has_image: bool,
}

// What a line asks that is no command.
fn question_read(alloc: Global, read: &LineRead, line: &[u8]) -> Result<Option<Question>, NoMemory>
    requires { length line.now ≤ 65536 }
    ensures { read.now ≡ line_read line.now → IfOk result (λ asked. asked ≡ question_in line.now) }
{
    match read {
        LineRead::BadCommand => question(alloc, line),
        _ => Ok(None),
    }
}

// The place of the type of this name.
#[tactic(auto, unfolding(change_resolve::specs::Changes::type_named))]
fn place_of_type(types: &[TypeInfo], name: &Text) -> Option<usize>
    ensures { result ≡ option_map (λ found. found.0) (type_named name.now types.now 0) }
{
    for (place, ty) in types.iter().enumerate() {
        if ty.name == *name {
            return Some(place);
        }
    }
    None
}

// Appends those of the kept facts that are of the type in this place.
fn push_kept_of(
    text: &mut Vec<u8>,
    alloc: Global,
    form: &Form,
    program: &Program,
    number: u64,
    facts: &[&Fact],
    place: usize,
) -> Result<(), NoMemory>
    ensures { OnOk result (text.new.items ≡ text.old.items ++ written_kept form.now program.now number (of_type place (lent facts.now))) }
{
    for fact in facts {
        if fact.ty.0 as usize == place {
            push_fact(text, alloc, form, program, number, fact)?;
        }
    }
    Ok(())
}

fn counted(counts: WorldCounts, firings: u64) -> Counted
    ensures { result ≡ counted_of firings counts }
{
    Counted {
        clock: counts.clock,
        facts: counts.facts,
        firings,
        floors: counts.floors,
        pending: counts.pending,
    }
}

// Appends the kept facts, of the type of a name or of all types. Whether the line is a fault: there is no type of this name.
fn tell_facts<E: Inspect>(
    alloc: Global,
    lines: &LiveLines<E>,
    at: Progress,
    name: &Option<Text>,
    text: &mut Vec<u8>,
) -> Result<Turn, NoMemory>
    requires { at.lines + 1 < 2 ^ 64 }
    ensures done { IfOk result (λ turn. (w : World) → E.stands lines.now.obeying.engine w → Does (E.stands lines.now.obeying.engine)
        (question_step (live_by lines.now.obeying.live lines.now.obeying.form E.gives E.fires E.counts lines.now.obeying.limit (E.made_with lines.now.obeying.engine) (E.table lines.now.obeying.engine) lines.now.has_image) (at.lines + 1) at.left w (Facts name.now)) text.old.items text.new.items turn) }
    ensures within { (tags most : ℕ) → tags + 16 * at.left ≤ most → IfOk result (Within most tags) }
{
    let engine = &lines.obeying.engine;
    let form = &lines.obeying.form;
    let program = engine.program();
    let number = at.lines + 1;
    let Some(name) = name else {
        let facts = engine.kept(alloc)?;
        push_kept(text, alloc, form, program, number, &facts)?;
        return Ok(Turn::Goes(false, at.left));
    };
    match place_of_type(program.types.as_slice(), name) {
        Some(place) => {
            let facts = engine.kept(alloc)?;
            push_kept_of(text, alloc, form, program, number, &facts, place)?;
            Ok(Turn::Goes(false, at.left))
        }
        None => {
            let code = LineCode::Refused(Code::UnknownType);
            push_fault(text, alloc, form, number, code)?;
            Ok(Turn::Goes(true, at.left))
        }
    }
}

// Appends the counts, with the firings of the run so far.
fn tell_counts<E: Inspect>(
    alloc: Global,
    lines: &LiveLines<E>,
    at: Progress,
    text: &mut Vec<u8>,
) -> Result<Turn, NoMemory>
    requires { at.lines + 1 < 2 ^ 64 }
    ensures done { IfOk result (λ turn. (w : World) → E.stands lines.now.obeying.engine w → Does (E.stands lines.now.obeying.engine)
        (question_step (live_by lines.now.obeying.live lines.now.obeying.form E.gives E.fires E.counts lines.now.obeying.limit (E.made_with lines.now.obeying.engine) (E.table lines.now.obeying.engine) lines.now.has_image) (at.lines + 1) at.left w Counts) text.old.items text.new.items turn) }
    ensures within { (tags most : ℕ) → tags + 16 * at.left ≤ most → IfOk result (Within most tags) }
{
    let engine = &lines.obeying.engine;
    let firings = lines.obeying.limit.saturating_sub(at.left);
    let counted = counted(engine.world_counts(alloc)?, firings);
    push_counts(
        text,
        alloc,
        &lines.obeying.form,
        engine.program(),
        at.lines + 1,
        &counted,
    )?;
    Ok(Turn::Goes(false, at.left))
}

// Appends that the image is saved, for which it is put before that is written; where no file is named for it, that the line is no command.
fn tell_saved<E: Inspect>(
    alloc: Global,
    lines: &LiveLines<E>,
    at: Progress,
    text: &mut Vec<u8>,
) -> Result<Turn, NoMemory>
    requires { at.lines + 1 < 2 ^ 64 }
    ensures done { IfOk result (λ turn. (w : World) → E.stands lines.now.obeying.engine w → Does (E.stands lines.now.obeying.engine)
        (question_step (live_by lines.now.obeying.live lines.now.obeying.form E.gives E.fires E.counts lines.now.obeying.limit (E.made_with lines.now.obeying.engine) (E.table lines.now.obeying.engine) lines.now.has_image) (at.lines + 1) at.left w Save) text.old.items text.new.items turn) }
    ensures within { (tags most : ℕ) → tags + 16 * at.left ≤ most → IfOk result (Within most tags) }
{
    let form = &lines.obeying.form;
    if lines.has_image {
        push_saved(text, alloc, form, at.lines + 1)?;
        return Ok(Turn::Saves(false, at.left));
    }
    push_fault(text, alloc, form, at.lines + 1, LineCode::BadCommand)?;
    Ok(Turn::Goes(true, at.left))
}

// Answers a question.
fn answer<E: Inspect>(
    alloc: Global,
    lines: &LiveLines<E>,
    at: Progress,
    asked: &Question,
    text: &mut Vec<u8>,
) -> Result<Turn, NoMemory>
    requires { at.lines + 1 < 2 ^ 64 }
    ensures done { IfOk result (λ turn. (w : World) → E.stands lines.now.obeying.engine w → Does (E.stands lines.now.obeying.engine)
        (question_step (live_by lines.now.obeying.live lines.now.obeying.form E.gives E.fires E.counts lines.now.obeying.limit (E.made_with lines.now.obeying.engine) (E.table lines.now.obeying.engine) lines.now.has_image) (at.lines + 1) at.left w asked.now) text.old.items text.new.items turn) }
    ensures within { (tags most : ℕ) → tags + 16 * at.left ≤ most → IfOk result (Within most tags) }
{
    match asked {
        Question::Save => tell_saved(alloc, lines, at, text),
        Question::Facts(name) => tell_facts(alloc, lines, at, name, text),
        Question::Counts => tell_counts(alloc, lines, at, text),
    }
}

// What a line that is not too long came to.
struct Answered<E: Inspect> {
    lines: LiveLines<E>,
    turn: Turn,
    // whether it was a fire command
    fires: bool,
}

// Does what a line asks for that is not too long, and appends what it prints.
fn answer_line<E: Inspect>(
    alloc: Global,
    lines: LiveLines<E>,
    at: Progress,
    line: &[u8],
    text: &mut Vec<u8>,
) -> Result<Answered<E>, NoMemory>
    requires few { E.tags lines.obeying.engine + 16 * at.left < 2 ^ 62 }
    requires counted { at.lines + 1 < 2 ^ 64 }
    requires short { length line.now ≤ 65536 }
    ensures done { IfOk result (λ r. (w : World) → E.stands lines.obeying.engine w
        → Does (E.stands r.lines.obeying.engine) (told_or_asked (live_by lines.obeying.live lines.obeying.form E.gives E.fires E.counts lines.obeying.limit (E.made_with lines.obeying.engine) (E.table lines.obeying.engine) lines.has_image) (at.lines + 1) at.left w line.now (question_in line.now))
        text.old.items text.new.items r.turn) }
    ensures fires { IfOk result (λ r. r.fires ≡ is_fire_line line.now) }
    ensures limit { IfOk result (λ r. r.lines.obeying.limit ≡ lines.obeying.limit) }
    ensures live { IfOk result (λ r. r.lines.obeying.live ≡ lines.obeying.live) }
    ensures form { IfOk result (λ r. r.lines.obeying.form ≡ lines.obeying.form) }
    ensures image { IfOk result (λ r. r.lines.has_image ≡ lines.has_image) }
    ensures program { IfOk result (λ r. E.made_with r.lines.obeying.engine ≡ E.made_with lines.obeying.engine) }
    ensures table { IfOk result (λ r. E.table r.lines.obeying.engine ≡ E.table lines.obeying.engine) }
    ensures tags { IfOk result (λ r. Within (E.tags lines.obeying.engine + 16 * at.left + 16) (E.tags r.lines.obeying.engine) r.turn) }
{
    let mut lines = lines;
    let read = read_line(alloc, line, &mut lines.obeying.scratch)?;
    match question_read(alloc, &read, line)? {
        Some(asked) => {
            let turn = answer(alloc, &lines, at, &asked, text)?;
            Ok(Answered {
                lines,
                turn,
                fires: false,
            })
        }
        None => {
            let LiveLines { obeying, has_image } = lines;
            let Obeyed { taker, turn, fires } = obey_read(alloc, obeying, at, &read, text)?;
            let lines = LiveLines {
                obeying: taker,
                has_image,
            };
            Ok(Answered { lines, turn, fires })
        }
    }
}

impl<E: Inspect> LiveLines<E> {
    /// Takes lines with this engine: with at most so many firings for each fire command, with answers of this form, and with a file for its image or
    /// without.
    pub fn new(
        alloc: Global,
        engine: E,
        each: u64,
        form: Form,
        has_image: bool,
    ) -> Result<LiveLines<E>, NoMemory>
        ensures engine { IfOk result (λ lines. lines.obeying.engine ≡ engine) }
        ensures limit { IfOk result (λ lines. lines.obeying.limit ≡ most_firings) }
        ensures live { IfOk result (λ lines. lines.obeying.live ≡ Some each) }
        ensures form { IfOk result (λ lines. lines.obeying.form ≡ form) }
        ensures image { IfOk result (λ lines. lines.has_image ≡ has_image) }
    {
        let scratch = boxed_scratch(alloc)?;
        let obeying = Obeying {
            engine,
            limit: LIVE_MAX,
            live: Some(each),
            form,
            scratch,
        };
        Ok(LiveLines { obeying, has_image })
    }

    /// The engine. Takes no memory.
    pub fn engine(&self) -> &E
        ensures { result.now ≡ self.now.obeying.engine }
    {
        &self.obeying.engine
    }

    /// The engine, where no more lines come. Takes no memory.
    pub fn into_engine(self) -> E
        ensures { result ≡ self.obeying.engine }
    {
        let LiveLines { obeying, .. } = self;
        let Obeying { engine, .. } = obeying;
        engine
    }

    /// Does the next line, where there is one, and appends what it prints, as `LineTaker` says it. Where the turn saves, the image of the state behind
    /// the line is to be put before what it prints is written.
    pub fn take(
        self,
        alloc: Global,
        at: Progress,
        line: Line,
        text: &mut Vec<u8>,
    ) -> Result<(LiveLines<E>, Option<Turn>), NoMemory>
        requires few { E.tags self.obeying.engine + 16 * at.left < 2 ^ 62 }
        requires counted { at.lines + 1 < 2 ^ 64 }
        requires short { HasAtMost 65536 line }
        ensures turn { IfOk result (λ r. (w : World) (ahead behind : Option (List (List ℕ))) → E.stands self.obeying.engine w → Answers 65536 line ahead behind
            → Turns (E.stands r.0.obeying.engine) (live_step (live_by self.obeying.live self.obeying.form E.gives E.fires E.counts self.obeying.limit (E.made_with self.obeying.engine) (E.table self.obeying.engine) self.has_image) (state_in w at)) text.old.items text.new.items ahead behind r.1) }
        ensures limit { IfOk result (λ r. r.0.obeying.limit ≡ self.obeying.limit) }
        ensures live { IfOk result (λ r. r.0.obeying.live ≡ self.obeying.live) }
        ensures form { IfOk result (λ r. r.0.obeying.form ≡ self.obeying.form) }
        ensures image { IfOk result (λ r. r.0.has_image ≡ self.has_image) }
        ensures program { IfOk result (λ r. E.made_with r.0.obeying.engine ≡ E.made_with self.obeying.engine) }
        ensures table { IfOk result (λ r. E.table r.0.obeying.engine ≡ E.table self.obeying.engine) }
        ensures tags { IfOk result (λ r. AllWithin (E.tags self.obeying.engine + 16 * at.left + 16) (E.tags r.0.obeying.engine) r.1) }
        ensures ends { IfOk result (λ r. EndsAt line r.1) }
        ensures stays { IfOk result (λ r. r.1 ≡ None → r.0 ≡ self) }
        ensures smaller { IfOk result (λ r. (before after : ℕ) → UsesBytesUp line before after → Smaller r.1 before after) }
    {
        match line {
            Line::End => Ok((self, None)),
            Line::Long => {
                let turn = Turn::Goes(true, at.left);
                let lines = self;
                push_fault(
                    text,
                    alloc,
                    &lines.obeying.form,
                    at.lines + 1,
                    LineCode::LineLong,
                )?;
                close(alloc, &lines.obeying, at, false, turn, text)?;
                Ok((lines, Some(turn)))
            }
            Line::Whole(bytes) => {
                let Answered { lines, turn, fires } = answer_line(
                    alloc,
                    self,
                    at,
                    bytes.as_slice(),
                    text,
                )?;
                close(alloc, &lines.obeying, at, fires, turn, text)?;
                Ok((lines, Some(turn)))
            }
        }
    }
}
