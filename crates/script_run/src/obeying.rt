ghost use Rattle.std.specs.Prelude.{◌≡◌, ◌+◌, ◌++◌, ◌*◌, ◌<◌, ◌≤◌, ◌^◌, Option, false, length, IfOk, OnOk};
ghost use Rattle.rule_world.specs.Worlds.{World};
ghost use Rattle.line_run.specs.Turns.{Does};
ghost use Rattle.script_run.specs.Reads.{fires_read, read_step};
ghost use Rattle.script_run.specs.Run.{RunSetting, command_step, end_text, fault_step, fired_of, fires_command, is_fire_line, printed, setting_with, step_in, told_step};
ghost use Rattle.script_run.specs.Turns.{Closes, Within};

use crate::counting::push_kept;
use crate::fault::LineCode;
use crate::firing::{FireLine, fire};
use crate::form::Form;
use crate::line_read::{LineRead, read_line};
use crate::written::{push_done, push_fault, push_lines};
use engine::Engine;
use fx_base::NoMemory;
use fx_io::{Line, Sink};
use line_run::{KeepFault, LineTaker, Progress, Turn};
use script_read::{Change, Command, Scratch};
use std::alloc::Global;

// Makes a change, and appends what it prints.
fn change<E: Engine>(
    alloc: Global,
    engine: E,
    line: FireLine<'_>,
    left: u64,
    wanted: &Change,
    text: &mut Vec<u8>,
) -> Result<(E, Turn), NoMemory>
    requires { E.tags engine < 2 ^ 62 }
    ensures done { IfOk result (λ r. (w : World) → E.stands engine w
        → Does (E.stands r.0) (printed (setting_with line.entry.live line.entry.form.now E.gives E.fires E.counts line.entry.limit (E.made_with engine) (E.table engine)) line.entry.number left (E.gives (E.made_with engine) w wanted.now).0 (E.gives (E.made_with engine) w wanted.now).1)
        text.old.items text.new.items r.1) }
    ensures program { IfOk result (λ r. E.made_with r.0 ≡ E.made_with engine) }
    ensures table { IfOk result (λ r. E.table r.0 ≡ E.table engine) }
    ensures tags { IfOk result (λ r. Within (E.tags engine + 16 * left + 16) (E.tags r.0) r.1) }
{
    let (next, lines) = engine.apply(alloc, wanted)?;
    let lines = lines.as_slice();
    let faulty = push_lines(text, alloc, line.form, next.program(), line.number, lines)?;
    Ok((next, Turn::Goes(faulty, left)))
}

/// An engine that takes the lines of a script, with the form of what it answers and the limits of firings of its run: of all, and, of a live run,
/// of each fire command.
#[derive(Drop)]
pub(crate) struct Obeying<E: Engine> {
    pub(crate) engine: E,
    pub(crate) limit: u64,
    pub(crate) live: Option<u64>,
    pub(crate) form: Form,
    pub(crate) scratch: Box<Scratch>,
}

/// The memory that reading lines needs, in a box: each line moves what takes it, and the scratch itself has some 16 KiB.
pub(crate) fn boxed_scratch(alloc: Global) -> Result<Box<Scratch>, NoMemory> {
    Ok(Box::new(alloc, Scratch::new(alloc))?)
}

// Does what a command asks for, and appends what it prints.
fn obey<E: Engine>(
    alloc: Global,
    engine: E,
    line: FireLine<'_>,
    left: u64,
    wanted: &Command,
    text: &mut Vec<u8>,
) -> Result<(E, Turn), NoMemory>
    requires { E.tags engine + 16 * left < 2 ^ 62 }
    ensures done { IfOk result (λ r. (w : World) → E.stands engine w
        → Does (E.stands r.0) (command_step (setting_with line.entry.live line.entry.form.now E.gives E.fires E.counts line.entry.limit (E.made_with engine) (E.table engine)) line.entry.number left w wanted.now)
        text.old.items text.new.items r.1) }
    ensures program { IfOk result (λ r. E.made_with r.0 ≡ E.made_with engine) }
    ensures table { IfOk result (λ r. E.table r.0 ≡ E.table engine) }
    ensures tags { IfOk result (λ r. Within (E.tags engine + 16 * left + 16) (E.tags r.0) r.1) }
{
    match wanted {
        Command::Change(wanted) => change(alloc, engine, line, left, wanted, text),
        Command::Fire(most) => fire(alloc, engine, line, *most, left, text),
        Command::Held => {
            push_kept(alloc, &engine, line.form, line.number, text)?;
            Ok((engine, Turn::Goes(false, left)))
        }
    }
}

/// What a line that is not too long came to.
pub(crate) struct Obeyed<E: Engine> {
    pub(crate) taker: Obeying<E>,
    pub(crate) turn: Turn,
    // whether it was a fire command
    pub(crate) fires: bool,
}

fn fires_command(command: &Command) -> bool
    ensures { result ≡ fires_command command.now }
{
    matches!(command, Command::Fire(_))
}

// Does what a command asks for, and appends what it prints.
fn obey_command<E: Engine>(
    alloc: Global,
    taker: Obeying<E>,
    at: Progress,
    wanted: &Command,
    text: &mut Vec<u8>,
) -> Result<Obeyed<E>, NoMemory>
    requires few { E.tags taker.engine + 16 * at.left < 2 ^ 62 }
    requires counted { at.lines + 1 < 2 ^ 64 }
    ensures done { IfOk result (λ r. (w : World) → E.stands taker.engine w
        → Does (E.stands r.taker.engine) (command_step (setting_with taker.live taker.form E.gives E.fires E.counts taker.limit (E.made_with taker.engine) (E.table taker.engine)) (at.lines + 1) at.left w wanted.now)
        text.old.items text.new.items r.turn) }
    ensures fires { IfOk result (λ r. r.fires ≡ fires_command wanted.now) }
    ensures limit { IfOk result (λ r. r.taker.limit ≡ taker.limit) }
    ensures live { IfOk result (λ r. r.taker.live ≡ taker.live) }
    ensures form { IfOk result (λ r. r.taker.form ≡ taker.form) }
    ensures program { IfOk result (λ r. E.made_with r.taker.engine ≡ E.made_with taker.engine) }
    ensures table { IfOk result (λ r. E.table r.taker.engine ≡ E.table taker.engine) }
    ensures tags { IfOk result (λ r. Within (E.tags taker.engine + 16 * at.left + 16) (E.tags r.taker.engine) r.turn) }
{
    let fires = fires_command(wanted);
    let Obeying {
        engine,
        limit,
        live,
        form,
        scratch,
    } = taker;
    let line = FireLine {
        number: at.lines + 1,
        limit,
        live,
        form: &form,
    };
    let (engine, turn) = obey(alloc, engine, line, at.left, wanted, text)?;
    let taker = Obeying {
        engine,
        limit,
        live,
        form,
        scratch,
    };
    Ok(Obeyed { taker, turn, fires })
}

// Appends what is said of a line with this fault.
fn refuse_line<E: Engine>(
    alloc: Global,
    taker: Obeying<E>,
    at: Progress,
    code: LineCode,
    text: &mut Vec<u8>,
) -> Result<Obeyed<E>, NoMemory>
    requires counted { at.lines + 1 < 2 ^ 64 }
    ensures done { IfOk result (λ r. (w : World) → E.stands taker.engine w
        → Does (E.stands r.taker.engine) (fault_step taker.form (at.lines + 1) at.left w code)
        text.old.items text.new.items r.turn) }
    ensures fires { IfOk result (λ r. r.fires ≡ false) }
    ensures limit { IfOk result (λ r. r.taker.limit ≡ taker.limit) }
    ensures live { IfOk result (λ r. r.taker.live ≡ taker.live) }
    ensures form { IfOk result (λ r. r.taker.form ≡ taker.form) }
    ensures program { IfOk result (λ r. E.made_with r.taker.engine ≡ E.made_with taker.engine) }
    ensures table { IfOk result (λ r. E.table r.taker.engine ≡ E.table taker.engine) }
    ensures tags { IfOk result (λ r. Within (E.tags taker.engine + 16 * at.left + 16) (E.tags r.taker.engine) r.turn) }
{
    push_fault(text, alloc, &taker.form, at.lines + 1, code)?;
    Ok(Obeyed {
        taker,
        turn: Turn::Goes(true, at.left),
        fires: false,
    })
}

/// Does what a line reads as, and appends what it prints.
pub(crate) fn obey_read<E: Engine>(
    alloc: Global,
    taker: Obeying<E>,
    at: Progress,
    read: &LineRead,
    text: &mut Vec<u8>,
) -> Result<Obeyed<E>, NoMemory>
    requires few { E.tags taker.engine + 16 * at.left < 2 ^ 62 }
    requires counted { at.lines + 1 < 2 ^ 64 }
    ensures done { IfOk result (λ r. (w : World) → E.stands taker.engine w
        → Does (E.stands r.taker.engine) (read_step (setting_with taker.live taker.form E.gives E.fires E.counts taker.limit (E.made_with taker.engine) (E.table taker.engine)) (at.lines + 1) at.left w read.now)
        text.old.items text.new.items r.turn) }
    ensures fires { IfOk result (λ r. r.fires ≡ fires_read read.now) }
    ensures limit { IfOk result (λ r. r.taker.limit ≡ taker.limit) }
    ensures live { IfOk result (λ r. r.taker.live ≡ taker.live) }
    ensures form { IfOk result (λ r. r.taker.form ≡ taker.form) }
    ensures program { IfOk result (λ r. E.made_with r.taker.engine ≡ E.made_with taker.engine) }
    ensures table { IfOk result (λ r. E.table r.taker.engine ≡ E.table taker.engine) }
    ensures tags { IfOk result (λ r. Within (E.tags taker.engine + 16 * at.left + 16) (E.tags r.taker.engine) r.turn) }
{
    match read {
        LineRead::Blank => Ok(Obeyed {
            taker,
            turn: Turn::Goes(false, at.left),
            fires: false,
        }),
        LineRead::Asks(wanted) => obey_command(alloc, taker, at, wanted, text),
        LineRead::BadJson => refuse_line(alloc, taker, at, LineCode::BadJson, text),
        LineRead::BadCommand => refuse_line(alloc, taker, at, LineCode::BadCommand, text),
    }
}

// Does what a line asks for that is not too long, and appends what it prints.
#[tactic(auto, using(crate::proofs::Steps::told_read, crate::proofs::Steps::fires_line))]
fn obey_line<E: Engine>(
    alloc: Global,
    taker: Obeying<E>,
    at: Progress,
    line: &[u8],
    text: &mut Vec<u8>,
) -> Result<Obeyed<E>, NoMemory>
    requires few { E.tags taker.engine + 16 * at.left < 2 ^ 62 }
    requires counted { at.lines + 1 < 2 ^ 64 }
    requires short { length line.now ≤ 65536 }
    ensures done { IfOk result (λ r. (w : World) → E.stands taker.engine w
        → Does (E.stands r.taker.engine) (told_step (setting_with taker.live taker.form E.gives E.fires E.counts taker.limit (E.made_with taker.engine) (E.table taker.engine)) (at.lines + 1) at.left w line.now)
        text.old.items text.new.items r.turn) }
    ensures fires { IfOk result (λ r. r.fires ≡ is_fire_line line.now) }
    ensures limit { IfOk result (λ r. r.taker.limit ≡ taker.limit) }
    ensures live { IfOk result (λ r. r.taker.live ≡ taker.live) }
    ensures form { IfOk result (λ r. r.taker.form ≡ taker.form) }
    ensures program { IfOk result (λ r. E.made_with r.taker.engine ≡ E.made_with taker.engine) }
    ensures table { IfOk result (λ r. E.table r.taker.engine ≡ E.table taker.engine) }
    ensures tags { IfOk result (λ r. Within (E.tags taker.engine + 16 * at.left + 16) (E.tags r.taker.engine) r.turn) }
{
    let mut taker = taker;
    let read = read_line(alloc, line, &mut taker.scratch)?;
    obey_read(alloc, taker, at, &read, text)
}

// How many firings a fire command made before which so many were left, and whether a match is pending behind it.
fn made<E: Engine>(engine: &E, fires: bool, had: u64, left: u64) -> Option<(u64, bool)>
    ensures { (setting : RunSetting) (w : World) → E.stands engine.now w → setting.fires ≡ E.fires → setting.program ≡ E.made_with engine.now
        → result ≡ fired_of setting fires had left w }
{
    if fires {
        Some((had.saturating_sub(left), engine.due()))
    } else {
        None
    }
}

// Appends what closes a line of a live run, behind which so many firings are left.
fn close_live<E: Engine>(
    alloc: Global,
    taker: &Obeying<E>,
    at: Progress,
    fires: bool,
    left: u64,
    text: &mut Vec<u8>,
) -> Result<(), NoMemory>
    requires counted { at.lines + 1 < 2 ^ 64 }
    ensures { OnOk result ((setting : RunSetting) (w : World) → E.stands taker.now.engine w → setting.fires ≡ E.fires → setting.program ≡ E.made_with taker.now.engine
        → setting.form ≡ taker.now.form → setting.live ≡ taker.now.live
        → text.new.items ≡ text.old.items ++ end_text setting setting.live (at.lines + 1) (fired_of setting fires at.left left w)) }
{
    match taker.live {
        Some(_) => {
            let fired = made(&taker.engine, fires, at.left, left);
            push_done(text, alloc, &taker.form, at.lines + 1, fired)
        }
        None => Ok(()),
    }
}

/// Appends what closes a line of a live run, where that goes on: a line before which so many firings were left.
pub(crate) fn close<E: Engine>(
    alloc: Global,
    taker: &Obeying<E>,
    at: Progress,
    fires: bool,
    turn: Turn,
    text: &mut Vec<u8>,
) -> Result<(), NoMemory>
    requires counted { at.lines + 1 < 2 ^ 64 }
    ensures { OnOk result (Closes (setting_with taker.now.live taker.now.form E.gives E.fires E.counts taker.now.limit (E.made_with taker.now.engine) (E.table taker.now.engine))
        (at.lines + 1) at.left fires (E.stands taker.now.engine) turn text.old.items text.new.items) }
{
    match turn {
        Turn::Stops => Ok(()),
        Turn::Goes(_, left) => close_live(alloc, taker, at, fires, left, text),
        Turn::Saves(_, left) => close_live(alloc, taker, at, fires, left, text),
    }
}

impl<E: Engine, K: Sink> LineTaker<K> for Obeying<E> {
    ghost stands = { λ taker. E.stands taker.engine };

    ghost steps = { λ taker. step_in (setting_with taker.live taker.form E.gives E.fires E.counts taker.limit (E.made_with taker.engine) (E.table taker.engine)) };

    ghost program = { λ taker. E.made_with taker.engine };

    ghost table = { λ taker. E.table taker.engine };

    // the tags given, and those that the firings that are left and these lines may give
    ghost ready = { λ taker at n. E.tags taker.engine + 16 * at.left + 16 * n < 2 ^ 62 };

    // no image is put
    ghost puts = { λ _ _ before after. after ≡ before };

    ghost refuses = { λ _ _ _. ⊥ };

    fn take(
        self,
        alloc: Global,
        at: Progress,
        line: Line,
        text: &mut Vec<u8>,
    ) -> Result<(Self, Option<Turn>), NoMemory> {
        match line {
            Line::End => Ok((self, None)),
            Line::Long => {
                let turn = Turn::Goes(true, at.left);
                push_fault(text, alloc, &self.form, at.lines + 1, LineCode::LineLong)?;
                close(alloc, &self, at, false, turn, text)?;
                Ok((self, Some(turn)))
            }
            Line::Whole(bytes) => {
                let Obeyed { taker, turn, fires } = obey_line(
                    alloc,
                    self,
                    at,
                    bytes.as_slice(),
                    text,
                )?;
                close(alloc, &taker, at, fires, turn, text)?;
                Ok((taker, Some(turn)))
            }
        }
    }

    fn keep(&self, _alloc: Global, _at: Progress, _out: &mut K) -> Result<(), KeepFault> {
        Ok(())
    }
}
