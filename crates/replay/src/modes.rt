//! What is done with an accepted rule file where no script is run.
ghost use Rattle.std.specs.Prelude.{◌≡◌, ◌⊎◌, ◌≤◌, ◌++◌, codes, OnOk, IfOk};
ghost use Rattle.fx_io.specs.Outside.{Rose, append, AppendsFront};
ghost use Rattle.life_meaning.specs.Tables.{AreLives};
ghost use Rattle.rule_model.specs.declared.life.LifeTable.{LifeTable as TableOfLives};
ghost use Rattle.rule_world.specs.Programs.{IsRunnable};
ghost use Rattle.replay.specs.Notices.{accepted_text, life_text, lives_text};

use crate::saying::say;
use expiry_infer::lives;
use fx_base::NoMemory;
use fx_io::Sink;
use rule_model::{Life, LifeTable, Program, TypeInfo};
use script_run::{push_number, push_signed};
use std::alloc::Global;

// Appends the line of an accepted file.
fn push_accepted(text: &mut Vec<u8>, program: &Program) -> Result<(), NoMemory>
    ensures { OnOk result (text.new.items ≡ text.old.items ++ accepted_text program.now) }
{
    text.extend_from_slice(b"accepted ")?;
    push_number(text, program.types.as_slice().len() as u64)?;
    text.extend_from_slice(b" types ")?;
    push_number(text, program.rules.as_slice().len() as u64)?;
    text.extend_from_slice(b" rules\n")?;
    Ok(())
}

// Appends the front of the line of a type's life.
fn begin_life(text: &mut Vec<u8>, name: &str) -> Result<(), NoMemory>
    ensures { OnOk result (text.new.items ≡ text.old.items ++ (codes "life " ++ name.now)) }
{
    text.extend_from_slice(b"life ")?;
    text.extend_from_slice(name.as_bytes())?;
    Ok(())
}

// Appends how long the events of a type of this name matter.
fn push_life(text: &mut Vec<u8>, name: &str, life: Life) -> Result<(), NoMemory>
    ensures { OnOk result (text.new.items ≡ text.old.items ++ life_text name.now life) }
{
    match life {
        Life::Plain => return Ok(()),
        Life::Explicit(expiry) => {
            begin_life(text, name)?;
            text.extend_from_slice(b" explicit ")?;
            push_signed(text, expiry)?;
        }
        Life::Finite(most) => {
            begin_life(text, name)?;
            text.extend_from_slice(b" ")?;
            push_signed(text, most)?;
        }
        Life::Infinite => {
            begin_life(text, name)?;
            text.extend_from_slice(b" infinite")?;
        }
    }
    text.push(b'\n')?;
    Ok(())
}

// Appends the lives of types.
fn push_lives(text: &mut Vec<u8>, types: &[TypeInfo], lives: &[Life]) -> Result<(), NoMemory>
    ensures { OnOk result (text.new.items ≡ text.old.items ++ lives_text types.now lives.now) }
{
    for (ty, life) in types.iter().zip(lives) {
        push_life(text, ty.name.as_str(), *life)?;
    }
    Ok(())
}

// The lines of the lives of a program's types, with their table.
fn lives_of(alloc: Global, program: &Program) -> Result<(LifeTable, Vec<u8>), NoMemory>
    requires { IsRunnable program.now }
    ensures lives { IfOk result (λ found. AreLives program.now found.0) }
    ensures text { IfOk result (λ found. found.1.items ≡ lives_text program.now.types found.0.lives) }
{
    let table = lives(alloc, program)?;
    let mut text = Vec::new(alloc);
    push_lives(&mut text, program.types.as_slice(), table.lives.as_slice())?;
    Ok((table, text))
}

/// Writes that the file of a program is accepted, with its numbers of types and rules.
pub(crate) fn accept<K: Sink>(alloc: Global, program: &Program, out: &mut K) -> u8
    ensures said { result ≤ 4 → (K.written out.new ≡ append (K.written out.old) (accepted_text program.now)) × (result ≡ 0) }
    ensures front { 5 ≤ result → AppendsFront (K.written out.old) (K.written out.new) (accepted_text program.now) }
    ensures answers { (result ≡ 0) ⊎ ((6 ≤ result) × (result ≤ 7)) }
    ensures cause { result ≡ 6 → Rose (K.faults out.old) (K.faults out.new) }
{
    let mut text = Vec::new(alloc);
    match push_accepted(&mut text, program) {
        Ok(()) => say(out, text.as_slice(), 0),
        Err(_) => 7,
    }
}

/// Writes the lives of a program's types.
pub(crate) fn tell_lives<K: Sink>(alloc: Global, program: &Program, out: &mut K) -> u8
    requires { IsRunnable program.now }
    ensures said { result ≤ 4 → (table : TableOfLives) × AreLives program.now table
        × (K.written out.new ≡ append (K.written out.old) (lives_text program.now.types table.lives)) × (result ≡ 0) }
    ensures front { (table : TableOfLives) → AreLives program.now table → 5 ≤ result
        → AppendsFront (K.written out.old) (K.written out.new) (lives_text program.now.types table.lives) }
    ensures answers { (result ≡ 0) ⊎ ((6 ≤ result) × (result ≤ 7)) }
    ensures cause { result ≡ 6 → Rose (K.faults out.old) (K.faults out.new) }
{
    match lives_of(alloc, program) {
        Ok((_, text)) => say(out, text.as_slice(), 0),
        Err(_) => 7,
    }
}
