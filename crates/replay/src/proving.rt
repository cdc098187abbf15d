//! Certificates of lives as lines.
ghost use Rattle.std.specs.Prelude.{◌≡◌, ◌⊎◌, ◌≤◌, ◌++◌, slice_get, OnOk, IfOk};
ghost use Rattle.std.specs.List.{flat_map};
ghost use Rattle.fx_io.specs.Outside.{Rose, append};
ghost use Rattle.life_meaning.specs.Tables.{AreLives};
ghost use Rattle.rule_model.specs.declared.life.LifeTable.{LifeTable as TableOfLives};
ghost use Rattle.rule_world.specs.Programs.{IsRunnable};
ghost use Rattle.life_edges.specs.Tails.{limit_of};
ghost use Rattle.life_proof.specs.declared.part.Proof.{Proof as Certificate};
ghost use Rattle.life_proof.specs.Good.{tail_at, IsGood};
ghost use Rattle.replay.specs.Certificates.{conditions_in, edge_text, head_text, life_limit_text, part_text, point_text, proof_text, shown_text, sum_text, tail_text};
ghost use Rattle.replay.specs.Proving.{IsProofFront};

use crate::saying::say;
use expiry_infer::lives;
use fx_base::{Bound, NoMemory, RuleId};
use fx_io::Sink;
use itoa::Buffer;
use life_proof::{Part, Proof, certify, confirm, tail_at_place, total};
use rule_model::{Condition, LifeTable, Program};
use script_run::{name_of_rule, push_number, push_quoted, push_signed};
use std::alloc::Global;
use temporal_net::NetEdge;

fn conditions_of(program: &Program, rule: RuleId) -> &[Condition]
    ensures { result.now ≡ conditions_in (slice_get program.now.rules rule.0) }
{
    match program.rules.as_slice().get(rule.0 as usize) {
        Some(rule) => rule.conditions.as_slice(),
        None => &[],
    }
}

// The tail of the second condition of a part.
fn tail_of(program: &Program, part: &Part) -> Bound
    ensures { limit_of result ≡ tail_at program.now (slice_get (conditions_in (slice_get program.now.rules part.now.rule.0)) part.now.to) }
{
    tail_at_place(program, conditions_of(program, part.rule), part.to as usize)
}

fn push_point(text: &mut Vec<u8>, point: u8) -> Result<(), NoMemory>
    ensures { OnOk result (text.new.items ≡ text.old.items ++ point_text point) }
{
    if point % 2 == 0 {
        text.extend_from_slice(b"s")?;
    } else {
        text.extend_from_slice(b"e")?;
    }
    push_number(text, u64::from(point / 2) + 1)
}

fn push_edge(text: &mut Vec<u8>, edge: &NetEdge) -> Result<(), NoMemory>
    ensures { OnOk result (text.new.items ≡ text.old.items ++ edge_text edge.now) }
{
    text.extend_from_slice(b" ")?;
    push_point(text, edge.x)?;
    text.extend_from_slice(b"-")?;
    push_point(text, edge.y)?;
    text.extend_from_slice(b"<=")?;
    push_signed(text, edge.most)
}

fn push_edges(text: &mut Vec<u8>, edges: &[NetEdge]) -> Result<(), NoMemory>
    ensures { OnOk result (text.new.items ≡ text.old.items ++ flat_map edge_text edges.now) }
{
    for edge in edges {
        push_edge(text, edge)?;
    }
    Ok(())
}

fn push_sum(text: &mut Vec<u8>, sum: i128) -> Result<(), NoMemory>
    ensures { OnOk result (text.new.items ≡ text.old.items ++ sum_text sum) }
{
    text.extend_from_slice(b" sum ")?;
    let mut digits = Buffer::new();
    text.extend_from_slice(digits.format(sum).as_bytes())?;
    Ok(())
}

fn push_limit(text: &mut Vec<u8>, limit: Bound) -> Result<(), NoMemory>
    ensures { OnOk result (text.new.items ≡ text.old.items ++ life_limit_text (limit_of limit)) }
{
    match limit {
        Bound::Finite(most) => push_signed(text, most),
        Bound::Infinite => {
            text.extend_from_slice(b"infinite")?;
            Ok(())
        }
    }
}

fn push_tail(text: &mut Vec<u8>, tail: Bound) -> Result<(), NoMemory>
    ensures { OnOk result (text.new.items ≡ text.old.items ++ tail_text (limit_of tail)) }
{
    text.extend_from_slice(b" tail ")?;
    push_limit(text, tail)
}

// Appends the edges of a cycle, or of a path with the tail that follows it.
fn push_shown(
    text: &mut Vec<u8>,
    cycle: bool,
    edges: &[NetEdge],
    tail: Bound,
) -> Result<(), NoMemory>
    ensures { OnOk result (text.new.items ≡ text.old.items ++ shown_text cycle edges.now (limit_of tail)) }
{
    if cycle {
        text.extend_from_slice(b" cycle")?;
        push_edges(text, edges)?;
        push_sum(text, total(edges))
    } else {
        push_edges(text, edges)?;
        push_sum(text, total(edges))?;
        push_tail(text, tail)
    }
}

fn push_head(text: &mut Vec<u8>, program: &Program, part: &Part) -> Result<(), NoMemory>
    ensures { OnOk result (text.new.items ≡ text.old.items ++ head_text (slice_get program.now.rules part.now.rule.0) part.now) }
{
    text.extend_from_slice(b"proof \"")?;
    let name = name_of_rule(program.rules.as_slice(), part.rule.0 as usize);
    push_quoted(text, name.as_bytes())?;
    text.extend_from_slice(b"\" ")?;
    push_number(text, u64::from(part.from) + 1)?;
    text.extend_from_slice(b" ")?;
    push_number(text, u64::from(part.to) + 1)
}

// Appends the line of a part.
fn push_part(text: &mut Vec<u8>, program: &Program, part: &Part) -> Result<(), NoMemory>
    ensures { OnOk result (text.new.items ≡ text.old.items ++ part_text program.now part.now) }
{
    let tail = tail_of(program, part);
    push_head(text, program, part)?;
    push_shown(text, part.cycle, part.edges.as_slice(), tail)?;
    text.push(b'\n')?;
    Ok(())
}

fn push_parts(text: &mut Vec<u8>, program: &Program, parts: &[Part]) -> Result<(), NoMemory>
    ensures { OnOk result (text.new.items ≡ text.old.items ++ flat_map (part_text program.now) parts.now) }
{
    for part in parts {
        push_part(text, program, part)?;
    }
    Ok(())
}

// The lines of certificates that were confirmed.
fn lines_of(alloc: Global, program: &Program, certificate: &Proof) -> Result<Vec<u8>, NoMemory>
    ensures { IfOk result (λ text. text.items ≡ proof_text program.now certificate.now) }
{
    let mut text = Vec::new(alloc);
    push_parts(&mut text, program, certificate.parts.as_slice())?;
    text.extend_from_slice(b"confirmed\n")?;
    Ok(text)
}

// The table of a program's lives, with certificates of it that were confirmed.
fn confirmed(alloc: Global, program: &Program) -> Result<(LifeTable, Proof), NoMemory>
    requires { IsRunnable program.now }
    ensures lives { IfOk result (λ found. AreLives program.now found.0) }
    ensures good { IfOk result (λ found. IsGood program.now found.0 found.1) }
{
    let table = lives(alloc, program)?;
    let certificate = certify(alloc, program, &table)?;
    if !confirm(alloc, program, &table, &certificate)? {
        unreachable!()
    }
    Ok((table, certificate))
}

/// Writes certificates of the lives of a program's types.
pub(crate) fn tell_proof<K: Sink>(alloc: Global, program: &Program, out: &mut K) -> u8
    requires { IsRunnable program.now }
    ensures said { result ≤ 4 → (table : TableOfLives) × AreLives program.now table × (certificate : Certificate) × IsGood program.now table certificate
        × (K.written out.new ≡ append (K.written out.old) (proof_text program.now certificate)) × (result ≡ 0) }
    ensures front { 5 ≤ result → IsProofFront program.now (K.written out.old) (K.written out.new) }
    ensures answers { (result ≡ 0) ⊎ ((6 ≤ result) × (result ≤ 7)) }
    ensures cause { result ≡ 6 → Rose (K.faults out.old) (K.faults out.new) }
{
    match confirmed(alloc, program) {
        Ok((_, certificate)) => match lines_of(alloc, program, &certificate) {
            Ok(text) => say(out, text.as_slice(), 0),
            Err(_) => 7,
        },
        Err(_) => 7,
    }
}
