use crate::cuts::try_cuts;
use crate::each::try_each;
use crate::running::run_once;
use crate::settings::Settings;
use crate::stopped::Stopped;
use fx_io::{Sink, write_all};
use std::alloc::Global;

/// The lines of a case that were read so far.
#[derive(Drop)]
pub(crate) struct Case {
    pub(crate) settings: Settings,
    pub(crate) rules: Vec<u8>,
    pub(crate) script: Vec<u8>,
    has_title: bool,
    in_script: bool,
    script_lines: usize,
}

impl Case {
    pub(crate) fn new(alloc: Global) -> Result<Case, Stopped> {
        Ok(Case {
            settings: Settings::new(alloc)?,
            rules: Vec::new(alloc),
            script: Vec::new(alloc),
            has_title: false,
            in_script: false,
            script_lines: 0,
        })
    }

    /// The case with one line more, or the next one behind a case that was run.
    pub(crate) fn with_line<K: Sink>(
        self,
        alloc: Global,
        line: &[u8],
        out: &mut K,
    ) -> Result<Case, Stopped> {
        let mut case = self;
        match line {
            b"=== script" => case.in_script = true,
            b"=== end" => {
                case.run(alloc, out)?;
                return Case::new(alloc);
            }
            [b'=', b'=', b'=', b' ', setting @ ..] => {
                if case.has_title {
                    case.settings.set(alloc, setting)?;
                } else {
                    case.has_title = true;
                    write_all(out, line)?;
                    write_all(out, b"\n")?;
                }
            }
            _ if case.in_script => case.push_script(line)?,
            _ => {
                case.rules.extend_from_slice(line)?;
                case.rules.push(b'\n')?;
            }
        }
        Ok(case)
    }

    fn push_script(&mut self, line: &[u8]) -> Result<(), Stopped> {
        let wanted = match self.settings.line_lens.get(self.script_lines) {
            Some(len) => *len as usize,
            None => 0,
        };
        let has_return = self.settings.has_returns;
        self.script.extend_from_slice(line)?;
        push_blanks(
            &mut self.script,
            line.len() + usize::from(has_return),
            wanted,
        )?;
        if has_return {
            self.script.push(b'\r')?;
        }
        self.script.push(b'\n')?;
        self.script_lines = self.script_lines.saturating_add(1);
        Ok(())
    }

    // Runs the case, and writes what it prints, its status, and what comes where calls fail.
    fn run<K: Sink>(self, alloc: Global, out: &mut K) -> Result<(), Stopped> {
        let mut case = self;
        let len = case.rules.len();
        push_blanks(&mut case.rules, len, case.settings.rules_len)?;
        if !case.settings.is_ended {
            let _ = case.script.pop();
        }
        let ran = run_once(alloc, &case, &case.settings.failures, &case.script)?;
        write_all(out, &ran.printed)?;
        let line = format!(in alloc; "=== status {}\n", ran.status)?;
        write_all(out, line.as_bytes())?;
        for object in case.settings.each.as_slice() {
            try_each(alloc, &case, *object, out)?;
        }
        if case.settings.is_cut {
            try_cuts(alloc, &case, &ran, out)?;
        }
        Ok(())
    }
}

// Blanks behind a text of one length up to another one.
fn push_blanks(text: &mut Vec<u8>, len: usize, wanted: usize) -> Result<(), Stopped> {
    for _ in len..wanted {
        text.push(b' ')?;
    }
    Ok(())
}
