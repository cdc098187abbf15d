use crate::stopped::Stopped;
use std::alloc::Global;

/// The most bytes of all cases together, of a rule file, and of what a run prints.
pub(crate) const MOST: usize = 1 << 20;

/// The greatest number that a line may set.
const NUMBER_MAX: u64 = 1 << 21;

/// What a run has outside of it.
#[derive(Clone, Copy, Debug, PartialEq, Eq)]
pub(crate) enum Object {
    Shelf,
    Script,
    Out,
}

impl Object {
    fn named(name: &str) -> Result<Object, Stopped> {
        match name {
            "shelf" => Ok(Object::Shelf),
            "script" => Ok(Object::Script),
            "out" => Ok(Object::Out),
            _ => Err(Stopped),
        }
    }

    pub(crate) fn name(self) -> &'static str {
        match self {
            Object::Shelf => "shelf",
            Object::Script => "script",
            Object::Out => "out",
        }
    }
}

/// The calls that fail, counted from 1.
#[derive(Drop)]
pub(crate) struct Failures {
    pub(crate) shelf: Vec<u64>,
    pub(crate) script: Vec<u64>,
    pub(crate) out: Vec<u64>,
}

impl Failures {
    pub(crate) fn none(alloc: Global) -> Failures {
        Failures {
            shelf: Vec::new(alloc),
            script: Vec::new(alloc),
            out: Vec::new(alloc),
        }
    }

    /// The call of this number of one object.
    pub(crate) fn of_call(alloc: Global, object: Object, call: u64) -> Result<Failures, Stopped> {
        let mut failures = Failures::none(alloc);
        failures.set(object, vec![in alloc; call]?);
        Ok(failures)
    }

    fn set(&mut self, object: Object, calls: Vec<u64>) {
        match object {
            Object::Shelf => self.shelf = calls,
            Object::Script => self.script = calls,
            Object::Out => self.out = calls,
        }
    }
}

/// What is set for a case.
#[derive(Drop)]
pub(crate) struct Settings {
    /// The words of the command line.
    pub(crate) words: Vec<String>,
    pub(crate) failures: Failures,
    /// The most bytes of a call of the script or the output.
    pub(crate) most: usize,
    /// The most bytes of the output.
    pub(crate) room: usize,
    /// The rule file gets blanks behind it up to so many bytes.
    pub(crate) rules_len: usize,
    /// The lines of the script, in their order, get blanks at their ends up to so many bytes.
    pub(crate) line_lens: Vec<u64>,
    /// Whether a carriage return stands before each line's end.
    pub(crate) has_returns: bool,
    /// Whether the script's last line has an end.
    pub(crate) is_ended: bool,
    /// The objects of which each call is to fail in a run of its own.
    pub(crate) each: Vec<Object>,
    /// Whether the script is also run in two parts, cut behind each third line from the second one on.
    pub(crate) is_cut: bool,
}

impl Settings {
    /// What a case has that sets nothing.
    pub(crate) fn new(alloc: Global) -> Result<Settings, Stopped> {
        Ok(Settings {
            words: texts(alloc, &["RULES"])?,
            failures: Failures::none(alloc),
            most: MOST,
            room: MOST,
            rules_len: 0,
            line_lens: Vec::new(alloc),
            has_returns: false,
            is_ended: true,
            each: Vec::new(alloc),
            is_cut: false,
        })
    }

    /// Sets what a line says.
    pub(crate) fn set(&mut self, alloc: Global, line: &[u8]) -> Result<(), Stopped> {
        let Ok(text) = std::str::from_utf8(line) else {
            return Err(Stopped);
        };
        let mut words = Vec::new(alloc);
        for word in text.split_ascii_whitespace() {
            words.push(word)?;
        }
        match words.as_slice() {
            ["words", words @ ..] => self.words = texts(alloc, words)?,
            ["fail", object, calls @ ..] => {
                let calls = numbers(alloc, calls)?;
                self.failures.set(Object::named(object)?, calls);
            }
            ["each", object] => self.each.push(Object::named(object)?)?,
            ["chunks", most] => self.most = number(most)? as usize,
            ["room", room] => self.room = number(room)? as usize,
            ["blanks", "rules", len] => self.rules_len = number(len)? as usize,
            ["blanks", "lines", lens @ ..] => self.line_lens = numbers(alloc, lens)?,
            ["returns"] => self.has_returns = true,
            ["unended"] => self.is_ended = false,
            ["cuts"] => self.is_cut = true,
            _ => return Err(Stopped),
        }
        Ok(())
    }
}

fn texts(alloc: Global, words: &[&str]) -> Result<Vec<String>, Stopped> {
    let mut texts = Vec::new(alloc);
    for word in words {
        texts.push(String::from_str(alloc, word)?)?;
    }
    Ok(texts)
}

fn number(word: &str) -> Result<u64, Stopped> {
    match word.parse::<u64>() {
        Ok(number) if number <= NUMBER_MAX => Ok(number),
        _ => Err(Stopped),
    }
}

fn numbers(alloc: Global, words: &[&str]) -> Result<Vec<u64>, Stopped> {
    let mut numbers = Vec::new(alloc);
    for word in words {
        numbers.push(number(word)?)?;
    }
    Ok(numbers)
}
