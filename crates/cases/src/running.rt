ghost use Rattle.std.specs.Prelude.{◌≡◌, [], ◌∷◌, codes, IfOk};

use crate::case::Case;
use crate::failing::Failing;
use crate::settings::{Failures, MOST, Object};
use crate::stopped::Stopped;
use fx_base::{Seq, Text};
use fx_io::{ChunkSink, ChunkSource, MemShelf};
use std::alloc::Global;

/// What a run came to.
#[derive(Drop)]
pub(crate) struct Ran {
    pub(crate) status: u8,
    pub(crate) printed: Vec<u8>,
    shelf_calls: u64,
    script_calls: u64,
    out_calls: u64,
    script_bytes: u64,
}

impl Ran {
    /// How many calls an object had.
    pub(crate) fn calls(&self, object: Object) -> u64 {
        match object {
            Object::Shelf => self.shelf_calls,
            Object::Script => self.script_calls,
            Object::Out => self.out_calls,
        }
    }

    /// The lines of the script that were taken with their ends.
    pub(crate) fn taken<'s>(&self, script: &'s [u8]) -> &'s [u8] {
        let front = &script[..script.len().min(self.script_bytes as usize)];
        match front.iter().rposition(|b| *b == b'\n') {
            Some(end) => &front[..=end],
            None => &front[..0],
        }
    }
}

/// Runs a case over this script, where these calls fail.
pub(crate) fn run_once(
    alloc: Global,
    case: &Case,
    failures: &Failures,
    script: &[u8],
) -> Result<Ran, Stopped> {
    let words = case.settings.words.as_slice();
    run_with(alloc, case, words, &[], failures, script)
}

/// The files on the shelf of a case: its rule file, and an image.
pub(crate) fn files_of(
    alloc: Global,
    rules: &[u8],
    image: &[u8],
) -> Result<Vec<(Text, Seq<u8>)>, Stopped>
    ensures { IfOk result (λ files. files.items ≡ (codes "RULES", rules.now) ∷ (codes "IMAGE", image.now) ∷ []) }
{
    let rules = (
        Text::new(alloc, "RULES")?,
        Seq::from_vec(rules.to_vec(alloc)?),
    );
    let image = (
        Text::new(alloc, "IMAGE")?,
        Seq::from_vec(image.to_vec(alloc)?),
    );
    Ok(vec![in alloc; rules, image]?)
}

/// The same with these words, and an image on the shelf.
pub(crate) fn run_with(
    alloc: Global,
    case: &Case,
    words: &[String],
    image: &[u8],
    failures: &Failures,
    script: &[u8],
) -> Result<Ran, Stopped> {
    let settings = &case.settings;
    let most = settings.most.max(1);
    let files = files_of(alloc, &case.rules, image)?;
    let mut shelf = MemShelf::new(files, failures.shelf.to_vec(alloc)?);
    let source = ChunkSource::new(script.to_vec(alloc)?, most);
    let mut source = Failing::new(source, failures.script.to_vec(alloc)?);
    let sink = ChunkSink::new(alloc, settings.room.min(MOST), most)?;
    let mut sink = Failing::new(sink, failures.out.to_vec(alloc)?);
    let status = sozhipen::run(alloc, words, &mut shelf, &mut source, &mut sink);
    Ok(Ran {
        status,
        printed: sink.inside.written().to_vec(alloc)?,
        shelf_calls: shelf.calls(),
        script_calls: source.calls,
        out_calls: sink.calls,
        script_bytes: source.bytes,
    })
}
