ghost use Rattle.std.specs.Prelude.{◌≡◌, IfOk};

use fx_base::{NoMemory, Text};
use std::alloc::Global;
use std::hash::{FoldHasher, Hasher};

// So many slots there are; a name goes to the slot that its hash tells, in the place of the one there.
const SLOTS: usize = 256;

/// Names that lines gave. One of them that comes again takes no memory, unless another has taken its slot.
#[derive(Drop)]
pub(crate) struct Names {
    slots: Vec<Option<Text>>,
}

fn slot_of(text: &str) -> usize {
    let mut hasher = FoldHasher::default();
    hasher.write(text.as_bytes());
    hasher.finish() as usize % SLOTS
}

impl Names {
    /// Takes no memory.
    pub(crate) fn new(alloc: Global) -> Names {
        Names {
            slots: Vec::new(alloc),
        }
    }

    /// The name with these bytes.
    pub(crate) fn name(&mut self, alloc: Global, text: &str) -> Result<Text, NoMemory>
        ensures { IfOk result (λ name. name ≡ text.now) }
    {
        let slot = slot_of(text);
        if let Some(Some(name)) = self.slots.get(slot) {
            if name.as_str() == text {
                return Ok(name.clone()?);
            }
        }
        let name = Text::new(alloc, text)?;
        self.keep(slot, name.clone()?)?;
        Ok(name)
    }

    // Keeps a name at its slot.
    fn keep(&mut self, slot: usize, name: Text) -> Result<(), NoMemory> {
        for _ in self.slots.len()..SLOTS {
            self.slots.push(None)?;
        }
        if let Some(kept) = self.slots.get_mut(slot) {
            *kept = Some(name);
        }
        Ok(())
    }
}
