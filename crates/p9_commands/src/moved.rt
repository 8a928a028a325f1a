ghost use Rattle.std.specs.Prelude.{◌≡◌};
ghost use Rattle.p9_commands.specs.Through.{after};

use p9_word::{Effect, Event, Trail};

/// What went through the files of a run.
#[derive(Clone, Copy)]
pub(crate) struct Moved {
    /// How many bytes were read.
    pub(crate) read: usize,
    /// How many bytes were written.
    pub(crate) written: usize,
    /// How many calls failed.
    pub(crate) failures: usize,
}

impl Moved {
    /// With what came of one call on a file.
    fn with(self, effect: &Effect) -> Moved
        ensures { result ≡ after effect.now self }
    {
        match effect {
            Effect::Got { failed, bytes } => Moved {
                read: self.read.saturating_add(bytes.as_slice().len()),
                failures: self.failures.saturating_add(*failed as usize),
                ..self
            },
            Effect::Wrote { count, failed } => Moved {
                written: self.written.saturating_add(*count as usize),
                failures: self.failures.saturating_add(*failed as usize),
                ..self
            },
            _ => self,
        }
    }
}

/// What went through the files of the run of a trail.
pub(crate) fn through_files(trail: &Trail) -> Moved {
    let mut moved = Moved {
        read: 0,
        written: 0,
        failures: 0,
    };
    for entry in trail.entries.as_slice() {
        if let Event::IoDid(effect) = &entry.event {
            moved = moved.with(effect);
        }
    }
    moved
}
