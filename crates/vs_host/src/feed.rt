use crate::again::read_again;
use std::fs::File;
use vs_base::ShardName;
use vs_outside::{Failed, Feed, Got};

/// A log in a file, which is read once. It tells no bytes, and never has to wait. An interrupted read
/// is no fault; one that would have to wait where the file does not block, as a pipe, is one.
#[derive(Drop)]
pub struct FileFeed {
    name: ShardName,
    file: File,
    faults: u64,
}

impl FileFeed {
    ghost use Rattle.std.specs.Prelude.{◌≡◌};

    /// A feed of a file that was just opened.
    pub fn new(name: ShardName, file: File) -> FileFeed
        ensures origin { ⟦<FileFeed as Feed>⟧.origin result ≡ name }
        ensures faults { ⟦<FileFeed as Feed>⟧.faults result ≡ 0 }
    {
        FileFeed {
            name,
            file,
            faults: 0,
        }
    }

    /// How many reads failed.
    pub fn faults(&self) -> u64
        ensures { result ≡ ⟦<FileFeed as Feed>⟧.faults self.now }
    {
        self.faults
    }
}

impl Feed for FileFeed {
    ghost use Rattle.std.specs.Prelude.{None, false};
    ghost use Rattle.std.proofs.Common.{sym};
    ghost use Rattle.std.proofs.lemmas.Bool.{true≢false};

    ghost origin = { λ f. f.name };

    ghost all = { λ _. None };

    ghost given = { λ _. None };

    ghost faults = { λ f. f.faults };

    ghost waits = { λ _. 0 };

    ghost sound = { λ _. false };

    ghost no_faults = { λ f sound. absurd (true≢false (sym sound)) };

    fn read(&mut self, buf: &mut [u8]) -> Result<Got, Failed> {
        match read_again(&mut self.file, buf) {
            Ok(0) if !buf.is_empty() => Ok(Got::End),
            Ok(n) => Ok(Got::Bytes(n)),
            Err(failed) => {
                self.faults = self.faults.saturating_add(1);
                Err(failed)
            }
        }
    }
}
