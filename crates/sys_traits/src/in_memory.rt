//! A system in memory, for tests: its files, folders and random bytes are given, and so is which of its calls fail.
ghost use Rattle.std.specs.Prelude.{◌≡◌, ◌==◌, length, IfOk, IfErr, MatchResult, string_bytes};
ghost use Rattle.std.specs.Option.{option_copied};
ghost use Rattle.sys_traits.specs.Paths as paths;
ghost use Rattle.sys_traits.specs.State.{file_at};
ghost use Rattle.sys_traits.specs.Memory as spec;
ghost use Rattle.sys_traits.specs.Steps.{Ran, IsErrorOf};

mod calls;
mod drafts;
mod given;

use crate::call::SysCall;
use crate::error::{SysError, SysErrorKind};
use crate::place::{Need, Place, place_of, refusal_at, spot_in};
use crate::shared_files::SharedFiles;
use base::{Items, Text};
use std::alloc::{AllocError, Global};
use std::marker::Model;

/// A system in memory. Its calls are numbered from 0, and those whose numbers are listed fail.
#[derive(Debug, Drop)]
pub struct InMemorySys {
    folder: Text,
    files: SharedFiles,
    made: Items<Text>,
    random: Items<u8>,
    // The place of the next random byte.
    next: usize,
    failing: Items<u64>,
    log: Items<SysCall>,
}

impl Model for InMemorySys {
    ghost use Rattle.sys_traits.specs.Memory.{Memory};

    ghost Value = { Memory };

    ghost view = { λ m. record {
      folder = m.folder;
      files = m.files;
      made = m.made;
      random = m.random;
      next = m.next;
      failing = m.failing;
      log = m.log;
    } };
}

impl InMemorySys {
    /// A system with these files and folders, and all the folders that they are in. Paths are joined to the current
    /// folder. Of files with equal paths the first counts, and a file whose path is that of a folder isn't kept.
    /// The random bytes are given in turn, over and over; without any, 0 is given. The calls whose numbers are
    /// listed fail.
    pub fn new(
        alloc: Global,
        files: Items<(Text, Items<u8>)>,
        folders: Items<Text>,
        current_dir: Text,
        random_bytes: Items<u8>,
        failing_calls: Items<u64>,
    ) -> Result<InMemorySys, AllocError>
        ensures { IfOk result (λ m. m ≡ spec.new_memory files folders current_dir random_bytes failing_calls) }
    {
        let folder = given::rooted(alloc, current_dir)?;
        let made = given::folders(alloc, folder.as_str(), files.as_slice(), folders.as_slice())?;
        let files = given::files(alloc, folder.as_str(), made.as_slice(), files.as_slice())?;
        let files = SharedFiles::new(alloc, files)?;
        Ok(InMemorySys {
            folder,
            files,
            made,
            random: random_bytes,
            next: 0,
            failing: failing_calls,
            log: Items::new(alloc),
        })
    }

    /// The calls that took place, the oldest first.
    pub fn log(&self) -> &[SysCall]
        ensures { result.now ≡ self.now.log }
    {
        self.log.as_slice()
    }

    /// The bytes of the file at this normalized path.
    pub fn file(&self, path: &str) -> Option<&[u8]>
        ensures { option_copied result ≡ file_at self.now.files path.now }
    {
        self.files.get(path)
    }

    fn spot(&self, path: &str) -> Result<String, AllocError>
        ensures { IfOk result (λ s. string_bytes s ≡ paths.spot self.now.folder path.now) }
    {
        spot_in(self.log.allocator(), self.folder.as_str(), path)
    }

    fn place(&self, spot: &str) -> Place
        ensures { result ≡ spec.place_of self.now.files self.now.made spot.now }
    {
        place_of(&self.files, self.made.as_slice(), spot)
    }

    // Whether the next call is one that is to fail.
    fn is_listed(&self) -> bool
        ensures { result ≡ spec.is_listed self.now }
    {
        let number = self.log.len() as u64;
        self.failing
            .as_slice()
            .iter()
            .any(|failing| *failing == number)
    }

    // Why the next call is refused, if it is.
    fn refusal(&self, need: Need, spot: &str) -> Option<SysErrorKind>
        ensures { result ≡ spec.refusal_in self.now need spot.now }
    {
        if self.is_listed() {
            Some(SysErrorKind::Failed)
        } else {
            refusal_at(need, self.place(spot))
        }
    }

    // Why the next call is refused, if it is and needs nothing.
    fn refusal_by_number(&self) -> Option<SysErrorKind>
        ensures { result ≡ spec.refusal_by_number self.now }
    {
        self.is_listed().then_some(SysErrorKind::Failed)
    }

    // Lets a drafted call take place, and answers what was drafted with it, or its refusal.
    fn run<T: Drop>(&mut self, drafted: Result<(SysCall, T), AllocError>) -> Result<T, SysError>
        ensures ran { Ran drafted result self.old self.new }
        ensures message { IfErr result (λ e. e.message ≡ spec.message_of e.kind) }
    {
        let alloc = self.log.allocator();
        match drafted {
            Err(_) => Err(SysError::out_of_memory(alloc)),
            Ok((call, value)) => match self.keep(call) {
                Err(_) => Err(SysError::out_of_memory(alloc)),
                Ok(Some(error)) => Err(error),
                Ok(None) => Ok(value),
            },
        }
    }

    fn set_made(&mut self, made: Items<Text>)
        ensures { self.new ≡ record self.old { made = made } }
    {
        self.made = made;
    }

    fn set_next(&mut self, next: usize)
        ensures { self.new ≡ record self.old { next = next } }
    {
        self.next = next;
    }

    // Logs the call, after which the files are those that it left.
    fn keep(&mut self, call: SysCall) -> Result<Option<SysError>, AllocError>
        ensures { MatchResult result
            (λ error. IsErrorOf call.refusal error × (self.new ≡ spec.logged self.old call))
            (λ _. self.new ≡ self.old) }
    {
        let alloc = self.log.allocator();
        let error = error_for(alloc, call.refusal)?;
        let files = call.files.copy()?;
        self.log.push(call)?;
        self.files = files;
        Ok(error)
    }
}

// The error of a refusal, if there is one; that memory ran out is this call's own.
fn error_for(alloc: Global, refusal: Option<SysErrorKind>) -> Result<Option<SysError>, AllocError>
    ensures { IfOk result (IsErrorOf refusal) }
{
    let Some(kind) = refusal else {
        return Ok(None);
    };
    let message = match kind {
        SysErrorKind::NotFound => Text::from_str(alloc, "not found")?,
        SysErrorKind::Failed => Text::from_str(alloc, "the call failed")?,
        SysErrorKind::OutOfMemory => return Err(AllocError),
    };
    Ok(Some(SysError { kind, message }))
}
