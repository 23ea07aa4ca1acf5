//! The calls of a system in memory, drafted as they will appear in the log, each with what it will answer.
ghost use Rattle.std.specs.Prelude.{◌≡◌, ◌+◌, [], Some, None, length, slice_index, IfOk, string_bytes};
ghost use Rattle.sys_traits.specs.Paths.{spot};
ghost use Rattle.sys_traits.specs.Files as lists;
ghost use Rattle.sys_traits.specs.Memory as spec;
ghost use Rattle.sys_traits.specs.Steps.{Drafts};

use crate::call::{SysCall, SysCallKind};
use crate::error::SysErrorKind;
use crate::file::SysFile;
use crate::file_map::FileBytes;
use crate::in_memory::InMemorySys;
use crate::place::{Need, Place, is_folder, is_there};
use crate::shared_files::SharedFiles;
use base::{Items, Text};
use std::alloc::{AllocError, Global};

impl InMemorySys {
    pub fn canonicalizing(&self, path: &str) -> Result<(SysCall, String), AllocError>
        ensures { Drafts result (spec.canonicalizing self.now path.now)
            (λ answer. string_bytes answer ≡ spot self.now.folder path.now) }
    {
        let alloc = self.log.allocator();
        let spot = self.spot(path)?;
        let refusal = self.refusal(Need::Anything, spot.as_str());
        let to = match refusal {
            None => Some(Text::from_str(alloc, spot.as_str())?),
            Some(_) => None,
        };
        let call = SysCall {
            kind: SysCallKind::Canonicalize,
            path: Text::from_str(alloc, path)?,
            to,
            number: 0,
            refusal,
            files: self.copied()?,
        };
        Ok((call, spot))
    }

    // With the folders after the call.
    pub fn creating(&self, path: &str) -> Result<(SysCall, Items<Text>), AllocError>
        ensures { Drafts result (spec.creating self.now path.now)
            (λ made. made ≡ (spec.created self.now path.now).made) }
    {
        let alloc = self.log.allocator();
        let spot = self.spot(path)?;
        let refusal = self.refusal(Need::FolderRoom, spot.as_str());
        let call = SysCall {
            kind: SysCallKind::CreateDirAll,
            path: Text::from_str(alloc, path)?,
            to: None,
            number: 0,
            refusal,
            files: self.copied()?,
        };
        let made = self.made_after(refusal, spot.as_str())?;
        Ok((call, made))
    }

    pub fn looking_up(&self, path: &str) -> Result<(SysCall, bool), AllocError>
        ensures { Drafts result (spec.looking_up self.now path.now)
            (λ answer. answer ≡ spec.is_there
            (spec.place_of self.now.files self.now.made (spot self.now.folder path.now))) }
    {
        let alloc = self.log.allocator();
        let spot = self.spot(path)?;
        let refusal = self.refusal(Need::Way, spot.as_str());
        let there = is_there(self.place(spot.as_str()));
        let call = SysCall {
            kind: SysCallKind::Exists,
            path: Text::from_str(alloc, path)?,
            to: None,
            number: number_unless(refusal, u64::from(there)),
            refusal,
            files: self.copied()?,
        };
        Ok((call, there))
    }

    pub fn opening(&self, path: &str, mode: u32) -> Result<(SysCall, SysFile), AllocError>
        ensures { Drafts result (spec.opening self.now path.now mode)
            (λ file. (file.id ≡ length self.now.log) × (file.path ≡ path.now)) }
    {
        let alloc = self.log.allocator();
        let spot = self.spot(path)?;
        let refusal = self.refusal(Need::Room, spot.as_str());
        let call = SysCall {
            kind: SysCallKind::Open,
            path: Text::from_str(alloc, path)?,
            to: None,
            number: u64::from(mode),
            refusal,
            files: self.opened(refusal, spot.as_str())?,
        };
        let file = SysFile {
            id: self.log.len() as u64,
            path: Text::from_str(alloc, path)?,
        };
        Ok((call, file))
    }

    pub fn writing(&self, path: &str, bytes: &[u8]) -> Result<(SysCall, ()), AllocError>
        ensures { Drafts result (spec.writing self.now path.now bytes.now) (λ _. Unit {0}) }
    {
        let alloc = self.log.allocator();
        let spot = self.spot(path)?;
        let call = SysCall {
            kind: SysCallKind::WriteAll,
            path: Text::from_str(alloc, path)?,
            to: None,
            number: 0,
            refusal: self.refusal(Need::File, spot.as_str()),
            files: self.written(self.place(spot.as_str()), spot.as_str(), bytes)?,
        };
        Ok((call, ()))
    }

    pub fn removing(&self, path: &str) -> Result<(SysCall, ()), AllocError>
        ensures { Drafts result (spec.removing self.now path.now) (λ _. Unit {0}) }
    {
        let alloc = self.log.allocator();
        let spot = self.spot(path)?;
        let refusal = self.refusal(Need::File, spot.as_str());
        let call = SysCall {
            kind: SysCallKind::Remove,
            path: Text::from_str(alloc, path)?,
            to: None,
            number: 0,
            refusal,
            files: self.removed(refusal, spot.as_str())?,
        };
        Ok((call, ()))
    }

    pub fn renaming(&self, from: &str, to: &str) -> Result<(SysCall, ()), AllocError>
        ensures { Drafts result (spec.renaming self.now from.now to.now) (λ _. Unit {0}) }
    {
        let alloc = self.log.allocator();
        let source = self.spot(from)?;
        let target = self.spot(to)?;
        let refusal = first_refusal(
            self.refusal(Need::File, source.as_str()),
            self.refusal(Need::Room, target.as_str()),
        );
        let call = SysCall {
            kind: SysCallKind::Rename,
            path: Text::from_str(alloc, from)?,
            to: Some(Text::from_str(alloc, to)?),
            number: 0,
            refusal,
            files: self.moved(refusal, source.as_str(), target.as_str())?,
        };
        Ok((call, ()))
    }

    // With the random byte, and the index of the next one.
    pub fn drawing(&self) -> Result<(SysCall, (u8, usize)), AllocError>
        ensures { Drafts result (spec.drawing self.now)
            (λ answer. (answer.0 ≡ slice_index self.now.random self.now.next)
            × (answer.1 ≡ (spec.drawn self.now).next)) }
    {
        let refusal = self.refusal_by_number();
        let byte = byte_at(self.random.as_slice(), self.next);
        let call = SysCall {
            kind: SysCallKind::Random,
            path: Text::new(self.log.allocator()),
            to: None,
            number: number_unless(refusal, u64::from(byte)),
            refusal,
            files: self.copied()?,
        };
        Ok((call, (byte, self.next_after(refusal))))
    }

    pub fn sleeping(&self, ms: u64) -> Result<SysCall, AllocError>
        ensures { IfOk result (λ call. call ≡ spec.sleeping self.now ms) }
    {
        Ok(SysCall {
            kind: SysCallKind::Sleep,
            path: Text::new(self.log.allocator()),
            to: None,
            number: ms,
            refusal: None,
            files: self.copied()?,
        })
    }

    fn copied(&self) -> Result<SharedFiles, AllocError>
        ensures { IfOk result (λ files. files ≡ self.now.files) }
    {
        self.files.copy()
    }

    fn opened(&self, refusal: Option<SysErrorKind>, spot: &str) -> Result<SharedFiles, AllocError>
        ensures { IfOk result (λ files. files ≡ spec.unless_refused refusal
            (lists.with_file self.now.files spot.now []) self.now.files) }
    {
        match refusal {
            None => self.with_file(spot, b""),
            Some(_) => self.copied(),
        }
    }

    fn written(&self, place: Place, spot: &str, bytes: &[u8]) -> Result<SharedFiles, AllocError>
        ensures { IfOk result (λ files. files ≡ spec.files_written self.now spot.now bytes.now place) }
    {
        match place {
            Place::File => self.with_file(spot, self.kept_of(bytes)),
            Place::Folder | Place::Free | Place::Missing | Place::Blocked => self.copied(),
        }
    }

    // What a write leaves of its bytes: the first half where it is to fail.
    fn kept_of<'a>(&self, bytes: &'a [u8]) -> &'a [u8]
        ensures { result.now ≡ spec.written self.now bytes.now }
    {
        if self.is_listed() {
            &bytes[..bytes.len() / 2]
        } else {
            bytes
        }
    }

    fn removed(&self, refusal: Option<SysErrorKind>, spot: &str) -> Result<SharedFiles, AllocError>
        ensures { IfOk result (λ files. files ≡ spec.unless_refused refusal
            (lists.without_file self.now.files spot.now) self.now.files) }
    {
        match refusal {
            None => self.without_file(spot),
            Some(_) => self.copied(),
        }
    }

    fn moved(
        &self,
        refusal: Option<SysErrorKind>,
        from: &str,
        to: &str,
    ) -> Result<SharedFiles, AllocError>
        ensures { IfOk result (λ files. files ≡ spec.unless_refused refusal
            (lists.moved_file self.now.files from.now to.now) self.now.files) }
    {
        match refusal {
            None => self.moved_file(from, to),
            Some(_) => self.copied(),
        }
    }

    fn moved_file(&self, from: &str, to: &str) -> Result<SharedFiles, AllocError>
        ensures { IfOk result (λ files. files ≡ lists.moved_file self.now.files from.now to.now) }
    {
        let alloc = self.log.allocator();
        let mut files = self.files.to_map()?;
        let bytes = match files.take(from) {
            Some(bytes) => bytes,
            None => FileBytes::new(alloc, b"")?,
        };
        files.put(String::from_str(alloc, to)?, bytes)?;
        SharedFiles::new(alloc, files)
    }

    fn with_file(&self, spot: &str, bytes: &[u8]) -> Result<SharedFiles, AllocError>
        ensures { IfOk result (λ files. files ≡ lists.with_file self.now.files spot.now bytes.now) }
    {
        let alloc = self.log.allocator();
        let mut files = self.files.to_map()?;
        files.put(
            String::from_str(alloc, spot)?,
            FileBytes::new(alloc, bytes)?,
        )?;
        SharedFiles::new(alloc, files)
    }

    fn without_file(&self, spot: &str) -> Result<SharedFiles, AllocError>
        ensures { IfOk result (λ files. files ≡ lists.without_file self.now.files spot.now) }
    {
        let mut files = self.files.to_map()?;
        drop(files.take(spot));
        SharedFiles::new(self.log.allocator(), files)
    }

    fn made_after(
        &self,
        refusal: Option<SysErrorKind>,
        spot: &str,
    ) -> Result<Items<Text>, AllocError>
        ensures { IfOk result (λ made. made ≡ spec.unless_refused refusal
            (spec.with_folder self.now.made spot.now) self.now.made) }
    {
        let mut made = copy_texts(self.log.allocator(), self.made.as_slice())?;
        if refusal.is_none() && !is_folder(self.made.as_slice(), spot) {
            made.push(Text::from_str(self.log.allocator(), spot)?)?;
        }
        Ok(made)
    }

    fn next_after(&self, refusal: Option<SysErrorKind>) -> usize
        ensures { result ≡ spec.unless_refused refusal
            (spec.place_after self.now.random self.now.next) self.now.next }
    {
        match refusal {
            None => place_after(self.random.as_slice(), self.next),
            Some(_) => self.next,
        }
    }
}

fn copy_texts(alloc: Global, texts: &[Text]) -> Result<Items<Text>, AllocError>
    ensures { IfOk result (λ copy. copy ≡ texts.now) }
{
    let mut copy = Items::new(alloc);
    for text in texts {
        copy.push(text.copy()?)?;
    }
    Ok(copy)
}

fn byte_at(random: &[u8], at: usize) -> u8
    ensures { result ≡ slice_index random.now at }
{
    if at < random.len() { random[at] } else { 0 }
}

fn place_after(random: &[u8], next: usize) -> usize
    ensures { result ≡ spec.place_after random.now next }
{
    if next < random.len() && next + 1 < random.len() {
        next + 1
    } else {
        0
    }
}

fn number_unless(refusal: Option<SysErrorKind>, number: u64) -> u64
    ensures { result ≡ spec.unless_refused refusal number 0 }
{
    match refusal {
        None => number,
        Some(_) => 0,
    }
}

fn first_refusal(first: Option<SysErrorKind>, second: Option<SysErrorKind>) -> Option<SysErrorKind>
    ensures { result ≡ spec.first_refusal first second }
{
    first.or(second)
}
