//! The calls of a system in memory. Each says exactly what it answers, and keeps what its trait promises.
ghost use Rattle.std.specs.Prelude.{◌≡◌, Some, length, slice_index, IfOk, IfErr, string_bytes};
ghost use Rattle.sys_traits.specs.Paths.{spot};
ghost use Rattle.sys_traits.specs.State.{WhereTold, refusal_of, shortage_of, CountsFault};
ghost use Rattle.sys_traits.specs.Calls.{Canonicalized, FolderCreated, LookedUp, Opened, Written, Removed, Renamed, Drawn, Slept, answered_path, answered_truth, answered_byte};
ghost use Rattle.sys_traits.specs.Memory as spec;
ghost use Rattle.sys_traits.specs.Memory.{Answered, faults_of, told_of};

use crate::error::SysError;
use crate::file::SysFile;
use crate::in_memory::InMemorySys;
use crate::traits::{
    AtomicWriteFileSys, AtomicWriteFileWithRetriesSys, FsCanonicalize, FsCreateDirAll, FsMetadata,
    FsOpen, FsRemoveFile, FsRename, SysState, SystemRandom, ThreadSleep,
};
use std::alloc::AllocError;

impl SysState for InMemorySys {
    ghost faults = { faults_of };

    ghost told = { λ m. Some (told_of m) };
}

impl FsCanonicalize for InMemorySys {
    fn fs_canonicalize(&mut self, path: &str) -> Result<String, SysError>
        ensures exact { let call = spec.canonicalizing self.old path.now in
            Answered call (spec.logged self.old call) (refusal_of result) self.old self.new }
        ensures value { IfOk result (λ answer. string_bytes answer ≡ spot self.old.folder path.now) }
        ensures message { IfErr result (λ e. e.message ≡ spec.message_of e.kind) }
        ensures counts { CountsFault (refusal_of result) (faults_of self.old) (faults_of self.new) }
        ensures tells { WhereTold (Canonicalized path.now (answered_path string_bytes result) (refusal_of result))
            (Some (told_of self.old)) (Some (told_of self.new)) }
    {
        let drafted = self.canonicalizing(path);
        self.run(drafted)
    }
}

impl FsCreateDirAll for InMemorySys {
    fn fs_create_dir_all(&mut self, path: &str) -> Result<(), SysError>
        ensures exact { Answered (spec.creating self.old path.now) (spec.created self.old path.now)
            (refusal_of result) self.old self.new }
        ensures message { IfErr result (λ e. e.message ≡ spec.message_of e.kind) }
        ensures counts { CountsFault (refusal_of result) (faults_of self.old) (faults_of self.new) }
        ensures tells { WhereTold (FolderCreated path.now (refusal_of result))
            (Some (told_of self.old)) (Some (told_of self.new)) }
    {
        let drafted = self.creating(path);
        let made = self.run(drafted)?;
        self.set_made(made);
        Ok(())
    }
}

impl FsMetadata for InMemorySys {
    fn fs_exists(&mut self, path: &str) -> Result<bool, SysError>
        ensures exact { let call = spec.looking_up self.old path.now in
            Answered call (spec.logged self.old call) (refusal_of result) self.old self.new }
        ensures value { IfOk result (λ there. there ≡ spec.is_there
            (spec.place_of self.old.files self.old.made (spot self.old.folder path.now))) }
        ensures message { IfErr result (λ e. e.message ≡ spec.message_of e.kind) }
        ensures counts { CountsFault (refusal_of result) (faults_of self.old) (faults_of self.new) }
        ensures tells { WhereTold (LookedUp path.now (answered_truth result) (refusal_of result))
            (Some (told_of self.old)) (Some (told_of self.new)) }
    {
        let drafted = self.looking_up(path);
        self.run(drafted)
    }
}

impl FsOpen for InMemorySys {
    fn fs_open(&mut self, path: &str, mode: u32) -> Result<SysFile, SysError>
        ensures exact { let call = spec.opening self.old path.now mode in
            Answered call (spec.logged self.old call) (refusal_of result) self.old self.new }
        ensures value { IfOk result (λ file. (file.id ≡ length self.old.log) × (file.path ≡ path.now)) }
        ensures message { IfErr result (λ e. e.message ≡ spec.message_of e.kind) }
        ensures counts { CountsFault (refusal_of result) (faults_of self.old) (faults_of self.new) }
        ensures tells { WhereTold (Opened path.now mode (refusal_of result))
            (Some (told_of self.old)) (Some (told_of self.new)) }
        ensures named { IfOk result (λ file. file.path ≡ path.now) }
    {
        let drafted = self.opening(path, mode);
        self.run(drafted)
    }

    fn fs_write_all(&mut self, file: SysFile, bytes: &[u8]) -> Result<(), SysError>
        ensures exact { let call = spec.writing self.old file.path bytes.now in
            Answered call (spec.logged self.old call) (refusal_of result) self.old self.new }
        ensures message { IfErr result (λ e. e.message ≡ spec.message_of e.kind) }
        ensures counts { CountsFault (refusal_of result) (faults_of self.old) (faults_of self.new) }
        ensures tells { WhereTold (Written file.path bytes.now (refusal_of result))
            (Some (told_of self.old)) (Some (told_of self.new)) }
    {
        let drafted = self.writing(file.path.as_str(), bytes);
        self.run(drafted)
    }
}

impl FsRemoveFile for InMemorySys {
    fn fs_remove_file(&mut self, path: &str) -> Result<(), SysError>
        ensures exact { let call = spec.removing self.old path.now in
            Answered call (spec.logged self.old call) (refusal_of result) self.old self.new }
        ensures message { IfErr result (λ e. e.message ≡ spec.message_of e.kind) }
        ensures counts { CountsFault (refusal_of result) (faults_of self.old) (faults_of self.new) }
        ensures tells { WhereTold (Removed path.now (refusal_of result))
            (Some (told_of self.old)) (Some (told_of self.new)) }
    {
        let drafted = self.removing(path);
        self.run(drafted)
    }
}

impl FsRename for InMemorySys {
    fn fs_rename(&mut self, from: &str, to: &str) -> Result<(), SysError>
        ensures exact { let call = spec.renaming self.old from.now to.now in
            Answered call (spec.logged self.old call) (refusal_of result) self.old self.new }
        ensures message { IfErr result (λ e. e.message ≡ spec.message_of e.kind) }
        ensures counts { CountsFault (refusal_of result) (faults_of self.old) (faults_of self.new) }
        ensures tells { WhereTold (Renamed from.now to.now (refusal_of result))
            (Some (told_of self.old)) (Some (told_of self.new)) }
    {
        let drafted = self.renaming(from, to);
        self.run(drafted)
    }
}

impl SystemRandom for InMemorySys {
    fn sys_random_u8(&mut self) -> Result<u8, SysError>
        ensures exact { Answered (spec.drawing self.old) (spec.drawn self.old)
            (refusal_of result) self.old self.new }
        ensures value { IfOk result (λ byte. byte ≡ slice_index self.old.random self.old.next) }
        ensures message { IfErr result (λ e. e.message ≡ spec.message_of e.kind) }
        ensures counts { CountsFault (refusal_of result) (faults_of self.old) (faults_of self.new) }
        ensures tells { WhereTold (Drawn (answered_byte result) (refusal_of result))
            (Some (told_of self.old)) (Some (told_of self.new)) }
    {
        let drafted = self.drawing();
        let (byte, next) = self.run(drafted)?;
        self.set_next(next);
        Ok(byte)
    }
}

impl ThreadSleep for InMemorySys {
    fn thread_sleep_ms(&mut self, ms: u64) -> Result<(), AllocError>
        ensures exact { let call = spec.sleeping self.old ms in
            Answered call (spec.logged self.old call) (shortage_of result) self.old self.new }
        ensures counts { CountsFault (shortage_of result) (faults_of self.old) (faults_of self.new) }
        ensures tells { WhereTold (Slept ms (shortage_of result))
            (Some (told_of self.old)) (Some (told_of self.new)) }
    {
        let call = self.sleeping(ms)?;
        self.keep(call)?;
        Ok(())
    }
}

impl AtomicWriteFileSys for InMemorySys {}

impl AtomicWriteFileWithRetriesSys for InMemorySys {}
