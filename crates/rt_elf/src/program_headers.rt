//! Program headers, and what they are refused for.

ghost use Rattle.std.specs.Prelude.{◌≡◌, ◌+◌, ◌-◌, ◌<◌, ◌≤◌, length};
ghost use Rattle.std.specs.List.{list_any, flat_map};
ghost use Rattle.rt_elf.specs.Fields.{numbered, e_phnum};
ghost use Rattle.rt_elf.specs.ProgramHeaders.{header_at, program_header, program_headers, is_segment};
ghost use Rattle.rt_elf.specs.Spans.{load_end, run_end, has_bytes, lies_in_ram, share, overlap};
ghost use Rattle.rt_elf.specs.LoadedImage.{reach};
ghost use Rattle.rt_elf.specs.Refusals.{first, header_rows, image_rows};
ghost use Rattle.rt_elf.specs.Working.Checks.{Checks, HasTable};

use crate::fault::{ElfFault, refuse_if};
use crate::fields::{u16_at, u32_at};
use rt_words::{MAX_RAM, RAM_BASE};

/// A program header, as far as it is looked at.
#[derive(Clone, Copy)]
pub struct ProgramHeader {
    /// `p_type`.
    pub kind: u32,
    /// `p_offset`: where its bytes begin in the file.
    pub offset: u32,
    /// `p_vaddr`: where it runs.
    pub vaddr: u32,
    /// `p_paddr`: where it is loaded.
    pub paddr: u32,
    /// `p_filesz`: how many bytes it has in the file.
    pub filesz: u32,
    /// `p_memsz`: how many it has in memory.
    pub memsz: u32,
}

impl ProgramHeader {
    /// Whether it is a segment: one to load, that takes room in memory.
    pub fn is_segment(&self) -> bool
        ensures { result ≡ is_segment self.now }
    {
        self.kind == 1 && self.memsz > 0
    }

    /// Whether it is a segment of which the file has bytes.
    pub fn has_bytes(&self) -> bool
        ensures { result ≡ has_bytes self.now }
    {
        self.is_segment() && self.filesz > 0
    }

    /// The end of the addresses where it is loaded.
    pub fn load_end(&self) -> u64
        ensures { result ≡ load_end self.now }
    {
        u64::from(self.paddr) + u64::from(self.filesz)
    }

    /// The end of the addresses where it runs.
    pub fn run_end(&self) -> u64
        ensures { result ≡ run_end self.now }
    {
        u64::from(self.vaddr) + u64::from(self.memsz)
    }

    /// The greater of these ends, of a segment with bytes and of any; 0 of what is no segment.
    pub fn reach(&self) -> u64
        ensures { result ≡ reach self.now }
    {
        let loaded = if self.has_bytes() { self.load_end() } else { 0 };
        let run = if self.is_segment() { self.run_end() } else { 0 };
        loaded.max(run)
    }

    /// Whether both are loaded to one address.
    fn shares(&self, other: &ProgramHeader) -> bool
        ensures { result ≡ share self.now other.now }
    {
        self.has_bytes()
            && other.has_bytes()
            && u64::from(self.paddr) < other.load_end()
            && u64::from(other.paddr) < self.load_end()
    }
}

/// The header at a place.
#[tactic(auto, unfolding(crate::specs::ProgramHeaders::header_at))]
fn header_at(file: &[u8], at: usize) -> ProgramHeader
    requires { at + 32 ≤ length file.now }
    ensures { result ≡ header_at file.now at }
{
    ProgramHeader {
        kind: u32_at(file, at),
        offset: u32_at(file, at + 4),
        vaddr: u32_at(file, at + 8),
        paddr: u32_at(file, at + 12),
        filesz: u32_at(file, at + 16),
        memsz: u32_at(file, at + 20),
    }
}

/// How many program headers there are.
pub fn header_count(file: &[u8]) -> usize
    requires { 52 ≤ length file.now }
    ensures { result ≡ e_phnum file.now }
{
    u16_at(file, 44) as usize
}

/// Program header `number`, counted from 0.
pub fn program_header(file: &[u8], number: usize) -> ProgramHeader
    requires table { HasTable file.now }
    requires there { number < e_phnum file.now }
    ensures { result ≡ program_header file.now number }
{
    header_at(file, u32_at(file, 28) as usize + 32 * number)
}

/// Whether so many addresses from the first on lie in the greatest RAM.
fn lies_in_ram(first: u32, size: u32) -> bool
    ensures { result ≡ lies_in_ram first size }
{
    let end = u64::from(first) + u64::from(size);
    size == 0 || (RAM_BASE <= first && end <= u64::from(RAM_BASE + MAX_RAM))
}

fn check_header(file: &[u8], header: &ProgramHeader) -> Result<(), ElfFault>
    ensures { Checks result (first (header_rows file.now header.now)) }
{
    let in_ram = lies_in_ram(header.paddr, header.filesz)
        && lies_in_ram(header.vaddr, header.memsz);
    let end = u64::from(header.offset) + u64::from(header.filesz);
    refuse_if(header.kind == 2 || header.kind == 3, ElfFault::Dynamic)?;
    refuse_if(
        header.kind == 1 && header.memsz < header.filesz,
        ElfFault::BadSegment,
    )?;
    refuse_if(
        header.has_bytes() && (file.len() as u64) < end,
        ElfFault::Truncated,
    )?;
    refuse_if(header.is_segment() && !in_ram, ElfFault::OutsideRam)
}

/// Tests each program header, in order.
pub fn check_headers(file: &[u8]) -> Result<(), ElfFault>
    requires { HasTable file.now }
    ensures { Checks result (first (flat_map (header_rows file.now) (program_headers file.now))) }
{
    for number in 0..header_count(file) {
        check_header(file, &program_header(file, number))?;
    }
    Ok(())
}

fn any_has_bytes(file: &[u8]) -> bool
    requires { HasTable file.now }
    ensures { result ≡ list_any has_bytes (program_headers file.now) }
{
    for number in 0..header_count(file) {
        if program_header(file, number).has_bytes() {
            return true;
        }
    }
    false
}

/// Whether a header behind the first so many is loaded to an address of this one.
fn shares_later(file: &[u8], header: &ProgramHeader, from: usize) -> bool
    requires table { HasTable file.now }
    requires from { from ≤ e_phnum file.now }
    ensures { result ≡ list_any (share header.now) (numbered (program_header file.now) from (e_phnum file.now - from)) }
{
    for number in from..header_count(file) {
        if header.shares(&program_header(file, number)) {
            return true;
        }
    }
    false
}

fn overlap(file: &[u8]) -> bool
    requires { HasTable file.now }
    ensures { result ≡ overlap (program_headers file.now) }
{
    for number in 0..header_count(file) {
        if shares_later(file, &program_header(file, number), number + 1) {
            return true;
        }
    }
    false
}

/// Tests the segments together.
pub fn check_image(file: &[u8]) -> Result<(), ElfFault>
    requires { HasTable file.now }
    ensures { Checks result (first (image_rows (program_headers file.now))) }
{
    refuse_if(!any_has_bytes(file), ElfFault::Empty)?;
    refuse_if(overlap(file), ElfFault::Overlap)
}
