//! The image of an ELF file.

ghost use Rattle.std.specs.Prelude.{◌≡◌, ◌+◌, ◌<◌, ◌≤◌, length, replicate, None, IfOk, IsTrue};
ghost use Rattle.std.specs.List.{flat_map};
ghost use Rattle.rt_words.specs.Base.{base};
ghost use Rattle.rt_elf.specs.Fields.{e_phnum};
ghost use Rattle.rt_elf.specs.ProgramHeaders.{program_header, program_headers};
ghost use Rattle.rt_elf.specs.Spans.{has_bytes, load_end};
ghost use Rattle.rt_elf.specs.LoadedImage.{image_size, loaded};
ghost use Rattle.rt_elf.specs.Refusals.{first, header_rows};
ghost use Rattle.rt_elf.specs.Working.Checks.{HasTable, Lays};

use crate::program_headers::{ProgramHeader, header_count, program_header};
use rt_words::{MAX_IMAGE, RAM_BASE};
use std::alloc::{AllocError, Global};

/// How many bytes the image has.
pub fn image_size(file: &[u8]) -> u64
    requires { HasTable file.now }
    ensures { result ≡ image_size file.now }
{
    let mut end: u64 = 0;
    for number in 0..header_count(file) {
        end = end.max(program_header(file, number).reach());
    }
    end.saturating_sub(u64::from(RAM_BASE))
}

/// Puts the bytes of a segment where it is loaded.
fn lay(image: &mut [u8], file: &[u8], header: &ProgramHeader)
    requires some { IsTrue (has_bytes header.now) }
    requires low { base ≤ header.now.paddr }
    requires high { load_end header.now ≤ base + length image.old }
    requires whole { header.now.offset + header.now.filesz ≤ length file.now }
    ensures { Lays file.now header.now image.old image.new }
{
    let first = (header.paddr - RAM_BASE) as usize;
    let at = header.offset as usize;
    let len = header.filesz as usize;
    image[first..first + len].copy_from_slice(&file[at..at + len]);
}

/// The same for program header `number`, if it is a segment with bytes.
fn lay_header(image: &mut [u8], file: &[u8], number: usize)
    requires table { HasTable file.now }
    requires fit { first (flat_map (header_rows file.now) (program_headers file.now)) ≡ None }
    requires there { number < e_phnum file.now }
    requires sized { length image.old ≡ image_size file.now }
    ensures { Lays file.now (program_header file.now number) image.old image.new }
{
    let header = program_header(file, number);
    if header.has_bytes() {
        lay(image, file, &header);
    }
}

/// Puts the bytes of all segments where they are loaded.
fn fill(image: &mut [u8], file: &[u8])
    requires table { HasTable file.now }
    requires fit { first (flat_map (header_rows file.now) (program_headers file.now)) ≡ None }
    requires zeros { image.old ≡ replicate (image_size file.now) 0 }
    ensures { image.new ≡ loaded file.now }
{
    let mut number = header_count(file);
    while number > 0 {
        number -= 1;
        lay_header(image, file, number);
    }
}

/// The image: the bytes of each segment where it is loaded, and zeros.
pub fn load_image(alloc: Global, file: &[u8]) -> Result<Vec<u8>, AllocError>
    requires table { HasTable file.now }
    requires fit { first (flat_map (header_rows file.now) (program_headers file.now)) ≡ None }
    ensures bytes { IfOk result (λ image. image.items ≡ loaded file.now) }
    ensures sized { IfOk result (λ image. length image.items ≡ image_size file.now) }
    ensures small { IfOk result (λ image. length image.items ≤ MAX_IMAGE) }
{
    let mut image = vec![in alloc; 0u8; image_size(file) as usize]?;
    fill(&mut image, file);
    Ok(image)
}
