//! Reading an object file from front to back.

ghost use Rattle.std.specs.Prelude.{◌≡◌, ◌≤◌, [], codes, IfOk, Ok};
ghost use Rattle.rt_words.specs.Chain.{when};
ghost use Rattle.rt_image.specs.ObjectFile.{ObjectValue, IsObject, label, labels, object_value, spelling};
ghost use Rattle.rt_image.specs.ObjectReading.{Reads, Gives, number_at, bytes_at, letter_at, magic_at, label_at, labels_at, header_at, spelled_object};

use crate::fault::{ImageFault, ReadFault};
use crate::object::{Object, Symbol};
use byteorder::{ByteOrder, LittleEndian};
use rt_token::is_word;
use rt_words::{MAX_IMAGE, MAX_LINE, MAX_SYMBOLS, RAM_BASE};
use std::alloc::Global;

/// What stands before the image in a file.
#[derive(Drop)]
struct FileHeader {
    entry: u32,
    size: u32,
    count: u32,
}

/// The fault, unless the test holds.
pub fn check(holds: bool, fault: ImageFault) -> Result<(), ImageFault>
    ensures { Reads (λ x. x) result (when holds fault tt) }
{
    if holds { Ok(()) } else { Err(fault) }
}

fn u16_at(bytes: &[u8]) -> Result<(u16, &[u8]), ImageFault>
    ensures { Reads (λ x. (x.0, x.1.now)) result (number_at 2 bytes.now) }
{
    check(bytes.len() >= 2, ImageFault::Truncated)?;
    Ok((LittleEndian::read_u16(bytes), &bytes[2..]))
}

/// A number of four bytes, the lowest first, and what stands after it.
pub fn u32_at(bytes: &[u8]) -> Result<(u32, &[u8]), ImageFault>
    ensures { Reads (λ x. (x.0, x.1.now)) result (number_at 4 bytes.now) }
{
    check(bytes.len() >= 4, ImageFault::Truncated)?;
    Ok((LittleEndian::read_u32(bytes), &bytes[4..]))
}

/// So many bytes, and what stands after them.
pub fn bytes_at(len: usize, bytes: &[u8]) -> Result<(&[u8], &[u8]), ImageFault>
    ensures { Reads (λ x. (x.0.now, x.1.now)) result (bytes_at len bytes.now) }
{
    check(bytes.len() >= len, ImageFault::Truncated)?;
    Ok(bytes.split_at(len))
}

/// What stands after the letter.
pub fn letter_at(letter: u8, bytes: &[u8]) -> Result<&[u8], ImageFault>
    ensures { Reads (λ x. x.now) result (letter_at letter bytes.now) }
{
    match bytes {
        [] => Err(ImageFault::Truncated),
        [first, rest @ ..] => {
            check(*first == letter, ImageFault::BadMagic)?;
            Ok(rest)
        }
    }
}

/// What stands after `RTI1`.
fn magic_at(bytes: &[u8]) -> Result<&[u8], ImageFault>
    ensures { Reads (λ x. x.now) result (magic_at (codes "RTI1") bytes.now) }
{
    let rest = letter_at(b'R', bytes)?;
    let rest = letter_at(b'T', rest)?;
    let rest = letter_at(b'I', rest)?;
    letter_at(b'1', rest)
}

#[tactic(auto, unfolding(crate::specs::ObjectReading::label_at))]
fn symbol_at<'a>(
    size: u32,
    before: &[u8],
    bytes: &'a [u8],
) -> Result<(Symbol<'a>, &'a [u8]), ImageFault>
    requires { size ≤ MAX_IMAGE }
    ensures { Reads (λ x. (label x.0, x.1.now)) result (label_at size before.now bytes.now) }
{
    let (len, rest) = u16_at(bytes)?;
    check(1 <= len && len <= MAX_LINE, ImageFault::BadField)?;
    let (name, rest) = bytes_at(len as usize, rest)?;
    check(is_word(name), ImageFault::BadField)?;
    check(before.cmp(name).is_lt(), ImageFault::NotCanonical)?;
    let (address, rest) = u32_at(rest)?;
    let in_image = RAM_BASE <= address && address <= RAM_BASE + size;
    check(in_image, ImageFault::BadField)?;
    Ok((Symbol { name, address }, rest))
}

fn symbols_at<'a>(
    alloc: Global,
    count: u32,
    size: u32,
    bytes: &'a [u8],
) -> Result<(Vec<Symbol<'a>>, &'a [u8]), ReadFault>
    requires { size ≤ MAX_IMAGE }
    ensures { Gives (λ x. (labels x.0.items, x.1.now)) result (labels_at count size [] bytes.now) }
{
    let mut symbols: Vec<Symbol<'a>> = Vec::new(alloc);
    let mut before: &[u8] = &[];
    let mut rest = bytes;
    for _ in 0..count {
        let (symbol, after) = symbol_at(size, before, rest)?;
        symbols.push(symbol)?;
        before = symbol.name;
        rest = after;
    }
    Ok((symbols, rest))
}

#[tactic(auto, unfolding(crate::specs::ObjectReading::header_at))]
fn header_at(bytes: &[u8]) -> Result<(FileHeader, &[u8]), ImageFault>
    ensures reads { Reads (λ x. (record { entry = x.0.entry; size = x.0.size; count = x.0.count }, x.1.now)) result
        (header_at bytes.now) }
    ensures small { IfOk result (λ x. x.0.size ≤ MAX_IMAGE) }
{
    let rest = magic_at(bytes)?;
    let (entry, rest) = u32_at(rest)?;
    let (size, rest) = u32_at(rest)?;
    check(size <= MAX_IMAGE, ImageFault::BadField)?;
    let (count, rest) = u32_at(rest)?;
    check(count <= MAX_SYMBOLS, ImageFault::BadField)?;
    Ok((FileHeader { entry, size, count }, rest))
}

#[tactic(auto, unfolding(crate::specs::ObjectReading::spelled_object))]
fn whole_file(alloc: Global, file: &[u8]) -> Result<Object<'_>, ReadFault>
    ensures { Gives object_value result (spelled_object file.now) }
{
    let (header, rest) = header_at(file)?;
    let (bytes, rest) = bytes_at(header.size as usize, rest)?;
    let (symbols, rest) = symbols_at(alloc, header.count, header.size, rest)?;
    check(rest.is_empty(), ImageFault::Trailing)?;
    Ok(Object {
        entry: header.entry,
        bytes,
        symbols,
    })
}

/// The object that the bytes of a file spell, all of the bytes.
///
/// # Errors
///
/// The first refusal that is met from front to back: at each field `Truncated`, then `BadField`,
/// then `NotCanonical`, and `Trailing` after the last. A magic of which a byte differs is
/// `BadMagic`. Or there is no memory for the symbols.
pub fn read_object(alloc: Global, file: &[u8]) -> Result<Object<'_>, ReadFault>
    // What is read is spelled so.
    ensures found { IfOk result (λ o. IsObject (object_value o) × (file.now ≡ spelling (object_value o))) }
    // What is spelled so is read, unless memory runs out.
    ensures only { (o : ObjectValue) → IsObject o → file.now ≡ spelling o → Gives object_value result (Ok o) }
    // Which refusal it is.
    ensures exact { Gives object_value result (spelled_object file.now) }
{
    whole_file(alloc, file)
}
