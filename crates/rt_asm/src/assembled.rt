//! What a source gives.

ghost use Rattle.std.specs.Prelude.{◌≡◌, ◌≤◌, ◌+◌, length, IfOk, IsPermutation, MatchResult, Ok};
ghost use Rattle.rt_words.specs.Base.{base};
ghost use Rattle.rt_words.specs.Limits.{image_limit, symbol_limit};
ghost use Rattle.rt_image.specs.ObjectFile as file;
ghost use Rattle.rt_image.specs.ObjectFile.{IsObject};
ghost use Rattle.rt_asm.specs.Source.{started, IsRefusal};
ghost use Rattle.rt_asm.specs.Working.Objects.{IsComplete, IsWhole};

use crate::fault::{AsmFault, AsmKind, AssembleFault};
use crate::labels::Labels;
use rt_image::{Object, Symbol};
use std::alloc::{AllocError, Global};
use std::marker::Model;

/// What a source gives: an image that begins at 0x80000000, its entry and its labels. Only
/// [`assemble`](crate::assemble) makes one. A contract sees it as a `Program`.
#[derive(Drop)]
pub struct Assembled<'a> {
    pub(crate) entry: u32,
    pub(crate) bytes: Vec<u8>,
    pub(crate) labels: Vec<Symbol<'a>>,
}

impl<'a> Model for Assembled<'a> {
    ghost use Rattle.rt_image.specs.ObjectFile as file;
    ghost use Rattle.rt_asm.specs.Working.Objects.{IsComplete};
    ghost use Rattle.rt_asm.specs.Source.{Program};

    ghost Value = { Program };

    ghost view = { λ a. record { entry = a.entry; bytes = a.bytes.items; labels = file.labels a.labels.items } };

    ghost invariant = { λ a. IsComplete (record { entry = a.entry; bytes = a.bytes.items; labels = file.labels a.labels.items }) };
}

impl<'a> Assembled<'a> {
    /// What an image of these bytes and labels gives, which begins at `_start`.
    pub(crate) fn new(
        alloc: Global,
        labels: &Labels<'a>,
        bytes: Vec<u8>,
    ) -> Result<Assembled<'a>, AssembleFault>
        requires { IsWhole labels.now bytes.items }
        ensures labels { IfOk result (λ a. a.labels ≡ labels.now) }
        ensures bytes { IfOk result (λ a. a.bytes ≡ bytes.items) }
        ensures complete { IfOk result (λ a. IsComplete a) }
        ensures exact { MatchResult result (λ a. started labels.now ≡ Ok (a.entry, a.labels)) (λ fault. IsRefusal fault (started labels.now)) }
    {
        let Some(entry) = labels.address(b"_start") else {
            return Err(AssembleFault::Fault(AsmFault {
                line: 0,
                kind: AsmKind::NoEntry,
            }));
        };
        let labels = labels.symbols(alloc)?;
        Ok(Assembled {
            entry,
            bytes,
            labels,
        })
    }

    /// The address of `_start`, 0x80000000 to the end of the image.
    pub fn entry(&self) -> u32
        ensures value { result ≡ self.now.entry }
        ensures low { base ≤ result }
        ensures high { result ≤ base + length self.now.bytes }
    {
        self.entry
    }

    /// The bytes of the image, at most 1,048,576.
    pub fn bytes(&self) -> &[u8]
        ensures value { result.now ≡ self.now.bytes }
        ensures low { length result.now ≤ image_limit }
    {
        self.bytes.as_slice()
    }

    /// The labels with their addresses, at most 65,536, in the order of the source.
    pub fn labels(&self) -> &[Symbol<'a>]
        ensures value { file.labels result.now ≡ self.now.labels }
        ensures few { length result.now ≤ symbol_limit }
    {
        self.labels.as_slice()
    }

    /// The value of the object file: its symbols are the labels, in the order of their bytes.
    ///
    /// # Errors
    /// Want of memory.
    pub fn object(&self, alloc: Global) -> Result<Object<'_>, AllocError>
        ensures spelled { IfOk result (λ o. IsObject (file.object_value o)) }
        ensures entry { IfOk result (λ o. o.entry ≡ self.now.entry) }
        ensures bytes { IfOk result (λ o. o.bytes.now ≡ self.now.bytes) }
        ensures labels { IfOk result (λ o. IsPermutation self.now.labels (file.labels o.symbols.items)) }
    {
        in_order(alloc, self.entry, &self.bytes, &self.labels)
    }
}

/// How many letters of names are compared at once.
const PART_LEN: usize = 8;

/// How many letters of a name decide where it is put first. Names of more in common are rare.
const FRONT_LEN: usize = 64;

/// Up to eight letters of a name, from a place on, as a number: such numbers compare as the letters do.
fn letters_at(name: &[u8], at: usize) -> u64 {
    let Some(part) = name.get(at..) else {
        return 0;
    };
    if let Some(letters) = part.first_chunk::<PART_LEN>() {
        return u64::from_be_bytes(*letters);
    }
    let mut letters = [0; PART_LEN];
    letters[..part.len()].copy_from_slice(part);
    u64::from_be_bytes(letters)
}

/// Puts symbols in order by the first letters of their names: eight letters at a time, the last of them first, where those that tie
/// keep their order.
fn order_by_fronts(symbols: &mut Vec<Symbol<'_>>) -> Result<(), AllocError>
    ensures { IsPermutation symbols.old.items symbols.new.items }
{
    let mut longest = 0;
    for symbol in symbols.iter() {
        longest = longest.max(symbol.name.len());
    }
    let mut at = longest.min(FRONT_LEN).next_multiple_of(PART_LEN);
    while at > 0 {
        at -= PART_LEN;
        symbols.sort_by_cached_key(|symbol| letters_at(symbol.name, at))?;
    }
    Ok(())
}

/// An object of these bytes, whose symbols are the labels in the order of their bytes.
fn in_order<'a>(
    alloc: Global,
    entry: u32,
    bytes: &'a [u8],
    labels: &[Symbol<'a>],
) -> Result<Object<'a>, AllocError>
    requires { IsComplete (record { entry = entry; bytes = bytes.now; labels = file.labels labels.now }) }
    ensures spelled { IfOk result (λ o. IsObject (file.object_value o)) }
    ensures entry { IfOk result (λ o. o.entry ≡ entry) }
    ensures bytes { IfOk result (λ o. o.bytes.now ≡ bytes.now) }
    ensures labels { IfOk result (λ o. IsPermutation (file.labels labels.now) (file.labels o.symbols.items)) }
{
    let mut symbols = Vec::from_slice(alloc, labels)?;
    order_by_fronts(&mut symbols)?;
    // So that this finds them in order, as a rule, and needs one look at each.
    symbols.sort_by_key(|symbol| symbol.name)?;
    Ok(Object {
        entry,
        bytes,
        symbols,
    })
}
