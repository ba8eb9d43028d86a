//! The labels of a source.

ghost use Rattle.std.specs.Prelude.{◌≡◌, [], ◌∷◌, ◌++◌, length, is_none, IfOk, OnOk, MatchResult, Ok};
ghost use Rattle.rt_asm.specs.AllFaults.{new_label};
ghost use Rattle.rt_image.specs.ObjectFile.{labels};
ghost use Rattle.rt_asm.specs.Working.Emission.{Fails};
ghost use Rattle.rt_asm.specs.Labels.{address_in, address_of};
ghost use Rattle.rt_asm.specs.Layout.{with_label};
ghost use Rattle.rt_asm.specs.Transfers.{distance_to};

use crate::fault::{AsmKind, StepFault};
use crate::numbers::{distance, low_word};
use indexmap::IndexMap;
use rt_image::Symbol;
use rt_text::Target;
use std::alloc::{AllocError, Global};
use std::hash::{Hash, Hasher};
use std::marker::Model;

/// A name, which is hashed as a whole: a slice would be hashed byte by byte.
#[derive(Clone, Copy, PartialEq, Eq)]
pub(crate) struct Name<'a> {
    text: &'a [u8],
}

impl Hash for Name<'_> {
    ghost use Rattle.std.specs.Hash as fed;
    ghost use Rattle.std.specs.Cmp.Rules.{hashing};
    ghost use Rattle.std.proofs.Common.{rules};

    ghost hash_input = { λ name. fed.str name.text.now };

    ghost respects_eq = { Prim.search (hashing, rules) };

    fn hash<H: Hasher>(&self, state: &mut H) {
        state.write(self.text);
        state.write_u8(0xff);
    }
}

/// Names with their addresses, in the order of the source. A contract sees a list of them.
#[derive(Drop)]
pub struct Labels<'a> {
    addresses: IndexMap<Name<'a>, u32>,
}

impl<'a> Model for Labels<'a> {
    ghost use Rattle.std.specs.Prelude.{List};
    ghost use Rattle.rt_image.specs.ObjectFile.{Label};
    ghost use Rattle.rt_asm.specs.Working.LabelMap.{entry_labels};

    ghost Value = { List Label };

    ghost view = { λ l. entry_labels l.addresses.entries };
}

impl<'a> Labels<'a> {
    pub fn new(alloc: Global) -> Labels<'a>
        ensures { result ≡ [] }
    {
        Labels {
            addresses: IndexMap::new(alloc),
        }
    }

    pub fn len(&self) -> usize
        ensures { result ≡ length self.now }
    {
        self.addresses.len()
    }

    /// The address of a name.
    pub fn address(&self, name: &[u8]) -> Option<u32>
        ensures { result ≡ address_in self.now name.now }
    {
        self.addresses.get(&Name { text: name }).copied()
    }

    /// Adds a label with its address.
    pub fn add(&mut self, name: &'a [u8], address: u32) -> Result<(), StepFault>
        ensures { MatchResult result (λ _. with_label address self.old name.now ≡ Ok self.new) (λ fault. Fails fault (with_label address self.old name.now)) }
    {
        if self
            .addresses
            .insert(Name { text: name }, address)?
            .is_some()
        {
            return Err(StepFault::Fault(AsmKind::DuplicateLabel));
        }
        Ok(())
    }

    /// Adds a label, unless its name is there, and answers whether it was new.
    pub fn add_new(&mut self, name: &'a [u8], address: u32) -> Result<bool, AllocError>
        ensures is_new { IfOk result (λ is_new. is_new ≡ is_none (address_in self.old name.now)) }
        ensures added { OnOk result (self.new ≡ new_label address self.old name.now) }
    {
        let is_new = self.address(name).is_none();
        if is_new {
            self.add(name, address).map_err(|_| AllocError)?;
        }
        Ok(is_new)
    }

    /// The labels as an object file has them.
    pub fn symbols(&self, alloc: Global) -> Result<Vec<Symbol<'a>>, AllocError>
        ensures { IfOk result (λ symbols. labels symbols.items ≡ self.now) }
    {
        let mut symbols = Vec::with_capacity(alloc, self.addresses.len())?;
        for (name, address) in &self.addresses {
            symbols.push(Symbol {
                name: name.text,
                address: *address,
            })?;
        }
        Ok(symbols)
    }

    /// The number that a target is.
    pub fn number_of(&self, target: &Target) -> Result<u32, AsmKind>
        ensures { result ≡ address_of self.now target.now }
    {
        match target {
            Target::Label(name) => self.address(name.text()).ok_or(AsmKind::UndefinedLabel),
            Target::Number(number) => Ok(low_word(*number)),
        }
    }

    /// How far a target is from a place, modulo 2^32.
    pub fn distance_to(&self, place: u32, target: &Target) -> Result<u32, AsmKind>
        ensures { result ≡ distance_to self.now place target.now }
    {
        Ok(distance(place, self.number_of(target)?))
    }
}
