//! The labels of a source, each with its address.

ghost use Rattle.std.specs.Prelude.{◌≡◌, None, IsNone, OnOk, IfOk, [], ◌∷◌, ◌++◌};
ghost use Rattle.mips_text.specs.Coded.{label_at};

use indexmap::IndexMap;
use std::alloc::{AllocError, Global};
use std::marker::Model;

/// Labels with their addresses, in the order of the source.
#[derive(Drop)]
pub struct Labels {
    map: IndexMap<Vec<u8>, u32>,
}

impl Model for Labels {
    ghost use Rattle.std.specs.Prelude.{List, ℕ};
    ghost use Rattle.mips_asm.specs.LabelsOf.{labels_shown};

    ghost Value = { List (List ℕ × ℕ) };

    ghost view = { λ s. labels_shown s.map.entries };
}

impl Labels {
    /// No labels.
    pub fn new(alloc: Global) -> Labels
        ensures { result ≡ [] }
    {
        Labels {
            map: IndexMap::new(alloc),
        }
    }

    /// The address of a label.
    pub fn address_of(&self, name: &[u8]) -> Option<u32>
        ensures { result ≡ label_at self.now name.now }
    {
        self.map.get(name).copied()
    }

    /// Adds a label that is not there yet.
    pub fn add(&mut self, alloc: Global, name: &[u8], address: u32) -> Result<(), AllocError>
        requires { label_at self.old name.now ≡ None }
        ensures { OnOk result (self.new ≡ self.old ++ (name.now, address) ∷ []) }
    {
        self.map.insert(Vec::from_slice(alloc, name)?, address)?;
        Ok(())
    }
}
