//! The inputs of a run.

ghost use Rattle.std.specs.Prelude.{◌≡◌, ◌+◌, ◌^◌, ◌<◌, ◌≤◌, ◌++◌, ◌∷◌, [], OnOk, OnErr};
ghost use Rattle.input_script.specs.Inputs as law;

use crate::inputs::{Input, What};
use std::alloc::{AllocError, Global};
use std::marker::Model;

/// The inputs of a run, in the order in which they come.
#[derive(Drop)]
pub struct Script {
    inputs: Vec<Input>,
    keys: u32,
}

impl Model for Script {
    ghost use Rattle.std.specs.Prelude.{◌≡◌, List};
    ghost use Rattle.input_script.specs.declared.inputs.Input.{Input};
    ghost use Rattle.input_script.specs.Inputs.{IsScript, keys_of};

    ghost Value = { List Input };

    ghost view = { λ script. script.inputs.items };

    ghost invariant = { λ script. IsScript script.inputs.items × (script.keys ≡ keys_of script.inputs.items) };
}

impl Script {
    /// The script of a run into which nothing comes. It takes no memory.
    pub fn empty(alloc: Global) -> Script
        ensures { result ≡ [] }
    {
        Script {
            inputs: Vec::new(alloc),
            keys: 0,
        }
    }

    /// The inputs.
    pub fn inputs(&self) -> &[Input]
        ensures inputs { result.now ≡ self.now }
        ensures script { law.IsScript self.now }
    {
        &self.inputs
    }

    /// How many of the inputs are bytes for the console.
    pub fn keys(&self) -> u32
        ensures keys { result ≡ law.keys_of self.now }
        ensures script { law.IsScript self.now }
    {
        self.keys
    }

    /// Appends an input that is not before any other.
    #[tactic(auto, using(crate::proofs::InputList::script_push, crate::proofs::InputList::keys_push))]
    pub(crate) fn push(&mut self, input: Input) -> Result<(), AllocError>
        requires order { law.AreUpTo input.tick self.old }
        requires line { law.NamesALine input.what }
        requires room { law.keys_of self.old < 4294967295 }
        ensures pushed { OnOk result (self.new ≡ self.old ++ input ∷ []) }
        ensures unchanged { OnErr result (self.new ≡ self.old) }
    {
        self.inputs.push(input)?;
        if let What::Key(_) = input.what {
            self.keys += 1;
        }
        Ok(())
    }
}
