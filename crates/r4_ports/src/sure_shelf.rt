//! A shelf that never fails.
ghost use Rattle.std.specs.Prelude.{◌≡◌, ◌≤◌, length, ◌∷◌, [], Some, None, IfOk, IsOk, IsErrOf};
ghost use Rattle.r4_ports.specs.Told.{Fetched};
ghost use Rattle.r4_ports.specs.FileList.{files_of};
ghost use Rattle.r4_ports.specs.declared.FetchFault.TheVariants.{Failed};

use crate::file_list::{bytes_of, first_bytes};
use crate::{FetchFault, PutFault, Shelf};
use std::alloc::Global;
use std::marker::Model;

/// A shelf that never fails, and whose counts are 0. A name that it lacks is an empty file. After a put it no longer
/// tells its files; it never tells its calls.
#[derive(Drop)]
pub struct SureShelf {
    files: Vec<(String, Vec<u8>)>,
    is_told: bool,
}

impl Model for SureShelf {
    ghost use Rattle.std.specs.Prelude.{Option};
    ghost use Rattle.std.specs.Coded.{coded_ℕ, coded_list, coded_option};
    ghost use Rattle.std.specs.FinMap.{code};
    ghost use Rattle.r4_ports.specs.Told.{Files};

    ghost Value = { Option Files };

    ghost coded = { coded_option (code (coded_list coded_ℕ) (coded_list coded_ℕ)) };

    ghost use Rattle.std.specs.Prelude.{Some, None, if◌then◌else◌};
    ghost use Rattle.r4_ports.specs.FileList.{files_of};

    ghost view = { λ s. if s.is_told then Some (files_of s.files.items) else None };
}

impl SureShelf {
    /// A shelf with these files; of two with one name the first counts.
    pub fn new(files: Vec<(String, Vec<u8>)>) -> SureShelf
        ensures { result ≡ Some (files_of files.items) }
    {
        SureShelf {
            files,
            is_told: true,
        }
    }
}

impl Shelf for SureShelf {
    ghost held = { λ s. s };

    ghost asked = { λ s. None };

    ghost fetch_faults = { λ s. 0 };

    ghost put_faults = { λ s. 0 };

    fn fetch(&mut self, alloc: Global, name: &str, cap: usize) -> Result<Vec<u8>, FetchFault>
        ensures bytes { IfOk result (λ v. Fetched self.old name.now cap v.items) }
        ensures at_most { IfOk result (λ v. length v.items ≤ cap) }
        ensures never_fails { ¬ IsErrOf result Failed }
        ensures state { self.new ≡ self.old }
    {
        Ok(first_bytes(alloc, bytes_of(&self.files, name), cap)?)
    }

    fn put(&mut self, _name: &str, _bytes: &[u8]) -> Result<(), PutFault>
        ensures never_fails { IsOk result }
        ensures state { self.new ≡ None }
    {
        self.is_told = false;
        Ok(())
    }
}
