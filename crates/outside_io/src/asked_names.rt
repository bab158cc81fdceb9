ghost use Rattle.std.specs.Prelude.{◌≡◌, ◌∷◌, ◌++◌, [], OnOk, OnErr};

use std::alloc::{AllocError, Global};
use std::marker::Model;

/// The names of the reads of some files, in their order. Contracts see by them which files were read, and how
/// often.
#[derive(Drop)]
pub struct AskedNames {
    names: Vec<String>,
}

impl Model for AskedNames {
    ghost use Rattle.std.specs.Prelude.{ℕ, List, map, string_bytes};

    ghost Value = { List (List ℕ) };

    ghost view = { λ s. map string_bytes s.names.items };
}

impl AskedNames {
    /// No names.
    pub fn new(alloc: Global) -> AskedNames
        ensures { result ≡ [] }
    {
        AskedNames {
            names: Vec::new(alloc),
        }
    }

    /// Puts a name after the others.
    pub fn push(&mut self, alloc: Global, name: &str) -> Result<(), AllocError>
        ensures ok { OnOk result (self.new ≡ self.old ++ name.now ∷ []) }
        ensures err { OnErr result (self.new ≡ self.old) }
    {
        let name = String::from_str(alloc, name)?;
        self.names.push(name)?;
        Ok(())
    }
}
