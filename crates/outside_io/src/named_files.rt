ghost use Rattle.std.specs.Prelude.{◌≡◌, ◌≢◌, ℕ, List, None, Some, OnOk, OnErr};
ghost use Rattle.std.specs.Option.{option_map};
ghost use Rattle.outside_io.specs.Contents.{no_files, with_file, bytes_of};

use std::alloc::{AllocError, Global};
use std::collections::BTreeMap;
use std::marker::Model;

/// Named files, as a finite map from names to bytes.
#[derive(Drop)]
pub struct NamedFiles {
    files: BTreeMap<String, Vec<u8>>,
}

impl Model for NamedFiles {
    ghost use Rattle.outside_io.specs.Contents.{Contents, contents_code, contents};

    ghost Value = { Contents };

    ghost coded = { contents_code };

    ghost view = { λ s. contents s.files };
}

impl NamedFiles {
    /// No files.
    pub fn new(alloc: Global) -> NamedFiles
        ensures none { result ≡ no_files }
        ensures told { (name : List ℕ) → bytes_of result name ≡ None }
    {
        NamedFiles {
            files: BTreeMap::new(alloc),
        }
    }

    /// Puts a file in place of the one of that name, if there is one.
    pub fn put(&mut self, alloc: Global, name: &str, bytes: &[u8]) -> Result<(), AllocError>
        ensures ok { OnOk result (self.new ≡ with_file self.old name.now bytes.now) }
        ensures told { OnOk result (bytes_of self.new name.now ≡ Some bytes.now) }
        ensures others { OnOk result ((other : List ℕ) → other ≢ name.now →
            bytes_of self.new other ≡ bytes_of self.old other) }
        ensures err { OnErr result (self.new ≡ self.old) }
    {
        let name = String::from_str(alloc, name)?;
        let bytes = Vec::from_slice(alloc, bytes)?;
        self.files.insert(name, bytes)?;
        Ok(())
    }

    pub fn get(&self, name: &str) -> Option<&Vec<u8>>
        ensures { option_map (λ file. file.now.items) result ≡ bytes_of self.now name.now }
    {
        self.files.get(name)
    }
}
