//! Files in memory, of which any call can be made to fail.
ghost use Rattle.std.specs.Prelude.{◌≡◌, ◌<◌, ◌≤◌, ◌==◌, ◌↔◌, [], Some, map, length, vec_len, vec_capacity, option_map, IfSome, IsErrOf, IsNone};
ghost use Rattle.blz_outside.specs.Counts.{raised_count};
ghost use Rattle.blz_outside.specs.Files.{OnWhole, OnMore, OnFailed, UnlessFailed};
ghost use Rattle.blz_outside.specs.MemFiles.{file_of, bytes_at, FailsAt, TakesMemory};
ghost use Rattle.blz_outside.specs.declared.files.ReadFail;

use crate::counts::raise;
use crate::files::{End, Files, ReadFail};
use std::marker::Model;

/// Files in memory. The first file with a name counts, and a read of a missing name is a fault.
#[derive(Drop)]
pub struct MemFiles {
    files: Vec<(String, Vec<u8>)>,
    failing: Vec<u64>,
    calls: u64,
    faults: u64,
}

impl Model for MemFiles {
    ghost use Rattle.std.specs.Prelude.{map};
    ghost use Rattle.blz_outside.specs.MemFiles.{MemFilesView, file_of};

    ghost Value = { MemFilesView };

    ghost view = { λ source. record {
      files = map file_of source.files.items;
      failing = source.failing.items;
      calls = source.calls;
      faults = source.faults;
    } };
}

impl MemFiles {
    /// Files of these names and bytes. The calls of `read` whose numbers, counted from 1, are in
    /// `failing` are to fail.
    pub fn new(files: Vec<(String, Vec<u8>)>, failing: Vec<u64>) -> MemFiles
        ensures { result ≡ record {
          files = map file_of files.items;
          failing = failing.items;
          calls = 0;
          faults = 0;
        } }
    {
        MemFiles {
            files,
            failing,
            calls: 0,
            faults: 0,
        }
    }

    // The bytes of the file with the name, unless the last call counted is to fail.
    fn readable(&self, name: &str) -> Option<&[u8]>
        ensures none { IsNone result ↔ FailsAt self.now self.now.calls name.now }
        ensures some { IfSome result (λ bytes. bytes_at self.now.files name.now ≡ Some bytes.now) }
    {
        if self.failing.contains(&self.calls) {
            return None;
        }
        find(&self.files, name)
    }
}

impl Files for MemFiles {
    ghost held = { λ source. Some (bytes_at source.files) };

    ghost steady = { λ source. length source.failing == 0 };

    ghost faults = { λ source. source.faults };

    ghost use Rattle.std.proofs.Common.{rules};

    ghost steady_is_told = { λ source _. Prim.search rules };

    fn read(&mut self, name: &str, most: usize, into: &mut Vec<u8>) -> Result<End, ReadFail>
        // The files stay, and so does the list of the calls that are to fail.
        ensures files { self.new.files ≡ self.old.files }
        ensures failing { self.new.failing ≡ self.old.failing }

        // The call is counted. It fails exactly where its number is listed or no file has the name.
        ensures counted { self.new.calls ≡ raised_count self.old.calls }
        ensures fails { IsErrOf result ReadFail.Failed ↔ FailsAt self.old self.new.calls name.now }

        // `Failed` is one fault more, and every other answer leaves the count.
        ensures never_falls { self.old.faults ≤ self.new.faults }
        ensures failed_counted { OnFailed result (self.new.faults ≡ raised_count self.old.faults) }
        ensures others_keep { UnlessFailed result (self.new.faults ≡ self.old.faults) }

        // `Whole` gives the bytes of a file that has at most `most`.
        ensures whole_bytes { OnWhole result (bytes_at self.old.files name.now ≡ Some into.new.items) }
        ensures whole_within { OnWhole result (vec_len into.new ≤ most) }

        // `More` gives none of the bytes of a file that has more.
        ensures more_empty { OnMore result (into.new.items ≡ []) }
        ensures more_longer { OnMore result
            (IfSome (bytes_at self.old.files name.now) (λ bytes. most < length bytes)) }

        // Memory is taken only for a file that is to be read and that `into` has no room for.
        ensures no_memory { IsErrOf result ReadFail.NoMemory →
            TakesMemory self.old name.now most (vec_capacity into.old) }
    {
        self.calls = raise(self.calls);
        let Some(bytes) = self.readable(name) else {
            self.faults = raise(self.faults);
            return Err(ReadFail::Failed);
        };
        into.clear();
        if bytes.len() > most {
            return Ok(End::More);
        }
        into.extend_from_slice(bytes)?;
        Ok(End::Whole)
    }
}

// The bytes of the first file with the name.
fn find<'a>(files: &'a [(String, Vec<u8>)], name: &str) -> Option<&'a [u8]>
    ensures { option_map (λ bytes. bytes.now) result ≡ bytes_at (map file_of files.now) name.now }
{
    for file in files {
        if file.0.as_str() == name {
            return Some(file.1.as_slice());
        }
    }
    None
}
