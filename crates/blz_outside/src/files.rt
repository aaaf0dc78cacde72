//! A source of files that counts its faults.
ghost use Rattle.std.specs.Prelude.{◌≡◌, ◌<◌, ◌≤◌, ℕ, Bool, [], Option, IsTrue, IsSome, IsErr, IfSome, IfNone, OnSome, length, vec_len};
ghost use Rattle.blz_outside.specs.Counts.{Rose};
ghost use Rattle.blz_outside.specs.Files.{FileMap, told_bytes, OnWhole, OnMore, OnFailed, UnlessFailed};
ghost use Rattle.blz_outside.specs.declared.files.ReadFail.TheVariants.{NoMemory};

use std::alloc::AllocError;
use thiserror::Error;

/// The answer of a read that didn't fail.
#[derive(Clone, Copy, Debug, PartialEq, Eq)]
pub enum End {
    /// The whole file was read.
    Whole,

    /// The file is longer than the limit.
    More,
}

/// Why a read failed.
#[derive(Debug, Drop, PartialEq, Eq, Error)]
pub enum ReadFail {
    /// The file isn't there or couldn't be read. The source counted a fault.
    #[error("the file could not be read")]
    Failed,

    /// Memory ran out. No fault was counted.
    #[error("out of memory")]
    NoMemory,
}

impl From<AllocError> for ReadFail {
    ghost from_gives = { λ _ fail. fail ≡ NoMemory };

    fn from(_fault: AllocError) -> ReadFail {
        ReadFail::NoMemory
    }
}

/// A source of files.
pub trait Files {
    /// The bytes of each file by its name, where they are told.
    ghost held: { Self → Option FileMap };

    /// Whether reads fail only for want of the file.
    ghost steady: { Self → Bool };

    /// The count of the reads that failed.
    ghost faults: { Self → ℕ };

    /// Reads the file of this name, where it has at most `most` bytes, in place of what `into` held.
    /// After an error nothing is said of `into`.
    fn read(&mut self, name: &str, most: usize, into: &mut Vec<u8>) -> Result<End, ReadFail>
        // A read changes neither the files nor whether the source is steady.
        ensures held { held self.new ≡ held self.old }
        ensures steady { steady self.new ≡ steady self.old }

        // `Failed` comes only where the count rose, and every other answer leaves the count.
        ensures never_falls { faults self.old ≤ faults self.new }
        ensures failed_rose { OnFailed result (Rose (faults self.old) (faults self.new)) }
        ensures others_keep { UnlessFailed result (faults self.new ≡ faults self.old) }

        // `Whole` gives the bytes of a file that has at most `most`.
        ensures whole_bytes { OnWhole result
            (IfSome (told_bytes (held self.old) name.now) (λ bytes. into.new.items ≡ bytes)) }
        ensures whole_within { OnWhole result (vec_len into.new ≤ most) }

        // `More` gives none of the bytes of a file that has more.
        ensures more_empty { OnMore result (into.new.items ≡ []) }
        ensures more_longer { OnMore result
            (IfSome (told_bytes (held self.old) name.now) (λ bytes. most < length bytes)) }

        // A steady source never fails at a file that it holds, and gives no other file.
        ensures steady_held { IsTrue (steady self.old) →
            OnSome (told_bytes (held self.old) name.now) (OnFailed result ⊥) }
        ensures steady_absent { IsTrue (steady self.old) →
            IfNone (told_bytes (held self.old) name.now) (IsErr result) };

    /// A steady source tells its files.
    ghost steady_is_told: { (files : Self) → IsTrue (steady files) → IsSome (held files) };
}
