//! A text of its own, seen as its bytes.
ghost use Rattle.std.specs.Prelude.{◌≡◌, ◌↔◌, ℕ, List, IfOk, IsTrue, nat_eq};
ghost use Rattle.std.specs.Str.{bytes_eq};
ghost use Rattle.std.proofs.Common.{rules};
ghost use Rattle.std.specs.Cmp.{partial_order_from_own_ties};
ghost use Rattle.std.specs.Cmp.Rules.{comparing, hashing};
ghost use Rattle.std.specs.Hash as fed;
ghost use Rattle.std.specs.Cmp.Lexicographic.{slice_cmp, pointwise, nat_list_cmp_total, nat_list_eq_equiv, texts_ties};
ghost use Rattle.std.specs.Cmp.{partial_equiv_from_equiv, partial_order_from_agreeing_total};
ghost use Rattle.std.specs.Ordering.{nat_cmp, as_partial_cmp};

use arrayvec::ArrayString;
use std::alloc::{AllocError, Global};
use std::cmp::Ordering;
use std::hash::{Hash, Hasher};
use std::marker::Model;

// The bytes of a text: up to 16 stand in the value itself.
#[derive(Debug, Drop)]
pub enum Bytes {
    Short(ArrayString<16>),
    Long(String),
}

/// A text in UTF-8, seen as the list of its bytes. One of up to 16 bytes takes no memory of its own.
#[derive(Debug, Drop)]
pub struct Str {
    bytes: Bytes,
}

impl Model for Str {
    ghost use Rattle.std.specs.Prelude.{List, ℕ};
    ghost use Rattle.blz_value.specs.Bytes.{bytes_of};

    ghost Value = { List ℕ };

    ghost view = { λ s. bytes_of s.bytes };
}

impl Str {
    /// A text of its own with these bytes.
    pub fn from_text(alloc: Global, text: &str) -> Result<Str, AllocError>
        ensures { IfOk result (λ s. s ≡ text.now) }
    {
        let bytes = match ArrayString::from(text) {
            Ok(short) => Bytes::Short(short),
            Err(_) => Bytes::Long(String::from_str(alloc, text)?),
        };
        Ok(Str { bytes })
    }

    /// The text, lent.
    pub fn as_str(&self) -> &str
        ensures { result.now ≡ self.now }
    {
        match &self.bytes {
            Bytes::Short(text) => text.as_str(),
            Bytes::Long(text) => text.as_str(),
        }
    }

    /// An equal text of its own.
    pub fn copy(&self) -> Result<Str, AllocError>
        ensures { IfOk result (λ s. s ≡ self.now) }
    {
        self.clone()
    }

    /// Whether the two texts have the same bytes.
    pub fn equals(&self, other: &Str) -> bool
        ensures same { IsTrue result ↔ (self.now ≡ other.now) }
        ensures computed { result ≡ bytes_eq self.now other.now }
    {
        self.as_str() == other.as_str()
    }
}

impl Clone for Str {
    ghost is_clone = { λ one clone. clone ≡ one };

    fn clone(&self) -> Result<Str, AllocError> {
        let bytes = match &self.bytes {
            Bytes::Short(text) => Bytes::Short(*text),
            Bytes::Long(text) => Bytes::Long(text.clone()?),
        };
        Ok(Str { bytes })
    }
}

impl PartialEq for Str {
    ghost eq = { pointwise nat_eq };

    ghost laws = { partial_equiv_from_equiv nat_list_eq_equiv };

    fn eq(&self, other: &Str) -> bool {
        self.as_str() == other.as_str()
    }
}

impl Eq for Str {
    ghost laws = { nat_list_eq_equiv };
}

impl Ord for Str {
    ghost cmp = { slice_cmp nat_cmp };

    ghost total = { nat_list_cmp_total };

    ghost matches_partial_cmp = { Prim.search (comparing, rules) };

    ghost matches_eq = { texts_ties };

    fn cmp(&self, other: &Str) -> Ordering {
        self.as_str().cmp(other.as_str())
    }
}

impl PartialOrd for Str {
    ghost partial_cmp = { as_partial_cmp (slice_cmp nat_cmp) };

    ghost laws = { partial_order_from_own_ties (Prim.search (comparing, rules)) (Prim.search (comparing, rules)) };

    fn partial_cmp(&self, other: &Str) -> Option<Ordering> {
        Some(self.cmp(other))
    }
}

impl Hash for Str {
    ghost hash_input = { fed.str };

    ghost respects_eq = { Prim.search (hashing, rules) };

    fn hash<H: Hasher>(&self, state: &mut H) {
        self.as_str().hash(state);
    }
}
