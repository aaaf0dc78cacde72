//! Sets of attributes, and dependencies between them.
ghost use Rattle.std.specs.Prelude.{ℕ, ◌≡◌, ◌<◌, ◌^◌, ◌↔◌, IsTrue, bit_and, bit_or};
ghost use Rattle.std.specs.Int.{IsBitSet};

/// A set of attribute numbers below 64, as bits of a word: the lowest bit tells whether 0 is in it.
#[derive(Clone, Copy, PartialEq, Eq)]
pub struct Attrs {
    /// One bit for each attribute.
    pub bits: u64,
}

/// A dependency: a set that holds all of `from` is to hold all of `to`.
#[derive(Clone, Copy, PartialEq, Eq)]
pub struct Fd {
    /// The attributes from which the dependency leads.
    pub from: Attrs,
    /// The attributes to which it leads.
    pub to: Attrs,
}

impl Attrs {
    ghost use Rattle.blz_value.specs.Bits.{bit_of, meets};
    ghost use Rattle.blz_value.specs.Closure.{within};

    /// The set with these bits.
    pub fn from_bits(bits: u64) -> Attrs
        ensures { result.bits ≡ bits }
    {
        Attrs { bits }
    }

    /// The set of this one attribute, which is empty for a number from 64 on.
    #[tactic(auto, unfolding(crate::specs::Bits::bit_of))]
    pub fn of(attr: usize) -> Attrs
        ensures { result.bits ≡ bit_of attr }
    {
        Attrs {
            bits: if attr < 64 { 1 << attr } else { 0 },
        }
    }

    /// The bits of the set.
    pub fn bits(self) -> u64
        ensures { result ≡ self.bits }
    {
        self.bits
    }

    /// Whether the set has no attribute.
    pub fn is_empty(self) -> bool
        ensures { IsTrue result ↔ (self.bits ≡ 0) }
    {
        self.bits == 0
    }

    /// Whether the attribute is in the set.
    pub fn has(self, attr: u8) -> bool
        requires { attr < 64 }
        ensures bit { IsTrue result ↔ IsBitSet self.bits attr }
        ensures computed { result ≡ meets (bit_of attr) self.bits }
    {
        self.bits & (1 << attr) != 0
    }

    /// Whether each attribute of this set is one of the other.
    #[tactic(auto, unfolding(crate::specs::Closure::within))]
    pub fn is_within(self, other: Attrs) -> bool
        ensures all { IsTrue result ↔ ((attr : ℕ) → IsBitSet self.bits attr → IsBitSet other.bits attr) }
        ensures computed { result ≡ within self.bits other.bits }
    {
        self.bits & other.bits == self.bits
    }

    /// Whether the two sets have an attribute in common.
    #[tactic(auto, unfolding(crate::specs::Bits::meets))]
    pub fn meets(self, other: Attrs) -> bool
        ensures some { IsTrue result ↔ ((attr : ℕ) × (IsBitSet self.bits attr × IsBitSet other.bits attr)) }
        ensures computed { result ≡ meets self.bits other.bits }
    {
        self.bits & other.bits != 0
    }

    /// The attributes that are in this set or in the other.
    pub fn union(self, other: Attrs) -> Attrs
        ensures { result.bits ≡ bit_or self.bits other.bits }
    {
        Attrs::from_bits(self.bits | other.bits)
    }

    /// The attributes that are in both sets.
    pub fn intersection(self, other: Attrs) -> Attrs
        ensures { result.bits ≡ bit_and self.bits other.bits }
    {
        Attrs::from_bits(self.bits & other.bits)
    }
}
