//! Laws of closures, each the contract of a function that does nothing.
ghost use Rattle.std.specs.Prelude.{ℕ, ◌≡◌, List, IsTrue};
ghost use Rattle.blz_value.specs.Closure.{within, IsLeastClosed};
ghost use Rattle.blz_value.specs.declared.attrs.Fd.{Fd};

/// Each set has one closure, a larger set has no smaller one, and a closure is its own
/// closure.
pub fn closure_law()
    ensures some { (start : ℕ) (fds : List Fd) → (s : ℕ) × IsLeastClosed start fds s }
    ensures one { (start : ℕ) (fds : List Fd) (s t : ℕ) → IsLeastClosed start fds s → IsLeastClosed start fds t → s ≡ t }
    ensures monotone { (a b : ℕ) (fds : List Fd) (s t : ℕ) → IsTrue (within a b) → IsLeastClosed a fds s → IsLeastClosed b fds t → IsTrue (within s t) }
    ensures idempotent { (start : ℕ) (fds : List Fd) (s : ℕ) → IsLeastClosed start fds s → IsLeastClosed s fds s }
{}
