//! The law of the first fault, the contract of a function that does nothing.
ghost use Rattle.std.specs.Prelude.{◌≡◌};
ghost use Rattle.bloom_forms.specs.Faults.{fault_of};
ghost use Rattle.bloom_forms.specs.FirstFault.{first_fault};
ghost use Rattle.bloom_forms.specs.Form.{Form};

/// The first fault of a module, which the check finds by arrows and sets of bits, is that by what is
/// read: what reads a port, itself or by scratches, is momentary, and a rule
/// is recursive where its head is in the cone of its body.
pub fn fault_law()
    ensures { (m : Form) → fault_of m ≡ first_fault m }
{}
