//! A sink of text that counts its faults.
ghost use Rattle.std.specs.Prelude.{◌≡◌, ◌≤◌, ℕ, List, Option, IsOk, IfSome, OnOk, OnErr, length, take};
ghost use Rattle.blz_outside.specs.Counts.{Rose};
ghost use Rattle.blz_outside.specs.Sink.{Grows, Falls};

/// A piece wasn't written whole. The sink counted a fault.
#[derive(Debug, Drop, PartialEq, Eq)]
pub struct Failed;

/// A sink of text.
pub trait Sink {
    /// The bytes written so far, where they are told.
    ghost written: { Self → Option (List ℕ) };

    /// How many bytes more are sure to be taken, where it is told.
    ghost room: { Self → Option ℕ };

    /// The count of the writes that failed.
    ghost faults: { Self → ℕ };

    /// Writes the piece after what was written before.
    fn put(&mut self, piece: &[u8]) -> Result<(), Failed>
        // `Failed` comes only where the count rose, and `Ok` leaves the count.
        ensures never_falls { faults self.old ≤ faults self.new }
        ensures failed_rose { OnErr result (Rose (faults self.old) (faults self.new)) }
        ensures ok_keeps { OnOk result (faults self.new ≡ faults self.old) }

        // At `Ok` the whole piece was appended, and at `Failed` some count of its first bytes.
        ensures ok_grows { OnOk result (Grows (written self.old) (written self.new) piece.now) }
        ensures ok_falls { OnOk result (Falls (room self.old) (room self.new) (length piece.now)) }
        ensures failed_front { OnErr result ((count : ℕ) × (count ≤ length piece.now) ×
            Grows (written self.old) (written self.new) (take count piece.now) ×
            Falls (room self.old) (room self.new) count) }

        // A piece for which there is room is taken.
        ensures fitting { IfSome (room self.old) (λ left. length piece.now ≤ left → IsOk result) };
}
