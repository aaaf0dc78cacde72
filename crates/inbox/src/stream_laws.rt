//! Laws of dependencies at streams, each the contract of a function that does nothing.
ghost use Rattle.inbox.specs.StreamLaws.{
  CopiedLaw,
  RowsLaw,
  WidthLaw,
  TracedLaw,
  HeardLaw,
  TimestepsLaw,
  FeedsLaw,
  ArrivalsLaw,
  LifeLaw,
  StreamKeyLaw,
  PortKeyLaw,
  CarriedLaw,
  KeyLaw,
  EntryKeyLaw,
  WholeLaw,
  ClosureLaw,
  JointLaw,
  KeyedLaw,
  OutputKeyedLaw,
};

/// A row of an output has, in the columns that are their own roots, the values of one record that
/// arrived at a port that has all of them. A record stands in an emitted list of an output exactly
/// where it is a row over the timesteps of some life.
pub fn output_law()
    ensures copied { CopiedLaw }
    ensures rows { RowsLaw }
{}

/// An emitted record has as many values as its stream has columns. Where its stream upholds a
/// dependency and has all columns of it, the record has there the values of a record of a source.
pub fn traced_law()
    ensures wide { WidthLaw }
    ensures traced { TracedLaw }
{}

/// What an instance has heard, in any life, what stands in its timesteps and what its feeds have
/// emitted was sent to its ports by streams. So the timesteps of a life are arrivals of the component's
/// program: one set for each port, with records as wide as the port.
pub fn arriving_law()
    ensures heard { HeardLaw }
    ensures timesteps { TimestepsLaw }
    ensures feeds { FeedsLaw }
    ensures arrivals { ArrivalsLaw }
    ensures life { LifeLaw }
{}

/// A stream, and a port, that carries a key has its columns. Where the stream of an output carries a
/// key, it is that of the component's mode, and all streams into the ports with a note towards the
/// output carry it. At a port that has the columns of a key, a record has one key: by the names of
/// attributes, by their numbers, and by the places of columns.
pub fn key_law()
    ensures streams { StreamKeyLaw }
    ensures ports { PortKeyLaw }
    ensures carried { CarriedLaw }
    ensures rows { KeyLaw }
    ensures instances { EntryKeyLaw }
{}

/// A dependency that is usable at a component has all of its second side where a port with a stream has
/// all of its first, so the closure of a gate stays in the columns of such a port. Over data that hold
/// the dependencies it holds between any two records that were sent to the component's ports. So the
/// timesteps of a component are keyed as the split law asks.
pub fn joint_law()
    ensures whole { WholeLaw }
    ensures closure { ClosureLaw }
    ensures joint { JointLaw }
    ensures keyed { KeyedLaw }
    ensures outputs { OutputKeyedLaw }
{}
