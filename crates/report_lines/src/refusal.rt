//! Why the program refuses what it was given.
use bloom_forms::ModuleFault;
use blz_value::{Items, Record, Str};
use topo_forms::TopoFault;

/// Why the program refuses what it was given, in the order of the checks.
#[derive(Debug, Drop)]
pub enum Refusal {
    /// The file is above its limit.
    TooLong {
        file: Str,
    },
    /// The topology is no TOML.
    NotToml,
    /// The topology breaks its form at this path.
    Form {
        path: Str,
    },
    /// The module in the file is no module text from this place on, counted from 1.
    ModuleText {
        file: Str,
        line: u32,
        column: u32,
    },
    /// The module in the file has this fault.
    Module {
        file: Str,
        fault: ModuleFault,
    },
    /// The topology has this fault.
    Topology(TopoFault),
    /// The data are no JSON.
    NotJson,
    /// The data of the source break their form at this row, 0 for all of them.
    DataForm {
        name: Str,
        row: u32,
    },
    /// The source has too many rows.
    DataTooMany {
        name: Str,
    },
    /// Two records disagree on a dependency. Both lists stand in the order of the attributes'
    /// numbers.
    FdBroken {
        from: Items<Str>,
        to: Items<Str>,
        first: Record,
        second: Record,
    },
    /// The schedule breaks its form at this line.
    ScheduleText {
        line: u32,
    },
    /// The component has no body.
    NoBody {
        component: Str,
    },
    /// No shell is left that fits the component.
    NoShell {
        component: Str,
    },
    /// The event or the step at this line is refused.
    Event {
        line: u32,
        kind: EventKind,
    },
    /// The event with this number, counted from 1, can't be made.
    Make {
        event: u32,
        kind: MakeKind,
    },
    /// The component can't be divided.
    Shard(ShardKind),
    /// The second of two schedules breaks its form at this line.
    SecondScheduleText {
        line: u32,
    },
    /// The event at this line of the second schedule is refused.
    SecondEvent {
        line: u32,
        kind: EventKind,
    },
    /// What is asked for can't be traced.
    Why(WhyKind),
}

/// Why an event is refused.
#[derive(Clone, Copy, Debug, PartialEq, Eq)]
pub enum EventKind {
    /// The instance isn't there, or the stream doesn't feed it so.
    NoInstance,
    /// The stream has no such message.
    NoMessage,
    /// The replica has taken all entries of the log.
    NothingToTake,
    /// A step gives too many rows.
    TooManyRows,
    /// There would be too many messages.
    TooManyMessages,
}

/// Why a schedule can't be made.
#[derive(Clone, Copy, Debug, PartialEq, Eq)]
pub enum MakeKind {
    /// There would be too many events.
    TooManyEvents,
    /// A step gives too many rows.
    TooManyRows,
    /// There would be too many messages.
    TooManyMessages,
}

/// Why a component can't be divided.
#[derive(Clone, Copy, Debug, PartialEq, Eq)]
pub enum ShardKind {
    /// No component has this name.
    NoComponent,
    /// The component has no module.
    NoModule,
    /// The component is in a cycle.
    InCycle,
    /// A port of the component has no such column.
    NoColumn,
    /// The gate of an output lacks the attribute.
    NotInGate,
    /// A rule of a copy would open too many levels.
    TooDeep,
    /// A new name would be too long, or is taken.
    Names,
}

/// Why a record can't be traced.
#[derive(Clone, Copy, Debug, PartialEq, Eq)]
pub enum WhyKind {
    /// The schedule has too many events.
    TooManyEvents,
    /// There is no such stream, or no such replica of it.
    NoStream,
    /// No record stands at the index.
    NoRecord,
}
