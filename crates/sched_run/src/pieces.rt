//! Pieces of lines, with names that the topology lends. The same few stand before and behind the indexes of
//! deliveries, so the text of such a piece is made once and kept, until another takes its slot.
ghost use Rattle.std.specs.Prelude.{◌≡◌, ◌<◌, ◌*◌, ◌^◌, ◌++◌, Some, IfOk, OnOk, codes, length};
ghost use Rattle.std.specs.Fmt.{decimal};
ghost use Rattle.topo_forms.specs.View.{View, component_at, port_at};
ghost use Rattle.sched_run.specs.Code.Pieces.{AreTexts, HasPieceNames, HasPieceText, IsSmallPiece, piece_text};

use blz_value::Str;
use itoa::Buffer;
use std::alloc::{AllocError, Global};
use topo_forms::Valid;

/// Adds a number in decimal digits.
pub(crate) fn push_number(number: u32, into: &mut Vec<u8>) -> Result<(), AllocError>
    ensures text { OnOk result (into.new.items ≡ into.old.items ++ decimal number) }
    ensures small { number < 2 ^ 32 }
{
    // As the number of most replicas, it has one digit.
    if number < 10 {
        into.push(b'0' + number as u8)?;
        return Ok(());
    }
    let mut buffer = Buffer::new();
    into.extend_from_slice(buffer.format(number).as_bytes())
}

/// Adds a name.
pub(crate) fn push_name(name: &Str, into: &mut Vec<u8>) -> Result<(), AllocError>
    ensures { OnOk result (into.new.items ≡ into.old.items ++ name.now) }
{
    into.extend_from_slice(name.as_str().as_bytes())
}

/// Adds a component and its port.
pub(crate) fn push_spot(
    valid: &Valid,
    component: u32,
    port: u32,
    into: &mut Vec<u8>,
) -> Result<(), AllocError>
    requires component { component < length valid.now.view.components }
    requires port { port < length (component_at valid.now.view component).ports }
    ensures { OnOk result (into.new.items ≡ into.old.items ++ ((component_at valid.now.view component).name ++ codes "." ++ (port_at valid.now.view component port).name)) }
{
    push_name(valid.component_name(component), into)?;
    into.push(b'.')?;
    push_name(valid.port_name(component, port), into)
}

/// What stands before the index in the line of a delivery, or behind it.
#[derive(Clone, Copy, PartialEq, Eq)]
pub(crate) enum Piece {
    /// The stream and its sender's replica.
    Sender {
        stream: u32,
        replica: u32,
    },
    /// The component and its port, and the receiver's replica.
    Receiver {
        component: u32,
        port: u32,
        replica: u32,
    },
}

// How many slots there are for senders, and as many for receivers.
const SLOTS: usize = 64;

impl Piece {
    // Its slot. The factors are odd, so up to 64 pieces that differ in one number alone have each its own.
    fn slot(self) -> usize
        ensures within { result < 2 * SLOTS }
        ensures small { IsSmallPiece self }
    {
        match self {
            Piece::Sender { stream, replica } => (stream as usize * 17 + replica as usize) % SLOTS,
            Piece::Receiver {
                component,
                port,
                replica,
            } => SLOTS + (component as usize * 17 + port as usize * 5 + replica as usize) % SLOTS,
        }
    }

    // Adds its text. The error is want of memory.
    fn push(self, valid: &Valid, into: &mut Vec<u8>) -> Result<(), AllocError>
        requires { HasPieceNames valid.now.view self }
        ensures { OnOk result (into.new.items ≡ into.old.items ++ piece_text valid.now.view self) }
    {
        match self {
            Piece::Sender { stream, replica } => {
                into.extend_from_slice(b"deliver ")?;
                push_name(valid.stream_name(stream), into)?;
                into.push(b' ')?;
                push_number(replica, into)?;
                into.push(b' ')?;
            }
            Piece::Receiver {
                component,
                port,
                replica,
            } => {
                into.extend_from_slice(b" to ")?;
                push_spot(valid, component, port, into)?;
                into.push(b' ')?;
                push_number(replica, into)?;
                into.push(b'\n')?;
            }
        }
        Ok(())
    }
}

// A piece and its text, where there is one.
#[derive(Drop)]
struct Slot {
    piece: Option<Piece>,
    text: Vec<u8>,
}

impl Slot {
    // Keeps the text of a piece. After an error, which is want of memory, it keeps none.
    fn keep(&mut self, valid: &Valid, piece: Piece) -> Result<(), AllocError>
        requires { HasPieceNames valid.now.view piece }
        ensures text { HasPieceText valid.now.view self.new }
        ensures piece { OnOk result (self.new.piece ≡ Some piece) }
    {
        self.piece = None;
        self.text.clear();
        piece.push(valid, &mut self.text)?;
        self.piece = Some(piece);
        Ok(())
    }
}

/// The texts of pieces, each in its slot.
#[derive(Drop)]
pub(crate) struct Texts {
    slots: Vec<Slot>,
}

impl Texts {
    /// No text yet. The error is want of memory.
    pub(crate) fn new(alloc: Global) -> Result<Texts, AllocError>
        ensures { IfOk result (λ texts. (v : View) → AreTexts v texts) }
    {
        let mut slots = Vec::new(alloc);
        for _ in 0..2 * SLOTS {
            slots.push(Slot {
                piece: None,
                text: Vec::new(alloc),
            })?;
        }
        Ok(Texts { slots })
    }

    /// Adds the text of a piece. The error is want of memory.
    pub(crate) fn push(
        &mut self,
        valid: &Valid,
        piece: Piece,
        into: &mut Vec<u8>,
    ) -> Result<(), AllocError>
        requires kept { AreTexts valid.now.view self.old }
        requires names { HasPieceNames valid.now.view piece }
        ensures kept { AreTexts valid.now.view self.new }
        ensures text { OnOk result (into.new.items ≡ into.old.items ++ piece_text valid.now.view piece) }
        ensures small { IsSmallPiece piece }
    {
        let slot = &mut self.slots[piece.slot()];
        if slot.piece != Some(piece) {
            slot.keep(valid, piece)?;
        }
        into.extend_from_slice(&slot.text)
    }
}
