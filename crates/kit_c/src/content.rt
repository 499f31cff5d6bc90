//! What a handle can have.
use crate::desk::Desk;
use crate::holding::HoldingWriter;
use crate::incarnations::Incarnation;
use archive_kit::{Archive, Keeper};
use attr_kit::{AttrSet, AttrValue, Seq, Txt};
use gossip_kit::Message;
use plan_kit::{Instrument, Plan, View};
use point_kit::{Export, Stream};
use recorder_kit::Recorder;
use rollup_kit::{Ask, Row};

/// What a handle can have.
#[derive(Drop)]
pub enum Content {
    /// Attributes that are written down, in the order in which they came.
    Pairs(Seq<(Txt, AttrValue)>),
    Attributes(AttrSet),
    Instruments(Seq<Instrument>),
    /// A view that is being made.
    View(View),
    Views(Seq<View>),
    /// Keys that are written down.
    Keys(Seq<Txt>),
    Plan(Plan),
    /// A writer, which holds each pair of an instrument and a set once.
    Writer(HoldingWriter),
    /// A thread's own log of recordings.
    Recorder(Recorder),
    Export(Export),
    Exports(Seq<Export>),
    /// A gateway, which sends messages and takes them in, and shows no point that a tombstone names.
    Gateway(Keeper),
    Message(Message),
    /// A writer that adopts ended incarnations of others.
    Archive(Archive),
    /// A place at a writer that threads share.
    Desk(Desk),
    Ask(Ask),
    Rows(Seq<Row>),
    Streams(Seq<Stream>),
    Incarnations(Seq<Incarnation>),
    Text(Txt),
    /// An export or a message as bytes.
    Bytes(Seq<u8>),
}

fn sends<T: Send>() {}

// A handle may go to another thread, with what it has.
fn held_goes_to_another_thread() {
    sends::<Content>();
}
