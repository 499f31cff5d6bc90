//! What a file is of, and its points.
ghost use Rattle.std.specs.Prelude.{◌≡◌, ◌++◌, IfErr, IfOk, OnOk, string_bytes};
ghost use Rattle.file_kit.specs.Contents.{points_of, IsUnread};
ghost use Rattle.file_kit.specs.Shown.{between, body_text, content_line, export_line, file_text, incarnation_text, instance_text, message_line, IsShown};

use crate::content::{Content, read};
use crate::join::join;
use crate::streams::push_tables;
use crate::word::push_word;
use attr_kit::NoMemory;
use bytes_kit::DecodeFault;
use gateway_kit::Gateway;
use gossip_kit::{Body, Message};
use point_kit::{Export, WriterId};
use std::alloc::{AllocError, Global};
use uuid::Uuid;

fn push_instance(text: &mut String, instance: &Uuid) -> Result<(), AllocError>
    ensures { OnOk result (string_bytes text.new ≡ string_bytes text.old ++ instance_text instance.now) }
{
    let mut buffer = Uuid::encode_buffer();
    let hyphenated = instance.hyphenated();
    text.push_str(hyphenated.encode_lower(&mut buffer))
}

#[tactic(auto, unfolding(crate::specs::Shown::incarnation_text))]
fn push_incarnation(text: &mut String, writer: &WriterId, start: u64) -> Result<(), AllocError>
    ensures { OnOk result (string_bytes text.new ≡ string_bytes text.old ++ incarnation_text writer.now start) }
{
    push_word(text, writer.service.as_str())?;
    text.push(' ')?;
    push_instance(text, &writer.instance)?;
    write!(text, ", start {start}")
}

// Whose an export is, and its times.
#[tactic(auto, unfolding(crate::specs::Shown::export_line))]
fn push_export(text: &mut String, export: &Export) -> Result<(), AllocError>
    ensures { OnOk result (string_bytes text.new ≡ string_bytes text.old ++ export_line export.now) }
{
    text.push_str("export of ")?;
    push_incarnation(text, export.writer(), export.start())?;
    let time = export.time();
    write!(text, ", time {time}\n")
}

// What a message is.
fn push_body(text: &mut String, message: &Message) -> Result<(), AllocError>
    ensures { OnOk result (string_bytes text.new ≡ string_bytes text.old ++ body_text message.now.delta message.now.ack) }
{
    match message.body() {
        Body::Whole(_) => text.push_str("state"),
        Body::Delta { number, .. } => write!(text, "delta {number}"),
        Body::Ack(number) => write!(text, "ack {number}"),
    }
}

// From which gateway to which a message goes.
#[tactic(auto, unfolding(crate::specs::Shown::between))]
fn push_between(text: &mut String, from: u32, to: u32) -> Result<(), AllocError>
    ensures { OnOk result (string_bytes text.new ≡ string_bytes text.old ++ between from to) }
{
    write!(text, " of gateway {from}, for {to}\n")
}

#[tactic(auto, unfolding(crate::specs::Shown::message_line))]
fn push_message(text: &mut String, message: &Message) -> Result<(), AllocError>
    ensures { OnOk result (string_bytes text.new ≡ string_bytes text.old ++ message_line message.now) }
{
    push_body(text, message)?;
    push_between(text, message.from(), message.to())
}

fn push_content(text: &mut String, content: &Content) -> Result<(), AllocError>
    ensures { OnOk result (string_bytes text.new ≡ string_bytes text.old ++ content_line content.now) }
{
    match content {
        Content::Export(export) => push_export(text, export),
        Content::Message(message) => push_message(text, message),
    }
}

// A gateway of what a file has.
fn held(alloc: Global, content: &Content) -> Result<Gateway, NoMemory>
    ensures { IfOk result (λ g. g.points ≡ points_of content.now) }
{
    let mut gateway = Gateway::new(alloc, 0);
    join(&mut gateway, content)?;
    Ok(gateway)
}

#[tactic(auto, unfolding(crate::specs::Shown::file_text))]
fn text_of(alloc: Global, name: &str, content: &Content) -> Result<String, NoMemory>
    ensures { IfOk result (λ text. string_bytes text ≡ file_text name.now content.now) }
{
    let mut text = String::new(alloc);
    push_word(&mut text, name)?;
    text.push_str(": ")?;
    push_content(&mut text, content)?;
    push_tables(&mut text, alloc, &held(alloc, content)?)?;
    Ok(text)
}

/// An incarnation in words, as [`show`] tells whose an export is: its service, its instance and its start.
pub fn incarnation(alloc: Global, writer: &WriterId, start: u64) -> Result<String, NoMemory>
    ensures { IfOk result (λ text. string_bytes text ≡ incarnation_text writer.now start) }
{
    let mut text = String::new(alloc);
    push_incarnation(&mut text, writer, start)?;
    Ok(text)
}

/// What the file of this name is of, and its points.
///
/// First comes a line: of an export its writer, start and time; of a message or a state its number, sender and receiver. Then there are
/// the streams of the points, each on a line of the words by which `report` is asked for it, with its table of all attribute sets.
/// Names, scopes and units are words: a space, a control character or a backslash in them is escaped, and `-` is the empty text.
///
/// Refused where the file has no export, message or state, with the byte and the reason; then `NoMemory`. O(n) in the bytes, and for each
/// stream the cost of `rollup` and `table`.
pub fn show(alloc: Global, name: &str, bytes: &[u8]) -> Result<String, DecodeFault>
    ensures value { IfOk result (λ text. IsShown name.now bytes.now (string_bytes text)) }
    ensures err { IfErr result (IsUnread bytes.now) }
{
    let content = read(alloc, bytes)?;
    Ok(text_of(alloc, name, &content)?)
}
