//! Callers of the kit, each proved: what a service, a reader and a gateway write.
//!
//! Each is short, and states as its own contract what it gets from the kit. Each public type of the kit is in one. docs/use/GUIDE.md tells
//! of them in this order:
//!
//! - The whole, as a program: `first`.
//! - A service: `recording` (measure, collect, export), `attributing` (attributes), `refusing` (what a refusal leaves), `holding` (a set
//!   that is looked up once), `viewing` (views and the limit), `taking_in` (a recorder that a writer takes in), `pushing` (periodic
//!   readers: with an exporter of one's own, into memory, over a channel, and over one that fails when told).
//! - Who reads: `gathering` (deliver, merge, ask, print a table), `reading` (rows, rounds, points and feeds), `passing` (exports made by
//!   hand, and as bytes), `sending` (to OpenTelemetry's Collectors), `gossiping` (two gateways that tell each other),
//!   `forgetting` (incarnations that tell nothing any more), `archiving` (archives that adopt these, and keepers that forget them).
//! - Threads: `sharing` (two threads at one writer, one by one and by logs), `serving` (a gateway that threads share, and what a seat
//!   tells another), `turning` (a machine of one's own under a turn), `fleets` (threads that record, and gateways that answer).
//! - Without threads: `replaying` (a schedule of writers and gateways), `scripting` (scripts, and lines by themselves), `commanding` (the
//!   program's command line).
#![tactic(auto)]

pub mod archiving;
pub mod attributing;
pub mod commanding;
pub mod first;
pub mod fleets;
pub mod forgetting;
pub mod gathering;
pub mod gossiping;
pub mod holding;
pub mod passing;
pub mod pushing;
pub mod reading;
pub mod recording;
pub mod refusing;
pub mod replaying;
pub mod scripting;
pub mod sending;
pub mod serving;
pub mod sharing;
pub mod taking_in;
pub mod turning;
pub mod viewing;
