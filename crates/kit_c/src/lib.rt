//! The kit as a static library, for C and whatever can call C. docs/use/SDK.md tells how it is built and used.
//!
//! Nothing of it is called from Rattle: each export is a C function whose name begins with `kit_`, declared in
//! `sdk/c/kotskhin.h`. In the order of use:
//!
//! - A handle has one thing of the kit, or nothing. There is a type of handle for each kind of thing. Who calls owns its 16 bytes, and
//!   `kit_free` gives up what it has.
//! - `kit_instruments_add`, `kit_views_add` and `kit_plan_build` make a plan, `kit_writer_start` a writer, `kit_attributes_make` a set.
//! - `kit_writer_measure` records, `kit_writer_collect` makes an export, and `kit_gateway_take` takes it in.
//! - `kit_ask_sum`, `kit_gateway_rows` and `kit_rows_table` make a text of what a gateway holds; `kit_rows_read` tells a row as numbers,
//!   and `kit_rows_attributes` of which labels.
//! - `kit_recorder_measure` and its like are of a thread's own log, which `kit_writer_take_in` takes in; `kit_seat_measure` and its like
//!   of a writer that threads share, `kit_gateway_send` and its like of gateways that gossip, `kit_export_encode` and its like of bytes.
//! - `kit_archive_adopt` and its like are of archives, which adopt ended incarnations of others. A gateway shows no point that was adopted.
//!
//! A caller, from `sdk/c/first.c`:
//!
//!     MUST(kit_writer_start(&writer, &plan, TEXT("shop"), 0, 1, 100));
//!     MUST(kit_attributes_make(&none, &pairs, &place));
//!
//!     MUST(kit_writer_measure(&writer, 0, &none, 3, &place));
//!     MUST(kit_writer_measure(&writer, 0, &none, 4, &place));
//!     MUST(kit_writer_collect(&writer, 200, &collected, &place));
//!
//! A call answers 0, or the code of the first refusal that fits; then each handle is as it was. Which refusal of the kit a code stands for
//! is a definition (specs `Codes`), which each export's contract cites. `NO_MEMORY` stands last in each list of refusals; it may come
//! earlier, wherever memory is refused, but where a clause `short` says that nothing else fits then. A handle of another kind, which C can
//! force by a cast, is told by `WRONG_KIND` where one that has nothing would be by `NOTHING`.
//!
//! A call that only reads a handle leaves it as it was, yet takes out what it has for the length of the call: so no two threads may be in
//! calls with one handle at once.
#![tactic(auto)]

mod archives;
mod ask;
mod attributes;
mod code_text;
mod content;
mod desk;
mod exports;
mod fault;
mod formats;
mod gateway;
mod handle;
mod holding;
mod incarnations;
mod inner;
mod instruments;
mod list;
mod loose;
mod messages;
mod pairs;
mod recorders;
mod requests;
mod row;
mod rows;
mod seats;
mod sets;
mod streams;
mod taken;
mod text;
mod typed;
mod version;
mod views;
mod with;
mod writer;
