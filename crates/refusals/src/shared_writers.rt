//! Calls of writers that threads share. Each but that of a log may accept one change: what was refused is made again, and counts for
//! nothing. A log of which nothing is taken in, for want of memory, is a change.
ghost use Rattle.std.specs.Prelude.{IfOk};
ghost use Rattle.writer_kit.specs.Shared.{IsAt};

use crate::rounds::len_of;
use crate::same::are_same_writers;
use crate::start::{set, writer};
use crate::telling::{call_begins, call_ends, state, tell, tell_twice};
use anyhow::bail;
use attr_kit::AttrSet;
use bumpalo::Bump;
use recorder_kit::Recorder;
use std::alloc::Global;
use std::sync::Wait;
use turn_kit::{Look, Seat};
use writer_kit::{SharedWriter, Writer};

// Whether the writer is the same as another.
#[derive(Drop)]
struct IsSame<'a>(&'a Writer);

impl Look<Writer> for IsSame<'_> {
    type Answer = bool;

    ghost answers = { λ _ _ _. Unit {0} };

    fn look(self, machine: &Writer) -> bool {
        are_same_writers(self.0, machine)
    }
}

fn new(rt: &(impl Wait + Print + Eprint + AllocGlobal)) -> anyhow::Result<()> {
    let writer = writer(rt.alloc(), 1)?;
    let before = writer.try_copy()?;
    call_begins(rt);
    let answer = SharedWriter::new(rt.alloc(), writer, 1);
    call_ends(rt);
    match answer {
        Ok(_) => tell(rt, &"Ok", state(false)),
        Err((writer, fault)) => tell(rt, &fault, state(are_same_writers(&writer, &before))),
    }
}

// A shared writer, the only seat at it, and what the writer was before. Calls are made in the form that waits for nobody, or in the
// one that may wait.
#[derive(Drop)]
struct Trial {
    shared: SharedWriter,
    seat: Seat<Writer>,
    before: Writer,
    waits: bool,
}

// What a call is made with is borrowed: it is dropped where the trial is, and each drop at an exit is proved.
impl Trial {
    // Of a writer that accepts so many changes.
    fn begin(alloc: Global, limit: u64, waits: bool) -> anyhow::Result<Trial>
        ensures { IfOk result (λ t. IsAt t.shared t.seat) }
    {
        let writer = writer(alloc, 1)?;
        let before = writer.try_copy()?;
        match SharedWriter::new(alloc, writer, limit) {
            Ok((shared, seat)) => Ok(Trial {
                shared,
                seat,
                before,
                waits,
            }),
            Err(_) => bail!("not shared"),
        }
    }

    fn measure(&mut self, rt: &(impl Wait + Print + Eprint), attrs: &AttrSet) -> anyhow::Result<()>
        requires { IsAt self.old.shared self.old.seat }
    {
        call_begins(rt);
        let answer = if self.waits {
            self.shared.measure(rt, &mut self.seat, 0, attrs, 5)
        } else {
            self.shared.try_measure(&mut self.seat, 0, attrs, 5)
        };
        call_ends(rt);
        let left = state(self.shared.look(rt, &mut self.seat, IsSame(&self.before)));
        let again = self.shared.try_measure(&mut self.seat, 0, attrs, 5);
        tell_twice(rt, &answer, left, &again)
    }

    fn hold(&mut self, rt: &(impl Wait + Print + Eprint), attrs: &AttrSet) -> anyhow::Result<()>
        requires { IsAt self.old.shared self.old.seat }
    {
        call_begins(rt);
        let answer = if self.waits {
            self.shared.hold(rt, &mut self.seat, 0, attrs)
        } else {
            self.shared.try_hold(&mut self.seat, 0, attrs)
        };
        call_ends(rt);
        let left = state(self.shared.look(rt, &mut self.seat, IsSame(&self.before)));
        let again = self.shared.try_hold(&mut self.seat, 0, attrs);
        tell_twice(rt, &answer, left, &again)
    }

    // Of a log of one recording.
    fn take_in(
        &mut self,
        rt: &(impl Wait + Print + Eprint),
        recorder: &mut Recorder,
    ) -> anyhow::Result<()>
        requires { IsAt self.old.shared self.old.seat }
    {
        call_begins(rt);
        let answer = if self.waits {
            self.shared
                .take_in(rt, &mut self.seat, recorder, usize::MAX)
        } else {
            self.shared
                .try_take_in(&mut self.seat, recorder, usize::MAX)
        };
        call_ends(rt);
        let is_same = self.shared.look(rt, &mut self.seat, IsSame(&self.before));
        let left = state(is_same && !recorder.is_empty());
        let again = self
            .shared
            .try_take_in(&mut self.seat, recorder, usize::MAX);
        tell_twice(rt, &answer, left, &again)
    }

    fn collect(&mut self, rt: &(impl Wait + Print + Eprint), arena: &Bump) -> anyhow::Result<()>
        requires { IsAt self.old.shared self.old.seat }
    {
        call_begins(rt);
        let answer = if self.waits {
            self.shared.collect(rt, &mut self.seat, arena, 200)
        } else {
            self.shared.try_collect(&mut self.seat, arena, 200)
        };
        call_ends(rt);
        let left = state(self.shared.look(rt, &mut self.seat, IsSame(&self.before)));
        let again = self.shared.try_collect(&mut self.seat, arena, 200);
        tell_twice(rt, &len_of(answer), left, &len_of(again))
    }
}

fn measure(rt: &(impl Wait + Print + Eprint + AllocGlobal), waits: bool) -> anyhow::Result<()> {
    let attrs = set(rt.alloc(), 2)?;
    Trial::begin(rt.alloc(), 1, waits)?.measure(rt, &attrs)
}

fn hold(rt: &(impl Wait + Print + Eprint + AllocGlobal), waits: bool) -> anyhow::Result<()> {
    let attrs = set(rt.alloc(), 2)?;
    Trial::begin(rt.alloc(), 1, waits)?.hold(rt, &attrs)
}

fn take_in(rt: &(impl Wait + Print + Eprint + AllocGlobal), waits: bool) -> anyhow::Result<()> {
    let mut recorder = Recorder::new(rt.alloc(), 1)?;
    recorder.measure(0, &set(rt.alloc(), 2)?, 5)?;
    Trial::begin(rt.alloc(), 2, waits)?.take_in(rt, &mut recorder)
}

fn collect(rt: &(impl Wait + Print + Eprint + AllocGlobal), waits: bool) -> anyhow::Result<()> {
    let arena = Bump::new(rt.alloc());
    Trial::begin(rt.alloc(), 1, waits)?.collect(rt, &arena)
}

/// Makes a call of a shared writer, if this is the name of one.
pub fn make_call(
    rt: &(impl Wait + Print + Eprint + AllocGlobal),
    call: &str,
) -> anyhow::Result<bool> {
    match call {
        "SharedWriter::new" => new(rt)?,
        "SharedWriter::try_measure" => measure(rt, false)?,
        "SharedWriter::measure" => measure(rt, true)?,
        "SharedWriter::try_hold" => hold(rt, false)?,
        "SharedWriter::hold" => hold(rt, true)?,
        "SharedWriter::try_take_in" => take_in(rt, false)?,
        "SharedWriter::take_in" => take_in(rt, true)?,
        "SharedWriter::try_collect" => collect(rt, false)?,
        "SharedWriter::collect" => collect(rt, true)?,
        _ => return Ok(false),
    }
    Ok(true)
}
