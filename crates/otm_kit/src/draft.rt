//! What a script declared so far.
ghost use Rattle.std.specs.Prelude.{◌≡◌, [], IfOk, not, is_none, if◌then◌else◌};
ghost use Rattle.otm_kit.specs.Declarations.{declared_by, is_taken, label_place, named_at, with_declaration, with_instrument, with_writer};

use crate::labels::Labels;
use attr_kit::{NoMemory, Txt};
use plan_kit::{Instrument, View};
use point_kit::WriterId;
use script_kit::Declaration;
use std::alloc::Global;
use std::marker::Model;

/// What a script declared so far. Labels stand in the order of what they name.
#[derive(Drop)]
pub(crate) struct Draft {
    pub(crate) instrument_labels: Labels,
    pub(crate) instruments: Vec<Instrument>,
    pub(crate) views: Vec<View>,
    pub(crate) writer_labels: Labels,
    pub(crate) writers: Vec<(WriterId, u64)>,
    pub(crate) gateways: Vec<u32>,
    pub(crate) limit: Option<u64>,
}

impl Model for Draft {
    ghost use Rattle.otm_kit.specs.Declarations.{Declared};
    ghost use Rattle.plan_kit.specs.contracts.instrument.Instrument as instrument;
    ghost use Rattle.plan_kit.specs.contracts.view.View as view;
    ghost use Rattle.point_kit.specs.contracts.writer_id.WriterId as writer_id;

    ghost Value = { Declared };

    ghost view = { λ d. record { instrument_labels = d.instrument_labels; instruments = d.instruments.items; views = d.views.items; writer_labels = d.writer_labels; writers = d.writers.items; gateways = d.gateways.items; limit = d.limit } };
}

/// The place of the word that may be taken: that of the label, or `limit`.
pub(crate) fn named_at(declaration: &Declaration) -> usize
    ensures { result ≡ named_at declaration.now }
{
    match declaration {
        Declaration::Limit(_) => 0,
        Declaration::Instrument { .. }
        | Declaration::View(_)
        | Declaration::Writer { .. }
        | Declaration::Gateway(_) => 1,
    }
}

impl Draft {
    #[tactic(auto, unfolding(crate::specs::Declarations::declared_by))]
    pub(crate) fn new(alloc: Global) -> Draft
        ensures { result ≡ declared_by [] }
    {
        Draft {
            instrument_labels: Labels::new(alloc),
            instruments: Vec::new(alloc),
            views: Vec::new(alloc),
            writer_labels: Labels::new(alloc),
            writers: Vec::new(alloc),
            gateways: Vec::new(alloc),
            limit: None,
        }
    }

    /// Adds what a line declares, unless its label is taken or a limit was given; answers whether it was added.
    #[tactic(auto, unfolding(crate::specs::Declarations::is_taken, crate::specs::Declarations::with_declaration))]
    pub(crate) fn declare(&mut self, declaration: Declaration) -> Result<bool, NoMemory>
        ensures added { IfOk result (λ added. added ≡ not (is_taken self.old declaration)) }
        ensures value { IfOk result (λ added. self.new ≡ (if added then with_declaration self.old declaration else self.old)) }
    {
        match declaration {
            Declaration::Instrument { label, instrument } => {
                self.declare_instrument(label, instrument)
            }
            Declaration::View(view) => {
                self.views.push(view)?;
                Ok(true)
            }
            Declaration::Writer { label, id, start } => self.declare_writer(label, id, start),
            Declaration::Gateway(id) => {
                self.gateways.push(id)?;
                Ok(true)
            }
            Declaration::Limit(limit) => {
                if self.limit.is_some() {
                    return Ok(false);
                }
                self.limit = Some(limit);
                Ok(true)
            }
        }
    }

    fn declare_instrument(&mut self, label: Txt, instrument: Instrument) -> Result<bool, NoMemory>
        ensures added { IfOk result (λ added. added ≡ is_none (label_place self.old.instrument_labels label)) }
        ensures value { IfOk result (λ added. self.new ≡ (if added then with_instrument self.old label instrument else self.old)) }
    {
        if !self.instrument_labels.add(label)? {
            return Ok(false);
        }
        self.instruments.push(instrument)?;
        Ok(true)
    }

    fn declare_writer(&mut self, label: Txt, id: WriterId, start: u64) -> Result<bool, NoMemory>
        ensures added { IfOk result (λ added. added ≡ is_none (label_place self.old.writer_labels label)) }
        ensures value { IfOk result (λ added. self.new ≡ (if added then with_writer self.old label id start else self.old)) }
    {
        if !self.writer_labels.add(label)? {
            return Ok(false);
        }
        self.writers.push((id, start))?;
        Ok(true)
    }
}
