//! Instruments: what a service records with.
use attr_kit::Txt;

/// What an instrument takes (OpenTelemetry Metrics API, "Instrument").
#[derive(Clone, Copy, Debug, PartialEq, Eq, Hash)]
pub enum Kind {
    /// Increments of at least 0.
    Counter,
    /// Increments of either sign.
    UpDown,
    /// Values of which the last one counts.
    Gauge,
    /// Values of at least 0 whose distribution counts.
    Histogram,
}

/// An instrument: the scope that it belongs to, its name, unit and kind.
#[derive(Debug, PartialEq, Eq, Hash, Drop)]
pub struct Instrument {
    pub scope: Txt,
    pub name: Txt,
    pub unit: Txt,
    pub kind: Kind,
}
