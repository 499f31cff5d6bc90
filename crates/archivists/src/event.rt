//! What a line of a schedule says.
use point_kit::WriterId;

/// An export of a worker: sums, of which the first has this value, and each later one a value one higher.
#[derive(Debug, Drop)]
pub struct Sums {
    pub writer: WriterId,
    pub start: u64,
    pub time: u64,
    pub value: i64,
    pub points: u32,
}

/// An event. Keepers, archives, exports and messages are told by their numbers, from 1.
#[derive(Debug, Drop)]
pub enum Event {
    /// So many keepers more.
    Keepers(u32),
    /// An archive begins, under the next number.
    Archive {
        archive: usize,
        writer: WriterId,
        start: u64,
        limit: usize,
    },
    /// A keeper takes an export of a worker.
    Take {
        keeper: usize,
        sums: Sums,
    },
    /// An archive adopts what a keeper holds of an incarnation.
    Adopt {
        archive: usize,
        keeper: usize,
        writer: WriterId,
        start: u64,
    },
    /// An archive exports.
    Export {
        archive: usize,
        time: u64,
    },
    /// A keeper takes an archive's export.
    Give {
        export: usize,
        keeper: usize,
    },
    /// An archive begins anew.
    Seal {
        archive: usize,
        start: u64,
    },
    /// The first keeper merges what the second holds.
    Merge {
        keeper: usize,
        other: usize,
    },
    /// The first keeper makes a message to the second.
    Send {
        from: usize,
        to: usize,
    },
    /// A message is handed to whom it goes to.
    Hand(usize),
    /// What a keeper holds: counts and the total.
    Show(usize),
    /// Each point that a keeper holds.
    Points(usize),
    /// A keeper's page.
    Page(usize),
    /// Whether two keepers hold the same.
    Same {
        keeper: usize,
        other: usize,
    },
    /// So many incarnations come and go at a keeper of their own.
    Soak(Span),
}

/// How long a soak is: how many incarnations, how many points each has, and after how many adoptions an export comes.
#[derive(Clone, Copy, Debug)]
pub struct Span {
    pub incarnations: u64,
    pub points: u32,
    pub every: u64,
}
