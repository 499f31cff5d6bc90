//! The words that a run is given.
use anyhow::bail;
use std::env;

/// A group of benchmarks.
#[derive(Clone, Copy, Debug, PartialEq, Eq)]
pub enum Part {
    Turns,
    Recordings,
    HeldPoints,
    Pieces,
    Threads,
    Fleets,
    Gateways,
    Gossip,
    Bytes,
    Rounds,
    Rollups,
    Pages,
    Incarnations,
}

/// What holds points.
#[derive(Clone, Copy, Debug)]
pub enum Holder {
    Gateway,
    Tree,
    Map,
    Incarnations,
    Keys,
}

/// What a run is asked for.
#[derive(Clone, Copy, Debug)]
pub struct Words {
    /// The sizes that docs tell of, else small ones.
    pub full: bool,
    /// One part alone, else all.
    pub part: Option<Part>,
    /// Points that are held, and nothing else.
    pub holder: Option<Holder>,
    /// How many of them, or of incarnations.
    pub count: u32,
    /// How many points an incarnation has.
    pub points: u32,
}

const PARTS: [(&str, Part); 13] = [
    ("turns", Part::Turns),
    ("recordings", Part::Recordings),
    ("held-points", Part::HeldPoints),
    ("pieces", Part::Pieces),
    ("threads", Part::Threads),
    ("fleets", Part::Fleets),
    ("gateways", Part::Gateways),
    ("gossip", Part::Gossip),
    ("bytes", Part::Bytes),
    ("rounds", Part::Rounds),
    ("rollups", Part::Rollups),
    ("pages", Part::Pages),
    ("incarnations", Part::Incarnations),
];

fn part_of(word: &str) -> Option<Part> {
    for (name, part) in PARTS {
        if name == word {
            return Some(part);
        }
    }
    None
}

fn holder_of(word: &str) -> Option<Holder> {
    match word {
        "hold-gateway" => Some(Holder::Gateway),
        "hold-tree" => Some(Holder::Tree),
        "hold-map" => Some(Holder::Map),
        "hold-incarnations" => Some(Holder::Incarnations),
        "hold-keys" => Some(Holder::Keys),
        _ => None,
    }
}

impl Words {
    /// Of the words after the program's name. A word that says nothing is refused.
    pub fn read(rt: &HostRuntime) -> anyhow::Result<Words> {
        let mut words = Words {
            full: false,
            part: None,
            holder: None,
            count: 0,
            points: 1,
        };
        for word in env::args(rt)?.skip(1) {
            words.add(word.as_str())?;
        }
        Ok(words)
    }

    fn add(&mut self, word: &str) -> anyhow::Result<()> {
        if word == "full" {
            self.full = true;
        } else if let Some(part) = part_of(word) {
            self.part = Some(part);
        } else if let Some(holder) = holder_of(word) {
            self.holder = Some(holder);
        } else if let Ok(number) = word.parse::<u32>() {
            self.add_number(number);
        } else {
            bail!("no benchmark is called {word}");
        }
        Ok(())
    }

    // The first number tells how many, the second how many points each.
    fn add_number(&mut self, number: u32) {
        if self.count == 0 {
            self.count = number;
        } else {
            self.points = number;
        }
    }

    /// One of two sizes: that of the docs, or a small one.
    pub fn size<T: Copy>(&self, full: T, small: T) -> T {
        if self.full { full } else { small }
    }

    /// The same of lists.
    pub fn sizes<'a>(&self, full: &'a [u32], small: &'a [u32]) -> &'a [u32] {
        if self.full { full } else { small }
    }

    /// Whether a part runs.
    pub fn has(&self, part: Part) -> bool {
        match self.part {
            Some(only) => only == part,
            None => true,
        }
    }
}
