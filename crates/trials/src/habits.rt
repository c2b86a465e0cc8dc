// How the transactions of a made history behave. A value and no closure, since dice choose among them and lists name them.
#[derive(Clone, Copy)]
pub enum Shape {
    // Each reads what was committed when it began, and commits only where nobody overtook its writes.
    Orderly,
    // Each reads the newest committed version, whatever it has read before.
    Fresh,
    // Some read old versions.
    Stale,
    // Commits are not certified.
    Uncertified,
    // Neither snapshots nor certified commits.
    Reckless,
    // Some read what is not committed.
    Dirty,
    // Many at once read one another's uncommitted versions, so that some depend on themselves.
    Cyclic,
    // Each reads the newest version, committed or not, so that dependence runs in circles with little else amiss.
    Circular,
    // One after another, with now and then a read of an old version.
    Serial,
    // Many abort.
    Aborting,
    // A little of everything.
    Mixed,
}

// Habits in numbers: shares are percents.
#[derive(Clone, Copy)]
pub struct Habits {
    // How many cards are touched, and how many transactions are open at once.
    pub cards: u32,
    pub open: usize,
    // Reads of any version, committed or not, and of the newest such; of any committed one, and of the newest such.
    pub dirty: u32,
    pub latest: u32,
    pub stale: u32,
    pub fresh: u32,
    // Commits in spite of a newer version, and aborts without need.
    pub uncertified: u32,
    pub aborting: u32,
}

const ORDERLY: Habits = Habits {
    cards: 5,
    open: 3,
    dirty: 0,
    latest: 0,
    stale: 0,
    fresh: 0,
    uncertified: 0,
    aborting: 5,
};

const FRESH: Habits = Habits {
    fresh: 100,
    ..ORDERLY
};

const STALE: Habits = Habits {
    stale: 40,
    ..ORDERLY
};

const UNCERTIFIED: Habits = Habits {
    uncertified: 80,
    ..ORDERLY
};

const RECKLESS: Habits = Habits {
    fresh: 50,
    stale: 20,
    uncertified: 70,
    ..ORDERLY
};

const DIRTY: Habits = Habits {
    dirty: 30,
    ..ORDERLY
};

const CYCLIC: Habits = Habits {
    cards: 4,
    open: 6,
    dirty: 90,
    uncertified: 50,
    ..ORDERLY
};

const CIRCULAR: Habits = Habits {
    cards: 9,
    open: 4,
    latest: 85,
    uncertified: 100,
    ..ORDERLY
};

const SERIAL: Habits = Habits {
    cards: 10,
    open: 1,
    stale: 8,
    ..ORDERLY
};

const ABORTING: Habits = Habits {
    aborting: 60,
    dirty: 15,
    ..ORDERLY
};

const MIXED: Habits = Habits {
    cards: 8,
    open: 5,
    dirty: 8,
    latest: 8,
    stale: 8,
    fresh: 30,
    uncertified: 20,
    aborting: 20,
};

impl Shape {
    pub const ALL: [Shape; 11] = [
        Shape::Orderly,
        Shape::Fresh,
        Shape::Stale,
        Shape::Uncertified,
        Shape::Reckless,
        Shape::Dirty,
        Shape::Cyclic,
        Shape::Circular,
        Shape::Serial,
        Shape::Aborting,
        Shape::Mixed,
    ];

    pub fn habits(self) -> Habits {
        match self {
            Shape::Orderly => ORDERLY,
            Shape::Fresh => FRESH,
            Shape::Stale => STALE,
            Shape::Uncertified => UNCERTIFIED,
            Shape::Reckless => RECKLESS,
            Shape::Dirty => DIRTY,
            Shape::Cyclic => CYCLIC,
            Shape::Circular => CIRCULAR,
            Shape::Serial => SERIAL,
            Shape::Aborting => ABORTING,
            Shape::Mixed => MIXED,
        }
    }
}
