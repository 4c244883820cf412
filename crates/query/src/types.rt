// What a query tells, and the number, step and place of each case.
ghost use Rattle.std.specs.Prelude.{◌≡◌, ℕ};
ghost use Rattle.query.specs.Answers.{miss_number, cause_number, refusal_number, refusal_place, refusal_step, number_of, place_of, step_of};

use paths::PathRefusal;

// Why a step finds nothing in its value, by its number.
#[derive(Clone, Copy, Debug, PartialEq, Eq)]
pub enum Miss {
    NotObject = 23,
    NotArray = 24,
    NoName = 25,
    NoNumber = 26,
}

// What is wrong with a broken item, or with a record that is blank all through, by its number.
#[derive(Clone, Copy, Debug, PartialEq, Eq)]
pub enum Cause {
    NoColon = 27,
    BadName = 28,
    EmptyValue = 29,
    BadEscape = 30,
}

// Why there is no part. A miss and a broken item tell the path step, from 1, and a place in the record.
#[derive(Clone, Copy, Debug, PartialEq, Eq)]
pub enum Refusal {
    EmptyRecord,
    LongRecord,
    BadLevels,
    BadBuffer,
    BadPath {
        place: usize,
    },
    TooLarge,
    TooDeep,
    Missed {
        why: Miss,
        step: usize,
        place: usize,
    },
    Broken {
        why: Cause,
        step: usize,
        place: usize,
    },
}

impl From<PathRefusal> for Refusal {
    ghost use Rattle.query.specs.Helpers.{path_refusal};

    ghost from_gives = { λ why refusal. refusal ≡ path_refusal why };

    fn from(why: PathRefusal) -> Refusal {
        match why {
            PathRefusal::Bad { place } => Refusal::BadPath { place },
            PathRefusal::TooLarge => Refusal::TooLarge,
            PathRefusal::TooDeep => Refusal::TooDeep,
        }
    }
}

// Where a part lies in its text, end not included. (No Range: std's is not Copy, and an answer is copied like any number.)
#[derive(Clone, Copy, Debug, PartialEq, Eq)]
pub struct Part {
    pub start: usize,
    pub end: usize,
}

// Where the part lies in the record, or why there is none.
pub type Answer = Result<Part, Refusal>;

impl Miss {
    pub fn number(self) -> u64
        ensures { result ≡ miss_number self }
    {
        self as u64
    }
}

impl Cause {
    pub fn number(self) -> u64
        ensures { result ≡ cause_number self }
    {
        self as u64
    }
}

// By arms: a case with a place has no number of its own to cast.
impl Refusal {
    pub fn number(self) -> u64
        ensures { result ≡ refusal_number self }
    {
        match self {
            Refusal::EmptyRecord => 1,
            Refusal::LongRecord => 2,
            Refusal::BadLevels => 3,
            Refusal::BadBuffer => 4,
            Refusal::BadPath { .. } => 20,
            Refusal::TooLarge => 21,
            Refusal::TooDeep => 22,
            Refusal::Missed { why, .. } => why.number(),
            Refusal::Broken { why, .. } => why.number(),
        }
    }

    pub fn place(self) -> usize
        ensures { result ≡ refusal_place self }
    {
        match self {
            Refusal::BadPath { place }
            | Refusal::Missed { place, .. }
            | Refusal::Broken { place, .. } => place,
            _ => 0,
        }
    }

    pub fn step(self) -> usize
        ensures { result ≡ refusal_step self }
    {
        match self {
            Refusal::Missed { step, .. } | Refusal::Broken { step, .. } => step,
            _ => 0,
        }
    }
}

// The number, the place and the step that an answer tells.
pub trait Tells {
    ghost number_of: { Self → ℕ };

    ghost place_of: { Self → ℕ };

    ghost step_of: { Self → ℕ };

    fn number(&self) -> u64
        ensures { result ≡ number_of self.now };

    // Where the part begins, or the place that the refusal tells.
    fn place(&self) -> usize
        ensures { result ≡ place_of self.now };

    // The path step that a miss or a broken item tells; else 0.
    fn step(&self) -> usize
        ensures { result ≡ step_of self.now };
}

impl Tells for Answer {
    ghost number_of = { number_of };

    ghost place_of = { place_of };

    ghost step_of = { step_of };

    fn number(&self) -> u64 {
        match self {
            Ok(_) => 0,
            Err(why) => why.number(),
        }
    }

    fn place(&self) -> usize {
        match self {
            Ok(part) => part.start,
            Err(why) => why.place(),
        }
    }

    fn step(&self) -> usize {
        match self {
            Ok(_) => 0,
            Err(why) => why.step(),
        }
    }
}
