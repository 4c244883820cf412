// The scope's number of what a call answers, and the value beside it. (By arms: a variant with a place has no number of its own to cast.)
ghost use Rattle.std.specs.Prelude.{◌≡◌};
ghost use Rattle.index.specs.Answers.{fault_number, fault_place, refusal_number, refusal_place, number_of, place_of, asked_number};

use crate::{Answer, Asked, Fault, Refusal};

impl Fault {
    pub fn number(self) -> u64
        ensures { result ≡ fault_number self }
    {
        match self {
            Fault::Closer(_) => 13,
            Fault::Opener(_) => 14,
            Fault::InString(_) => 15,
            Fault::InBracket(_) => 16,
        }
    }

    pub fn place(self) -> usize
        ensures { result ≡ fault_place self }
    {
        match self {
            Fault::Closer(p) | Fault::Opener(p) | Fault::InString(p) | Fault::InBracket(p) => p,
        }
    }
}

impl Refusal {
    pub fn number(self) -> u64
        ensures { result ≡ refusal_number self }
    {
        match self {
            Refusal::Empty => 1,
            Refusal::TooLong => 2,
            Refusal::BadLevels => 3,
            Refusal::BadBuffer => 4,
            Refusal::ManyCuts => 5,
            Refusal::BadCut(_) => 6,
            Refusal::IsClosed => 7,
            Refusal::IsStopped => 8,
            Refusal::OtherLength => 9,
            Refusal::NoChunk => 10,
            Refusal::Taken => 11,
            Refusal::Early => 12,
        }
    }

    pub fn place(self) -> usize
        ensures { result ≡ refusal_place self }
    {
        match self {
            Refusal::BadCut(i) => i,
            _ => 0,
        }
    }
}

impl Answer {
    pub fn number(self) -> u64
        ensures { result ≡ number_of self }
    {
        match self {
            Answer::Done => 0,
            Answer::Refused(why) => why.number(),
            Answer::Faulty(f) => f.number(),
        }
    }

    pub fn place(self) -> usize
        ensures { result ≡ place_of self }
    {
        match self {
            Answer::Done => 0,
            Answer::Refused(why) => why.place(),
            Answer::Faulty(f) => f.place(),
        }
    }
}

impl Asked {
    pub fn number(self) -> u64
        ensures { result ≡ asked_number self }
    {
        match self.had {
            None => 10,
            Some(_) => 0,
        }
    }
}
