// What every call that runs refuses and returns: the definitions that the contracts of the crates above name, and what is promised of
// them, in specs/. The code here is the shape of what a run returns.
#![tactic(auto)]

ghost use Rattle.std.specs.Prelude.{◌≡◌};
ghost use Rattle.calls.specs.Outcome.{end_number, end_place, outcome_of, five_of, ran_of};

use checks::refusal::Refusal;

// How an accepted run ended, or that it has not.
#[derive(Clone, Copy, PartialEq, Eq)]
pub enum End {
    // The strategy succeeded.
    Done,
    // It failed: the pattern at which the last match gave up, or 4,096 where none did.
    Failed(u32),
    // All units are used.
    Units,
    // The store is full.
    Room,
    // A visit is too deep.
    Nesting,
    // A variable to be built has no binding.
    Unbound(u32),
    // A step has done its visits, and the run goes on.
    Unfinished,
}

impl End {
    // Its number in the documents.
    pub fn answer(self) -> u32
        ensures { result ≡ end_number self }
    {
        match self {
            End::Done => 0,
            End::Failed(_) => 1,
            End::Units => 6,
            End::Room => 7,
            End::Nesting => 8,
            End::Unbound(_) => 12,
            End::Unfinished => 25,
        }
    }

    // Its place: a pattern or a variable, else 0.
    pub fn place(self) -> u32
        ensures { result ≡ end_place self }
    {
        match self {
            End::Failed(p) => p,
            End::Unbound(v) => v,
            _ => 0,
        }
    }
}

// What an accepted run came to: how it ended, the subject and the mark after it, and the units used.
#[derive(Clone, Copy)]
pub struct Ran {
    pub end: End,
    pub subject: u32,
    pub mark: u32,
    pub units: u32,
}

impl Ran {
    // The five numbers: answer, place, subject, mark and units used.
    pub fn numbers(self) -> [u32; 5]
        ensures { result ≡ five_of (ran_of self) }
    {
        [
            self.end.answer(),
            self.end.place(),
            self.subject,
            self.mark,
            self.units,
        ]
    }
}

// The five numbers of a run that may be refused: then subject and mark are as given, and no units are used.
pub fn five_numbers(r: Result<Ran, Refusal>, subject: u32, mark: u32) -> [u32; 5]
    ensures { result ≡ five_of (outcome_of r subject mark) }
{
    match r {
        Ok(ran) => ran.numbers(),
        Err(e) => [e.answer(), e.place(), subject, mark, 0],
    }
}
