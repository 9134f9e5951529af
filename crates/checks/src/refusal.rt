// Why a call refuses what it is given. The documents number each answer and say where it has a place; `numbers_of` has both.
ghost use Rattle.std.specs.Prelude.{◌≡◌, [], ◌∷◌};
ghost use Rattle.checks.specs.Numbers.{fault_number, answer_of, place_of, checked_of};

// What is wrong with an entry, the first in this order.
#[derive(Clone, Copy, PartialEq, Eq)]
pub enum Fault {
    // The kind is unknown, or its operand count is out of bounds.
    Count,
    // The argument is out of its range, or not zero where none is named.
    Argument,
    // An operand is outside the table, or not above its entry.
    Place,
    // An operand is not of the sort that the kind takes.
    Sort,
    // A word after the last operand is not zero.
    Unused,
}

// Why, and at which entry or node.
#[derive(Clone, Copy, PartialEq, Eq)]
pub enum Refusal {
    // A length, the mark, or a signature that does not fit.
    Sizes,
    // The lowest bad node below the mark.
    Node(u32),
    // The start, the subject, or a binding.
    Start,
    // The lowest entry that does not obey the signature.
    EntryDisobeys(u32),
    // The lowest node below the mark that does not obey the signature.
    NodeDisobeys(u32),
    // The lowest bad entry, and what is wrong with it.
    Entry(Fault, u32),
    // The lowest node below the mark with an earlier one's words, where a store has an index.
    Twin(u32),
    // The lowest entry with a count too high to be added to.
    Count(u32),
    // The work list holds no run.
    NoRun,
}

impl Fault {
    // Its number in the documents.
    pub fn answer(self) -> u32
        ensures { result ≡ fault_number self }
    {
        match self {
            Fault::Count => 13,
            Fault::Argument => 14,
            Fault::Place => 15,
            Fault::Sort => 16,
            Fault::Unused => 17,
        }
    }
}

impl Refusal {
    // Its number in the documents.
    pub fn answer(self) -> u32
        ensures { result ≡ answer_of self }
    {
        match self {
            Refusal::Sizes => 2,
            Refusal::Node(_) => 4,
            Refusal::Start => 5,
            Refusal::EntryDisobeys(_) => 10,
            Refusal::NodeDisobeys(_) => 11,
            Refusal::Entry(fault, _) => fault.answer(),
            Refusal::Twin(_) => 21,
            Refusal::Count(_) => 24,
            Refusal::NoRun => 27,
        }
    }

    // Its place: an entry or a node, else 0.
    pub fn place(self) -> u32
        ensures { result ≡ place_of self }
    {
        match self {
            Refusal::Node(k) => k,
            Refusal::EntryDisobeys(e) => e,
            Refusal::NodeDisobeys(k) => k,
            Refusal::Entry(_, e) => e,
            Refusal::Twin(k) => k,
            Refusal::Count(e) => e,
            _ => 0,
        }
    }
}

// Answer and place as the documents number them; 0 and 0 where nothing is refused.
// As it is: the two numbers are for C; no `From` may be written here from a Result to an array, both of them foreign types.
pub fn numbers_of(r: Result<(), Refusal>) -> [u32; 2]
    ensures { result ≡ (checked_of r).answer ∷ (checked_of r).place ∷ [] }
{
    match r {
        Ok(()) => [0, 0],
        Err(e) => [e.answer(), e.place()],
    }
}
