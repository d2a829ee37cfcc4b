// What is refused, and what a call answers: a Result with one of these refusals.
ghost use Rattle.std.specs.Prelude.{◌≡◌};
ghost use Rattle.star.specs.Refusals.{refusal_number, refusal_place, verdict_of, verdict_number, verdict_place};

// The refusals of documents 01 and 02, in the order of their numbers.
#[derive(Clone, Copy, Debug, PartialEq, Eq)]
pub enum Refusal {
    Nodes,
    Slots,
    Rule,
    DemandShort,
    TableShort,
    DemandAbove { cell: u32 },
    QueueLimit,
    BooksDisagree { cell: u32 },
    CallsSpent,
    BadFile { entry: u32 },
}

impl Refusal {
    // The number that the documents give a refusal.
    pub fn number(self) -> u32
        ensures { result ≡ refusal_number self }
    {
        match self {
            Refusal::Nodes => 1,
            Refusal::Slots => 2,
            Refusal::Rule => 3,
            Refusal::DemandShort => 4,
            Refusal::TableShort => 5,
            Refusal::DemandAbove { cell: _ } => 6,
            Refusal::QueueLimit => 7,
            Refusal::BooksDisagree { cell: _ } => 8,
            Refusal::CallsSpent => 9,
            Refusal::BadFile { entry: _ } => 10,
        }
    }

    // The place that the documents give a refusal: the cell for two of them, the entry for a file, else 0.
    pub fn place(self) -> u32
        ensures { result ≡ refusal_place self }
    {
        match self {
            Refusal::DemandAbove { cell } => cell,
            Refusal::BooksDisagree { cell } => cell,
            Refusal::BadFile { entry } => entry,
            _ => 0,
        }
    }
}

// The number of an answer: its refusal's, and 0 for an accepted call.
pub fn number<T>(answer: &Result<T, Refusal>) -> u32
    ensures { result ≡ verdict_number (verdict_of answer.now) }
{
    match answer {
        Ok(_) => 0,
        Err(refusal) => refusal.number(),
    }
}

// The place of an answer: its refusal's, and 0 for an accepted call.
pub fn place<T>(answer: &Result<T, Refusal>) -> u32
    ensures { result ≡ verdict_place (verdict_of answer.now) }
{
    match answer {
        Ok(_) => 0,
        Err(refusal) => refusal.place(),
    }
}
