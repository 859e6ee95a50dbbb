// The nouns of document 01, 'Run file and bench'. Their meaning stands in specs/, what follows from
// it in proofs/. The code that uses these types is `run`.
#![tactic(auto)]

ghost use Rattle.std.specs.Prelude.{◌≡◌, ◌+◌, ◌^◌, ◌≤◌, ◌<◌};
ghost use Rattle.rules.specs.Sizes.{heads_most};
ghost use Rattle.file.specs.Fault.{number_of};
ghost use Rattle.file.specs.Sizes.{rounds_most};

use rules::Head;

// What is wrong with a run file, or with the table that it is to run in.
#[derive(Clone, Copy, Debug, PartialEq, Eq)]
pub enum Fault {
    EndsInsideCountOrBody,
    CountBreaksItsRule,
    BytesBreakTheirRule,
    BytesAfterTheLastSection,
    TableTooShort,
}

// Why a file is refused, and at which place of it.
#[derive(Clone, Copy, Debug, PartialEq, Eq)]
pub struct Refusal {
    pub fault: Fault,
    pub place: usize,
}

impl Refusal {
    // The number that a report prints.
    pub fn number(self) -> u8
        ensures { result ≡ number_of self.fault }
    {
        match self.fault {
            Fault::EndsInsideCountOrBody => 12,
            Fault::CountBreaksItsRule => 13,
            Fault::BytesBreakTheirRule => 14,
            Fault::BytesAfterTheLastSection => 15,
            Fault::TableTooShort => 16,
        }
    }
}

// Where a section's body stands: `length` bytes of the file from `start` on. It holds no reference.
#[derive(Clone, Copy, Debug, PartialEq, Eq)]
pub struct Body {
    pub start: usize,
    pub length: usize,
    pub ghost ends: { start + length < 2 ^ 64 },
}

impl Body {
    // Where the next section's count stands.
    pub fn end(&self) -> usize
        ensures { result ≡ self.now.start + self.now.length }
    {
        self.start + self.length
    }
}

// What a whole run file says: n, k, the rounds, and where the bodies of the losses and of the coins
// start. No product of the numbers leaves a usize.
#[derive(Clone, Copy, Debug, PartialEq, Eq)]
pub struct Plan {
    pub n: usize,
    pub needed: usize,
    pub rounds: usize,
    pub losses: usize,
    pub coins: usize,
    pub ghost few_heads: { n ≤ heads_most },
    pub ghost need_among_them: { needed ≤ n },
    pub ghost few_rounds: { rounds ≤ rounds_most },
}

// The figures that the report prints beside the heads. By W2 `decided` counts the heads whose decision
// is written.
#[derive(Clone, Copy, Debug, PartialEq, Eq)]
pub struct Figures {
    pub n: usize,
    pub needed: usize,
    pub bound: usize,
    pub rounds: usize,
    pub good: usize,
    pub decided: usize,
}

// A whole vote by value: the bench's answer, and the table of 32 heads that it leaves.
#[derive(Drop)]
pub struct Benched {
    pub outcome: Result<Figures, Refusal>,
    pub heads: [Head; 32],
}
