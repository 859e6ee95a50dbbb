// The words of a report: "value prints 0, 1 or blank, status decided or undecided, decision 0, 1 or
// none".
ghost use Rattle.std.specs.Prelude.{◌≡◌, ℕ, List};

use rules::{Decision, Status, Value};

// What prints as one word. No `Display`: `write!` tells what it has written only on `Ok`, and `report`
// cannot fail.
pub(crate) trait Word {
    ghost word_of: { Self → List ℕ };

    fn word(self) -> &'static [u8]
        ensures { result.now ≡ word_of self };
}

impl Word for Value {
    ghost use Rattle.file.specs.Report.{value_word};

    ghost word_of = { value_word };

    fn word(self) -> &'static [u8] {
        match self {
            Value::Zero => b"0",
            Value::One => b"1",
            Value::Blank => b"blank",
        }
    }
}

impl Word for Status {
    ghost use Rattle.file.specs.Report.{status_word};

    ghost word_of = { status_word };

    fn word(self) -> &'static [u8] {
        match self {
            Status::Undecided => b"undecided",
            Status::Decided => b"decided",
        }
    }
}

impl Word for Decision {
    ghost use Rattle.file.specs.Report.{decision_word};

    ghost word_of = { decision_word };

    fn word(self) -> &'static [u8] {
        match self {
            Decision::Zero => b"0",
            Decision::One => b"1",
            Decision::Unwritten => b"none",
        }
    }
}
