// The codes that stand for values, statuses and decisions, a byte each.
ghost use Rattle.std.specs.Prelude.{◌≡◌, ℕ};
ghost use Rattle.codes.specs.Coded.{CodedLaws};

use rules::{Decision, Status, Value};

// What stands as one byte.
pub trait Coded: Copy {
    // The code of each, what each code stands for, and how many codes there are.
    ghost code_of: { Self → ℕ };

    ghost from_code: { ℕ → Self };

    ghost codes: { ℕ };

    // What each `impl` proves.
    ghost laws: { CodedLaws code_of from_code codes };

    fn code(self) -> u8
        ensures { result ≡ code_of self };

    // A code that is none is read as the last one.
    fn from_code(code: u8) -> Self
        ensures { result ≡ from_code code };
}

// "value 0, 1 or 2 (blank)"
impl Coded for Value {
    ghost use Rattle.rules.specs.Ballot.{value_code, value_of};
    ghost use Rattle.codes.specs.CodedNouns.{value_laws};

    ghost code_of = { value_code };

    ghost from_code = { value_of };

    ghost codes = { 3 };

    ghost laws = { value_laws };

    fn code(self) -> u8 {
        match self {
            Value::Zero => 0,
            Value::One => 1,
            Value::Blank => 2,
        }
    }

    fn from_code(code: u8) -> Value {
        match code {
            0 => Value::Zero,
            1 => Value::One,
            _ => Value::Blank,
        }
    }
}

// "status 0 or 1 (decided)"
impl Coded for Status {
    ghost use Rattle.rules.specs.Ballot.{status_code, status_of};
    ghost use Rattle.codes.specs.CodedNouns.{status_laws};

    ghost code_of = { status_code };

    ghost from_code = { status_of };

    ghost codes = { 2 };

    ghost laws = { status_laws };

    fn code(self) -> u8 {
        match self {
            Status::Undecided => 0,
            Status::Decided => 1,
        }
    }

    fn from_code(code: u8) -> Status {
        match code {
            0 => Status::Undecided,
            _ => Status::Decided,
        }
    }
}

// "decision (2 for none)"
impl Coded for Decision {
    ghost use Rattle.rules.specs.Head.{decision_code};
    ghost use Rattle.rules.specs.Record.{decision_of};
    ghost use Rattle.codes.specs.CodedNouns.{decision_laws};

    ghost code_of = { decision_code };

    ghost from_code = { decision_of };

    ghost codes = { 3 };

    ghost laws = { decision_laws };

    fn code(self) -> u8 {
        match self {
            Decision::Zero => 0,
            Decision::One => 1,
            Decision::Unwritten => 2,
        }
    }

    fn from_code(code: u8) -> Decision {
        match code {
            0 => Decision::Zero,
            1 => Decision::One,
            _ => Decision::Unwritten,
        }
    }
}
