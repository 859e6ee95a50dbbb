// Heard sets: each is a u32 whose lowest bit is head 0.
ghost use Rattle.std.specs.Prelude.{◌≡◌};
ghost use Rattle.rules.specs.Heard.{apart as apart_of, heard as heard_of};

use rules::{Head, Value};

pub(crate) fn heard(head: Head, value: Value) -> u32
    ensures { result ≡ heard_of head value }
{
    match value {
        Value::Zero => head.zeros,
        Value::One => head.ones,
        Value::Blank => head.blanks,
    }
}

pub(crate) fn apart(a: u32, b: u32) -> bool
    ensures { result ≡ apart_of a b }
{
    a & b == 0
}
