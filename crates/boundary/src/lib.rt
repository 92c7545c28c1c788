// What the functions for C and Rust report, decided by value: the number that each returns and the two that it reports. specs/Reply.antt has
// what they promise, of flattening too, specs/Smtlib.antt the same of SMT-LIB; specs/Sessions.antt a session over them, of which demand 3 is
// proved. The functions themselves are in crates/ffi.
#![tactic(auto)]

ghost use Rattle.std.specs.Prelude.{◌≡◌};
ghost use Rattle.boundary.specs.Heard.{numbers_of, said_of, Tells};
ghost use Rattle.boundary.specs.Version.{version as versionOf};

use words::refusal::Refusal;
use words::report::Report;

// The refusal's number, 0 if accepted, and the two numbers that are reported, 0 after a refusal.
#[derive(Clone, Copy)]
pub struct Reported {
    pub refusal: u32,
    pub first: u64,
    pub second: u64,
}

// What is said, as numbers; a refusal may be any number.
pub fn numbers(said: Result<Report, u32>) -> Reported
    ensures { result ≡ numbers_of (said_of said) }
{
    match said {
        Ok(report) => Reported {
            refusal: 0,
            first: report.first as u64,
            second: report.second as u64,
        },
        Err(refusal) => Reported {
            refusal,
            first: 0,
            second: 0,
        },
    }
}

// What is said, where a refusal is one by name.
impl From<Result<Report, Refusal>> for Reported {
    ghost from_gives = { Tells };

    fn from(said: Result<Report, Refusal>) -> Reported {
        match said {
            Ok(report) => numbers(Ok(report)),
            Err(refusal) => numbers(Err(u32::from(refusal))),
        }
    }
}

// The version of the interface.
pub fn version() -> u32
    ensures { result ≡ versionOf }
{
    5
}
