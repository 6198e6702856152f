//! What a call says: that it is done, or why it refuses, and the reply of five numbers that tells either.
//! The crate's root hands all of it on.
ghost use Rattle.std.specs.Prelude.{◌≡◌, Some, refl};
ghost use Rattle.plan.specs.Refusal.{fine, refusal, told, reply_of, holding};
ghost use Rattle.plan.specs.Message.{message};

use sets::Set;
use std::error::Error;
use std::fmt;

/// The answer of every call over the C interface: a code, and where it is about.
// The code stays a number: the C interface, docs/RULES.md 'Replies'. `Refusal` is the enum, and `told` of specs/ gives each case its number.
#[repr(C)]
#[derive(Clone, Copy, Debug, PartialEq, Eq, Hash)]
pub struct Reply {
    pub code: u64,
    pub step: u64,
    pub fact: u64,
    pub other: u64,
    pub at: u64,
}

/// Why a call refuses: a case for each row of the table, with what the row names.
#[derive(Clone, Copy, Debug, PartialEq, Eq, Hash)]
pub enum Refusal {
    /// F, n or a length is wrong.
    WrongLength,
    /// A set of a step names a fact F or above; 0 is the start and n + 1 the end.
    FactOutside { step: u64, fact: u64 },
    /// A step number, `other`, is outside its range: in a list of step sets at the place `step`, counted from 1, with `fact` 0; or as the producer in
    /// the link of the consumer `step` for `fact`.
    // One case for both, which are one row of the table: two cases would be told by the same numbers, and `told_once` and `checked_once` would be false.
    StepOutside { step: u64, fact: u64, other: u64 },
    /// Adds and deletes of a step share a fact.
    SetsMeet { step: u64, fact: u64 },
    /// An output buffer is shorter than needed.
    ShortOutput { needed: u64 },
    /// A step needs a fact that the state lacks in its turn; n + 1 is the end.
    NeedUnmet { step: u64, fact: u64 },
    /// Some step is not used exactly once.
    NotOnceEach,
}

impl fmt::Display for Refusal {
    ghost output = { λ refusal. Some (message refusal) };

    fn fmt<W: fmt::Write>(&self, f: &mut fmt::Formatter<W>) -> fmt::Result {
        match self {
            Refusal::WrongLength => write!(f, "wrong F, n or length"),
            Refusal::FactOutside { step, fact } => write!(
                f,
                "step {step} names {fact}, which is no fact"
            ),
            Refusal::StepOutside { step, other, .. } => write!(
                f,
                "at {step}: {other} is out of range"
            ),
            Refusal::SetsMeet { step, fact } => write!(
                f,
                "step {step} adds and deletes fact {fact}"
            ),
            Refusal::ShortOutput { needed } => write!(f, "an output is shorter than {needed}"),
            Refusal::NeedUnmet { step, fact } => write!(f, "step {step} lacks fact {fact}"),
            Refusal::NotOnceEach => write!(f, "a step is not used exactly once"),
        }
    }
}

impl Error for Refusal {}

/// The reply that says nothing: there is nothing to refuse.
// `accept`, `refuse`, `said` and `from` answer numbers: the C interface, docs/RULES.md 'Replies', whose reply they make.
pub fn accept() -> Reply
    ensures { result ≡ fine }
{
    refuse(0, 0, 0, 0)
}

/// The reply of these numbers, of a call other than the reader.
pub fn refuse(code: u64, step: u64, fact: u64, other: u64) -> Reply
    ensures { result ≡ refusal code step fact other }
{
    Reply {
        code,
        step,
        fact,
        other,
        at: 0,
    }
}

/// The reply that tells a refusal.
impl From<Refusal> for Reply {
    ghost from_gives = { λ refusal reply. reply ≡ told refusal };

    fn from(refusal: Refusal) -> Reply {
        match refusal {
            Refusal::WrongLength => refuse(3, 0, 0, 0),
            Refusal::FactOutside { step, fact } => refuse(4, step, fact, 0),
            Refusal::StepOutside { step, fact, other } => refuse(5, step, fact, other),
            Refusal::SetsMeet { step, fact } => refuse(6, step, fact, 0),
            Refusal::ShortOutput { needed } => refuse(8, 0, 0, needed),
            Refusal::NeedUnmet { step, fact } => refuse(9, step, fact, 0),
            Refusal::NotOnceEach => refuse(15, 0, 0, 0),
        }
    }
}

/// What a call that is done has to say.
// The replies below are numbers too: the C interface, docs/RULES.md 'Replies'.
pub trait Done {
    ghost use Rattle.std.specs.Prelude.{◌≡◌};
    ghost use Rattle.plan.specs.declared.replies.Reply.{Reply};

    ghost said: { Self → Reply };

    fn said(self) -> Reply
        ensures { result ≡ said self };

    // What is said of a call that is done has code 0.
    ghost done: { (value : Self) → (said value).code ≡ 0 };
}

/// A check says nothing.
impl Done for () {
    ghost said = { λ _. fine };

    ghost done = { λ _. refl };

    fn said(self) -> Reply {
        accept()
    }
}

/// A run says which facts hold.
impl Done for Set {
    ghost said = { holding };

    ghost done = { λ _. refl };

    fn said(self) -> Reply {
        refuse(0, 0, 0, u64::from(self))
    }
}

/// The reply of a call: what it says, or its refusal.
impl<T: Done> From<Result<T, Refusal>> for Reply {
    ghost from_gives = { λ outcome reply. reply ≡ reply_of T.said outcome };

    fn from(outcome: Result<T, Refusal>) -> Reply {
        match outcome {
            Ok(done) => done.said(),
            Err(refusal) => Reply::from(refusal),
        }
    }
}
