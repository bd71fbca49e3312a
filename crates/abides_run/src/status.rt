//! How a run ends.

use plain_lists::Memory;

/// How a run ends, with the number that is the program's exit status.
#[derive(Clone, Copy, PartialEq, Eq)]
pub enum Status {
    /// 0: what is asked for was written.
    Ok,
    /// 2: the words are no command line.
    Usage,
    /// 3: the library holds no file of a name: the study's, its series', a further file's or a bundle's.
    NoStudy,
    /// 4: a file is longer than 16,777,216 bytes, or a bundle than 1,073,741,824.
    TooLong,
    /// 5: the study breaks this rule first, at the least of its places.
    Refused { rule: u32, place: u32 },
    /// 6: a read of the library failed.
    ReadFault,
    /// 7: a write of the output failed.
    WriteFault,
    /// 8: a mark names a branch that the study doesn't have.
    NoBranch,
    /// 11: a cross names a stock that the study doesn't have.
    NoStock,
    /// 12: the record of this number is the first of a file of orders that breaks a rule.
    BadOrders { number: u32 },
    /// 13: bytes are no bundle. By reason 1 a frame is cut, with so many bytes left; by 2 the bytes at a place are no frame; by 3 the
    /// frame at a place may not stand there.
    BadBundle { reason: u32, at: usize },
    /// 14: this branch is the first of a bundle whose closing isn't what its feed tells. The reference is that of the first message
    /// that can't be applied, or the least one of an order that differs, and 0 where neither is there.
    AuditFailed { branch: usize, reference: u64 },
    /// 15: the act of this number is the first bad one of a script; 64 where the whole is none.
    BadScript { act: u32 },
    /// 16: the act of this number is the first that the tree of branches refuses.
    ActRefused { act: u32 },
    /// 9: a branch has no event of the number that a mark or an act names.
    NoEvent,
    /// 10: memory was wanting.
    Memory,
}

impl Status {
    ghost use Rattle.std.specs.Prelude.{◌≡◌};
    ghost use Rattle.abides_run.specs.Code.{code_of};

    /// The status as a number.
    pub fn code(self) -> u8
        ensures { result ≡ code_of self }
    {
        match self {
            Status::Ok => 0,
            Status::Usage => 2,
            Status::NoStudy => 3,
            Status::TooLong => 4,
            Status::Refused { .. } => 5,
            Status::ReadFault => 6,
            Status::WriteFault => 7,
            Status::NoBranch => 8,
            Status::NoEvent => 9,
            Status::Memory => 10,
            Status::NoStock => 11,
            Status::BadOrders { .. } => 12,
            Status::BadBundle { .. } => 13,
            Status::AuditFailed { .. } => 14,
            Status::BadScript { .. } => 15,
            Status::ActRefused { .. } => 16,
        }
    }
}

impl From<Memory> for Status {
    ghost use Rattle.std.specs.Prelude.{◌≡◌};
    ghost use Rattle.abides_run.specs.declared.status.Status.TheVariants as status;

    ghost from_gives = { λ _ s. s ≡ status.Memory };

    fn from(_refused: Memory) -> Status {
        Status::Memory
    }
}
