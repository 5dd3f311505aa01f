//! Why a dialogue breaks off.
ghost use Rattle.std.specs.Prelude.{◌≡◌};
ghost use Rattle.pmcd_client.specs.declared.faults.TalkFault.TheVariants.{NoMemory as Refused};

use pcp_base::NoMemory;
use std::alloc::AllocError;
use std::error::Error;
use std::fmt;

/// Why a reply doesn't fit; the first that holds is told.
#[derive(Clone, Copy, Debug)]
pub enum ReplyFault {
    /// The input ended that many bytes into the reply.
    Ended { bytes: u64 },
    /// Its length word is below 12 or above 65,536.
    Length { found: u64 },
    /// It is no PDU.
    Decode,
    /// It is an error code where another reply is due, or a greeting with another code than 0.
    Code { code: i32 },
    /// It is another PDU than the one that is due.
    Type,
    /// It is the PDU that is due, but not about what was asked.
    Shape,
}

impl fmt::Display for ReplyFault {
    fn fmt<W: fmt::Write>(&self, f: &mut fmt::Formatter<W>) -> fmt::Result {
        f.write_str(match self {
            ReplyFault::Ended { .. } => "the input ended inside a reply",
            ReplyFault::Length { .. } => "the length word is out of range",
            ReplyFault::Decode => "a reply is no PDU",
            ReplyFault::Code { .. } => "the reply is an error",
            ReplyFault::Type => "another PDU is due",
            ReplyFault::Shape => "the reply is about something else",
        })
    }
}

impl Error for ReplyFault {}

/// Why a dialogue breaks off.
#[derive(Clone, Copy, Debug)]
pub enum TalkFault {
    /// Memory was refused.
    NoMemory,
    /// The source of the replies failed.
    ReadFault,
    /// The sink of the requests failed.
    WriteFault,
    /// A reply doesn't fit: its number from 0, and why.
    Peer { reply: u64, why: ReplyFault },
}

impl fmt::Display for TalkFault {
    fn fmt<W: fmt::Write>(&self, f: &mut fmt::Formatter<W>) -> fmt::Result {
        f.write_str(match self {
            TalkFault::NoMemory => "out of memory",
            TalkFault::ReadFault => "the source failed",
            TalkFault::WriteFault => "the sink failed",
            TalkFault::Peer { .. } => "a reply doesn't fit",
        })
    }
}

impl Error for TalkFault {}

impl From<NoMemory> for TalkFault {
    ghost from_gives = { λ _ e. e ≡ Refused };

    fn from(_error: NoMemory) -> TalkFault {
        TalkFault::NoMemory
    }
}

impl From<AllocError> for TalkFault {
    ghost from_gives = { λ _ e. e ≡ Refused };

    fn from(_error: AllocError) -> TalkFault {
        TalkFault::NoMemory
    }
}
