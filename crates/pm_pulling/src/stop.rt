//! Why a call ends before all its samples are logged, and what is told of it.
ghost use Rattle.std.specs.Prelude.{◌≡◌};
ghost use Rattle.pm_pulling.specs.Stops.{peer_fault, stop_refusal};

use logging_run::RunFault;
use pm_words::{PeerFault, Refusal};
use pmcd_client::{ReplyFault, TalkFault};

/// Why a call ends before all its samples are logged.
#[derive(Clone, Copy)]
pub(crate) enum Stop {
    /// The dialogue broke off.
    Talk(TalkFault),
    /// The files aren't recovered, the archive turns a sample away, or the disk failed.
    Archive(RunFault),
}

impl From<TalkFault> for Stop {
    ghost use Rattle.pm_pulling.specs.declared.stop.Stop.TheVariants.{Talk as Broken};

    ghost from_gives = { λ fault stop. stop ≡ Broken fault };

    fn from(fault: TalkFault) -> Stop {
        Stop::Talk(fault)
    }
}

impl From<RunFault> for Stop {
    ghost use Rattle.pm_pulling.specs.declared.stop.Stop.TheVariants.{Archive as Unlogged};

    ghost from_gives = { λ fault stop. stop ≡ Unlogged fault };

    fn from(fault: RunFault) -> Stop {
        Stop::Archive(fault)
    }
}

// Why a reply doesn't fit, as it is told.
fn peer_fault(why: ReplyFault) -> PeerFault
    ensures { result ≡ peer_fault why }
{
    match why {
        ReplyFault::Ended { bytes } => PeerFault::Ended { bytes },
        ReplyFault::Length { found } => PeerFault::Length { length: found },
        ReplyFault::Decode => PeerFault::Decode,
        ReplyFault::Code { code } => PeerFault::Code { code },
        ReplyFault::Type => PeerFault::OtherType,
        ReplyFault::Shape => PeerFault::Shape,
    }
}

/// The refusal that tells why a call ended; there is none where a request couldn't be written.
pub(crate) fn stop_refusal(stop: Stop) -> Option<Refusal>
    ensures { result ≡ stop_refusal stop }
{
    match stop {
        Stop::Talk(TalkFault::NoMemory) => Some(Refusal::NoMemory),
        Stop::Talk(TalkFault::ReadFault) => Some(Refusal::ReadFault),
        Stop::Talk(TalkFault::WriteFault) => None,
        Stop::Talk(TalkFault::Peer { reply, why }) => Some(Refusal::Peer {
            reply,
            why: peer_fault(why),
        }),
        Stop::Archive(fault) => Some(Refusal::from(fault)),
    }
}
