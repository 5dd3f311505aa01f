//! What holds of files on which recovery is on its way. Each is the contract of a function without parameters, which does
//! nothing.
ghost use Rattle.archive_recovery.specs.Laws.{HalfwayIsRead, HalfwayRecoversTheSame, HalfwayRecoversSound, SettledIsHalfway, RecoveryKeepsSound};

/// Wherever recovery is on its way, the files are read with the same items and the same records of Meta.
pub fn halfway_is_read()
    ensures { HalfwayIsRead }
{}

/// Recovery that is stopped and run again leaves the same of Meta and of the volumes.
pub fn halfway_recovers_the_same()
    ensures { HalfwayRecoversTheSame }
{}

/// Where what recovery leaves is sound, what it leaves when it is run again is.
pub fn halfway_recovers_sound()
    ensures { HalfwayRecoversSound }
{}

/// A crash of a settled disk leaves files on which recovery is at its start.
pub fn settled_is_halfway()
    ensures { SettledIsHalfway }
{}

/// Recovery keeps an archive sound whose entries are of volumes at or below one with its whole label.
pub fn recovery_keeps_sound()
    ensures { RecoveryKeepsSound }
{}
