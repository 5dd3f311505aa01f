//! What holds of what a logger keeps. Each is the contract of a function without parameters, which does nothing.
ghost use Rattle.logger_core.specs.Recovering.{SurvivorsAreRecovered};
ghost use Rattle.logger_core.specs.Grouping.{GroupOfOneIsLogged};
ghost use Rattle.logger_core.specs.Holding.{LoggerHoldsNothing, HoldingNothingIsALogger};
ghost use Rattle.logger_core.specs.Retiring.{RetiredIsRead, RetiredIsRecovered, RetiredItemsAreFirst, RetiringGoesOn};
ghost use Rattle.logger_core.specs.Meant.{GreatestIsGiven};
ghost use Rattle.logger_core.specs.Steps.{GivenIsGreatest};
ghost use Rattle.logger_core.specs.Laws.{KeptFilesSurvive, NearerIsKept, SureIsAcknowledged, SureIsKnown, ItemIsAnnounced, RecordsAreAnnounced, LaterRecordsDescribe, EntryIsAnnounced, VolumeIsAnnounced, WholeIsKept, RecoveredIsWhole};

/// Whatever a crash leaves of what a logger keeps is an archive of the first of its items, with all acknowledged ones,
/// each described by the metadata that is left, and sound.
pub fn kept_files_survive()
    ensures { KeptFilesSurvive }
{}

/// What a logger keeps is kept where a file got more of the bytes that it is meant to have, or more of them are sure.
pub fn nearer_is_kept()
    ensures { NearerIsKept }
{}

/// Once the volume that is written is wholly sure, every item is acknowledged.
pub fn sure_is_acknowledged()
    ensures { SureIsAcknowledged }
{}

/// Once Meta is wholly sure, all its records are.
pub fn sure_is_known()
    ensures { SureIsKnown }
{}

/// An item that sure metadata describes may be meant behind the last volume: what was kept is kept of the longer files, before
/// any byte of them is written.
pub fn item_is_announced()
    ensures { ItemIsAnnounced }
{}

/// Records that contradict none may be meant behind Meta.
pub fn records_are_announced()
    ensures { RecordsAreAnnounced }
{}

/// Records of Meta leave an item described where each instance domain among them is stamped after it.
pub fn later_records_describe()
    ensures { LaterRecordsDescribe }
{}

/// An entry that points to the ends of Meta and of the volume, both sure, may be meant behind the index.
pub fn entry_is_announced()
    ensures { EntryIsAnnounced }
{}

/// The label of a volume above the last, which is wholly sure, may be meant, and that volume is then the one that is written.
pub fn volume_is_announced()
    ensures { VolumeIsAnnounced }
{}

/// A whole archive of which every byte is sure is kept, with all its items acknowledged.
pub fn whole_is_kept()
    ensures { WholeIsKept }
{}

/// What recovery leaves of an archive, once every byte of it is sure, is a whole archive: no volume without its label is left.
pub fn recovered_is_whole()
    ensures { RecoveredIsWhole }
{}

/// Recovery of what survives leaves an archive of the first of the items, with all acknowledged ones, each described by the
/// metadata that is left, and sound.
pub fn survivors_are_recovered()
    ensures { SurvivorsAreRecovered }
{}

/// A group of one is logged as one result is.
pub fn group_of_one_is_logged()
    ensures { GroupOfOneIsLogged }
{}

/// A logger is one that holds no results to be written.
pub fn logger_holds_nothing()
    ensures { LoggerHoldsNothing }
{}

/// One that holds no results is a logger of the archive that is meant once all is written.
pub fn holding_nothing_is_a_logger()
    ensures { HoldingNothingIsALogger }
{}

/// The greatest stamp that files give is that of an item, an instance domain or an entry of the index, and none is stamped after it.
pub fn given_is_greatest()
    ensures { GivenIsGreatest }
{}

/// While no item of a logger's archive is gone its greatest stamp is as the files give it.
pub fn greatest_is_given()
    ensures { GreatestIsGiven }
{}

/// Where a volume that isn't retired has its label, what is left without the retired ones is an archive, and sound where it was.
pub fn retired_is_read()
    ensures { RetiredIsRead }
{}

/// Recovery of what is left leaves what recovery leaves of the whole, with the same volumes retired.
pub fn retired_is_recovered()
    ensures { RetiredIsRecovered }
{}

/// The items that are left stand behind those of the retired volumes.
pub fn retired_items_are_first()
    ensures { RetiredItemsAreFirst }
{}

/// A retirement that was stopped and is made again leaves what one leaves that wasn't.
pub fn retiring_goes_on()
    ensures { RetiringGoesOn }
{}
