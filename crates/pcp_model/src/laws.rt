//! What holds of whole files, and of a domain's record. Each is the contract of a function without parameters, which does nothing.
ghost use Rattle.pcp_model.specs.Laws.{FilesAreReadOnce, InstancesAreRead, ItemIsAdded, RecordsAreAdded, EntryIsAdded, VolumeIsAdded, CutsAreRead, CutsAreSound, RecoveryKeepsTheScan, RecoveryStays, RecoveryIsOne};

/// Files are read in at most one way: as a stopped creation, or as an archive with this label, these records,
/// entries and items.
pub fn files_are_read_once()
    ensures { FilesAreReadOnce }
{}

/// The instances that are read are those that stand there: each number, and the name to which its offset leads in the table.
pub fn instances_are_read()
    ensures { InstancesAreRead }
{}

/// An item's framed record behind the last volume, which ends with a whole record, is one item more in the scan.
pub fn item_is_added()
    ensures { ItemIsAdded }
{}

/// Framed records behind Meta, which ends with a whole record, are records more.
pub fn records_are_added()
    ensures { RecordsAreAdded }
{}

/// An entry behind the index, which ends with a whole entry, is one entry more.
pub fn entry_is_added()
    ensures { EntryIsAdded }
{}

/// The label of a volume above the last, which ends with a whole record, changes neither scan nor metadata.
pub fn volume_is_added()
    ensures { VolumeIsAdded }
{}

/// An archive whose Meta is cut behind its label, and its index and last volume anywhere, is an archive of the
/// records, entries and items that are whole in it, so what a crash leaves of one can be read.
pub fn cuts_are_read()
    ensures { CutsAreRead }
{}

/// A sound archive that is cut so stays sound, where the entries that are left point into what is left.
pub fn cuts_are_sound()
    ensures { CutsAreSound }
{}

/// What recovery leaves is read with the same scan and the same records of Meta.
pub fn recovery_keeps_the_scan()
    ensures { RecoveryKeepsTheScan }
{}

/// Recovery of what recovery left changes nothing.
pub fn recovery_stays()
    ensures { RecoveryStays }
{}

/// Of files that are read in one way, recovery leaves one thing.
pub fn recovery_is_one()
    ensures { RecoveryIsOne }
{}
