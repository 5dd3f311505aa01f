//! What holds of exports. Each is the contract of a function without parameters, which does nothing.
ghost use Rattle.log_export.specs.Laws.{ExportBegins, ExportIsOne, ExportIsRead, ExportKeepsSound, ExportStays};

/// An export is read as an archive with the source's scan and its records of Meta.
pub fn export_is_read()
    ensures { ExportIsRead }
{}

/// Its index begins with the entry of the archive's start, and each entry is of a volume that stands.
pub fn export_begins()
    ensures { ExportBegins }
{}

/// It is sound where what recovery leaves of the source is, and where the source is.
pub fn export_keeps_sound()
    ensures { ExportKeepsSound }
{}

/// It is one thing.
pub fn export_is_one()
    ensures { ExportIsOne }
{}

/// An export of an export is itself.
pub fn export_stays()
    ensures { ExportStays }
{}
