// Laws of the records of a file.
ghost use Rattle.dkv_journal.specs.Laws.{RecordsScan, ScanGoesOn, AppendKeeps, AppendedScans, DoubtAppends, DoubtMends};

/// What is written as records is scanned as their bodies, and nothing behind their closed gate is asked of.
pub fn records_are_scanned()
    ensures written { RecordsScan }
    ensures front { ScanGoesOn }
{}

/// A crash in an append keeps the records before it, and adds the new one whole or not at all.
pub fn appends_keep_records()
    // What a crash leaves is scanned as the records before, or as these and the new one.
    ensures kept { AppendKeeps }
    // What was appended is scanned.
    ensures added { AppendedScans }
    // A gate in doubt leaves what an append leaves, also where a crash cuts its mend short.
    ensures doubted { DoubtAppends }
    // Once mended, the new record isn't there.
    ensures mended { DoubtMends }
{}
