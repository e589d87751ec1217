// Laws of two files.
ghost use Rattle.dkv_base.specs.Profiles.{known_first};
ghost use Rattle.dkv_msgs.specs.Readings.{reads_atomic_write};
ghost use Rattle.dkv_files.specs.Laws.{FileIsRead, FirstIsUsed, SecondIsUsed};
ghost use Rattle.dkv_files.specs.Renewing.{WholeRests};

/// A written file stands, and is read as what it was written of, whatever follows it.
pub fn files_are_read()
    ensures { FileIsRead known_first reads_atomic_write }
{}

/// Two files recover to the open one with the greater generation.
pub fn newer_is_used()
    ensures first { FirstIsUsed known_first reads_atomic_write }
    ensures second { SecondIsUsed known_first reads_atomic_write }
{}

/// A whole file is read as its image without a record, and its first gate is its last.
pub fn whole_files_rest()
    ensures { WholeRests }
{}
