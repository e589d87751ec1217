// Laws of the spellings.
ghost use Rattle.dkv_msgs.specs.Spellings.{spell_ranges, spell_keys, spell_snapshot_read_output, spell_atomic_write_output, spell_watch_output};
ghost use Rattle.dkv_base.specs.Spelling.{spell_write};
ghost use Rattle.dkv_msgs.specs.declared.types.Watch.{Watch};
ghost use Rattle.dkv_msgs.specs.Fits.{ReadFits, WriteFits, ReadOutputFits, WriteOutputFits, WatchOutputFits};
ghost use Rattle.dkv_msgs.specs.Laws.{ReadsBack, OneSpelling, SpellsAndReads, SpellsShort};
ghost use Rattle.dkv_msgs.specs.Readings.{reads_snapshot_read, reads_snapshot_read_output, reads_atomic_write, reads_atomic_write_output, reads_watch, reads_watch_output};

/// Each message is read from its canonical spelling.
pub fn reads_back()
    ensures read { ReadsBack ReadFits (λ m. spell_ranges m.ranges) reads_snapshot_read }
    ensures read_output { ReadsBack ReadOutputFits
        spell_snapshot_read_output reads_snapshot_read_output }
    ensures write { ReadsBack WriteFits spell_write reads_atomic_write }
    ensures write_output { ReadsBack WriteOutputFits
        spell_atomic_write_output reads_atomic_write_output }
    ensures watch { ReadsBack (λ _. Unit {0}) (λ m. spell_keys m.keys) reads_watch }
    ensures watch_output { ReadsBack WatchOutputFits spell_watch_output reads_watch_output }
    // The same of every write that fits its types.
    ensures database { SpellsAndReads reads_atomic_write }
{}

/// No two messages have one canonical spelling.
pub fn one_spelling()
    ensures read { OneSpelling ReadFits (λ m. spell_ranges m.ranges) }
    ensures read_output { OneSpelling ReadOutputFits spell_snapshot_read_output }
    ensures write { OneSpelling WriteFits spell_write }
    ensures write_output { OneSpelling WriteOutputFits spell_atomic_write_output }
    ensures watch { OneSpelling {M = Watch} (λ _. Unit {0}) (λ m. spell_keys m.keys) }
    ensures watch_output { OneSpelling WatchOutputFits spell_watch_output }
{}

/// The canonical spelling of a write within its limits is little longer than any bytes that read as it.
pub fn spelled_short()
    ensures { SpellsShort reads_atomic_write }
{}
