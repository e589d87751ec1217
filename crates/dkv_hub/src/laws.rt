// What is noted of a frame, as the definitions tell it.
ghost use Rattle.dkv_hub.specs.Laws.{ShownIsTold, NothingNew};

/// What a watcher notes of each key tells the commits that a frame showed, where no entry is of
/// commit 0. A frame beside what is shown already is none.
pub fn shown_is_told()
    ensures told { ShownIsTold }
    ensures nothing_new { NothingNew }
{}
