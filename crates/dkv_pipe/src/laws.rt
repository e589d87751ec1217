//! Laws of inputs that are whole frames, and of runs.

ghost use Rattle.dkv_pipe.specs.Laws.{BeginsNoFrame, Complete, FramesBegin, FrontIsFrame, OneCourse, OneRun, RefusedStays};

/// With the same marks, bytes have one list of replies and one rest. So runs that read the same bytes
/// and met the disk's faults at the same frames have one course, unless a write failed or memory was
/// wanted.
pub fn one_run()
    ensures run { OneRun }
    ensures course { OneCourse }
{}

/// An input that is the bytes of whole frames begins with them, and what stands whole at the front
/// is a frame's bytes.
pub fn whole_frames_begin()
    ensures begin { FramesBegin }
    ensures front { FrontIsFrame }
{}

/// What is refused at the front stays refused, whatever follows, and begins no frame.
pub fn refused_stays()
    ensures stays { RefusedStays }
    ensures never { BeginsNoFrame }
{}

/// A run over whole frames that are built answers all of them, where no count of faults rose, the
/// marks are within the disks' rise and memory sufficed.
pub fn whole_frames_are_answered()
    ensures { Complete }
{}
