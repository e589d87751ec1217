// `create`: a new database in two files, with an id and a secret that are drawn.
ghost use Rattle.std.specs.Prelude.{◌++◌, OnOk};
ghost use Rattle.std.specs.Io.KnownBytes.{Consumes};
ghost use Rattle.dkv_io.specs.Causes.{HasCause, Rose};
ghost use Rattle.dkv_files.specs.Creating.{new_identity};
ghost use Rattle.dkv_app.specs.Creating.{Creates, CreatesFiles, CreateCause};
ghost use Rattle.dkv_app.specs.Ids.{created_line};
ghost use Rattle.dkv_app.specs.Piping.{DisksRose};
ghost use Rattle.dkv_app.specs.Statuses.{Prints};

use crate::ids::new_id;
use crate::status::Status;
use crate::tells::tell_created;
use dkv_files::{CreateRefusal, Pair, create};
use dkv_io::{Disk, Failed, Random, Sink};
use std::alloc::Global;

// The seed of an id, and a secret: the next 48 random bytes.
fn draw<R: Random>(random: &mut R, seed: &mut [u8; 16], secret: &mut [u8; 32]) -> Result<(), Failed>
    ensures drawn { OnOk result (Consumes (R.stream random.old) (R.stream random.new)
        (seed.new ++ secret.new)) }
    ensures cause { HasCause (R.faults random.old) (R.faults random.new) result }
{
    let mut bytes = [0; 48];
    if let Err(failed) = random.fill(&mut bytes) {
        return Err(failed);
    }
    seed.copy_from_slice(&bytes[..16]);
    secret.copy_from_slice(&bytes[16..]);
    Ok(())
}

// Makes the database of this identity, and tells its id.
fn make<K: Sink, D: Disk>(
    alloc: Global,
    sink: &mut K,
    pair: &mut Pair<D>,
    id: [u8; 16],
    secret: [u8; 32],
) -> Status
    ensures files { CreatesFiles D.seen D.may_leave D.moment D.left_since
        result (new_identity id secret) pair.old.a pair.old.b pair.new.a pair.new.b }
    ensures line { Prints result K.held sink.old sink.new (created_line id) }
    ensures cause { CreateCause result ⊥ (Rose (K.faults sink.old) (K.faults sink.new))
        (DisksRose D.faults pair.old.a pair.old.b pair.new.a pair.new.b) }
{
    match create(alloc, pair, id, secret) {
        Ok(()) => match tell_created(sink, id) {
            Ok(()) => Status::Ok,
            Err(_) => Status::WriteFault,
        },
        Err(CreateRefusal::DiskFault) => Status::DiskFault,
        Err(CreateRefusal::Exists) => Status::Exists,
        Err(CreateRefusal::NoMemory) => Status::NoMemory,
    }
}

/// Makes a new database in two files of which none is open, and prints its id. Takes 48 random bytes
/// before it touches a file.
pub(crate) fn run_create<K: Sink, D: Disk, R: Random>(
    alloc: Global,
    sink: &mut K,
    pair: &mut Pair<D>,
    random: &mut R,
) -> Status
    ensures creates { Creates D.seen D.may_leave D.moment D.left_since
        result (R.stream random.old) (R.stream random.new)
        (Prints result K.held sink.old sink.new)
        pair.old.a pair.old.b pair.new.a pair.new.b }
    ensures cause { CreateCause result (Rose (R.faults random.old) (R.faults random.new))
        (Rose (K.faults sink.old) (K.faults sink.new))
        (DisksRose D.faults pair.old.a pair.old.b pair.new.a pair.new.b) }
{
    let mut seed = [0; 16];
    let mut secret = [0; 32];
    match draw(random, &mut seed, &mut secret) {
        Ok(()) => make(alloc, sink, pair, new_id(seed), secret),
        Err(_) => Status::RandomFault,
    }
}
