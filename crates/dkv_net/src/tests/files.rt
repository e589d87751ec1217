// A disk over a real file.
use crate::{FileDisk, create_folder};
use dkv_io::{Disk, Failed};
use std::alloc::Global;
use std::fs;
use std::process::Abort;
use std::test::Fail;

const FOLDER: &str = "folder_of_a_test";

const PATH: &str = "folder_of_a_test/a.dkv";

fn disk(rt: &HostRuntime) -> Result<FileDisk, Fail> {
    Ok(FileDisk::new(rt, String::from_str(rt.alloc(), PATH)?))
}

fn holds(rt: &impl Abort, disk: &mut FileDisk, bytes: &[u8]) {
    let mut buffer = [0; 8];
    assert_eq!(rt; disk.len(), Ok(bytes.len() as u64));
    assert_eq!(rt; disk.read(0, &mut buffer), Ok(bytes.len()));
    assert!(rt; buffer.starts_with(bytes));
}

#[test]
fn a_file_is_made_at_its_first_write_and_read_again(rt: HostRuntime) -> Result<(), Fail> {
    create_folder(&rt, FOLDER);
    create_folder(&rt, FOLDER);
    let mut first = disk(&rt)?;
    holds(&rt, &mut first, b"");
    assert_eq!(rt; first.sync(), Ok(()));
    assert_eq!(rt; first.cut(0), Ok(()));
    assert!(rt; !fs::exists(&rt, PATH)?);
    assert_eq!(rt; first.write_at(0, b"abcd"), Ok(()));
    assert_eq!(rt; first.write_at(3, b"xyz"), Ok(()));
    holds(&rt, &mut first, b"abcxyz");
    assert_eq!(rt; first.cut(4), Ok(()));
    assert_eq!(rt; first.sync(), Ok(()));
    assert_eq!(rt; first.read(9, &mut [0; 1]), Ok(0));
    assert_eq!(rt; first.read(u64::MAX, &mut [0; 1]), Ok(0));
    assert_eq!(rt; first.faults, 0);
    // While it is open, no one else takes it.
    let mut second = disk(&rt)?;
    assert_eq!(rt; second.len(), Err(Failed));
    assert_eq!(rt; second.write_at(0, b"q"), Err(Failed));
    assert_eq!(rt; second.faults, 2);
    drop(first);
    holds(&rt, &mut second, b"abcx");
    assert_eq!(rt; second.sync(), Ok(()));
    drop(second);
    fs::remove_file(&rt, PATH)?;
    fs::remove_dir(&rt, FOLDER)?;
    Ok(())
}

#[test]
fn what_the_system_refuses_is_a_fault(rt: HostRuntime) -> Result<(), Fail> {
    // A file in a folder that isn't there, and a file that is a folder.
    let path = "no_folder_of_a_test/a.dkv";
    let mut nowhere = FileDisk::new(&rt, String::from_str(rt.alloc(), path)?);
    assert_eq!(rt; nowhere.len(), Ok(0));
    assert_eq!(rt; nowhere.write_at(0, b"a"), Err(Failed));
    assert_eq!(rt; nowhere.cut(1), Err(Failed));
    assert_eq!(rt; nowhere.faults, 2);
    let mut folder = FileDisk::new(&rt, String::from_str(rt.alloc(), ".")?);
    assert_eq!(rt; folder.len(), Err(Failed));
    assert_eq!(rt; folder.faults, 1);
    Ok(())
}

#[test]
fn a_file_that_came_meanwhile_is_left(rt: HostRuntime) -> Result<(), Fail> {
    let path = "came_in_a_test_of_dkv_net";
    let mut late = FileDisk::new(&rt, String::from_str(rt.alloc(), path)?);
    assert_eq!(rt; late.len(), Ok(0));
    fs::write(&rt, path, b"ab")?;
    assert_eq!(rt; late.write_at(0, b"q"), Err(Failed));
    assert_eq!(rt; fs::read(&rt, path)?.as_slice(), b"ab".as_slice());
    fs::remove_file(&rt, path)?;
    Ok(())
}
