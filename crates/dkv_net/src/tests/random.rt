// The system's random bytes.
use crate::SystemRandom;
use dkv_io::Random;
use std::test::Fail;

#[test]
fn two_fills_of_random_bytes_differ(rt: HostRuntime) -> Result<(), Fail> {
    let mut random = SystemRandom::new(&rt);
    let mut first = [0; 16];
    let mut second = [0; 16];
    assert_eq!(rt; random.fill(&mut first), Ok(()));
    assert_eq!(rt; random.fill(&mut second), Ok(()));
    assert_ne!(rt; first, second);
    assert_eq!(rt; random.faults, 0);
    Ok(())
}
