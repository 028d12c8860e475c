use super::*;
use std::test::Fail;

#[test]
fn reads_the_words_of_a_line(rt: HostRuntime) -> Result<(), Fail> {
    let mut words = " run 70\t-3 1f\n".split_ascii_whitespace();
    assert_eq!(rt; next_word(&mut words)?, "run");
    assert_eq!(rt; next_number::<u32>(&mut words)?, 70);
    assert_eq!(rt; next_number::<i64>(&mut words)?, -3);
    assert_eq!(rt; next_hex(&mut words)?, 31);
    assert!(rt; matches!(next_word(&mut words), Err(LineError::Missing)));
    Ok(())
}

#[test]
fn reads_files(rt: HostRuntime) -> Result<(), Fail> {
    let mut words = "4 0aFF 2 - 1 070809".split_ascii_whitespace();
    let files = [
        [10u8, 255, 0, 0].as_slice(),
        [0, 0].as_slice(),
        [7].as_slice(),
    ];
    for want in files {
        assert_eq!(rt; next_file(rt.alloc(), &mut words)?.as_slice(), want);
    }
    Ok(())
}

#[test]
fn says_why_a_line_cannot_be_read(rt: HostRuntime) {
    let mut words = "1x 4294967296 2g 3 abc 4".split_ascii_whitespace();
    assert!(rt; matches!(next_number::<u32>(&mut words), Err(LineError::Number(_))));
    assert!(rt; matches!(next_number::<u32>(&mut words), Err(LineError::Number(_))));
    assert!(rt; matches!(next_hex(&mut words), Err(LineError::Number(_))));
    assert!(rt; matches!(next_file(rt.alloc(), &mut words), Err(LineError::Bytes(_))));
    assert!(rt; matches!(next_file(rt.alloc(), &mut words), Err(LineError::Missing)));
}
