//! Which lists are read as their ranges with no set between. The contract says only that a yes is right.

use cpu_list::read_rising;
use cpu_set::CPU_LIMIT;
use std::alloc::{AllocError, Global};
use std::test::Fail;

/// Whether the text is read as just these ranges.
fn is_read_as(alloc: Global, text: &str, ranges: &[(u16, u16)]) -> Result<bool, AllocError> {
    let mut read = Vec::new(alloc);
    read.push((9, 9))?;
    let is = read_rising(text.as_bytes(), CPU_LIMIT, &mut read)?;
    Ok(is && read.as_slice() == ranges)
}

/// Whether the text is left to the other reader.
fn is_left(alloc: Global, text: &str) -> Result<bool, AllocError> {
    let mut read = Vec::new(alloc);
    let is = read_rising(text.as_bytes(), CPU_LIMIT, &mut read)?;
    Ok(!is)
}

#[test]
fn plain_lists_that_rise_are_read_as_ranges(rt: HostRuntime) -> Result<(), Fail> {
    let alloc = rt.alloc();
    assert_eq!(rt; is_read_as(alloc, "0", &[(0, 0)])?, true);
    assert_eq!(rt; is_read_as(alloc, "0-2,7", &[(0, 2), (7, 7)])?, true);
    assert_eq!(rt;
        is_read_as(alloc, "1,3,5-4095", &[(1, 1), (3, 3), (5, 4095)])?,
        true
    );
    Ok(())
}

#[test]
fn lists_that_fall_or_touch_are_left_to_the_other_reader(rt: HostRuntime) -> Result<(), Fail> {
    let alloc = rt.alloc();
    assert_eq!(rt; is_left(alloc, "7,0-2")?, true);
    assert_eq!(rt; is_left(alloc, "0-2,3")?, true);
    assert_eq!(rt; is_left(alloc, "0-2,2")?, true);
    assert_eq!(rt; is_left(alloc, "0-7:2/4")?, true);
    assert_eq!(rt; is_left(alloc, "0,4096")?, true);
    assert_eq!(rt; is_left(alloc, "2-1")?, true);
    assert_eq!(rt; is_left(alloc, "0, 1")?, true);
    Ok(())
}
