// The sequence by which restarts are spaced, by its first numbers.
use search_guides::luby;
use std::test::Fail;

#[test]
fn first_numbers(rt: HostRuntime) -> Result<(), Fail> {
    let mut numbers = Vec::new(rt.alloc());
    for i in 1..21 {
        numbers.push(luby(i))?;
    }
    let known = [1, 1, 2, 1, 1, 2, 4, 1, 1, 2, 1, 1, 2, 4, 8, 1, 1, 2, 1, 1];
    assert_eq!(rt; numbers.as_slice(), known.as_slice());
    Ok(())
}

#[test]
fn greatest_places(rt: HostRuntime) -> Result<(), Fail> {
    assert_eq!(rt; luby((1 << 40) - 1), 1 << 39);
    assert_eq!(rt; luby(1 << 40), 1);
    Ok(())
}
