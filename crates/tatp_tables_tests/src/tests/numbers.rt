//! Directories of no subscriber, of three, and of rows with one number.
ghost use Rattle.std.specs.Prelude.{◌≡◌, ℕ, ◌==◌, [], ◌∷◌};
ghost use Rattle.tatp_tables.specs.Keys.{has_key};
ghost use Rattle.tatp_numbers.specs.Lists.{IdsRunToLength};

use std::test::Fail;
use tatp_numbers::{BuildError, Directory, Key};

/// A Subscriber row with zeros past its number.
fn subscriber(s_id: u64, number: u64) -> [u64; 34]
    ensures { (s : ℕ) → has_key (s ∷ []) result ≡ (s_id == s) }
{
    let mut row = [0; 34];
    row[0] = s_id;
    row[1] = number;
    row
}

/// Rows of the subscribers 2, 1 and 3 with these numbers.
fn three_subscribers(numbers: [u64; 3]) -> [[u64; 34]; 3]
    ensures { IdsRunToLength result }
{
    let [second, first, third] = numbers;
    [
        subscriber(2, second),
        subscriber(1, first),
        subscriber(3, third),
    ]
}

#[test]
fn no_key_names_a_subscriber_of_none(rt: HostRuntime) -> Result<(), Fail> {
    let directory = Directory::build(rt.alloc(), &[])?;
    for value in [0, 1, 2, u64::MAX] {
        assert_eq!(rt; directory.home_of(Key::Id(value)), None);
        assert_eq!(rt; directory.home_of(Key::Number(value)), None);
    }
    Ok(())
}

#[test]
fn finds_subscribers_by_both_keys(rt: HostRuntime) -> Result<(), Fail> {
    let rows = three_subscribers([1, 999999999999999, 70]);
    let directory = Directory::build(rt.alloc(), &rows)?;
    for s_id in [1, 2, 3] {
        assert_eq!(rt; directory.home_of(Key::Id(s_id)), Some(s_id));
    }
    for s_id in [0, 4, 70, u64::MAX] {
        assert_eq!(rt; directory.home_of(Key::Id(s_id)), None);
    }
    assert_eq!(rt; directory.home_of(Key::Number(1)), Some(2));
    assert_eq!(rt; directory.home_of(Key::Number(999999999999999)), Some(1));
    assert_eq!(rt; directory.home_of(Key::Number(70)), Some(3));
    for number in [0, 2, 3, 71] {
        assert_eq!(rt; directory.home_of(Key::Number(number)), None);
    }
    Ok(())
}

#[test]
fn a_number_stands_once(rt: HostRuntime) {
    for numbers in [[5, 5, 6], [5, 6, 5], [6, 5, 5]] {
        let built = Directory::build(rt.alloc(), &three_subscribers(numbers));
        assert!(rt; matches!(built, Err(BuildError::NumberTwice)));
    }
}

#[test]
fn texts_of_errors(rt: HostRuntime) -> Result<(), Fail> {
    assert_eq!(rt;
        format!(in rt.alloc(); "{}", BuildError::NumberTwice)?.as_str(),
        "25 NumberTwice"
    );
    assert_eq!(rt;
        format!(in rt.alloc(); "{}", BuildError::NoMemory)?.as_str(),
        "46 NoMemory"
    );
    assert_eq!(rt; BuildError::NumberTwice as u64, 25);
    assert_eq!(rt; BuildError::NoMemory as u64, 46);
    Ok(())
}
