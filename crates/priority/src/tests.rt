//! The worked cases of the kinds and of `highest`.
use crate::Priority;
use crate::house::House;
use crate::number::Number;
use crate::places::highest;
use refusal::Refusal;
use std::test::Fail;

fn numbers(values: [u16; 4]) -> Result<[Number; 4], Refusal> {
    let [a, b, c, d] = values;
    Ok([
        Number::new(a)?,
        Number::new(b)?,
        Number::new(c)?,
        Number::new(d)?,
    ])
}

#[test]
fn house_longer_wait_and_lower_class_are_higher(rt: HostRuntime) -> Result<(), Fail> {
    let eleven = House::new(1, 11)?;
    let ten = House::new(1, 10)?;
    let first = House::new(0, 0)?;
    assert!(rt; eleven.at_least(&ten) && !ten.at_least(&eleven));
    assert!(rt; first.at_least(&eleven) && !eleven.at_least(&first));
    assert!(rt; first.at_least(&ten) && !ten.at_least(&first));
    Ok(())
}

#[test]
fn ranges_end_where_they_should(rt: HostRuntime) {
    assert!(rt; Number::new(0).is_err() && Number::new(1).is_ok());
    assert!(rt; Number::new(255).is_ok() && Number::new(256).is_err());
    assert!(rt; House::new(3, 520).is_ok() && House::new(4, 0).is_err());
    assert!(rt; House::new(0, 521).is_err());
}

#[test]
fn highest_takes_the_first_of_level_ones(rt: HostRuntime) -> Result<(), Fail> {
    let table = numbers([3, 1, 2, 1])?;
    assert_eq!(rt; highest(&table, &[1, 1, 1, 1]), Some(2));
    assert_eq!(rt; highest(&table, &[9, 0, 0, 7]), Some(4));
    assert_eq!(rt; highest(&table, &[0, 0, 0, 0]), None);
    Ok(())
}

#[test]
fn marks_may_be_longer_or_shorter(rt: HostRuntime) -> Result<(), Fail> {
    let table = numbers([3, 1, 2, 1])?;
    assert_eq!(rt; highest(&table, &[1]), Some(1));
    assert_eq!(rt; highest(&table, &[0, 0, 0, 0, 1]), None);
    assert_eq!(rt; highest(&table, &[]), None);
    Ok(())
}
