use plex_base::NoMemory;
use plex_label::Label;
use std::alloc::Global;
use std::process::Abort;
use std::test::Fail;

/// The values 7 at the points 2 and 4, and -1 at 4, added in another order and one of them twice.
fn three_pairs(alloc: Global) -> Result<(Label, [bool; 4]), NoMemory> {
    let mut label = Label::new(alloc);
    let first = label.add(4, 7)?;
    let second = label.add(2, 7)?;
    let third = label.add(4, -1)?;
    let again = label.add(4, 7)?;
    Ok((label, [first, second, third, again]))
}

fn check_points(rt: &impl Abort, label: &Label) -> Result<(), Fail> {
    assert!(rt; label.has(4, -1));
    assert!(rt; !label.has(2, -1));
    assert_eq!(rt; label.points(7)?.as_slice(), [2, 4].as_slice());
    assert_eq!(rt; label.points(8)?.as_slice(), [].as_slice());
    Ok(())
}

fn check_values(rt: &impl Abort, label: &Label) -> Result<(), Fail> {
    assert_eq!(rt; label.values_at(4)?.as_slice(), [-1, 7].as_slice());
    assert_eq!(rt; label.values_at(2)?.as_slice(), [7].as_slice());
    assert_eq!(rt; label.values_at(3)?.as_slice(), [].as_slice());
    Ok(())
}

#[test]
fn has_the_pairs_that_were_added(rt: HostRuntime) -> Result<(), Fail> {
    let (label, added) = three_pairs(rt.alloc())?;
    assert_eq!(rt; added, [true, true, true, false]);
    check_points(&rt, &label)?;
    check_values(&rt, &label)
}

#[test]
fn begins_without_pairs(rt: HostRuntime) -> Result<(), Fail> {
    let label = Label::new(rt.alloc());
    assert!(rt; label.values_at(4)?.is_empty());
    Ok(())
}
