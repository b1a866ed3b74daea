ghost use Rattle.std.specs.Prelude.{◌≡◌, length};

use plex_section::{Field, Section};
use std::test::Fail;

#[test]
fn offsets_stand_after_the_words_of_earlier_points(rt: HostRuntime) -> Result<(), Fail> {
    let section = Section::layout(rt.alloc(), &[1, 0, 2])?;
    assert_eq!(rt; section.offset(0), 0);
    assert_eq!(rt; section.offset(1), 1);
    assert_eq!(rt; section.offset(2), 1);
    assert_eq!(rt; section.dof(0), 1);
    assert_eq!(rt; section.dof(1), 0);
    assert_eq!(rt; section.dof(2), 2);
    assert_eq!(rt; section.size(), 3);
    Ok(())
}

#[test]
fn points_have_the_words_of_their_layout(rt: HostRuntime) -> Result<(), Fail> {
    let section = Section::layout(rt.alloc(), &[1, 0, 2])?;
    let field = Field::new(section, vec![in rt.alloc(); 7u64, 8, 9]?);
    assert_eq!(rt; field.at(0), [7u64].as_slice());
    assert_eq!(rt; field.at(1), [].as_slice());
    assert_eq!(rt; field.at(2), [8u64, 9].as_slice());
    Ok(())
}
