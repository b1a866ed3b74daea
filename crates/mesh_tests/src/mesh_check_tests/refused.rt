use crate::mesh_check_tests::files::{FIVE, file, mesh_of};
use mesh_check::MeshFault;
use std::test::Fail;

#[test]
fn contents_without_a_mesh(rt: HostRuntime) -> Result<(), Fail> {
    for (elements, fault) in [
        ("0\n", MeshFault::NoCells { greatest: 0 }),
        ("1\n7 15 0 1\n", MeshFault::NoCells { greatest: 0 }),
        (
            "2\n7 15 0 1\n8 1 0 1 2\n",
            MeshFault::NoCells { greatest: 1 },
        ),
        (
            "3\n7 3 0 1 2 3 4\n8 3 0 2 3 4 1\n9 3 0 1 3 2 4\n",
            MeshFault::CellTwist {
                element: 9,
                earlier: 7,
            },
        ),
    ] {
        let text = file(rt.alloc(), FIVE, elements)?;
        assert_eq!(rt; mesh_of(rt.alloc(), text.as_str())?.err(), Some(fault));
    }
    Ok(())
}
