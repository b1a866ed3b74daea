use plex_base::{Dim, NoMemory, PointKey};
use std::alloc::{AllocError, AllocFailed};

#[test]
fn keys_and_dimensions_are_ordered(rt: HostRuntime) {
    let cell = PointKey::of_cell(1);
    let face = PointKey::of_face(1, 5);
    let edge = PointKey::of_edge(1, 0);
    assert_eq!(rt; cell, PointKey(64));
    assert_eq!(rt; face, PointKey(70));
    assert_eq!(rt; edge, PointKey(72));
    assert!(rt; cell < face && face < edge && edge < PointKey::of_cell(2));
    assert_eq!(rt; (edge.cell(), edge.place()), (1, 8));
    assert!(rt; Dim::Zero < Dim::Three);
    assert_eq!(rt; Dim::Three.number(), 3);
    assert_eq!(rt; Dim::of(1), Some(Dim::One));
    assert_eq!(rt; Dim::of(4), None);
}

#[test]
fn both_errors_of_memory_convert(rt: HostRuntime) {
    assert_eq!(rt; NoMemory::from(AllocError), NoMemory);
    assert_eq!(rt; NoMemory::from(AllocFailed { value: 7u32 }), NoMemory);
}
