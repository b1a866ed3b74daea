use poly_tables::{
    Poly, dim, edge_corner, edge_count, facet_corner, facet_count, facet_poly, vertex_count,
};

/// Against a cube and a tetrahedron that were drawn: the facet of the cube with the corners 1
/// and 2 of the bottom, and the edge that closes the base of the tetrahedron.
#[test]
fn agrees_with_drawings(rt: HostRuntime) {
    assert_eq!(rt; facet_corner(Poly::Hex, 3, 0), 1);
    assert_eq!(rt; facet_corner(Poly::Hex, 3, 1), 2);
    assert_eq!(rt; facet_corner(Poly::Hex, 3, 2), 6);
    assert_eq!(rt; facet_corner(Poly::Hex, 3, 3), 5);
    assert_eq!(rt; edge_corner(Poly::Tet, 2, 0), 2);
    assert_eq!(rt; edge_corner(Poly::Tet, 2, 1), 0);
    assert_eq!(rt; facet_poly(Poly::Hex, 3), Poly::Quad);
    assert_eq!(rt; facet_poly(Poly::Tet, 0), Poly::Triangle);
    assert_eq!(rt;
        [dim(Poly::Vertex), dim(Poly::Quad), dim(Poly::Hex)],
        [0, 2, 3]
    );
    assert_eq!(rt; [vertex_count(Poly::Tet), vertex_count(Poly::Hex)], [4, 8]);
    assert_eq!(rt; [facet_count(Poly::Tet), facet_count(Poly::Hex)], [4, 6]);
    assert_eq!(rt; [edge_count(Poly::Tet), edge_count(Poly::Hex)], [6, 12]);
}
