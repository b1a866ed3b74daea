//! The corners listed under each orientation, as tables.

/// The triangle under 0, 1, 2.
pub const TRIANGLE_ROTATIONS: [[u8; 3]; 3] = [[0, 1, 2], [1, 2, 0], [2, 0, 1]];

/// The triangle under -1, -2, -3.
pub const TRIANGLE_REFLECTIONS: [[u8; 3]; 3] = [[0, 2, 1], [1, 0, 2], [2, 1, 0]];

/// The quadrilateral under 0, 1, 2, 3.
pub const QUAD_ROTATIONS: [[u8; 4]; 4] = [[0, 1, 2, 3], [1, 2, 3, 0], [2, 3, 0, 1], [3, 0, 1, 2]];

/// The quadrilateral under -1, -2, -3, -4.
pub const QUAD_REFLECTIONS: [[u8; 4]; 4] = [[0, 3, 2, 1], [1, 0, 3, 2], [2, 1, 0, 3], [3, 2, 1, 0]];

/// The tetrahedron under 0, 1, 2 and so on: the even permutations, in lexicographic order.
pub const TET_ROTATIONS: [[u8; 4]; 12] = [
    [0, 1, 2, 3],
    [0, 2, 3, 1],
    [0, 3, 1, 2],
    [1, 0, 3, 2],
    [1, 2, 0, 3],
    [1, 3, 2, 0],
    [2, 0, 1, 3],
    [2, 1, 3, 0],
    [2, 3, 0, 1],
    [3, 0, 2, 1],
    [3, 1, 0, 2],
    [3, 2, 1, 0],
];

/// The tetrahedron under -1, -2, -3 and so on: the odd permutations, in lexicographic order.
pub const TET_REFLECTIONS: [[u8; 4]; 12] = [
    [0, 1, 3, 2],
    [0, 2, 1, 3],
    [0, 3, 2, 1],
    [1, 0, 2, 3],
    [1, 2, 3, 0],
    [1, 3, 0, 2],
    [2, 0, 3, 1],
    [2, 1, 0, 3],
    [2, 3, 1, 0],
    [3, 0, 1, 2],
    [3, 1, 2, 0],
    [3, 2, 0, 1],
];

/// The hexahedron under 0, 1, 2 and so on.
pub const HEX_ROTATIONS: [[u8; 8]; 24] = [
    [0, 1, 2, 3, 4, 5, 6, 7],
    [0, 3, 7, 4, 1, 2, 6, 5],
    [0, 4, 5, 1, 3, 7, 6, 2],
    [1, 0, 4, 5, 2, 3, 7, 6],
    [1, 2, 3, 0, 5, 6, 7, 4],
    [1, 5, 6, 2, 0, 4, 7, 3],
    [2, 1, 5, 6, 3, 0, 4, 7],
    [2, 3, 0, 1, 6, 7, 4, 5],
    [2, 6, 7, 3, 1, 5, 4, 0],
    [3, 0, 1, 2, 7, 4, 5, 6],
    [3, 2, 6, 7, 0, 1, 5, 4],
    [3, 7, 4, 0, 2, 6, 5, 1],
    [4, 0, 3, 7, 5, 1, 2, 6],
    [4, 5, 1, 0, 7, 6, 2, 3],
    [4, 7, 6, 5, 0, 3, 2, 1],
    [5, 1, 0, 4, 6, 2, 3, 7],
    [5, 4, 7, 6, 1, 0, 3, 2],
    [5, 6, 2, 1, 4, 7, 3, 0],
    [6, 2, 1, 5, 7, 3, 0, 4],
    [6, 5, 4, 7, 2, 1, 0, 3],
    [6, 7, 3, 2, 5, 4, 0, 1],
    [7, 3, 2, 6, 4, 0, 1, 5],
    [7, 4, 0, 3, 6, 5, 1, 2],
    [7, 6, 5, 4, 3, 2, 1, 0],
];

/// The hexahedron under -1, -2, -3 and so on.
pub const HEX_REFLECTIONS: [[u8; 8]; 24] = [
    [0, 1, 5, 4, 3, 2, 6, 7],
    [0, 3, 2, 1, 4, 7, 6, 5],
    [0, 4, 7, 3, 1, 5, 6, 2],
    [1, 0, 3, 2, 5, 4, 7, 6],
    [1, 2, 6, 5, 0, 3, 7, 4],
    [1, 5, 4, 0, 2, 6, 7, 3],
    [2, 1, 0, 3, 6, 5, 4, 7],
    [2, 3, 7, 6, 1, 0, 4, 5],
    [2, 6, 5, 1, 3, 7, 4, 0],
    [3, 0, 4, 7, 2, 1, 5, 6],
    [3, 2, 1, 0, 7, 6, 5, 4],
    [3, 7, 6, 2, 0, 4, 5, 1],
    [4, 0, 1, 5, 7, 3, 2, 6],
    [4, 5, 6, 7, 0, 1, 2, 3],
    [4, 7, 3, 0, 5, 6, 2, 1],
    [5, 1, 2, 6, 4, 0, 3, 7],
    [5, 4, 0, 1, 6, 7, 3, 2],
    [5, 6, 7, 4, 1, 2, 3, 0],
    [6, 2, 3, 7, 5, 1, 0, 4],
    [6, 5, 1, 2, 7, 4, 0, 3],
    [6, 7, 4, 5, 2, 3, 0, 1],
    [7, 3, 0, 4, 6, 2, 1, 5],
    [7, 4, 5, 6, 3, 0, 1, 2],
    [7, 6, 2, 3, 4, 5, 1, 0],
];

/// The place of a tetrahedron's list among those of its sense, by its first and second corner.
pub const TET_NUMBERS: [[u8; 4]; 4] = [[0, 0, 1, 2], [3, 0, 4, 5], [6, 7, 0, 8], [9, 10, 11, 0]];

/// The place of a hexahedron's list among those of its sense, by its first and second corner.
pub const HEX_NUMBERS: [[u8; 8]; 8] = [
    [0, 0, 0, 1, 2, 0, 0, 0],
    [3, 0, 4, 0, 0, 5, 0, 0],
    [0, 6, 0, 7, 0, 0, 8, 0],
    [9, 0, 10, 0, 0, 0, 0, 11],
    [12, 0, 0, 0, 0, 13, 0, 14],
    [0, 15, 0, 0, 16, 0, 17, 0],
    [0, 0, 18, 0, 0, 19, 0, 20],
    [0, 0, 0, 21, 22, 0, 23, 0],
];

/// The rotation of the tetrahedron that undoes each.
pub const TET_ROTATION_INVERSES: [u8; 12] = [0, 2, 1, 3, 6, 9, 4, 10, 8, 5, 7, 11];

/// The reflection of the tetrahedron that undoes each.
pub const TET_REFLECTION_INVERSES: [u8; 12] = [0, 1, 2, 3, 9, 6, 5, 7, 11, 4, 10, 8];

/// The rotation of the hexahedron that undoes each.
pub const HEX_ROTATION_INVERSES: [u8; 24] = [
    0, 2, 1, 3, 9, 12, 15, 7, 22, 4, 13, 11, 5, 10, 14, 6, 16, 21, 18, 19, 20, 17, 8, 23,
];

/// The reflection of the hexahedron that undoes each.
pub const HEX_REFLECTION_INVERSES: [u8; 24] = [
    0, 1, 2, 3, 12, 9, 6, 16, 21, 5, 10, 14, 4, 13, 11, 15, 7, 22, 19, 18, 20, 8, 17, 23,
];

/// The facet of the tetrahedron around which its sense leads from one corner to another.
pub const TET_FACETS_ALONG: [[u8; 4]; 4] = [[0, 1, 0, 3], [0, 0, 2, 1], [3, 0, 0, 2], [1, 2, 3, 0]];

/// The place of the first of these corners in that facet.
pub const TET_PLACES_ALONG: [[u8; 4]; 4] = [[0, 0, 0, 0], [2, 0, 0, 1], [2, 1, 0, 1], [2, 2, 1, 0]];

/// The facet of the hexahedron around which its sense leads from one corner to another.
pub const HEX_FACETS_ALONG: [[u8; 8]; 8] = [
    [0, 2, 0, 0, 5, 0, 0, 0],
    [0, 0, 3, 0, 0, 2, 0, 0],
    [0, 0, 0, 4, 0, 0, 3, 0],
    [5, 0, 0, 0, 0, 0, 0, 4],
    [2, 0, 0, 0, 0, 1, 0, 5],
    [0, 3, 0, 0, 2, 0, 1, 0],
    [0, 0, 4, 0, 0, 3, 0, 1],
    [0, 0, 0, 5, 1, 0, 4, 0],
];

/// The place of the first of these corners in that facet.
pub const HEX_PLACES_ALONG: [[u8; 8]; 8] = [
    [0, 0, 0, 0, 1, 0, 0, 0],
    [3, 0, 0, 0, 0, 1, 0, 0],
    [0, 2, 0, 0, 0, 0, 1, 0],
    [0, 0, 1, 0, 0, 0, 0, 1],
    [3, 0, 0, 0, 0, 0, 0, 2],
    [0, 3, 0, 0, 2, 0, 1, 0],
    [0, 0, 3, 0, 0, 2, 0, 2],
    [0, 0, 0, 3, 3, 0, 2, 0],
];
