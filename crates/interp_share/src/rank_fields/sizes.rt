/// How many cells, vertices, faces and edges the own chart of a rank has.
#[derive(Clone, Copy, Debug)]
pub struct ChartSizes {
    pub cells: u32,
    pub vertices: u32,
    pub faces: u32,
    pub edges: u32,
}
