/// An arc, which can carry a flow of up to its capacity.
#[derive(Clone, Copy, Debug, PartialEq, Eq, Drop)]
pub struct Arc {
    pub from: i64,
    pub to: i64,
    pub cap: i64,
}

/// A network: its nodes are numbered from 1, and its arcs by their places in the list, from 1.
#[derive(Debug, Drop)]
pub struct Network {
    pub nodes: i64,
    pub source: i64,
    pub sink: i64,
    pub arcs: Vec<Arc>,
}
