// The record of one line.
use mc_base::List;

/// Which objects of a world failed in a line, by the numbers of their replicas.
#[derive(Debug, Drop)]
pub struct LineEntry {
    /// The replicas whose keeper's count of faults rose.
    pub keepers: List<u64>,
    /// Those of which a desk's count rose.
    pub desks: List<u64>,
    /// Those whose count of the faults that no fuse made rose.
    pub own: List<u64>,
}
