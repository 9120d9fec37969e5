/// A call of a `Shelf` or a `Sink` failed. The count of faults of its kind has risen.
#[derive(Clone, Copy, Debug, PartialEq, Eq)]
pub struct Failed;
