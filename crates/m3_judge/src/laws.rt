//! The law of lists of tuples in order.

ghost use Rattle.m3_judge.specs.Order.{OrdersTellMultisets};

/// Of two lists in order, the lesser of the first two members that differ is the least member that
/// stands in them unequally often, and lists without such members are equal as multisets.
pub fn orders_tell_multisets()
    ensures { OrdersTellMultisets }
{}
