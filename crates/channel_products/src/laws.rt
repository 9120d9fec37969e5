//! What holds of every balance, and of every flush.

ghost use Rattle.sumcheck.specs.Machine.{Lawful};
ghost use Rattle.multiset_laws.specs.Laws.{CollapsesSeldomAgree, ProductsSeldomAgree};
ghost use Rattle.channel_products.specs.Balancing.{balancing};
ghost use Rattle.channel_products.specs.Descent.{descent, ProductsAreMeant};
ghost use Rattle.channel_products.specs.First.{FirstStatesAreMeant};

/// The reduction keeps truth; the first state says that each channel is in balance; and of a channel
/// that isn't, few alphas hide it, and few gammas. Does nothing.
pub fn balances_keep_truth()
    ensures lawful { Lawful balancing }
    ensures first { FirstStatesAreMeant }
    ensures alpha { CollapsesSeldomAgree }
    ensures gamma { ProductsSeldomAgree }
{}

/// The reduction keeps truth, and what is stated says that the product of a flush's leaves is the
/// value. Does nothing.
pub fn products_keep_truth()
    ensures lawful { Lawful descent }
    ensures first { ProductsAreMeant }
{}
