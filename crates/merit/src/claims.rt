//! What is proved of every merit order and price. The call does nothing.
ghost use Rattle.merit.specs.Claims as claimed;

/// The price is the least that reaches the demand, the marginal rung is the first that does, the
/// merit order has each pair once, and a closed or settled sheet has a price.
pub fn merit_holds()
    ensures price { claimed.LeastPrice }
    ensures reached { claimed.ReachedExactly }
    ensures first { claimed.MarginalFirst }
    ensures margin { claimed.MarginalPrice }
    ensures priced { claimed.PricedExactly }
    ensures order { claimed.MeritOrder }
    ensures offers { claimed.EachPairOnce }
    ensures past { claimed.PastClose }
{}
