//! What holds of every curve.
ghost use Rattle.offers.specs.Claims.{InForm, SameOffer, OneCurve, Splitting, Emptying, Reordering, OwnCurve, SamePairs, EqualPairs, EqualSubmissions};

/// A call that does nothing, and whose contract is what is proved of every curve: it is in form and
/// offers at every price what its pairs offer; equal curves are equal offers.
pub fn curves_hold()
    ensures form { InForm }
    ensures offer { SameOffer }
    ensures one { OneCurve }
    ensures split { Splitting }
    ensures empty { Emptying }
    ensures order { Reordering }
    ensures own { OwnCurve }
    ensures same { SamePairs }
    ensures equal_pairs { EqualPairs }
    ensures equal_submissions { EqualSubmissions }
{}
