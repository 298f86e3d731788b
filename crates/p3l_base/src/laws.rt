// Laws of cuts, each on a call that does nothing.

ghost use Rattle.std.specs.Prelude.{◌≡◌, ℤ, List, length};
ghost use Rattle.std.specs.List.{All};
ghost use Rattle.p3l_base.specs.declared.cut.Cut.{Cut};
ghost use Rattle.p3l_base.specs.Cut.{element_count, element_size, HasLawfulOuts, AreOnlyJoined};

/// The joined words of a cut's results are the one token whose cuts at the out slices are the
/// results.
pub fn joins_once()
    ensures { (cut : Cut) (results : List (List ℤ)) → HasLawfulOuts cut
        → length results ≡ element_count cut →
        All (λ words. length words ≡ element_size cut.outs) results → AreOnlyJoined cut results }
{}
