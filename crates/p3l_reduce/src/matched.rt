// Tests whether two lists of tokens match: equally many, with equal tags.

ghost use Rattle.std.specs.Prelude.{◌≡◌};
ghost use Rattle.p3l_reduce.specs.JoinTree.{matched};

use p3l_firing::Token;
use p3l_template::tags::have_same_tags;

/// Returns true exactly if two lists have equally many tokens, with the same tags.
pub(crate) fn are_matched(left: &[Token], right: &[Token]) -> bool
    ensures { result ≡ matched left.now right.now }
{
    if left.len() != right.len() {
        return false;
    }
    for k in 0..left.len() {
        if !have_same_tags(&left[k], &right[k]) {
            return false;
        }
    }
    true
}
