// Tests whether two tokens have the same tags.

ghost use Rattle.std.specs.Prelude.{◌≡◌, ◌&&◌, nat_eq};
ghost use Rattle.p3l_firing.specs.Lists.{has_first};
ghost use Rattle.p3l_firing.specs.Token.{first_tag, same_tags};

use p3l_firing::{Tags, Token};

// Returns true exactly if there is a tag. A newest tag that is 0 shows by being counted one more.
fn has_tag(tags: &Tags) -> bool
    ensures { result ≡ has_first tags.now }
{
    if tags.newest() > 0 {
        return true;
    }
    let mut counted = tags.copy();
    counted.count_newest();
    counted.newest() > 0
}

// Returns true exactly if there is a tag in `others`, and the newest ones are the same.
fn have_same_newest(ones: &Tags, others: &Tags) -> bool
    ensures { result
        ≡ (has_first others.now && nat_eq (first_tag ones.now) (first_tag others.now)) }
{
    has_tag(others) & (ones.newest() == others.newest())
}

/// Returns true exactly if two tokens have the same tags.
pub fn have_same_tags(one: &Token, other: &Token) -> bool
    ensures { result ≡ same_tags one.now.tags other.now.tags }
{
    let mut ones = one.tags.copy();
    let mut others = other.tags.copy();
    while has_tag(&ones) {
        if !have_same_newest(&ones, &others) {
            return false;
        }
        ones.drop_newest();
        others.drop_newest();
    }
    !has_tag(&others)
}
