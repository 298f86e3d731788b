// Tokens without their outcomes: whether a part is orderly depends on tags alone.

ghost use Rattle.std.specs.Prelude.{◌≡◌, ◌++◌, map};
ghost use Rattle.std.specs.List.{All};
ghost use Rattle.p3l_base.specs.Memory.{IfGiven};
ghost use Rattle.p3l_firing.specs.Shot.{HasFewTags, token_of};
ghost use Rattle.p3l_firing.specs.Token.{untagged};
ghost use Rattle.p3l_template.specs.Finding.{bare, bares};

use p3l_base::{List, NoMemory, Outcome, Words};
use p3l_firing::{SavedToken, Token};
use std::alloc::Global;

/// The token without its outcome.
pub fn bare(alloc: Global, token: &Token) -> Token
    ensures { result ≡ bare token.now }
{
    token.copy_with(Outcome::Value(Words::new(alloc)))
}

/// The token that was saved, without its outcome.
pub fn bare_saved(alloc: Global, saved: &SavedToken) -> Token
    requires { HasFewTags saved.now }
    ensures { result ≡ bare (token_of saved.now) }
{
    saved.restore_with(Outcome::Value(Words::new(alloc)))
}

/// Puts tokens after others, without their outcomes.
pub fn add_bare(alloc: Global, to: &mut List<Token>, tokens: &[Token]) -> Result<(), NoMemory>
    ensures { IfGiven result (λ _. to.new ≡ to.old ++ bares tokens.now) }
{
    for token in tokens {
        to.push(bare(alloc, token))?;
    }
    Ok(())
}

/// Puts tokens that were saved after others, without their outcomes.
pub fn add_saved(alloc: Global, to: &mut List<Token>, saved: &[SavedToken]) -> Result<(), NoMemory>
    requires { All HasFewTags saved.now }
    ensures { IfGiven result (λ _. to.new ≡ to.old ++ bares (map token_of saved.now)) }
{
    for token in saved {
        to.push(bare_saved(alloc, token))?;
    }
    Ok(())
}

/// Puts tokens after others, without their outcomes and without their newest tags.
pub fn add_untagged(alloc: Global, to: &mut List<Token>, tokens: &[Token]) -> Result<(), NoMemory>
    ensures { IfGiven result (λ _. to.new ≡ to.old ++ map untagged (bares tokens.now)) }
{
    for token in tokens {
        to.push(bare(alloc, token).untagged())?;
    }
    Ok(())
}
